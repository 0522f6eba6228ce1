//! A node's refusals.
ghost use Rattle.std.specs.Prelude.{◌≡◌};
ghost use Rattle.cops_node.specs.Refusals.{refusal_of};

use cops_held::HeldFault;
use cops_types::Refusal;

/// The node's refusal for a fault of the held table.
pub(crate) fn refusal(fault: HeldFault) -> Refusal
    ensures { result ≡ refusal_of fault }
{
    match fault {
        HeldFault::NotHeld => Refusal::NotHeld,
        HeldFault::NoSuchDep => Refusal::NoSuchDep,
        HeldFault::DepsOpen => Refusal::DepsOpen,
    }
}
