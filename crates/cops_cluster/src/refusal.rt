//! How a fault of the recorder is reported.
ghost use Rattle.std.specs.Prelude.{◌≡◌, ◌⊎◌, false};
ghost use Rattle.cops_types.specs.declared.refusal.Refusal.TheVariants.{Memory, SessionFull, UnknownClient};
ghost use Rattle.cops_cluster.specs.Shares.{is_refusal_of_node};

use cops_record::RecordFault;
use cops_types::Refusal;

/// The refusal for a fault of the recorder. It is never one of a node's own refusals.
pub(crate) fn refusal(fault: RecordFault) -> Refusal
    ensures not_of_node { is_refusal_of_node result ≡ false }
    ensures unknown { result ≡ UnknownClient → fault ≡ RecordFault.UnknownClient }
    ensures refused { (result ≡ UnknownClient) ⊎ (result ≡ Memory) ⊎ (result ≡ SessionFull) }
{
    match fault {
        RecordFault::Memory => Refusal::Memory,
        RecordFault::UnknownClient => Refusal::UnknownClient,
        RecordFault::SessionFull => Refusal::SessionFull,
    }
}
