//! Why a cluster could not be opened, and why a step did not happen.
ghost use Rattle.std.specs.Prelude.{◌≡◌};
ghost use Rattle.cops_cluster.specs.declared.fault.Stop.TheVariants.{Refused};
ghost use Rattle.cops_types.specs.declared.refusal.Refusal.TheVariants.{Memory as OutOfMemory};

use cops_types::{Memory, Refusal};
use thiserror::Error;

/// Why a cluster could not be opened. The numbers are the faults' codes.
#[derive(Clone, Copy, Debug, PartialEq, Eq, Error)]
pub enum OpenFault {
    /// 0: out of memory.
    #[error("out of memory")]
    Memory,
    /// 1: a client's data centre does not exist, or there are more than 65,535 clients.
    #[error("a client's data centre is not there, or there are more than 65,535 clients")]
    BadClient,
}

/// Why a step did not happen.
#[derive(Clone, Copy, Debug, PartialEq, Eq)]
pub(crate) enum Stop {
    /// It was refused before a node answered.
    Refused(Refusal),
    /// The gate stopped it under the node's lock.
    GateHeld,
}

impl From<Memory> for Stop {
    ghost from_gives = { λ _ e. e ≡ Refused OutOfMemory };

    fn from(_e: Memory) -> Stop {
        Stop::Refused(Refusal::Memory)
    }
}
