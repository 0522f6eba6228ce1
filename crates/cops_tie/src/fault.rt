//! Why books and a trace are not tied, or are not a run of scripts.
ghost use Rattle.std.specs.Prelude.{◌≡◌};
ghost use Rattle.cops_tie.specs.declared.fault.TieFault.TheVariants.{Memory as OutOfMemory};

use cops_types::Memory;
use std::alloc::{AllocError, AllocFailed};
use thiserror::Error;

/// Why the books and a trace are not tied, or are not a run of scripts. The numbers are the faults' codes.
#[derive(Clone, Copy, Debug, PartialEq, Eq, Error)]
pub enum TieFault {
    /// 0: out of memory.
    #[error("out of memory")]
    Memory,
    /// 1: the books are not a run of the world in which the clients saw what the trace says. `ticket` is the least
    /// one whose entry does not continue the run. Where only the sessions differ from the trace's, or the run is not
    /// one of the scripts (a client's outcome does not fit its session, or a data centre has not settled a put), it is
    /// one more than the greatest ticket: 0 where there is no entry, and the greatest `u64` where that is a ticket.
    #[error("untied at ticket {ticket}")]
    Untied { ticket: u64 },
}

impl From<Memory> for TieFault {
    ghost from_gives = { λ _ e. e ≡ OutOfMemory };

    fn from(_e: Memory) -> TieFault {
        TieFault::Memory
    }
}

impl From<AllocError> for TieFault {
    ghost from_gives = { λ _ e. e ≡ OutOfMemory };

    fn from(_e: AllocError) -> TieFault {
        TieFault::Memory
    }
}

impl<T: Drop> From<AllocFailed<T>> for TieFault {
    ghost from_gives = { λ _ e. e ≡ OutOfMemory };

    fn from(_e: AllocFailed<T>) -> TieFault {
        TieFault::Memory
    }
}
