//! What a turn did, and why a sequence of turns failed.
ghost use Rattle.std.specs.Prelude.{◌≡◌};
ghost use Rattle.cops_replication.specs.declared.turn.TurnFault.TheVariants.{Memory as OutOfMemory, Held as StoppedByGate};

use cops_cluster::RECEIVER;
use cops_types::{GateHeld, Memory};
use thiserror::Error;

/// What one turn did.
#[derive(Clone, Copy, Debug, PartialEq, Eq)]
pub enum Turn {
    /// How many things the turn did, at least one: for a sender the frames that it sent, for a receiver the frames that
    /// it delivered, and the marks and settlements that it made. Numbers above 4,294,967,295 are reported as
    /// 4,294,967,295.
    Did(u32),
    /// The turn did nothing.
    Idle,
}

/// Why a turn, or a sequence of turns, failed. The numbers are the faults' codes.
#[derive(Clone, Copy, Debug, PartialEq, Eq, Error)]
pub enum TurnFault {
    /// 0: out of memory.
    #[error("out of memory")]
    Memory,
    /// 1: the gate held a step.
    #[error("the gate held a step")]
    Held,
    /// 3: something is kept back after the last turn.
    #[error("something is kept back after the last turn")]
    TurnLimit,
}

impl Turn {
    ghost use Rattle.std.specs.Prelude.{◌≡◌, ◌↔◌, IsTrue};
    ghost use Rattle.cops_replication.specs.declared.turn.Turn.TheVariants.{Idle as DidNothing};
    ghost use Rattle.cops_replication.specs.Turns.{IsTurnOf};

    /// The result of a turn that did `done` things.
    pub(crate) fn of(done: usize) -> Turn
        ensures { IsTurnOf done result }
    {
        if done == 0 {
            return Turn::Idle;
        }
        if done > u32::MAX as usize {
            return Turn::Did(u32::MAX);
        }
        Turn::Did(done as u32)
    }

    /// Whether the turn did nothing.
    pub(crate) fn is_idle(self) -> bool
        ensures { IsTrue result ↔ (self ≡ DidNothing) }
    {
        matches!(self, Turn::Idle)
    }
}

impl From<Memory> for TurnFault {
    ghost from_gives = { λ _ e. e ≡ OutOfMemory };

    fn from(_e: Memory) -> TurnFault {
        TurnFault::Memory
    }
}

impl From<GateHeld> for TurnFault {
    ghost from_gives = { λ _ e. e ≡ StoppedByGate };

    fn from(_e: GateHeld) -> TurnFault {
        TurnFault::Held
    }
}
