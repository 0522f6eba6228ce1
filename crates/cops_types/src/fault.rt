//! Why a value was refused.
ghost use Rattle.std.specs.Prelude.{◌≡◌};
ghost use Rattle.cops_types.specs.declared.fault.TypeFault.TheVariants.{Memory as OutOfMemory};

use std::alloc::{AllocError, AllocFailed};
use thiserror::Error;

/// Out of memory: the error of a call that has no other.
#[derive(Clone, Copy, Debug, PartialEq, Eq, Error)]
#[error("out of memory")]
pub struct Memory;

impl From<AllocError> for Memory {
    fn from(_e: AllocError) -> Memory {
        Memory
    }
}

impl<T: Drop> From<AllocFailed<T>> for Memory {
    fn from(_e: AllocFailed<T>) -> Memory {
        Memory
    }
}

/// Why a value of a type could not be made, or an operation was not taken. The numbers are the faults' codes.
#[derive(Clone, Copy, Debug, PartialEq, Eq, Error)]
pub enum TypeFault {
    /// 0: out of memory.
    #[error("out of memory")]
    Memory,
    /// 1: the key is empty.
    #[error("the key is empty")]
    KeyEmpty,
    /// 2: the key is longer than 64 bytes.
    #[error("the key is longer than 64 bytes")]
    KeyTooLong,
    /// 3: the value is longer than its format allows.
    #[error("the value is longer than its format allows")]
    ValueTooLong,
    /// 4: the number is no version.
    #[error("the number is no version")]
    BadVersion,
    /// 5: the clock is at its greatest.
    #[error("the clock is at its greatest")]
    ClockExhausted,
    /// 6: there is no such client.
    #[error("there is no such client")]
    UnknownClient,
    /// 7: there are too many operations.
    #[error("there are too many operations")]
    TooManyOps,
    /// 8: there are too many dependencies, or one twice.
    #[error("there are too many dependencies, or one twice")]
    BadDeps,
}

impl From<AllocError> for TypeFault {
    ghost from_gives = { λ _ e. e ≡ OutOfMemory };

    fn from(_e: AllocError) -> TypeFault {
        TypeFault::Memory
    }
}

impl<T: Drop> From<AllocFailed<T>> for TypeFault {
    ghost from_gives = { λ _ e. e ≡ OutOfMemory };

    fn from(_e: AllocFailed<T>) -> TypeFault {
        TypeFault::Memory
    }
}
