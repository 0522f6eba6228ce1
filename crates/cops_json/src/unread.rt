//! Why a field was not read.
ghost use Rattle.std.specs.Prelude.{◌≡◌};
ghost use Rattle.cops_json.specs.declared.unread.Unread.TheVariants.{Memory as OutOfMemory};

use cops_types::TypeFault;
use std::alloc::{AllocError, AllocFailed};
use thiserror::Error;

/// Why a field was not read.
#[derive(Clone, Copy, Debug, PartialEq, Eq, Error)]
pub enum Unread {
    /// Memory ran out.
    #[error("out of memory")]
    Memory,
    /// The field does not have the right form.
    #[error("not of its form")]
    Form,
}

impl From<TypeFault> for Unread {
    ghost use Rattle.std.specs.Prelude.{◌≡◌, ◌↔◌};
    ghost use Rattle.cops_types.specs.declared.fault.TypeFault.TheVariants.{Memory as TypeMemory};

    ghost from_gives = { λ fault e. (e ≡ OutOfMemory) ↔ (fault ≡ TypeMemory) };

    fn from(e: TypeFault) -> Unread {
        match e {
            TypeFault::Memory => Unread::Memory,
            _ => Unread::Form,
        }
    }
}

impl<T: Drop> From<AllocFailed<T>> for Unread {
    ghost from_gives = { λ _ e. e ≡ OutOfMemory };

    fn from(_e: AllocFailed<T>) -> Unread {
        Unread::Memory
    }
}

impl From<AllocError> for Unread {
    ghost from_gives = { λ _ e. e ≡ OutOfMemory };

    fn from(_e: AllocError) -> Unread {
        Unread::Memory
    }
}
