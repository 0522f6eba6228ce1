use cops_import::ImportFault;
use std::alloc::AllocError;
use thiserror::Error;

/// Why lines were not checked.
#[derive(Clone, Copy, Debug, PartialEq, Eq, Error)]
pub enum CheckFault {
    /// Memory ran out.
    #[error("out of memory")]
    Memory,
    /// The reader failed.
    #[error("the reader failed")]
    ReadFailed,
    /// The writer failed.
    #[error("the writer failed")]
    WriteFailed,
    /// The lines name other clients, or have other versions, than a first pass over them found.
    #[error("the lines changed")]
    Changed,
}

impl CheckFault {
    ghost use Rattle.std.specs.Prelude.{◌≡◌, ◌≢◌};

    /// The fault of a check for that of an import from memory to memory, whose only other fault is that of a line: a
    /// vector that takes no bytes is out of memory, and so is one of 2^40 bytes.
    pub(crate) fn of_import(fault: ImportFault) -> CheckFault
        ensures read { result ≢ CheckFault.ReadFailed }
        ensures write { result ≢ CheckFault.WriteFailed }
        ensures changed { result ≡ CheckFault.Changed → fault ≡ ImportFault.Changed }
    {
        match fault {
            ImportFault::Changed => CheckFault::Changed,
            _ => CheckFault::Memory,
        }
    }
}

impl From<AllocError> for CheckFault {
    ghost use Rattle.std.specs.Prelude.{◌≡◌};
    ghost use Rattle.cops_check.specs.declared.fault.CheckFault.TheVariants.{Memory as OutOfMemory};

    ghost from_gives = { λ _ e. e ≡ OutOfMemory };

    fn from(_e: AllocError) -> CheckFault {
        CheckFault::Memory
    }
}

impl From<cops_types::Memory> for CheckFault {
    ghost use Rattle.std.specs.Prelude.{◌≡◌};
    ghost use Rattle.cops_check.specs.declared.fault.CheckFault.TheVariants.{Memory as OutOfMemory};

    ghost from_gives = { λ _ e. e ≡ OutOfMemory };

    fn from(_e: cops_types::Memory) -> CheckFault {
        CheckFault::Memory
    }
}
