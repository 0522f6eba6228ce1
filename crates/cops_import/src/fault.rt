//! Why lines do not make a trace.
ghost use Rattle.std.specs.Prelude.{◌≡◌, IfOk, string_bytes};
ghost use Rattle.cops_import.specs.Words.{faulty_line};

use cops_trace::WriteFault;
use std::alloc::{AllocError, AllocFailed, Global};
use thiserror::Error;

/// What is wrong with a line, in the order of the checks.
#[derive(Clone, Copy, Debug, PartialEq, Eq, Error)]
pub enum JsonLineFault {
    /// 0: the line is no JSON text: it breaks the grammar or the encoding, or is nested deeper than 127.
    #[error("no JSON")]
    NoJson,
    /// 1: the line is no object, or its client is neither a text nor a whole number.
    #[error("no client")]
    NoClient,
    /// 2: the line has no put, no get and no deletion.
    #[error("no operation")]
    NoOperation,
    /// 3: the line has more than one of them.
    #[error("both operations")]
    BothOperations,
    /// 4: the key is no text of 1 to 64 bytes.
    #[error("bad key")]
    BadKey,
    /// 5: the value is no text of at most 4,096 bytes (16,384 in format 2), nor the null of a get, nor the null or
    /// missing one of a deletion.
    #[error("bad value")]
    BadValue,
    /// 6: the version is not of its form.
    #[error("bad version")]
    BadVersion,
    /// 7: the operation is a deletion or a get that found one, and the format is 1.
    #[error("needs format 2")]
    NeedsFormat2,
    /// 8: the line's client is the 65,536th.
    #[error("too many clients")]
    TooManyClients,
    /// 9: the operation is its client's 1,000,001st, or the 16,000,001st of all.
    #[error("too many operations")]
    TooManyOperations,
}

impl JsonLineFault {
    ghost use Rattle.std.specs.Prelude.{◌≡◌};
    ghost use Rattle.cops_import.specs.Words.{words_of};

    /// The words of the fault, as they are printed.
    pub fn words(self) -> &'static str
        ensures { result.now ≡ words_of self }
    {
        match self {
            JsonLineFault::NoJson => "no JSON",
            JsonLineFault::NoClient => "no client",
            JsonLineFault::NoOperation => "no operation",
            JsonLineFault::BothOperations => "both operations",
            JsonLineFault::BadKey => "bad key",
            JsonLineFault::BadValue => "bad value",
            JsonLineFault::BadVersion => "bad version",
            JsonLineFault::NeedsFormat2 => "needs format 2",
            JsonLineFault::TooManyClients => "too many clients",
            JsonLineFault::TooManyOperations => "too many operations",
        }
    }
}

/// The printed line that says what is wrong with the line of this number. Fails if memory runs out.
pub fn faulty_line(alloc: Global, number: u64, fault: JsonLineFault) -> Result<String, AllocError>
    ensures { IfOk result (λ line. string_bytes line ≡ faulty_line number fault) }
{
    let words = fault.words();
    format!(in alloc; "faulty: line {number}: {words}\n")
}

/// Why an import made no trace.
#[derive(Clone, Copy, Debug, PartialEq, Eq, Error)]
pub enum ImportFault {
    /// 0: out of memory.
    #[error("out of memory")]
    Memory,
    /// 1: the reader failed.
    #[error("the reader failed")]
    ReadFailed,
    /// 2: the writer failed, after exactly `written` of the text's first bytes.
    #[error("the writer failed after {written} bytes")]
    WriteFailed { written: usize },
    /// 3: this line, counted from 1, is the first that is wrong.
    #[error("line {number}: {fault}")]
    Line { number: u64, fault: JsonLineFault },
    /// 4: the lines are not those that were surveyed: they name more or fewer clients than the caller said, or a version
    /// has no rank.
    #[error("other clients or versions than were surveyed")]
    Changed,
    /// 5: the lines did not end within 2^40 reads, or there are 2^64.
    #[error("the lines do not end")]
    Endless,
}

impl From<WriteFault> for ImportFault {
    ghost use Rattle.std.specs.Prelude.{◌≡◌};
    ghost use Rattle.cops_import.specs.Writing.{fault_of};

    ghost from_gives = { λ fault e. e ≡ fault_of fault };

    fn from(e: WriteFault) -> ImportFault {
        match e {
            WriteFault::Memory => ImportFault::Memory,
            WriteFault::WriteFailed { written } => ImportFault::WriteFailed { written },
        }
    }
}

impl<T: Drop> From<AllocFailed<T>> for ImportFault {
    ghost use Rattle.std.specs.Prelude.{◌≡◌};
    ghost use Rattle.cops_import.specs.declared.fault.ImportFault.TheVariants.{Memory as OutOfMemory};

    ghost from_gives = { λ _ e. e ≡ OutOfMemory };

    fn from(_e: AllocFailed<T>) -> ImportFault {
        ImportFault::Memory
    }
}

impl From<AllocError> for ImportFault {
    ghost use Rattle.std.specs.Prelude.{◌≡◌};
    ghost use Rattle.cops_import.specs.declared.fault.ImportFault.TheVariants.{Memory as OutOfMemory};

    ghost from_gives = { λ _ e. e ≡ OutOfMemory };

    fn from(_e: AllocError) -> ImportFault {
        ImportFault::Memory
    }
}
