//! The faults of reading, writing and converting traces.
ghost use Rattle.std.specs.Prelude.{◌≡◌};
ghost use Rattle.cops_trace.specs.Faults.{offset_of};

use cops_wire::WireFault;
use thiserror::Error;

/// Why no trace was read. An offset counts from the text's first byte: it is that of the wrong frame, or of the field
/// that is not legal.
#[derive(Clone, Copy, Debug, PartialEq, Eq, Error)]
pub enum TraceFault {
    /// 0: out of memory.
    #[error("out of memory")]
    Memory,
    /// 1: the first frame is no head.
    #[error("no head at {offset}")]
    NoHead { offset: u64 },
    /// 2: the head names no format.
    #[error("bad format at {offset}")]
    BadFormat { offset: u64 },
    /// 3: a record's client is not below the head's number of clients.
    #[error("client out of range at {offset}")]
    ClientOutOfRange { offset: u64 },
    /// 4: a record's index is not its client's next.
    #[error("index out of turn at {offset}")]
    IndexOutOfTurn { offset: u64 },
    /// 5: the count in the end is not the number of records.
    #[error("bad count at {offset}")]
    BadCount { offset: u64 },
    /// 6: there is a byte after the end, at this offset.
    #[error("bytes after end at {offset}")]
    BytesAfterEnd { offset: u64 },
    /// 7: the input ends before the end is whole, in the frame that begins at this offset.
    #[error("cut at {offset}")]
    Cut { offset: u64 },
    /// 8: a frame is no message.
    #[error("{fault} at {offset}")]
    Frame { fault: WireFault, offset: u64 },
    /// 9: the reader failed.
    #[error("the reader failed")]
    ReadFailed,
    /// 10: a client's 1,000,001st record, or the 16,000,001st of all.
    #[error("too long at {offset}")]
    TooLong { offset: u64 },
    /// 11: a later frame is neither a record nor the end.
    #[error("not a record at {offset}")]
    NotARecord { offset: u64 },
}

impl TraceFault {
    /// The fault's offset in the text, if it has one.
    pub fn offset(&self) -> Option<u64>
        ensures { result ≡ offset_of self.now }
    {
        match *self {
            TraceFault::Memory | TraceFault::ReadFailed => None,
            TraceFault::NoHead { offset }
            | TraceFault::BadFormat { offset }
            | TraceFault::ClientOutOfRange { offset }
            | TraceFault::IndexOutOfTurn { offset }
            | TraceFault::BadCount { offset }
            | TraceFault::BytesAfterEnd { offset }
            | TraceFault::Cut { offset }
            | TraceFault::Frame { offset, .. }
            | TraceFault::TooLong { offset }
            | TraceFault::NotARecord { offset } => Some(offset),
        }
    }
}

/// Why no trace was written.
#[derive(Clone, Copy, Debug, PartialEq, Eq, Error)]
pub enum WriteFault {
    /// 0: out of memory.
    #[error("out of memory")]
    Memory,
    /// 1: the writer failed, after exactly `written` of the text's first bytes.
    #[error("the writer failed after {written} bytes")]
    WriteFailed { written: usize },
}

/// Why the rest of a trace's text was not written.
#[derive(Clone, Copy, Debug, PartialEq, Eq, Error)]
pub enum FinishFault {
    /// 0: out of memory.
    #[error("out of memory")]
    Memory,
    /// 1: the writer failed, after exactly `written` of the text's first bytes, including those written before.
    #[error("the writer failed after {written} bytes")]
    WriteFailed { written: usize },
    /// 2: what was written before is not a prefix of the trace's text.
    #[error("what was written is of another trace")]
    OfAnother,
}

/// Why a trace was not converted.
#[derive(Clone, Copy, Debug, PartialEq, Eq, Error)]
pub enum ConvertFault {
    /// 0: out of memory.
    #[error("out of memory")]
    Memory,
    /// 1: the bytes are no trace.
    #[error("{0}")]
    Faulty(TraceFault),
    /// 2: the reader failed.
    #[error("the reader failed")]
    ReadFailed,
    /// 3: the writer failed, after exactly `written` of the new text's first bytes.
    #[error("the writer failed after {written} bytes")]
    WriteFailed { written: usize },
}
