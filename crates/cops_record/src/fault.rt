//! Why a slot was not reserved, and why a trace was not made.
use crate::recorder::Recorder;
use thiserror::Error;

/// Why a slot was not reserved. The numbers are the faults' codes.
#[derive(Clone, Copy, Debug, PartialEq, Eq, Error)]
pub enum RecordFault {
    /// 0: out of memory.
    #[error("out of memory")]
    Memory,
    /// 1: there is no such client.
    #[error("there is no such client")]
    UnknownClient,
    /// 2: the client's session, or the trace, is full.
    #[error("the client's session, or the trace, is full")]
    SessionFull,
}

/// Why a trace was not made.
#[derive(Debug, Drop, Error)]
pub enum IntoTraceFault {
    /// Out of memory. Returns the recorder unchanged.
    #[error("out of memory")]
    Memory(Recorder),
}
