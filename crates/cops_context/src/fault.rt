//! Why a context did not take a pair.
use thiserror::Error;

/// Why a pair was not added. The numbers are the faults' codes.
#[derive(Clone, Copy, Debug, PartialEq, Eq, Error)]
pub enum ContextFault {
    /// 0: out of memory.
    #[error("out of memory")]
    Memory,
    /// 1: the context is full.
    #[error("the context is full")]
    ContextFull,
}
