use cops_types::Memory;
use std::alloc::AllocError;
use thiserror::Error;

/// Why there is no verdict. The numbers are the faults' codes.
#[derive(Clone, Copy, Debug, PartialEq, Eq, Error)]
pub enum BatchFault {
    /// 0: out of memory.
    #[error("out of memory")]
    Memory,
    /// 1: the workers are not 1 to 64.
    #[error("the workers are not 1 to 64")]
    BadWorkers,
    /// 2: the gate held a worker.
    #[error("the gate held a worker")]
    Held,
}
