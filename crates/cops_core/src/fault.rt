//! Why a world was not opened.
use thiserror::Error;

/// Why a world was not opened. The numbers are the faults' codes.
#[derive(Clone, Copy, Debug, PartialEq, Eq, Error)]
pub enum WorldFault {
    /// 0: out of memory.
    #[error("out of memory")]
    Memory,
    /// 1: a client's data centre does not exist, or there are more than 65,535 clients.
    #[error("a client's data centre is not there, or there are more than 65,535 clients")]
    BadClient,
}
