//! Why serving ended without a report.
use thiserror::Error;

/// Why there is no report.
#[derive(Clone, Copy, Debug, PartialEq, Eq, Error)]
pub enum ServeFault {
    #[error("memory")]
    Memory,
    /// The nodes' logs and what the clients saw are not a run of the world. `ticket` is the least one that does not
    /// continue it.
    #[error("untied at ticket {ticket}")]
    Untied { ticket: u64 },
    #[error("bind")]
    BindFailed,
    #[error("accept")]
    AcceptFailed,
    /// The trace of what the clients saw could not be written.
    #[error("write")]
    WriteFailed,
}
