use thiserror::Error;

/// Why the words are no job.
#[derive(Debug, Drop, Error)]
pub enum LineFault {
    /// Memory ran out.
    #[error("out of memory")]
    Memory,
    /// The words are wrong: what is wrong with them, and the usage.
    #[error("{0}")]
    Usage(String),
    /// The words ask for help, and this is its text.
    #[error("{0}")]
    Help(String),
    /// The words ask for the version, and this is its line.
    #[error("{0}")]
    Version(String),
}
