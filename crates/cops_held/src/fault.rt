//! Why a held table refuses a call.
use thiserror::Error;

/// Why a dependency was not marked or a put not returned. The numbers are the faults' codes.
#[derive(Clone, Copy, Debug, PartialEq, Eq, Error)]
pub enum HeldFault {
    /// 1: no put with this version waits.
    #[error("no put with this version waits")]
    NotHeld,
    /// 2: the put has no such dependency.
    #[error("the put has no such dependency")]
    NoSuchDep,
    /// 3: not all dependencies are marked.
    #[error("not all dependencies are marked")]
    DepsOpen,
}
