//! Why data centres and split keys do not form a place.

use thiserror::Error;

/// Why a place could not be made. The numbers are the faults' codes.
#[derive(Clone, Copy, Debug, PartialEq, Eq, Error)]
pub enum PlaceFault {
    /// 1: there are not 1 to 16 data centres, or more than 63 split keys.
    #[error("there are not 1 to 16 data centres, or more than 63 split keys")]
    BadCount,
    /// 2: a split key is not above the one before it.
    #[error("a split key is not above the one before it")]
    SplitsNotAscending,
}
