//! Why the auditor did not take an operation.
ghost use Rattle.std.specs.Prelude.{◌≡◌, ◌↔◌};

use cops_types::TypeFault;
use thiserror::Error;

/// Why an auditor did not take an operation. The numbers are the faults' codes.
#[derive(Clone, Copy, Debug, PartialEq, Eq, Error)]
pub enum FeedFault {
    /// 0: out of memory.
    #[error("out of memory")]
    Memory,
    /// 1: there is no such client.
    #[error("there is no such client")]
    UnknownClient,
    /// 2: there are too many operations.
    #[error("there are too many operations")]
    TooManyOps,
}

impl FeedFault {
    /// The fault of a history that did not take an operation, as a fault of the auditor.
    pub(crate) fn of(fault: TypeFault) -> FeedFault
        ensures unknown { (result ≡ FeedFault.UnknownClient) ↔ (fault ≡ TypeFault.UnknownClient) }
        ensures too_many { (result ≡ FeedFault.TooManyOps) ↔ (fault ≡ TypeFault.TooManyOps) }
    {
        match fault {
            TypeFault::UnknownClient => FeedFault::UnknownClient,
            TypeFault::TooManyOps => FeedFault::TooManyOps,
            _ => FeedFault::Memory,
        }
    }
}
