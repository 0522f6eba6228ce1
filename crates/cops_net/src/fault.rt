//! Why a session or the front door ended early.
use cops_wire::WireFault;
use thiserror::Error;

/// Why a session, or the front door, ended early. The numbers are the faults' codes.
#[derive(Clone, Copy, Debug, PartialEq, Eq, Error)]
pub enum NetFault {
    /// 0: out of memory, here or in the session.
    #[error("out of memory")]
    Memory,
    /// 1: what the client sent is not a message; `Short` where its bytes end inside a frame.
    #[error("{0}")]
    Wire(WireFault),
    /// 2: a read failed.
    #[error("a read failed")]
    ReadFailed,
    /// 3: a write failed.
    #[error("a write failed")]
    WriteFailed,
    /// 4: the client sent a 1,000,001st message.
    #[error("too many messages")]
    TurnLimit,
    /// 5: the port could not be bound.
    #[error("the port could not be bound")]
    BindFailed,
    /// 6: no connection could be accepted.
    #[error("no connection could be accepted")]
    AcceptFailed,
}
