//! Why a link cannot be made, and why a frame was not sent.

use crate::frame::Frame;
use thiserror::Error;

/// Why a link cannot be made. The numbers are the faults' codes.
#[derive(Clone, Copy, Debug, PartialEq, Eq, Error)]
pub enum LinkFault {
    /// 0: out of memory.
    #[error("out of memory")]
    Memory,
    /// 2: a link holds 1 to 1,024 frames.
    #[error("a link holds 1 to 1,024 frames")]
    BadCapacity,
}

/// Why a frame was not sent. Sending allocates no memory, so running out of memory is not among the reasons.
#[derive(Debug, Drop, Error)]
pub enum SendFault {
    /// 1: the link is full. Returns the frame.
    #[error("the link is full")]
    Full(Frame),
}
