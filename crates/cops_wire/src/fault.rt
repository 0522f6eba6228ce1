use thiserror::Error;

/// Why no message could be decoded. Of `Short` to `TrailingBytes` it is the first that applies, in the order in which
/// `decode` checks.
#[derive(Clone, Copy, Debug, PartialEq, Eq, Error)]
pub enum WireFault {
    /// 0: memory ran out, at a legal key or value or at dependencies. The bytes stay, and can be decoded again.
    #[error("out of memory")]
    Memory,
    /// 1: the frame is not whole: fewer than 4 bytes, or fewer than its length says.
    #[error("the frame is not whole")]
    Short,
    /// 2: the length is 0, or above the most that the format allows (32,768 in format 1, and
    /// 131,072 in format 2).
    #[error("bad length")]
    BadLength,
    /// 3: the format has no such kind.
    #[error("unknown kind")]
    UnknownKind,
    /// 4: a field runs past the body's end or is out of its range. The offset is that of the first such field's first
    /// byte, counted from the frame's first byte: the kind is at 4, the first field at 5.
    #[error("bad field at byte {offset} of the frame")]
    BadField { offset: u32 },
    /// 5: bytes of the body are left after the last field.
    #[error("bytes after the last field")]
    TrailingBytes,
}
