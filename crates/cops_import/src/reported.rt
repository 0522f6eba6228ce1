//! What lines report.
use crate::name::Name;
use cops_outcomes::Write;
use cops_types::Op;

/// The operation of a line, whose outcome is known, and the client's name.
#[derive(Debug, Drop)]
pub struct LineOp {
    pub name: Name,
    pub op: Op,
}

/// A put or a deletion whose outcome is unknown: what it writes, the client's name, and the number of its line.
#[derive(Debug, Drop)]
pub struct UnknownPut {
    pub name: Name,
    pub write: Write,
    pub line: u64,
}

/// What a line reports.
#[derive(Debug, Drop)]
pub enum Reported {
    /// An operation with its result.
    Known(LineOp),
    /// A put or a deletion whose outcome is unknown.
    Unknown(UnknownPut),
}
