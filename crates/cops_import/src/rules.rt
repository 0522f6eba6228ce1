//! How lines are read.
use crate::ranks::Ranks;
use cops_outcomes::Writes;
use cops_types::Format;

/// How the versions of lines are read.
#[derive(Debug, Drop)]
pub enum Versions {
    /// As the versions of a trace: a clock and a node.
    Plain,
    /// As the versions of another store: the version of the trace has the rank as its clock, and node 0.
    Ranked(Ranks),
}

/// How lines are read: the format of the trace, and the versions.
#[derive(Debug, Drop)]
pub struct Rules {
    pub format: Format,
    pub versions: Versions,
}

/// What lines are expected to have, as a survey found: the number of clients, which is that of the names and of the puts
/// of unknown outcome that took effect, and what the puts of unknown outcome write.
#[derive(Debug, Drop)]
pub struct Expected {
    pub clients: u16,
    pub unknown: Writes,
}
