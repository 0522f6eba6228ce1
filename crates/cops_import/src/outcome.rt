//! What became of puts of unknown outcome.
use crate::name::Name;
use cops_types::Version;

/// What became of a put or a deletion whose outcome was unknown: the client's name, the number of its line, and its
/// version if it took effect.
#[derive(Debug, Drop)]
pub struct Outcome {
    pub name: Name,
    pub line: u64,
    pub version: Option<Version>,
}
