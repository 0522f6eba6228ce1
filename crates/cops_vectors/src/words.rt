//! The words of test cases and of other files: reading what they stand for (numbers, keys, values, versions,
//! dependencies, operations, outcomes, and the events of a node and of a world), and writing it.
mod hex;
mod nodes;
mod outcomes;
mod reading;
mod reporting;
mod texts;
mod worlds;

pub use hex::{bytes, digits};
pub use nodes::node_event;
pub use outcomes::{outcome, outcome_text, reported_outcome};
pub use reading::{
    deps, format_of, key, keys, mark, no_row, node_of, op, pair, parts, put, u8_of, u16_of, u32_of,
    u64_of, usize_of, value, version, version_of,
};
pub use reporting::{op_text, pair_text, session_text, shown_text, yes_or_no};
pub use texts::{Part, add_behind, joined, line_of, lossy, text, word};
pub use worlds::world_event;
