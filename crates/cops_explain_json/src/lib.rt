//! Explanations for programs: a verdict and the faults that are asked for as one JSON object, in a line. The crate
//! depends on the explanations in words for the puts that share a version and for what operations are called, and on
//! the report for its chains. The layer above uses that the line is exactly that of the faults that are asked for.
#![tactic(auto)]

mod explaining;
mod faults;
mod faulty;
mod laws;
mod object;
mod operations;

pub use explaining::explain_json;
pub use faulty::faulty_json;
pub use laws::one_json;
