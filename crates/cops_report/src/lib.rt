//! Reports: the text of a verdict on a history, and the chains of steps that show why a get is stale. The crate depends
//! on cops_types and cops_audit. The layer above uses that the text is exactly the verdict's lines, and that a chain is
//! the first of the shortest by which an operation is in the past of another. Explanations use the parts of a report:
//! its first line, chains with the puts given, and the puts from a version on.
#![tactic(auto)]

mod chains;
mod laws;
mod lines;
mod marks;
mod puts;
mod reports;
mod search;

pub use chains::{chain, chain_by};
pub use laws::{chain_is_evidence, one_chain, past_has_a_chain};
pub use lines::version_at;
pub use puts::from_version;
pub use reports::{report, report_by, report_judged, report_of};
