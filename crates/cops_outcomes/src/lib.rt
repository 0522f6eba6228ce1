//! Puts and deletions whose outcome is unknown: a client asked for one and got no answer. Whether it took effect shows in
//! the gets: one that returned its key and content with a version that no put has returned this put. The crate depends on
//! the types and on `indexmap`. The layer above uses that each outcome is the one that the definition says.
#![tactic(auto)]

mod counts;
mod outcomes;
mod sightings;
mod write;
mod writes;

pub use counts::OutcomeCounts;
pub use outcomes::Outcomes;
pub use sightings::Sightings;
pub use write::Write;
pub use writes::Writes;
