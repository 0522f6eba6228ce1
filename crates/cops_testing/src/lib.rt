//! What the tests of several crates share: gates at which two calls meet or a call is held, and keys with values. The
//! crate depends on `cops_types` alone, and no program uses it.
#![tactic(auto)]

mod holding;
mod meeting;
mod pairs;

pub use holding::{HoldsAnswers, HoldsAt, HoldsSteps};
pub use meeting::{Meeting, TURNS, waits_for};
pub use pairs::pair;
