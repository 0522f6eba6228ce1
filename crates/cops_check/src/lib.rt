//! The check of JSON Lines: they are judged as the trace that they describe, and its faults are explained by the names
//! of the clients and the numbers of the lines. The crate depends on the import for the trace of lines, and on the
//! commands on traces for its explanation. The program uses that what is written is a stated function of the lines
//! read, and that lines are accepted only where they describe one history that is causally convergent.
#![tactic(auto)]

mod check;
mod fault;
mod following;
mod numbers;
mod state;

pub use check::{check_bytes, check_stream};
pub use fault::CheckFault;
pub use following::{Followed, follow_stream};
pub use state::{State, state_of};
