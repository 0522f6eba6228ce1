//! The tie check: it decides whether the logs that a cluster on threads left are one run of the world, and whether they
//! are a run of scripted clients. They are if the nodes' books are one run of the world, its clients saw what the trace
//! says, each client's outcome fits its session and the world at the end of the run, and each data centre has settled
//! each put. The check works on plain values, without threads.
//!
//! It builds on the nodes' books and on the world and its readers. The layer above relies on this: a run passes exactly
//! where this holds, and the verdict on what its clients saw is accepted.
#![tactic(auto)]

mod checking;
mod ending;
mod fault;
mod laws;
mod order;
mod outcome;
mod settling;
mod tying;

pub use checking::checked;
pub use cops_node::{Book, Entry, IssuedPuts, Recorded};
pub use fault::TieFault;
pub use laws::{no_run_is_not_run, tied_books_have_one_end, untied_is_not_tied};
pub use outcome::ClientOutcome;
pub use tying::{TiedRun, tie, tied_run};
