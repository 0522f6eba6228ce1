//! The program's command that runs a scenario, over readers and writers: an event list in a world, or scripted clients
//! on threads. It builds on scenarios, the world, the run on threads, the audit and the report. The program uses the
//! status that it returns.
#![tactic(auto)]

mod events;
mod leaving;
mod scripts;
mod streaming;

pub use streaming::{Streamed, run_stream};
