//! The server of a scenario's cluster: it answers the clients' messages by calls of the cluster, replicates after each
//! session, and prints a report at the end, but only where the nodes' logs and what the clients saw are one run of the
//! world. It can write the trace of what the clients saw before that.
//!
//! It builds on the cluster, its senders and receivers, the front door's protocol, the tie check, traces, the audit and
//! the report. The program relies on this: a report is printed only of a tied history, which is accepted.
#![tactic(auto)]

mod ending;
mod fault;
mod front_end;
mod notes;
mod opening;
mod replicating;
mod replying;
mod serving;
mod writing;

pub use ending::Finished;
pub use fault::ServeFault;
pub use front_end::FrontEnd;
pub use serving::{Door, serve_stream};
