//! A complete COPS cluster on threads (COPS, sections 3 and 4). It re-exports, from the crates below, the cluster with
//! its clients and shares, replication, and the ways in which a scripted client may end.
//!
//! It adds the run of scripted clients: one thread for each client, one sending and one receiving thread for each data
//! centre, and a link for each ordered pair of data centres. After all threads are joined, the logs that they left are
//! checked to be tied, that is, to form one run of the world. The layer above relies on this: a run that is returned is
//! a run of the world, and the verdict on what its clients saw is accepted.
#![tactic(auto)]

mod clients;
mod driving;
mod ends;
mod fault;
mod following;
mod gathering;
mod live;
mod opening;
mod ran;
mod replicas;
mod running;
mod state;
mod tries;

pub use cops_cluster::{
    Asked, Client, CloseFault, Closed, Cluster, Holder, Made, OpenFault, Opened, RECEIVER, Share,
    Uncompared, Yes, difference_of_lists,
};
pub use cops_replication::{Receiver, Replicas, Sender, Turn, TurnFault, wired};
pub use cops_tie::ClientOutcome;
pub use fault::RunFault;
pub use live::{Live, run_live};
pub use ran::Run;
pub use running::run;
