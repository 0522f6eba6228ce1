//! A COPS cluster on threads (COPS, sections 3 and 4): each node has its own lock, and clients call from their own
//! threads. Each caller keeps a share, the list of the entries that its own steps added to the nodes' logs. It builds
//! on the nodes' books, places, contexts and the recorder. The layers above rely on this: when a cluster is closed, the
//! shares are compared with the logs, so what every caller was answered is what the nodes answered.
#![tactic(auto)]

mod client;
mod closing;
mod cluster;
mod differing;
mod fault;
mod logged;
mod receiving;
mod refusal;
mod share;
mod spot;
mod stepping;
mod tail;

pub use client::Client;
pub use closing::{CloseFault, Closed, Uncompared};
pub use cluster::{Cluster, Opened};
pub use differing::difference_of_lists;
pub use fault::OpenFault;
pub use receiving::{Asked, RECEIVER, Yes};
pub use share::{Holder, Made, Share};
pub use tail::Tail;
