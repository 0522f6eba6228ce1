//! Replication: the work of a data centre's threads that brings its puts to the other data centres, and theirs to it
//! (COPS, section 4.3: a put is replicated with its nearest dependencies, and is settled once each dependency was
//! checked). A sender reads the logs of its data centre's nodes and sends each put on each of its links. A receiver
//! takes the frames that arrive, and delivers, asks, marks and settles their puts. Both work in turns, so that the
//! thread that drives them decides when to stop.
//!
//! It builds on the cluster and on the links. The layers above rely on this: a sender does not lose, duplicate or
//! reorder anything; a receiver only adds its own steps to its share; and a drained sender or receiver has nothing
//! pending.
#![tactic(auto)]

mod arrival;
mod backlog;
mod outbox;
mod receiver;
mod sender;
mod turn;
mod wiring;

pub use receiver::Receiver;
pub use sender::Sender;
pub use turn::{Turn, TurnFault};
pub use wiring::{Replicas, wired};
