//! One node of a data centre (COPS, sections 4.2 and 4.3): a Lamport clock, the settled pairs, and the puts of other
//! data centres that wait. And its book: a node with the log of its steps, so that a run on threads can be described as
//! one interleaving afterwards.
//!
//! It builds on the types, the store and the held table. The layers above rely on this: a node's answer to an event,
//! and the node afterwards, are a function of the node and the event, unless memory runs out; and replaying the entries
//! of a book leads to its node.
#![tactic(auto)]

mod book;
mod entry;
mod equal;
mod event;
mod node;
mod outcome;
mod raising;
mod recorded;
mod refusal;
mod table;

pub use book::Book;
pub use entry::Entry;
pub use equal::is_same_put;
pub use event::NodeEvent;
pub use node::Node;
pub use outcome::Outcome;
pub use recorded::{IssuedPuts, Recorded};
