//! The settled pairs of a node, with last writer wins: a key shows the value of the greatest version that was settled
//! on it, or a deletion (COPS, section 4.2), and the store keeps each pair of a key and a version that was settled.
//!
//! It builds on the types and on `indexmap`, whose maps keep the order of insertion and make each call cost look-ups
//! only. The layers above use the list of settled pairs, and rely on `settle` allocating no memory after `reserve` has
//! succeeded.
#![tactic(auto)]

mod place;
mod settled;
mod store;

pub use settled::Settled;
pub use store::Store;
