//! Where a key lives (COPS, section 4.2: each data centre holds all keys, split over its nodes). Split keys cut the key
//! space into ranges, one for each node of a data centre; all data centres have the same ranges. The setting of a world
//! or a cluster is a place together with the data centre of each client.
//!
//! It builds on the types. The layers above rely on this: a key's place is the number of split keys that are not above
//! it, and a node's number is 64 times its data centre plus its place.
#![tactic(auto)]

mod fault;
mod place;
mod setting;

pub use fault::PlaceFault;
pub use place::{MAX_SPLITS, Place};
pub use setting::Setting;
