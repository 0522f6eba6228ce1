//! The world: a COPS cluster on one thread (COPS, sections 3 and 4), a state machine whose events come in any order:
//! puts, deletions and gets of clients, and deliveries, asks, marks and settlements between data centres. Stands on the
//! types, contexts, places and nodes, and on `indexmap`. The layers above use that each event is a step of the
//! definition in `specs/World`, and so of the machine in `specs/Machine` that has one set of puts in each data centre;
//! that the verdict of every history is Accepted; and that each operation is in the format of the setting.
#![tactic(auto)]

mod answers;
mod client_contexts;
mod data_centres;
mod event;
mod fault;
mod issued;
mod laws;
mod recording;
mod state;
mod table;
mod world;

pub use cops_node::Outcome;
pub use cops_place::Setting;
pub use event::{Event, Said};
pub use fault::WorldFault;
pub use laws::every_interleaving_is_accepted;
pub use world::World;
