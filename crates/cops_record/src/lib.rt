//! Records what clients see while they run, in order of arrival. A client reserves a slot before it asks a node, and
//! fills it with the operation that it saw or cancels it, so no answer is lost when memory runs out. The records are
//! under one lock, and always form a trace within its limits.
//!
//! It builds on the types and on traces. The layers above rely on that, and on filling and cancelling a slot never
//! failing.
#![tactic(auto)]

mod fault;
mod recorder;
mod records;

pub use fault::{IntoTraceFault, RecordFault};
pub use recorder::{Recorder, Slot};
