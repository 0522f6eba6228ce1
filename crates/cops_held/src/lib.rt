//! Puts of other data centres that wait until their dependencies are settled here (COPS, section 4.3: `put_after` and
//! `dep_check`).
//!
//! It builds on the types and on the standard library's ordered map. The layers above use the list of waiting puts in
//! order of versions, one for each version, with the marks of their dependencies.
#![tactic(auto)]

mod fault;
mod held;
mod held_put;
mod open;
mod taken;

pub use fault::HeldFault;
pub use held::Held;
pub use taken::Taken;
