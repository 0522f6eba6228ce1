//! A client's context: the puts on which its next put depends (COPS, section 4.3). It is a list of different pairs of a
//! key and a version, in order of arrival, with at most as many as the format in use allows. Two versions of one key
//! are two pairs. Stands on the types and on `indexmap`, whose set keeps the order of arrival. The layers above use
//! that list, and that adding a pair allocates nothing after `reserve` succeeded.
#![tactic(auto)]

mod context;
mod fault;

pub use context::Context;
pub use fault::ContextFault;
