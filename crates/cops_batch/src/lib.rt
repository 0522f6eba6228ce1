//! The parallel auditor: each worker looks for faults in a piece of the history's operations, and what they find is
//! joined into the verdict that one worker gives. The gate is in cops_types, and the tables that the workers share are
//! in cops_audit. The layer above uses that the verdict is the auditor's.
#![tactic(auto)]

mod batch;
mod fault;
mod joining;
mod pieces;

pub use batch::{judge_in_order_with, judge_with};
pub use fault::BatchFault;
