//! What the commands share: reading whole inputs, and how a command ends. The crate depends on cops_types. The commands
//! use that what was read to its end is all that the reader had.
#![tactic(auto)]

mod input;
mod status;

pub use input::{PIECE, read_all};
pub use status::{Status, failed, print};
