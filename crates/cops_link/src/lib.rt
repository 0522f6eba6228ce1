//! Queues between data centres (COPS, section 4.3: a put is replicated with its nearest dependencies). A link has a
//! sending end and a taking end, each for its own thread. It carries frames, each the encoding of the message that
//! replicates one put or one deletion, in format 2 whatever the cluster's format is. The queue's protocol allows
//! nothing else, so a frame that is taken always decodes.
//!
//! It builds on the messages and on `rtrb`, whose queue keeps, for the contracts of each end, what passed through it.
//! The layers above rely on this: the frames that were taken, followed by those that are left once the sender has
//! finished, are the frames that were sent, in order.
#![tactic(auto)]

mod ends;
mod fault;
mod frame;

pub use ends::{Finished, LinkIn, LinkOut, MAX_CAPACITY, link};
pub use fault::{LinkFault, SendFault};
pub use frame::{Frame, PutAfters};
