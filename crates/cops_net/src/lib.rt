//! The server's protocol: a client's messages are read from a stream, each is handed to a session or answered directly,
//! and one reply for each is written back, in order.
//!
//! `specs/Protocol.antt` defines the protocol as functions of whole lists: which messages are handed over, as which
//! calls, and the replies that follow from the messages and those calls. `serve_session` does exactly that; `listen`
//! does it for one connection after the other. So does `serve_connections`, at a listener of `bind`; it can wait for an
//! idle client no longer than a given time, and skip connections that are closed before they send a byte. The trait
//! `Session` is what answers; it keeps the list of its calls with their answers.
//!
//! A session has a format. A client greets with the format's number; what it sends up to that greeting is read in
//! format 1, and what it sends after it in the session's format.
//!
//! It builds on `cops_types` and on the messages of `cops_wire`. The program relies on this: the replies follow from
//! the messages and from the calls that the session's list gained.
#![tactic(auto)]

mod answering;
mod fault;
mod incoming;
mod laws;
mod listening;
mod own;
mod parting;
mod reply;
mod serving;
mod session;

pub use fault::NetFault;
pub use laws::one_reply_each;
pub use listening::{Terms, bind, listen, serve_connections};
pub use reply::{Call, Reply};
pub use serving::{Served, serve_session};
pub use session::Session;
