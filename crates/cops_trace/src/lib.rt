//! Trace files: what clients saw, in order of arrival, as bytes. Stands on the types and on the encoding of messages.
//! The layers above use a trace as a number of clients with a list of records, its only text, each fault with its case
//! and offset, and the sessions that it records.
#![tactic(auto)]

mod ahead;
mod converting;
mod counts;
mod fault;
mod finding;
mod found;
mod lines;
mod live;
mod parser;
mod reader;
mod reading;
mod record;
mod sink;
mod trace;
mod writer;
mod writing;

pub use converting::convert;
pub use fault::{ConvertFault, FinishFault, TraceFault, WriteFault};
pub use found::{Found, Item};
pub use lines::{fault_line, fault_text};
pub use live::{LiveTrace, Unfinished};
pub use reader::TraceReader;
pub use reading::{read_into, read_so_far, read_trace};
pub use record::Record;
pub use sink::{Sink, SinkTaken};
pub use trace::{Partial, Trace};
pub use writer::{TraceWriter, Unwritten};
pub use writing::write_trace;
