//! The program's commands on traces over readers and writers: the audit of a trace's bytes, which may be cut; the
//! explanation of its faults; a trace's frames as text; and its conversion to format 2. The crate depends on the trace,
//! the audit, the report and explanations. The program uses that what is written is a stated function of the bytes
//! read, and that a trace is accepted only where its bytes decode to one history that is causally convergent.
#![tactic(auto)]

mod alone;
mod audit;
mod convert;
mod explain;
mod fed;
mod laws;
mod show;
mod so_far;

pub use audit::{Answer, StreamFault, audit_bytes, audit_stream};
pub use convert::{convert_stream, converted_line};
pub use explain::{Explained, ExplainedText, Request, explain_stream, explanation};
pub use laws::{one_audit, one_audit_so_far, one_explanation};
pub use show::show_stream;
pub use so_far::{audit_bytes_so_far, audit_so_far};
