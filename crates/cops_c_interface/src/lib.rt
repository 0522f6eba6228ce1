//! The judge for programs in C, and in languages that call C, as a static library. The crate depends on the audit of a
//! trace's bytes and on the check of JSON Lines. A caller uses that the text in its buffer is that of the audit or the
//! check of its bytes, and that these are accepted only where they are one history that is causally convergent.
#![tactic(auto)]

mod calls;
mod leaving;

pub use calls::{cops_audit, cops_audit_so_far, cops_check_lines};
pub use leaving::TOO_SMALL;
