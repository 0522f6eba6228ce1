//! The types that every other crate uses: keys, values, versions, dependencies, operations, and histories of what
//! clients saw; the error for running out of memory; and readers and writers that count their failures. Stands on no
//! other crate of the repository. The layers above use the ranges of these types, the order of versions, a history as a
//! list of sessions, and the definitions of causal convergence, faults and verdicts in `specs/`.
#![tactic(auto)]

mod adding;
mod blocks;
mod candidates;
mod clock;
mod counted;
mod dep;
mod entries;
mod entry;
mod failing;
mod fault;
mod format;
mod gate;
mod history;
mod key;
mod key_set;
mod limits;
mod lookup;
mod maxima;
mod op;
mod op_ref;
mod op_view;
mod put_record;
mod refusal;
mod selection;
mod session_ref;
mod short_bytes;
mod slot;
mod slots;
mod value;
mod version;
mod versioned_put;

pub use clock::Clock;
pub use counted::{Counted, write_text};
pub use dep::{Dep, Deps};
pub use failing::{FailingReader, FailingWriter};
pub use fault::{Memory, TypeFault};
pub use format::Format;
pub use gate::{Gate, GateHeld, OpenGate, Point};
pub use history::History;
pub use key::{Key, KeyRoom};
pub use limits::{
    MAX_BODY, MAX_BODY_IN_ONE, MAX_CLIENT_OPS, MAX_CLIENTS, MAX_CLOCK, MAX_DCS, MAX_DEPS,
    MAX_DEPS_IN_ONE, MAX_KEY, MAX_OPS, MAX_VALUE, MAX_VALUE_IN_ONE, MAX_WORKERS, NODES, PLACES,
};
pub use op::{Op, OpName};
pub use op_ref::OpRef;
pub use op_view::{KeyView, OpView, ValueView};
pub use put_record::{NodeStatus, PutRecord};
pub use refusal::Refusal;
pub use selection::Selection;
pub use session_ref::{Operations, SessionRef};
pub use short_bytes::ShortBytes;
pub use value::{Value, ValueRoom, content_copy};
pub use version::{Version, node_number};
pub use versioned_put::VersionedPut;
