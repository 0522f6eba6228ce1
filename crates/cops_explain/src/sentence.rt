use cops_audit::Fault;
use cops_types::{History, OpName, OpRef};

/// What a fault means, in a sentence.
pub fn sentence(history: &History, fault: Fault) -> &'static str {
    match fault {
        Fault::Doubled(_) => "other puts have the version of the red put too",
        Fault::NoSource(_) =>
            "no put has the key, the value and the version that the red get returned",
        Fault::NotAbove(_) =>
            "the version of the red put is not above that of what its client did before",
        Fault::Stale(fault) => stale_sentence(history, fault.op),
    }
}

/// What a stale get returned in place of the newer put.
fn stale_sentence(history: &History, name: OpName) -> &'static str {
    match history.op(name) {
        Some(OpRef::Missed { .. }) =>
            "the red get returned nothing, though the green put was in its past",
        _ => "the red get returned an older version than the green put, which was in its past",
    }
}
