//! Whether two entries are equal.
ghost use Rattle.std.specs.Prelude.{◌≡◌, ◌↔◌, IsTrue, option_copied};

use crate::entry::Entry;
use crate::event::NodeEvent;
use crate::outcome::Outcome;
use cops_types::{Deps, Key, PutRecord, Value, Version};

impl Entry {
    ghost use Rattle.std.specs.Prelude.{◌≡◌, ◌↔◌, IsTrue};

    /// Whether both have the same ticket, event and outcome.
    pub fn is(&self, other: &Entry) -> bool
        ensures { IsTrue result ↔ (self.now ≡ other.now) }
    {
        if self.ticket != other.ticket {
            return false;
        }
        if !is_same_event(&self.event, &other.event) {
            return false;
        }
        is_same_outcome(&self.outcome, &other.outcome)
    }
}

/// Whether the outcomes are equal.
fn is_same_outcome(one: &Outcome, other: &Outcome) -> bool
    ensures { IsTrue result ↔ (one.now ≡ other.now) }
{
    one == other
}

/// Whether the events are equal.
fn is_same_event(one: &NodeEvent, other: &NodeEvent) -> bool
    ensures { IsTrue result ↔ (one.now ≡ other.now) }
{
    match (one, other) {
        (
            NodeEvent::Put {
                client,
                key,
                value,
                deps,
            },
            NodeEvent::Put {
                client: c,
                key: k,
                value: v,
                deps: d,
            },
        ) => client == c && is_same_write(key, value, k, v) && is_same_deps(deps, d),
        (
            NodeEvent::Del { client, key, deps },
            NodeEvent::Del {
                client: c,
                key: k,
                deps: d,
            },
        ) => client == c && key.is(k) && is_same_deps(deps, d),
        (NodeEvent::Get { client, key }, NodeEvent::Get { client: c, key: k }) => {
            client == c && key.is(k)
        }
        (NodeEvent::Deliver(put), NodeEvent::Deliver(p)) => is_same_put(put, p),
        (NodeEvent::Ask { key, version }, NodeEvent::Ask { key: k, version: v }) => {
            key.is(k) && is_same_version(*version, *v)
        }
        (NodeEvent::Mark { version, dep }, NodeEvent::Mark { version: v, dep: d }) =>
            is_same_version(*version, *v) && dep == d,
        (NodeEvent::Settle { version }, NodeEvent::Settle { version: v }) => {
            is_same_version(*version, *v)
        }
        _ => false,
    }
}

/// Whether the keys and the values are equal.
fn is_same_write(key: &Key, value: &Value, other_key: &Key, other_value: &Value) -> bool
    ensures { IsTrue result ↔ ((key.now ≡ other_key.now) × (value.now ≡ other_value.now)) }
{
    key.is(other_key) && value.is(other_value)
}

fn is_same_version(one: Version, other: Version) -> bool
    ensures { IsTrue result ↔ (one ≡ other) }
{
    one == other
}

/// Whether the dependencies are the same pairs in the same order.
fn is_same_deps(one: &Deps, other: &Deps) -> bool
    ensures { IsTrue result ↔ (one.now ≡ other.now) }
{
    one.as_slice() == other.as_slice()
}

/// Whether the puts are equal.
pub fn is_same_put(one: &PutRecord, other: &PutRecord) -> bool
    ensures { IsTrue result ↔ (one.now ≡ other.now) }
{
    if one.key != other.key {
        return false;
    }
    if !is_same_content(one.value.as_ref(), other.value.as_ref()) {
        return false;
    }
    if one.version != other.version {
        return false;
    }
    one.deps.as_slice() == other.deps.as_slice()
}

/// Whether both are the same value, or neither is a value.
fn is_same_content(one: Option<&Value>, other: Option<&Value>) -> bool
    ensures { IsTrue result ↔ (option_copied one.entry ≡ option_copied other.entry) }
{
    match (one, other) {
        (Some(one), Some(other)) => one.is(other),
        (None, None) => true,
        _ => false,
    }
}
