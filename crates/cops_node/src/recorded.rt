//! What a book returns of its steps besides their answers.
ghost use Rattle.std.specs.Prelude.{◌≡◌, ◌≢◌, [], IfOk, OnErr};
ghost use Rattle.cops_node.specs.Outcomes.{IsGot};
ghost use Rattle.cops_node.specs.Book.{put_made, puts_in};

use crate::book::{Book, stepped};
use crate::entry::Entry;
use crate::event::NodeEvent;
use crate::node::Node;
use crate::outcome::Outcome;
use cops_types::{Memory, PutRecord};
use std::alloc::{AllocError, Global};

/// The result of a step, for a caller that also keeps its entry and what was seen.
#[derive(Debug, Drop)]
pub struct Recorded {
    pub outcome: Outcome,
    /// A copy of the outcome.
    pub seen: Outcome,
    /// The entry that was made.
    pub entry: Entry,
}

/// The puts that were issued at a node, starting at some entry.
#[derive(Debug, Drop)]
pub struct IssuedPuts {
    /// The puts, in order of their entries.
    pub puts: Vec<PutRecord>,
    /// The number of entries in all.
    pub entries: usize,
}

/// Two copies of an event.
#[derive(Drop)]
struct Events {
    kept: NodeEvent,
    shared: NodeEvent,
}

/// A node's answer to an event, and copies of it.
#[derive(Drop)]
struct OutcomeParts {
    outcome: Outcome,
    kept: Outcome,
    shared: Outcome,
    seen: Outcome,
}

/// Three copies of an outcome.
#[derive(Drop)]
pub(crate) struct OutcomeCopies {
    pub(crate) kept: Outcome,
    pub(crate) shared: Outcome,
    pub(crate) seen: Outcome,
}

impl Book {
    ghost use Rattle.std.specs.Prelude.{◌≡◌, ◌≢◌, [], ◌∷◌, ◌++◌, drop, length, IfOk, OnErr};
    ghost use Rattle.cops_node.specs.Node.{node_step};
    ghost use Rattle.cops_node.specs.Book.{entry, puts_in};

    /// Applies one event to the node like `step`, and also returns a copy of the answer and the entry. On `Memory`
    /// nothing changes, and no entry is made.
    pub fn step_recorded(&mut self, ticket: u64, event: NodeEvent) -> Result<Recorded, Memory>
        ensures memory { OnErr result (self.new ≡ self.old) }
        ensures stepped { IfOk result (λ recorded. node_step self.old.node event ≡ (recorded.outcome, self.new.node)) }
        ensures entered { IfOk result (λ recorded. self.new.entries ≡ self.old.entries ++ entry ticket event recorded.outcome ∷ []) }
        ensures copies { IfOk result (λ recorded. (recorded.seen ≡ recorded.outcome) × (recorded.entry ≡ entry ticket event recorded.outcome)) }
    {
        self.entries.reserve(1)?;
        let events = Events::of(&event)?;
        let answers = OutcomeParts::of(&mut self.node, event)?;
        self.entries.push_reserved(Entry {
            ticket,
            event: events.kept,
            outcome: answers.kept,
        });
        Ok(Recorded {
            outcome: answers.outcome,
            seen: answers.seen,
            entry: Entry {
                ticket,
                event: events.shared,
                outcome: answers.shared,
            },
        })
    }

    /// Copies of the puts that were issued here, starting at the entry at `place`, and the number of entries, which is
    /// where the next copies start. There are no puts where `place` is beyond the last entry. It allocates memory only
    /// where there are puts, and returns `Memory` when that runs out.
    pub fn puts_from(&self, alloc: Global, place: usize) -> Result<IssuedPuts, Memory>
        ensures puts { IfOk result (λ r. r.puts.items ≡ puts_in (drop place self.now.entries)) }
        ensures entries { IfOk result (λ r. r.entries ≡ length self.now.entries) }
        ensures err { OnErr result (puts_in (drop place self.now.entries) ≢ []) }
    {
        let entries = self.entries.len();
        let rest = &self.entries[place.min(entries)..];
        let puts = puts_of(alloc, rest)?;
        Ok(IssuedPuts { puts, entries })
    }
}

impl Events {
    fn of(event: &NodeEvent) -> Result<Events, AllocError>
        ensures { IfOk result (λ events. (events.kept ≡ event.now) × (events.shared ≡ event.now)) }
    {
        let kept = event.clone()?;
        match event.clone() {
            Ok(shared) => Ok(Events { kept, shared }),
            Err(error) => {
                drop(kept);
                Err(error)
            }
        }
    }
}

impl OutcomeParts {
    ghost use Rattle.std.specs.Prelude.{◌≡◌, IfOk, OnErr};
    ghost use Rattle.cops_node.specs.Node.{node_step};

    /// Applies one event to the node, and copies its answer. On `Memory` nothing changes.
    fn of(node: &mut Node, event: NodeEvent) -> Result<OutcomeParts, Memory>
        ensures memory { OnErr result (node.new ≡ node.old) }
        ensures stepped { IfOk result (λ answers. node_step node.old event ≡ (answers.outcome, node.new)) }
        ensures copied { IfOk result (λ answers. (answers.kept ≡ answers.outcome) × (answers.shared ≡ answers.outcome) × (answers.seen ≡ answers.outcome)) }
    {
        let outcome = stepped(node, event)?;
        let copies = OutcomeCopies::of(&outcome)?;
        Ok(OutcomeParts {
            outcome,
            kept: copies.kept,
            shared: copies.shared,
            seen: copies.seen,
        })
    }
}

impl OutcomeCopies {
    /// Copies an outcome. It allocates memory only for the value of a get.
    pub(crate) fn of(outcome: &Outcome) -> Result<OutcomeCopies, Memory>
        ensures kept { IfOk result (λ copies. copies.kept ≡ outcome.now) }
        ensures shared { IfOk result (λ copies. copies.shared ≡ outcome.now) }
        ensures seen { IfOk result (λ copies. copies.seen ≡ outcome.now) }
        ensures err { OnErr result (IsGot outcome.now) }
    {
        Ok(OutcomeCopies {
            kept: outcome.copy()?,
            shared: outcome.copy()?,
            seen: outcome.copy()?,
        })
    }
}

/// Copies of the puts that entries issued. It allocates memory only where there are puts.
fn puts_of(alloc: Global, entries: &[Entry]) -> Result<Vec<PutRecord>, Memory>
    ensures puts { IfOk result (λ puts. puts.items ≡ puts_in entries.now) }
    ensures err { OnErr result (puts_in entries.now ≢ []) }
{
    let mut puts = Vec::new(alloc);
    for entry in entries {
        if let Some(put) = put_of(entry)? {
            puts.push(put)?;
        }
    }
    Ok(puts)
}

/// A copy of the put that an entry issued, if it issued one. A deletion is a put without a value. It allocates memory
/// only where there is a put.
pub(crate) fn put_of(entry: &Entry) -> Result<Option<PutRecord>, Memory>
    ensures put { IfOk result (λ put. put ≡ put_made entry.now.event entry.now.outcome) }
    ensures err { OnErr result (put_made entry.now.event entry.now.outcome ≢ None) }
{
    match (&entry.event, &entry.outcome) {
        (
            NodeEvent::Put {
                key,
                value,
                deps,
                ..
            },
            Outcome::PutDone(version),
        ) => Ok(Some(PutRecord {
            key: key.clone()?,
            value: Some(value.clone()?),
            version: *version,
            deps: deps.clone()?,
        })),
        (NodeEvent::Del { key, deps, .. }, Outcome::Deleted(version)) => Ok(Some(PutRecord {
            key: key.clone()?,
            value: None,
            version: *version,
            deps: deps.clone()?,
        })),
        _ => Ok(None),
    }
}
