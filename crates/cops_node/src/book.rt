ghost use Rattle.std.specs.Prelude.{◌≡◌, IfOk, OnErr};
ghost use Rattle.cops_node.specs.Node.{node_step};

use crate::entry::Entry;
use crate::event::NodeEvent;
use crate::node::Node;
use crate::outcome::Outcome;
use cops_types::{Memory, Refusal};
use std::alloc::Global;
use std::marker::Model;

/// A node together with the log of its steps. Replaying the entries from an empty node leads to the node.
#[derive(Drop)]
pub struct Book {
    pub(crate) node: Node,
    pub(crate) entries: Vec<Entry>,
}

/// A node's answer to an event.
#[derive(Drop)]
struct StepOutcome {
    outcome: Outcome,
    /// A copy of the outcome.
    copy: Outcome,
}

impl Model for Book {
    ghost use Rattle.cops_node.specs.Node.{opened};
    ghost use Rattle.cops_node.specs.Book.{ABook, Replays};

    ghost Value = { ABook };

    ghost view = { λ b. record { node = b.node; entries = b.entries.items } };

    ghost invariant = { λ b. Replays (opened b.node.number) b.entries.items b.node };
}

impl Book {
    ghost use Rattle.std.specs.Prelude.{◌≡◌, ◌≢◌, ◌<◌, [], ◌∷◌, ◌++◌};
    ghost use Rattle.cops_types.specs.declared.limits.TheConstants.{NODES};
    ghost use Rattle.cops_types.specs.declared.refusal.Refusal.TheVariants.{Memory as OutOfMemory};
    ghost use Rattle.cops_node.specs.declared.outcome.Outcome.TheVariants.{Refused};
    ghost use Rattle.cops_node.specs.Node.{opened, node_step};
    ghost use Rattle.cops_node.specs.Book.{Replays, entry};

    /// The book of a node to which nothing has happened. It allocates no memory. The node's number must be below 1,024.
    pub fn open(alloc: Global, node: u16) -> Self
        requires { node < NODES }
        ensures { result ≡ record { node = opened node; entries = [] } }
    {
        Book {
            node: Node::open(alloc, node),
            entries: Vec::new(alloc),
        }
    }

    /// Applies one event to the node, and appends its entry. When memory runs out, the event is refused with `Memory`
    /// (code 9), nothing changes and no entry is made.
    pub fn step(&mut self, ticket: u64, event: NodeEvent) -> Outcome
        ensures memory { result ≡ Refused OutOfMemory → self.new ≡ self.old }
        ensures stepped { result ≢ Refused OutOfMemory → node_step self.old.node event ≡ (result, self.new.node) }
        ensures entered { result ≢ Refused OutOfMemory → self.new.entries ≡ self.old.entries ++ entry ticket event result ∷ [] }
    {
        if self.entries.reserve(1).is_err() {
            return Outcome::Refused(Refusal::Memory);
        }
        let Ok(kept) = event.clone() else {
            return Outcome::Refused(Refusal::Memory);
        };
        let Ok(answer) = answered(&mut self.node, event) else {
            return Outcome::Refused(Refusal::Memory);
        };
        let StepOutcome { outcome, copy } = answer;
        self.entries.push_reserved(Entry {
            ticket,
            event: kept,
            outcome: copy,
        });
        outcome
    }

    /// The node.
    pub fn node(&self) -> &Node
        ensures { result.now ≡ self.now.node }
    {
        &self.node
    }

    /// The entries. Replaying them from an empty node leads to the node.
    pub fn entries(&self) -> &[Entry]
        ensures entries { result.now ≡ self.now.entries }
        ensures replays { Replays (opened self.now.node.number) self.now.entries self.now.node }
    {
        &self.entries
    }

    /// Consumes the book and returns its entries.
    pub fn into_entries(self) -> Vec<Entry>
        ensures entries { result.items ≡ self.entries }
        ensures replays { Replays (opened self.node.number) result.items self.node }
    {
        let Book { node: _, entries } = self;
        entries
    }
}

/// Applies one event to the node, and copies its answer. On `Memory` nothing changes.
fn answered(node: &mut Node, event: NodeEvent) -> Result<StepOutcome, Memory>
    ensures memory { OnErr result (node.new ≡ node.old) }
    ensures stepped { IfOk result (λ answer. node_step node.old event ≡ (answer.outcome, node.new)) }
    ensures copied { IfOk result (λ answer. answer.copy ≡ answer.outcome) }
{
    let outcome = stepped(node, event)?;
    let copy = outcome.copy()?;
    Ok(StepOutcome { outcome, copy })
}

/// Applies one event to the node. On `Memory` nothing changes.
pub(crate) fn stepped(node: &mut Node, event: NodeEvent) -> Result<Outcome, Memory>
    ensures memory { OnErr result (node.new ≡ node.old) }
    ensures stepped { IfOk result (λ outcome. node_step node.old event ≡ (outcome, node.new)) }
{
    let outcome = node.step(event);
    if outcome.is_memory() {
        drop(outcome);
        return Err(Memory);
    }
    Ok(outcome)
}
