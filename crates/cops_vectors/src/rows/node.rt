//! Test cases of one node.

use crate::words::Part::{Number, Word};
use crate::words::{
    key, mark, node_event, node_of, pair_text, reported_outcome, shown_text, text, word,
};
use anyhow::Error;
use cops_node::{Node, NodeEvent, Outcome};
use std::alloc::Global;

/// Replaces the node by a new one.
fn begin(alloc: Global, node: &mut Node, number: &str) -> Result<String, Error> {
    let opened = Node::open(alloc, node_of(number)?);
    drop(std::mem::replace(node, opened));
    text(alloc, &[Word("node "), Number(u64::from(node.number()))])
}

/// Applies an event to the node by the event's own call.
fn taken(node: &mut Node, event: NodeEvent) -> Outcome {
    match event {
        NodeEvent::Put {
            client,
            key,
            value,
            deps,
        } => node.put(client, key, value, deps),
        NodeEvent::Del { client, key, deps } => node.del(client, key, deps),
        NodeEvent::Get { client, key } => {
            let outcome = node.get(client, &key);
            drop(key);
            outcome
        }
        NodeEvent::Deliver(put) => node.deliver(put),
        NodeEvent::Ask { key, version } => {
            let outcome = node.ask(&key, version);
            drop(key);
            outcome
        }
        NodeEvent::Mark { version, dep } => node.mark(version, dep),
        NodeEvent::Settle { version } => node.settle(version),
    }
}

fn step(alloc: Global, node: &mut Node, words: &[&str]) -> Result<String, Error> {
    let event = node_event(alloc, words)?;
    reported_outcome(alloc, node.step(event))
}

fn call(alloc: Global, node: &mut Node, words: &[&str]) -> Result<String, Error> {
    let event = node_event(alloc, words)?;
    reported_outcome(alloc, taken(node, event))
}

/// The node's clock, and the counts of its parts.
fn status(alloc: Global, node: &Node) -> Result<String, Error> {
    let status = node.status();
    let parts = [
        Word("clock "),
        Number(status.clock),
        Word(", keys "),
        Number(status.keys),
        Word(", settled "),
        Number(status.settled),
        Word(", held "),
        Number(status.held),
    ];
    text(alloc, &parts)
}

fn shown(alloc: Global, node: &Node, name: &str) -> Result<String, Error> {
    let key = key(alloc, name)?;
    let reported = shown_text(alloc, &node.shown(&key));
    drop(key);
    reported
}

fn dep_of(alloc: Global, node: &Node, words: &[&str]) -> Result<String, Error> {
    let (version, dep) = mark(words)?;
    match node.dep_of(version, dep) {
        Some(pair) => pair_text(alloc, pair),
        None => word(alloc, "nothing"),
    }
}

/// The answer to a call.
pub fn answer(alloc: Global, node: &mut Node, words: &[&str]) -> Result<String, Error> {
    match words {
        ["new", number] => begin(alloc, node, number),
        ["status"] => status(alloc, node),
        ["shown", name] => shown(alloc, node, name),
        ["dep", rest @ ..] => dep_of(alloc, node, rest),
        ["step", rest @ ..] => step(alloc, node, rest),
        _ => call(alloc, node, words),
    }
}
