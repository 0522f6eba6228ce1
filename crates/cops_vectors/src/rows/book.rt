//! Test cases of a node's book.

use crate::words::Part::{At, Count, Number, Word};
use crate::words::{
    no_row, node_event, node_of, outcome_text, reported_outcome, text, u64_of, usize_of,
};
use anyhow::{Error, bail};
use cops_node::NodeEvent;
use cops_tie::{Book, Entry};
use cops_types::Version;
use std::alloc::Global;

/// `COUNT entries`.
pub fn entries_text(alloc: Global, count: usize) -> Result<String, Error> {
    text(alloc, &[Count(count), Word(" entries")])
}

/// Replaces the book by a new one.
fn begin(alloc: Global, book: &mut Book, number: &str) -> Result<String, Error> {
    let opened = Book::open(alloc, node_of(number)?);
    drop(std::mem::replace(book, opened));
    entries_text(alloc, book.entries().len())
}

fn step(alloc: Global, book: &mut Book, ticket: &str, event: &[&str]) -> Result<String, Error> {
    let ticket = u64_of(ticket)?;
    let event = node_event(alloc, event)?;
    reported_outcome(alloc, book.step(ticket, event))
}

/// An event about a version.
fn about(alloc: Global, event: &str, version: Version) -> Result<String, Error> {
    text(alloc, &[Word(event), At(version)])
}

/// An event of a client.
fn of_client(alloc: Global, event: &str, client: u16) -> Result<String, Error> {
    text(alloc, &[Word(event), Number(u64::from(client))])
}

fn mark_text(alloc: Global, version: Version, dep: u16) -> Result<String, Error> {
    text(
        alloc,
        &[
            Word("mark "),
            At(version),
            Word(" "),
            Number(u64::from(dep)),
        ],
    )
}

/// What a node's event is, and which client or version it is of.
fn event_text(alloc: Global, event: &NodeEvent) -> Result<String, Error> {
    match event {
        NodeEvent::Put { client, .. } => of_client(alloc, "put of client ", *client),
        NodeEvent::Del { client, .. } => of_client(alloc, "deletion of client ", *client),
        NodeEvent::Get { client, .. } => of_client(alloc, "get of client ", *client),
        NodeEvent::Deliver(put) => about(alloc, "deliver ", put.version),
        NodeEvent::Ask { version, .. } => about(alloc, "ask ", *version),
        NodeEvent::Mark { version, dep } => mark_text(alloc, *version, *dep),
        NodeEvent::Settle { version } => about(alloc, "settle ", *version),
    }
}

fn entry_line<'a>(
    alloc: Global,
    ticket: u64,
    event: &'a str,
    outcome: &'a str,
) -> Result<String, Error> {
    let parts = [
        Number(ticket),
        Word(": "),
        Word(event),
        Word(": "),
        Word(outcome),
    ];
    text(alloc, &parts)
}

/// An entry: its ticket, its event and its outcome.
fn entry_text(alloc: Global, entry: &Entry) -> Result<String, Error> {
    let event = event_text(alloc, &entry.event)?;
    let outcome = outcome_text(alloc, &entry.outcome)?;
    entry_line(alloc, entry.ticket, &event, &outcome)
}

/// The entry at an index.
fn entry(alloc: Global, book: &Book, index: &str) -> Result<String, Error> {
    match book.entries().get(usize_of(index)?) {
        Some(entry) => entry_text(alloc, entry),
        None => bail!("there is no such entry"),
    }
}

/// The node of the book.
fn node(alloc: Global, book: &Book) -> Result<String, Error> {
    let status = book.node().status();
    let (clock, settled) = (status.clock, status.settled);
    text(
        alloc,
        &[
            Word("clock "),
            Number(clock),
            Word(", settled "),
            Number(settled),
        ],
    )
}

/// Closes the book, and begins one of node 0.
fn close(alloc: Global, book: &mut Book) -> Result<String, Error> {
    let entries = std::mem::replace(book, Book::open(alloc, 0)).into_entries();
    let count = entries.len();
    drop(entries);
    entries_text(alloc, count)
}

/// The answer to a call.
pub fn answer(alloc: Global, book: &mut Book, words: &[&str]) -> Result<String, Error> {
    match words {
        ["new", number] => begin(alloc, book, number),
        ["step", ticket, event @ ..] => step(alloc, book, ticket, event),
        ["entry", index] => entry(alloc, book, index),
        ["counts"] => entries_text(alloc, book.entries().len()),
        ["node"] => node(alloc, book),
        ["close"] => close(alloc, book),
        _ => Err(no_row()),
    }
}
