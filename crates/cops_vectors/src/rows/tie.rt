//! Test cases of tying the books of a run to one world.

use crate::rows::book::entries_text;
use crate::rows::trace::add_op;
use crate::words::Part::{Count, Word};
use crate::words::{no_row, node_event, outcome, parts, text, u64_of, word};
use anyhow::{Error, bail};
use cops_core::Setting;
use cops_scenario::Scenario;
use cops_tie::{Entry, tie};
use cops_trace::Trace;
use std::alloc::Global;
use std::slice;

/// The book of a scenario's one node, and what its clients saw.
#[derive(Drop)]
pub struct TieRun {
    setting: Setting,
    book: Vec<Entry>,
    trace: Trace,
}

/// A run of a scenario before the first event.
fn run_of(alloc: Global, scenario: &Scenario) -> Result<TieRun, Error> {
    let trace = Trace::new_in(scenario.format(), alloc, scenario.clients().len() as u16)?;
    let setting = scenario.setting(alloc)?;
    Ok(TieRun {
        setting,
        book: Vec::new(alloc),
        trace,
    })
}

/// Like `run_of`, of the scenario in a text.
fn open(alloc: Global, text: &str) -> Result<TieRun, Error> {
    let scenario = Scenario::from_json(alloc, text.as_bytes())?;
    let run = run_of(alloc, &scenario);
    drop(scenario);
    run
}

/// Replaces the run by a new one.
fn begin(alloc: Global, run: &mut Option<TieRun>, text: &str) -> Result<String, Error> {
    drop(run.replace(open(alloc, text)?));
    word(alloc, "opened")
}

/// An entry of a ticket, of an event and of an outcome.
fn made(alloc: Global, ticket: u64, event: &[&str], reported: &[&str]) -> Result<Entry, Error> {
    let event = node_event(alloc, event)?;
    match outcome(alloc, reported) {
        Ok(outcome) => Ok(Entry {
            ticket,
            event,
            outcome,
        }),
        Err(error) => {
            drop(event);
            Err(error)
        }
    }
}

/// An entry, with `->` between its event and its outcome.
fn entry(alloc: Global, ticket: &str, words: &[&str]) -> Result<Entry, Error> {
    let ticket = u64_of(ticket)?;
    let sides = parts(alloc, words, "->")?;
    match sides.as_slice() {
        [event, outcome, ..] => made(alloc, ticket, event, outcome),
        _ => Err(no_row()),
    }
}

/// Adds an entry to the book.
fn enter(
    alloc: Global,
    book: &mut Vec<Entry>,
    ticket: &str,
    words: &[&str],
) -> Result<String, Error> {
    book.push(entry(alloc, ticket, words)?)?;
    entries_text(alloc, book.len())
}

fn record(alloc: Global, trace: &mut Trace, client: &str, op: &[&str]) -> Result<String, Error> {
    add_op(alloc, trace, client, op)?;
    text(alloc, &[Count(trace.len()), Word(" records")])
}

/// The number of events in the book, if it ties.
fn tied(alloc: Global, run: &TieRun) -> Result<String, Error> {
    let books = slice::from_ref(&run.book);
    if books.len() != run.setting.dcs() as usize * run.setting.nodes() as usize {
        bail!("there is more than one node");
    }
    let events = tie(alloc, &run.setting, books, &run.trace)?;
    let count = events.len();
    drop(events);
    text(alloc, &[Count(count), Word(" events")])
}

/// The answer to a call on the current run.
fn ask_any(alloc: Global, run: &mut TieRun, words: &[&str]) -> Result<String, Error> {
    match words {
        ["entry", ticket, rest @ ..] => enter(alloc, &mut run.book, ticket, rest),
        ["record", client, op @ ..] => record(alloc, &mut run.trace, client, op),
        ["books"] => tied(alloc, run),
        _ => Err(no_row()),
    }
}

/// The answer to a call.
pub fn answer(alloc: Global, run: &mut Option<TieRun>, words: &[&str]) -> Result<String, Error> {
    if let ["new", text] = words {
        return begin(alloc, run, text);
    }
    match run {
        Some(run) => ask_any(alloc, run, words),
        None => bail!("there is no run"),
    }
}
