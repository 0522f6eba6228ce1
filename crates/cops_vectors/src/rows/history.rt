//! Test cases of histories.

use crate::words::Part::{Count, Word};
use crate::words::{
    add_behind, no_row, op, op_text, session_text, text, u16_of, u32_of, word, yes_or_no,
};
use anyhow::{Error, bail};
use cops_types::{History, OpName, OpRef, SessionRef};
use std::alloc::Global;

/// How many clients there are, and how many operations.
fn counts(alloc: Global, history: &History) -> Result<String, Error> {
    let (clients, operations) = (Count(history.clients()), Count(history.len()));
    text(
        alloc,
        &[clients, Word(" clients, "), operations, Word(" operations")],
    )
}

/// Replaces the history by a new one.
fn begin(alloc: Global, history: &mut Option<History>, clients: &str) -> Result<String, Error> {
    let opened = History::new(alloc, u16_of(clients)?)?;
    let reported = counts(alloc, &opened);
    drop(history.replace(opened));
    reported
}

fn reserve(alloc: Global, history: &mut History, client: &str) -> Result<String, Error> {
    history.reserve(u16_of(client)?)?;
    counts(alloc, history)
}

fn push(
    alloc: Global,
    history: &mut History,
    client: &str,
    words: &[&str],
) -> Result<String, Error> {
    let client = u16_of(client)?;
    let op = op(alloc, words)?;
    history.push(client, op)?;
    counts(alloc, history)
}

/// The name `CLIENT INDEX` of an operation.
pub fn name(client: &str, index: &str) -> Result<OpName, Error> {
    let client = u16_of(client)?;
    let index = u32_of(index)?;
    Ok(OpName { client, index })
}

/// The text of an operation, if there is one.
fn some_text(alloc: Global, op: Option<OpRef<'_>>) -> Result<String, Error> {
    match op {
        Some(op) => op_text(alloc, &op),
        None => word(alloc, "nothing"),
    }
}

/// The operation of a name.
pub fn op_at(alloc: Global, history: &History, client: &str, index: &str) -> Result<String, Error> {
    some_text(alloc, history.op(name(client, index)?))
}

/// The operations of a session, one after the other.
fn listed(alloc: Global, session: &SessionRef<'_>) -> Result<String, Error> {
    let mut listed = String::new(alloc);
    for op in session.iter() {
        let one = op_text(alloc, &op)?;
        add_behind(&mut listed, " / ", &one)?;
    }
    Ok(listed)
}

/// The operations of a client's session, or the one at an index.
fn operations(
    alloc: Global,
    history: &History,
    client: &str,
    rest: &[&str],
) -> Result<String, Error> {
    let session = history.session(u16_of(client)?);
    if session.is_empty() {
        return word(alloc, "none");
    }
    let [index] = rest else {
        return listed(alloc, &session);
    };
    match session.get(u32_of(index)?) {
        Some(op) => op_text(alloc, &op),
        None => text(alloc, &[Word("none of "), Count(session.len())]),
    }
}

/// The index of the pending read of a name.
fn pending_number(alloc: Global, history: &History, name: OpName) -> Result<String, Error> {
    match history.pending_number(name) {
        Some(number) => text(alloc, &[Word("number "), Count(number as usize)]),
        None => word(alloc, "none"),
    }
}

/// The answer to a call on the current history.
fn ask_any(alloc: Global, history: &mut History, words: &[&str]) -> Result<String, Error> {
    match words {
        ["counts"] => counts(alloc, history),
        ["empty"] => yes_or_no(alloc, history.is_empty()),
        ["reserve", client] => reserve(alloc, history, client),
        ["push", client, op @ ..] => push(alloc, history, client, op),
        ["session", client] => session_text(alloc, history, client),
        ["op", client, index] => op_at(alloc, history, client, index),
        ["operations", client, rest @ ..] => operations(alloc, history, client, rest),
        ["pending"] => text(
            alloc,
            &[Count(history.pending_reads()), Word(" pending reads")],
        ),
        ["pending", number] => some_text(alloc, history.pending_read(u32_of(number)?)),
        ["pending", client, index] => pending_number(alloc, history, name(client, index)?),
        ["above"] => yes_or_no(alloc, history.are_puts_above()),
        ["above", client] => yes_or_no(alloc, history.is_session_above(u16_of(client)?)),
        _ => Err(no_row()),
    }
}

/// The answer to a call.
pub fn answer(
    alloc: Global,
    history: &mut Option<History>,
    words: &[&str],
) -> Result<String, Error> {
    if let ["new", clients] = words {
        return begin(alloc, history, clients);
    }
    match history {
        Some(history) => ask_any(alloc, history, words),
        None => bail!("there is no history"),
    }
}
