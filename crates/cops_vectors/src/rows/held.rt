//! Test cases of the puts that wait at a node.

use crate::rows::replaced;
use crate::words::Part::{At, Bytes, Count, Number, Word};
use crate::words::{mark, no_row, put, text, version, word, yes_or_no};
use anyhow::Error;
use cops_held::{Held, HeldFault, Taken};
use cops_types::PutRecord;
use std::alloc::Global;

/// How many puts wait.
fn counts(alloc: Global, held: &Held) -> Result<String, Error> {
    text(alloc, &[Count(held.len()), Word(" puts")])
}

fn hold(alloc: Global, held: &mut Held, words: &[&str]) -> Result<String, Error> {
    let taken = match held.hold(put(alloc, words)?)? {
        Taken::New => "New",
        Taken::Repeat => "Repeat",
    };
    word(alloc, taken)
}

/// A fault's code and its text.
fn refused(alloc: Global, fault: HeldFault) -> Result<String, Error> {
    let reported = format!(in alloc; "{fault}")?;
    let code = match fault {
        HeldFault::NotHeld => 1,
        HeldFault::NoSuchDep => 2,
        HeldFault::DepsOpen => 3,
    };
    text(
        alloc,
        &[Word("refused "), Number(code), Word(": "), Word(&reported)],
    )
}

/// The indexes of the dependencies that are not marked.
fn open(alloc: Global, held: &Held, at: &str) -> Result<String, Error> {
    let open = held.open_deps(version(at)?)?;
    Ok(format!(in alloc; "{open:?}")?)
}

fn marked(alloc: Global, held: &mut Held, words: &[&str]) -> Result<String, Error> {
    let (version, dep) = mark(words)?;
    match held.mark(version, dep) {
        Ok(()) => word(alloc, "marked"),
        Err(fault) => refused(alloc, fault),
    }
}

/// `KEY=VALUE at VERSION`, or `del KEY at VERSION`.
fn put_text(alloc: Global, put: &PutRecord) -> Result<String, Error> {
    let (key, at) = (Bytes(put.key.as_bytes()), At(put.version));
    match &put.value {
        Some(value) => {
            let value = Bytes(value.as_bytes());
            text(alloc, &[key, Word("="), value, Word(" at "), at])
        }
        None => text(alloc, &[Word("del "), key, Word(" at "), at]),
    }
}

fn take(alloc: Global, held: &mut Held, at: &str) -> Result<String, Error> {
    match held.take_ready(version(at)?) {
        Ok(put) => {
            let reported = put_text(alloc, &put);
            drop(put);
            reported
        }
        Err(fault) => refused(alloc, fault),
    }
}

/// The answer to a call.
pub fn answer(alloc: Global, held: &mut Held, words: &[&str]) -> Result<String, Error> {
    match words {
        ["new"] => counts(alloc, replaced(held, Held::new(alloc))),
        ["counts"] => counts(alloc, held),
        ["hold", rest @ ..] => hold(alloc, held, rest),
        ["open", at] => open(alloc, held, at),
        ["has", at] => yes_or_no(alloc, held.record(version(at)?).is_some()),
        ["mark", rest @ ..] => marked(alloc, held, rest),
        ["take", at] => take(alloc, held, at),
        _ => Err(no_row()),
    }
}
