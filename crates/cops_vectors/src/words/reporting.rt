//! The words that describe pairs, values, operations and sessions.

use crate::words::reading::u16_of;
use crate::words::texts::Part::{At, Bytes, Count, Word};
use crate::words::texts::{text, word};
use anyhow::Error;
use cops_types::{Dep, History, Key, OpRef, Value, Version};
use std::alloc::Global;

/// `yes` or `no`.
pub fn yes_or_no(alloc: Global, is: bool) -> Result<String, Error> {
    let answer = if is { "yes" } else { "no" };
    word(alloc, answer)
}

/// What was found for a key: `VALUE at VERSION` or `deleted at VERSION`.
fn found_text(alloc: Global, value: Option<&Value>, version: Version) -> Result<String, Error> {
    let value = match value {
        Some(value) => Bytes(value.as_bytes()),
        None => Word("deleted"),
    };
    text(alloc, &[value, Word(" at "), At(version)])
}

/// What a key shows: what was found for it, or `nothing`.
pub fn shown_text(
    alloc: Global,
    shown: &Option<(Option<&Value>, Version)>,
) -> Result<String, Error> {
    match shown {
        Some((value, version)) => found_text(alloc, *value, *version),
        None => word(alloc, "nothing"),
    }
}

/// `KEY@VERSION`.
pub fn pair_text(alloc: Global, pair: &Dep) -> Result<String, Error> {
    text(
        alloc,
        &[Bytes(pair.key.as_bytes()), Word("@"), At(pair.version)],
    )
}

/// An operation on a key, with the version of its value or of its deletion.
fn done_text<'a>(
    alloc: Global,
    done: (&'a str, &'a str),
    key: &'a Key,
    value: Option<&'a Value>,
    version: Version,
) -> Result<String, Error> {
    let (key, at) = (Bytes(key.as_bytes()), At(version));
    match value {
        Some(value) => {
            let value = Bytes(value.as_bytes());
            text(
                alloc,
                &[Word(done.0), key, Word("="), value, Word(" at "), at],
            )
        }
        None => text(alloc, &[Word(done.1), key, Word(" at "), at]),
    }
}

/// The text of a client's operation: `KEY=VALUE at VERSION` after what it did, and without a value `KEY at VERSION`.
pub fn op_text(alloc: Global, op: &OpRef<'_>) -> Result<String, Error> {
    match op {
        OpRef::Put {
            key,
            value,
            version,
        } => done_text(alloc, ("put ", "del "), key, *value, **version),
        OpRef::Got {
            key,
            value,
            version,
        } => done_text(alloc, ("got ", "gone "), key, *value, **version),
        OpRef::Missed { key } => text(alloc, &[Word("missed "), Bytes(key.as_bytes())]),
    }
}

/// How many operations a client has.
pub fn session_text(alloc: Global, history: &History, client: &str) -> Result<String, Error> {
    let operations = history.session_len(u16_of(client)?);
    text(alloc, &[Count(operations), Word(" operations")])
}
