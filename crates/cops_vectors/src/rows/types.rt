//! Test cases of keys, values, versions and dependencies.

use crate::rows::history;
use crate::words::Part::{At, Count, Number, Word};
use crate::words::{
    deps, format_of, key, no_row, op, op_text, pair, pair_text, text, u64_of, usize_of, value,
    version, version_of, yes_or_no,
};
use anyhow::Error;
use cops_types::{Format, Key, Value, Version};
use std::alloc::Global;

/// As many bytes as the word says.
fn letters(alloc: Global, count: &str) -> Result<Vec<u8>, Error> {
    let count = usize_of(count)?;
    Ok(vec![in alloc; b'k'; count]?)
}

/// How many bytes there are.
fn length(alloc: Global, bytes: &[u8]) -> Result<String, Error> {
    text(alloc, &[Count(bytes.len()), Word(" bytes")])
}

fn key_of(alloc: Global, count: &str) -> Result<String, Error> {
    let letters = letters(alloc, count)?;
    let key = Key::new(alloc, &letters)?;
    let reported = length(alloc, key.as_bytes());
    drop(key);
    reported
}

/// The value with a number of bytes, in a format.
fn value_of(alloc: Global, count: &str, format: Format) -> Result<String, Error> {
    let letters = letters(alloc, count)?;
    let value = Value::new_in(format, alloc, &letters)?;
    let reported = length(alloc, value.as_bytes());
    drop(value);
    reported
}

/// Whether two keys are equal, or else whether the first is less than the other.
fn keys(alloc: Global, is_same: bool, one: &str, other: &str) -> Result<String, Error> {
    let one = key(alloc, one)?;
    let other = key(alloc, other)?;
    let are = if is_same { one.is(&other) } else { one < other };
    drop(one);
    drop(other);
    yes_or_no(alloc, are)
}

fn same_values(alloc: Global, one: &str, other: &str) -> Result<String, Error> {
    let one = Value::new(alloc, one.as_bytes())?;
    let other = value(alloc, other)?;
    let are = one.is(&other);
    drop(one);
    drop(other);
    yes_or_no(alloc, are)
}

/// A version's number, and the data centre of its node.
fn number(alloc: Global, clock: &str, node: &str) -> Result<String, Error> {
    let version = version_of(clock, node)?;
    let (number, dc) = (version.as_u64(), u64::from(version.dc()));
    text(
        alloc,
        &[Number(number), Word(" of data centre "), Number(dc)],
    )
}

/// The version of a number.
fn numbered(alloc: Global, number: &str) -> Result<String, Error> {
    let version = Version::from_u64(u64_of(number)?)?;
    let (clock, node) = (version.clock(), u64::from(version.node()));
    text(
        alloc,
        &[Word("clock "), Number(clock), Word(", node "), Number(node)],
    )
}

/// The text of an operation's name, and of its version.
fn name(alloc: Global, client: &str, index: &str, at: &str) -> Result<String, Error> {
    let name = history::name(client, index)?;
    let version = version(at)?;
    let reported = format!(in alloc; "{name}")?;
    text(alloc, &[Word(&reported), Word(" at "), At(version)])
}

fn pairs(alloc: Global, word: &str) -> Result<String, Error> {
    let deps = deps(alloc, word)?;
    let count = deps.as_slice().len();
    drop(deps);
    text(alloc, &[Count(count), Word(" pairs")])
}

/// A copy of a client's operation.
fn op_copy(alloc: Global, words: &[&str]) -> Result<String, Error> {
    let op = op(alloc, words)?;
    let copy: Result<_, _> = op.clone();
    drop(op);
    let copy = copy?;
    let reported = op_text(alloc, &copy.as_ref());
    drop(copy);
    reported
}

fn pair_copy(alloc: Global, words: &[&str]) -> Result<String, Error> {
    let pair = pair(alloc, words)?;
    let copy: Result<_, _> = pair.clone();
    drop(pair);
    let copy = copy?;
    let reported = pair_text(alloc, &copy);
    drop(copy);
    reported
}

/// The limits of a format.
fn limits(alloc: Global, format: Format) -> Result<String, Error> {
    let (body, deps) = (Count(format.longest_body()), Count(format.most_deps()));
    text(
        alloc,
        &[
            Word("bodies of "),
            body,
            Word(" bytes, "),
            deps,
            Word(" pairs"),
        ],
    )
}

/// The answer to a call.
pub fn answer(alloc: Global, words: &[&str]) -> Result<String, Error> {
    match words {
        ["key", count] => key_of(alloc, count),
        ["value", count] => value_of(alloc, count, Format::One),
        ["value", count, format] => value_of(alloc, count, format_of(format)?),
        ["keys", one, "is", other] => keys(alloc, true, one, other),
        ["keys", one, "before", other] => keys(alloc, false, one, other),
        ["values", one, "is", other] => same_values(alloc, one, other),
        ["version", clock, node] => number(alloc, clock, node),
        ["number", number] => numbered(alloc, number),
        ["name", client, index, at] => name(alloc, client, index, at),
        ["deps", word] => pairs(alloc, word),
        ["copy", "pair", rest @ ..] => pair_copy(alloc, rest),
        ["copy", rest @ ..] => op_copy(alloc, rest),
        ["limits", format] => limits(alloc, format_of(format)?),
        _ => Err(no_row()),
    }
}
