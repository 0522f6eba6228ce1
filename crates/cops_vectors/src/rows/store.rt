//! Test cases of a node's settled puts.

use crate::rows::replaced;
use crate::words::Part::{Count, Word};
use crate::words::{key, no_row, pair, shown_text, text, value, version, word, yes_or_no};
use anyhow::Error;
use cops_store::{Settled, Store};
use cops_types::Dep;
use std::alloc::Global;

/// How many keys there are, and how many pairs.
fn counts(alloc: Global, store: &Store) -> Result<String, Error> {
    let (keys, pairs) = (Count(store.keys()), Count(store.settled()));
    text(alloc, &[keys, Word(" keys, "), pairs, Word(" pairs")])
}

fn reported(alloc: Global, settled: Settled) -> Result<String, Error> {
    let reported = match settled {
        Settled::Shown => "Shown",
        Settled::Older => "Older",
        Settled::Repeat => "Repeat",
    };
    word(alloc, reported)
}

/// Settles a put `KEY VALUE VERSION`, or a deletion `KEY VERSION`.
fn settle(alloc: Global, store: &mut Store, words: &[&str]) -> Result<String, Error> {
    if let [_, _] = words {
        let Dep { key, version } = pair(alloc, words)?;
        return reported(alloc, store.settle(key, None, version)?);
    }
    let [name, bytes, at] = words else {
        return Err(no_row());
    };
    let version = version(at)?;
    let key = key(alloc, name)?;
    let value = value(alloc, bytes)?;
    reported(alloc, store.settle(key, Some(value), version)?)
}

fn has(alloc: Global, store: &Store, words: &[&str]) -> Result<String, Error> {
    let pair = pair(alloc, words)?;
    let has = store.has(&pair.key, pair.version);
    drop(pair);
    yes_or_no(alloc, has)
}

fn get(alloc: Global, store: &Store, name: &str) -> Result<String, Error> {
    let key = key(alloc, name)?;
    let reported = shown_text(alloc, &store.get(&key));
    drop(key);
    reported
}

/// The answer to a call.
pub fn answer(alloc: Global, store: &mut Store, words: &[&str]) -> Result<String, Error> {
    match words {
        ["new"] => counts(alloc, replaced(store, Store::new(alloc))),
        ["counts"] => counts(alloc, store),
        ["settle", rest @ ..] => settle(alloc, store, rest),
        ["has", rest @ ..] => has(alloc, store, rest),
        ["get", name] => get(alloc, store, name),
        _ => Err(no_row()),
    }
}
