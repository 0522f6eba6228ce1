//! Test cases of a client's context.

use crate::words::Part::{Count, Word};
use crate::words::{format_of, joined, key, no_row, pair, pair_text, text, u64_of, yes_or_no};
use anyhow::Error;
use cops_context::Context;
use cops_types::{Dep, Version};
use std::alloc::Global;

/// How many pairs there are, and whether there is room for one more.
fn counts(alloc: Global, context: &Context) -> Result<String, Error> {
    let pairs = Count(context.len());
    let room = if context.has_room() {
        " pairs, room"
    } else {
        " pairs, full"
    };
    text(alloc, &[pairs, Word(room)])
}

/// The context's pairs in their order, `KEY@VERSION KEY@VERSION..`.
fn deps(alloc: Global, context: &Context) -> Result<String, Error> {
    let deps = context.deps()?;
    let reported = joined(alloc, deps.as_slice(), " ", pair_text);
    drop(deps);
    reported
}

/// Replaces the context by an empty one.
fn begin(alloc: Global, context: &mut Context, empty: Context) -> Result<String, Error> {
    drop(std::mem::replace(context, empty));
    counts(alloc, context)
}

/// Adds pairs of one key with the clocks from 1 up to the given number.
fn fill(alloc: Global, context: &mut Context, most: &str) -> Result<String, Error> {
    for clock in 1..=u64_of(most)? {
        let version = Version::new(clock, 0)?;
        let key = key(alloc, "k")?;
        context.add(Dep { key, version })?;
    }
    counts(alloc, context)
}

/// The answer to a call. A pair is added whether or not room was reserved for it.
pub fn answer(alloc: Global, context: &mut Context, words: &[&str]) -> Result<String, Error> {
    match words {
        ["new"] => return begin(alloc, context, Context::new(alloc)),
        ["new", format] => {
            return begin(alloc, context, Context::new_in(format_of(format)?, alloc));
        }
        ["fill", most] => return fill(alloc, context, most),
        ["empty"] => return yes_or_no(alloc, context.is_empty()),
        ["deps"] => return deps(alloc, context),
        ["add", rest @ ..] => context.add(pair(alloc, rest)?)?,
        ["replace", rest @ ..] => context.replace(pair(alloc, rest)?),
        ["reserve"] => context.reserve()?,
        ["counts"] => {}
        _ => return Err(no_row()),
    }
    counts(alloc, context)
}
