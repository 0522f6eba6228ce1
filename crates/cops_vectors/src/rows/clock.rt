//! Test cases of a node's clock.

use crate::words::Part::{At, Number, Word};
use crate::words::{no_row, node_of, text, version};
use anyhow::Error;
use cops_types::Clock;
use std::alloc::Global;

/// The clock's reading.
fn reported(alloc: Global, clock: &Clock) -> Result<String, Error> {
    text(alloc, &[Word("at "), Number(clock.clock())])
}

/// The answer to a call.
pub fn answer(alloc: Global, clock: &mut Clock, words: &[&str]) -> Result<String, Error> {
    match words {
        ["new", number] => *clock = Clock::new(node_of(number)?),
        ["raise", at] => clock.raise(version(at)?),
        ["next"] => return text(alloc, &[At(clock.next()?)]),
        ["reading"] => {}
        _ => return Err(no_row()),
    }
    reported(alloc, clock)
}
