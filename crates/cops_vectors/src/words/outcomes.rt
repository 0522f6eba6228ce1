//! The words that describe a node's outcome.

use crate::words::reading::{no_row, u8_of, value, version};
use crate::words::texts::Part::{At, Bytes, Number, Word};
use crate::words::texts::{text, word};
use anyhow::Error;
use cops_node::Outcome;
use cops_types::Refusal;
use std::alloc::Global;

/// The refusals of a node and of the world.
const REFUSALS: [Refusal; 12] = [
    Refusal::ClockExhausted,
    Refusal::ContextFull,
    Refusal::UnknownClient,
    Refusal::NeverSent,
    Refusal::NotHeld,
    Refusal::NoSuchDep,
    Refusal::NoYes,
    Refusal::DepsOpen,
    Refusal::Memory,
    Refusal::UnknownDc,
    Refusal::SessionFull,
    Refusal::NotInFormat,
];

/// The words of an outcome, as a run prints them; those of a get also have the value that it found.
pub fn outcome_text(alloc: Global, outcome: &Outcome) -> Result<String, Error> {
    match outcome {
        Outcome::PutDone(version) => text(alloc, &[Word("done "), At(*version)]),
        Outcome::Deleted(version) => text(alloc, &[Word("deleted "), At(*version)]),
        Outcome::Gone(version) => text(alloc, &[Word("gone "), At(*version)]),
        Outcome::Got(value, version) => {
            let value = Bytes(value.as_bytes());
            text(alloc, &[Word("got "), value, Word(" at "), At(*version)])
        }
        Outcome::Refused(refusal) => {
            let code = Number(u64::from(refusal.code()));
            text(alloc, &[Word("refused "), code])
        }
        Outcome::Missed => word(alloc, "missed"),
        Outcome::Held => word(alloc, "held"),
        Outcome::Repeat => word(alloc, "repeat"),
        Outcome::Yes => word(alloc, "yes"),
        Outcome::Wait => word(alloc, "wait"),
        Outcome::Marked => word(alloc, "marked"),
        Outcome::Settled => word(alloc, "settled"),
    }
}

/// The words of an outcome, which is consumed.
pub fn reported_outcome(alloc: Global, outcome: Outcome) -> Result<String, Error> {
    let reported = outcome_text(alloc, &outcome);
    drop(outcome);
    reported
}

/// The refusal of a code.
fn refusal(code: &str) -> Result<Refusal, Error> {
    let code = u8_of(code)?;
    for refusal in REFUSALS {
        if refusal.code() == code {
            return Ok(refusal);
        }
    }
    Err(no_row())
}

/// The outcome that words describe.
pub fn outcome(alloc: Global, words: &[&str]) -> Result<Outcome, Error> {
    match words {
        ["done", at] => Ok(Outcome::PutDone(version(at)?)),
        ["deleted", at] => Ok(Outcome::Deleted(version(at)?)),
        ["got", bytes, "at", at] => {
            let version = version(at)?;
            let value = value(alloc, bytes)?;
            Ok(Outcome::Got(value, version))
        }
        ["gone", at] => Ok(Outcome::Gone(version(at)?)),
        ["refused", code] => Ok(Outcome::Refused(refusal(code)?)),
        ["missed"] => Ok(Outcome::Missed),
        ["held"] => Ok(Outcome::Held),
        ["repeat"] => Ok(Outcome::Repeat),
        ["yes"] => Ok(Outcome::Yes),
        ["wait"] => Ok(Outcome::Wait),
        ["marked"] => Ok(Outcome::Marked),
        ["settled"] => Ok(Outcome::Settled),
        _ => Err(no_row()),
    }
}
