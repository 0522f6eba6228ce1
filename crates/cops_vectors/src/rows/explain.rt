//! Test cases of explanations.

use crate::words::{add_behind, lossy, no_row, u32_of, word};
use anyhow::{Error, bail};
use cops_audit::judge;
use cops_explain::{NamedHistory, Naming, explain};
use cops_trace::Trace;
use cops_types::{History, Selection};
use std::alloc::Global;

/// The selection of faults that words ask for.
fn read_asked(words: &[&str]) -> Result<Selection, Error> {
    if let ["one", number] = words {
        return Ok(Selection::One(u32_of(number)?));
    }
    let [what] = words else {
        return Err(no_row());
    };
    match *what {
        "first" => Ok(Selection::First),
        "all" => Ok(Selection::All),
        _ => Err(no_row()),
    }
}

/// The lines of a text, with a `|` between each two.
fn joined(alloc: Global, reported: &str) -> Result<String, Error> {
    let mut joined = String::new(alloc);
    for line in reported.lines() {
        add_behind(&mut joined, "|", line)?;
    }
    Ok(joined)
}

/// The last line of a text.
fn last_line(alloc: Global, reported: &str) -> Result<String, Error> {
    let mut last = "";
    for line in reported.lines() {
        last = line;
    }
    word(alloc, last)
}

/// The bytes of the explanation of a history.
fn explained(alloc: Global, history: &History, words: &[&str]) -> Result<Vec<u8>, Error> {
    let asked = read_asked(words)?;
    let verdict = judge(alloc, history)?;
    let naming = Naming::Trace;
    let named = NamedHistory {
        history,
        naming: &naming,
    };
    let reported = explain(alloc, named, &verdict, asked);
    drop(verdict);
    Ok(reported?)
}

/// The text of the explanation of a history.
fn reported(alloc: Global, history: &History, words: &[&str]) -> Result<String, Error> {
    let bytes = explained(alloc, history, words)?;
    lossy(alloc, &bytes)
}

/// The answer to a call on the current trace: all lines, or the last one. Fails if there is no trace.
pub fn answer(alloc: Global, trace: &Option<Trace>, words: &[&str]) -> Result<String, Error> {
    let Some(trace) = trace else {
        bail!("there is no trace");
    };
    let (is_end, words) = match words {
        ["end", rest @ ..] => (true, rest),
        _ => (false, words),
    };
    let reported = reported(alloc, trace.history(), words)?;
    if is_end {
        last_line(alloc, &reported)
    } else {
        joined(alloc, &reported)
    }
}
