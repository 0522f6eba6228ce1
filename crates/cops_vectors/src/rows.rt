//! Test cases, one on a line, with the expected answer: `CALL ARGUMENTS.. = ANSWER`.

mod book;
mod clock;
mod context;
mod explain;
mod held;
mod history;
mod node;
mod place;
mod scenario;
mod store;
mod subjects;
mod tie;
mod trace;
mod types;
mod wire;
mod world;

use crate::rows::subjects::Subjects;
use crate::words::Part::{Number, Word};
use crate::words::{Part, text, word};
use anyhow::{Error, bail};
use std::alloc::Global;
use std::fs;
use std::rt::Files;

/// Replaces a subject by a new one.
fn replaced<T: Drop>(subject: &mut T, new: T) -> &mut T {
    drop(std::mem::replace(subject, new));
    subject
}

/// The answer to a case's call, or the text of its error.
fn reported(alloc: Global, subjects: &mut Subjects, call: &str) -> Result<String, Error> {
    let words: Vec<&str> = call.split(' ').collect(alloc)?;
    match subjects.answer(alloc, &words) {
        Ok(text) => Ok(text),
        Err(error) => Ok(format!(in alloc; "error: {error}")?),
    }
}

fn unlike<'a>(alloc: Global, got: &'a str, wanted: &'a str) -> Result<String, Error> {
    if got == wanted {
        return Ok(String::new(alloc));
    }
    text(
        alloc,
        &[Word("got "), Word(got), Word(", wanted "), Word(wanted)],
    )
}

/// How the answer of a case differs from the expected one; empty where it does not.
fn difference(alloc: Global, subjects: &mut Subjects, row: &str) -> Result<String, Error> {
    match row.split_once(" = ") {
        Some((call, wanted)) => {
            let got = reported(alloc, subjects, call)?;
            unlike(alloc, &got, wanted)
        }
        None => word(alloc, "got: not a row"),
    }
}

/// Prints a line made of parts.
fn say<R: Print + AllocGlobal>(rt: &R, parts: &[Part]) -> Result<(), Error> {
    let line = text(rt.alloc(), parts)?;
    println!(rt; "{line}")?;
    Ok(())
}

/// Prints how the answer of a case differs.
fn say_difference<'a, R: Print + AllocGlobal>(
    rt: &R,
    name: &'a str,
    number: u64,
    what: &'a str,
) -> Result<(), Error> {
    let parts = [
        Word(name),
        Word(":"),
        Number(number),
        Word(": "),
        Word(what),
    ];
    say(rt, &parts)
}

/// Prints how the answer of a case differs, if it does, and counts it.
fn say_row<R: Print + AllocGlobal>(
    rt: &R,
    subjects: &mut Subjects,
    place: (&str, u64),
    row: &str,
) -> Result<u64, Error> {
    let (name, number) = place;
    let what = difference(rt.alloc(), subjects, row)?;
    if what.is_empty() {
        return Ok(0);
    }
    say_difference(rt, name, number, &what)?;
    Ok(1)
}

/// Makes the calls of a text's cases, and counts the cases and those that differ. Skips empty lines and headings, which
/// begin with `#`.
fn say_rows<R: Print + AllocGlobal>(
    rt: &R,
    subjects: &mut Subjects,
    name: &str,
    text: &str,
) -> Result<(u64, u64), Error> {
    let mut number = 0u64;
    let mut rows = 0u64;
    let mut differing = 0u64;
    for line in text.lines() {
        number = number.saturating_add(1);
        if !line.is_empty() && !line.starts_with('#') {
            rows = rows.saturating_add(1);
            differing = differing.saturating_add(say_row(rt, subjects, (name, number), line)?);
        }
    }
    Ok((rows, differing))
}

/// Makes the calls of a text's cases on new subjects.
fn say_text<R: Print + AllocGlobal>(rt: &R, name: &str, text: &str) -> Result<(u64, u64), Error> {
    let mut subjects = Subjects::new(rt.alloc());
    let counts = say_rows(rt, &mut subjects, name, text);
    drop(subjects);
    counts
}

/// Prints that all cases of a file are as expected, if none differs, and returns the number that differ. A file without
/// cases counts as one that differs.
fn say_count<R: Print + AllocGlobal>(rt: &R, name: &str, counts: (u64, u64)) -> Result<u64, Error> {
    let (rows, differing) = counts;
    if rows == 0 {
        say(rt, &[Word(name), Word(": no rows")])?;
        return Ok(1);
    }
    if differing == 0 {
        let parts = [
            Word(name),
            Word(": "),
            Number(rows),
            Word(" rows as wanted"),
        ];
        say(rt, &parts)?;
    }
    Ok(differing)
}

/// Reads the cases of a file, and counts those that differ.
fn say_file<R: Files + Print + AllocGlobal>(rt: &R, name: &str) -> Result<u64, Error> {
    let text = fs::read_to_string(rt, name)?;
    let counts = say_text(rt, name, &text)?;
    say_count(rt, name, counts)
}

/// Makes the calls of all files' cases, each file on subjects of its own. Prints for each file that all is as expected,
/// or each case that differs. Fails if a case differs or a file cannot be read.
pub fn say_files<R: Files + Print + AllocGlobal>(rt: &R, names: &[String]) -> Result<(), Error> {
    let mut differing = 0u64;
    for name in names {
        differing = differing.saturating_add(say_file(rt, name)?);
    }
    match differing {
        0 => Ok(()),
        differing => bail!("{differing} rows differ"),
    }
}
