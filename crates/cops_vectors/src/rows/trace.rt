//! Test cases of traces.

use crate::rows::history::op_at;
use crate::words::Part::{Count, Number, Word};
use crate::words::{
    bytes, digits, format_of, line_of, no_row, op, text, u16_of, u64_of, usize_of, word, yes_or_no,
};
use anyhow::{Error, bail};
use cops_trace::{
    Partial, Trace, TraceFault, WriteFault, fault_line, read_so_far, read_trace, write_trace,
};
use cops_types::{Counted, FailingReader, FailingWriter};
use std::alloc::Global;

/// How many clients there are, and how many records.
fn counts(alloc: Global, trace: &Trace) -> Result<String, Error> {
    let (clients, records) = (Number(u64::from(trace.clients())), Count(trace.len()));
    text(
        alloc,
        &[clients, Word(" clients, "), records, Word(" records")],
    )
}

/// Keeps a trace.
fn kept(alloc: Global, trace: &mut Option<Trace>, read: Trace) -> Result<String, Error> {
    let reported = counts(alloc, &read);
    drop(trace.replace(read));
    reported
}

/// The line of a fault, without its line feed.
fn line(alloc: Global, fault: &TraceFault) -> Result<String, Error> {
    let mut bytes = Vec::new(alloc);
    fault_line(alloc, fault, &mut bytes)?;
    line_of(alloc, &bytes)
}

/// The trace of bytes that a reader gives in pieces of `piece` bytes.
fn read_pieces(alloc: Global, piece: usize, bytes: &[u8]) -> Result<Trace, TraceFault> {
    let mut reader = Counted::new(FailingReader::new(bytes, 1_000_000, 1_000_000, piece));
    read_trace(alloc, &mut reader)
}

/// Reads the trace in bytes and keeps it, or reports the first fault.
fn read(
    alloc: Global,
    trace: &mut Option<Trace>,
    piece: &str,
    word: &str,
) -> Result<String, Error> {
    let piece = usize_of(piece)?;
    let bytes = bytes(alloc, word)?;
    match read_pieces(alloc, piece, &bytes) {
        Ok(read) => kept(alloc, trace, read),
        Err(fault) => line(alloc, &fault),
    }
}

/// The fault of reading a whole trace, or a prefix of one, from a reader that fails after `reads` pieces.
fn fault_of(
    alloc: Global,
    is_trace: bool,
    bytes: &[u8],
    reads: u64,
    piece: usize,
) -> Option<TraceFault> {
    let mut reader = Counted::new(FailingReader::new(bytes, reads, 1_000_000, piece));
    if is_trace {
        read_trace(alloc, &mut reader).err()
    } else {
        read_so_far(alloc, &mut reader).err()
    }
}

fn fault_text(alloc: Global, fault: Option<TraceFault>) -> Result<String, Error> {
    match fault {
        Some(fault) => Ok(format!(in alloc; "{fault}")?),
        None => word(alloc, "whole"),
    }
}

/// The first fault of bytes that come from a reader which fails after a number of pieces.
fn failing(
    alloc: Global,
    is_trace: bool,
    reads: &str,
    piece: &str,
    word: &str,
) -> Result<String, Error> {
    let reads = u64_of(reads)?;
    let piece = usize_of(piece)?;
    let bytes = bytes(alloc, word)?;
    fault_text(alloc, fault_of(alloc, is_trace, &bytes, reads, piece))
}

/// The whole records in bytes before a cut.
fn whole(alloc: Global, bytes: &[u8]) -> Result<Partial, Error> {
    let mut reader = Counted::new(bytes);
    Ok(read_so_far(alloc, &mut reader)?)
}

fn partial_text(alloc: Global, partial: &Partial) -> Result<String, Error> {
    let reported = counts(alloc, &partial.trace)?;
    match partial.cut {
        Some(offset) => text(alloc, &[Word(&reported), Word(", cut at "), Number(offset)]),
        None => Ok(reported),
    }
}

/// How many whole records stand before a cut, and where it is.
fn front(alloc: Global, word: &str) -> Result<String, Error> {
    let bytes = bytes(alloc, word)?;
    let partial = whole(alloc, &bytes)?;
    let reported = partial_text(alloc, &partial);
    drop(partial);
    reported
}

/// The bytes of a trace.
fn written(alloc: Global, trace: &Trace) -> Result<Vec<u8>, Error> {
    let mut writer = Counted::new(Vec::new(alloc));
    write_trace(alloc, &mut writer, trace)?;
    Ok(writer.into_inner())
}

/// The digits of the trace's bytes.
fn write(alloc: Global, trace: &Trace) -> Result<String, Error> {
    let bytes = written(alloc, trace)?;
    digits(alloc, &bytes)
}

/// The bytes that a device takes which fails after `bytes` bytes, and why no more of the trace was written.
fn cut_short(alloc: Global, trace: &Trace, bytes: u64) -> (Vec<u8>, Option<WriteFault>) {
    let device = FailingWriter::new(Vec::new(alloc), 100, bytes, 5);
    let mut writer = Counted::new(device);
    let fault = write_trace(alloc, &mut writer, trace).err();
    (writer.into_inner().into_inner(), fault)
}

fn short_line<'a>(alloc: Global, fault: &'a str, taken: &'a str) -> Result<String, Error> {
    text(alloc, &[Word(fault), Word(": "), Word(taken)])
}

/// The bytes that a device takes which fails after a number of bytes, and the fault then reported.
fn short(alloc: Global, trace: &Trace, bytes: &str) -> Result<String, Error> {
    let (bytes, fault) = cut_short(alloc, trace, u64_of(bytes)?);
    let taken = digits(alloc, &bytes)?;
    let Some(fault) = fault else {
        return Ok(taken);
    };
    let reported = format!(in alloc; "{fault}")?;
    short_line(alloc, &reported, &taken)
}

/// Adds a client's operation to a trace. Fails if the trace's format does not have the operation.
pub fn add_op(alloc: Global, trace: &mut Trace, client: &str, words: &[&str]) -> Result<(), Error> {
    let client = u16_of(client)?;
    let op = op(alloc, words)?;
    if !op.in_format(trace.format()) {
        drop(op);
        bail!("the format has no such operation");
    }
    Ok(trace.push(client, op)?)
}

/// The answer to a call on the current trace.
fn ask(alloc: Global, trace: &mut Trace, words: &[&str]) -> Result<String, Error> {
    match words {
        ["push", client, op @ ..] => {
            add_op(alloc, trace, client, op)?;
            counts(alloc, trace)
        }
        ["short", bytes] => short(alloc, trace, bytes),
        ["op", client, index] => op_at(alloc, trace.history(), client, index),
        ["counts"] => counts(alloc, trace),
        ["format"] => text(alloc, &[Number(u64::from(trace.format().number()))]),
        ["empty"] => yes_or_no(alloc, trace.is_empty()),
        ["write"] => write(alloc, trace),
        _ => Err(no_row()),
    }
}

/// The answer to a call on the current trace, or the error that there is none.
fn ask_any(alloc: Global, trace: &mut Option<Trace>, words: &[&str]) -> Result<String, Error> {
    match trace {
        Some(trace) => ask(alloc, trace, words),
        None => bail!("there is no trace"),
    }
}

/// The answer to a call.
pub fn answer(alloc: Global, trace: &mut Option<Trace>, words: &[&str]) -> Result<String, Error> {
    match words {
        ["new", clients] => kept(alloc, trace, Trace::new(alloc, u16_of(clients)?)?),
        ["new", clients, format] => {
            let opened = Trace::new_in(format_of(format)?, alloc, u16_of(clients)?)?;
            kept(alloc, trace, opened)
        }
        ["read", piece, word] => read(alloc, trace, piece, word),
        ["prefix", word] => front(alloc, word),
        ["failing", "read", reads, piece, word] => failing(alloc, true, reads, piece, word),
        ["failing", "prefix", reads, piece, word] => failing(alloc, false, reads, piece, word),
        [] | ["new" | "read" | "prefix" | "failing", ..] => Err(no_row()),
        _ => ask_any(alloc, trace, words),
    }
}
