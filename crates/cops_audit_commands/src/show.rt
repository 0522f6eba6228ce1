//! The lines of a trace's frames.
ghost use Rattle.std.specs.Prelude.{◌≡◌, ◌++◌, ◌⊎◌, ◌<◌, ◌≤◌, List, ℕ, length, true, false, Ok, None, OnOk, IfOk, IfSome};
ghost use Rattle.std.specs.Io.KnownBytes.{Appends};
ghost use Rattle.cops_types.specs.Failures.{Failed};
ghost use Rattle.cops_types.specs.Counted.{failures, inner};
ghost use Rattle.cops_trace.specs.Answer.{AgreesInto};
ghost use Rattle.cops_wire.specs.declared.message.Message.{Message as AMessage};
ghost use Rattle.cops_command.specs.Status.{number};
ghost use Rattle.cops_command.specs.declared.status.Status.TheVariants.{Failed as EndsFailed};
ghost use Rattle.cops_audit_commands.specs.declared.show.TheConstants.{GATHERED};
ghost use Rattle.cops_audit_commands.specs.NextLine.{AppendsNext, named};
ghost use Rattle.cops_audit_commands.specs.Show.{AreAllBefore, AreReadIn, HasFirst, Shows, AreShown, end_of, line_of, lines_of};

use cops_command::{PIECE, Status, failed, print, read_all};
use cops_trace::{Sink, SinkTaken, TraceFault, fault_line, read_into};
use cops_types::{Counted, Format, Memory, OpView, write_text};
use cops_wire::{Decoded, Message, WireFault, decode, decode_in, show};
use std::alloc::Global;
use std::io::{Read, Write};

/// How much text is gathered before it is written.
const GATHERED: usize = 4 * PIECE;

/// Writes a line for each frame of a trace that ends at or before the trace's first fault, or for all frames, and then
/// the fault's line where there is one. It returns the status: 0 for a whole trace, 2 for a fault, and 4 where a read
/// or a write failed, which is reported by a line on `errors`. The only error is `Memory`, where memory runs out.
pub fn show_stream<R: Read, W: Write, E: Write>(
    alloc: Global,
    reader: &mut Counted<R>,
    out: &mut Counted<W>,
    errors: &mut Counted<E>,
) -> Result<u8, Memory>
    // The status is that of the reader's bytes, and the lines are those of their frames and of their fault, unless a
    // device failed.
    ensures shown { IfOk result (λ status. (status ≡ number EndsFailed) ⊎ IfSome (R.remaining (inner reader.old)) (λ bytes.
        Shows bytes status (W.contents (inner out.old)) (W.contents (inner out.new)))) }

    // The devices' faults are reported exactly where they were met.
    ensures failed { result ≡ Ok (number EndsFailed) → Failed (failures reader.old) (failures reader.new) ⊎ Failed (failures out.old) (failures out.new) }
    ensures heard { (result ≡ Ok (number EndsFailed)) ⊎ ((failures reader.new ≡ failures reader.old) × (failures out.new ≡ failures out.old)) }
{
    let bytes = match read_all(alloc, reader)? {
        Some(bytes) => bytes,
        None => return Ok(failed(errors, b"failed: read\n")),
    };
    let fault = first_fault(alloc, &bytes)?;
    let end = end_of(&bytes, fault)?;
    if !show_frames(alloc, &bytes, end, out)? {
        return Ok(failed(errors, b"failed: write\n"));
    }
    let Some(fault) = fault else {
        return Ok(Status::Accepted.number());
    };
    let mut text = Vec::new(alloc);
    fault_line(alloc, &fault, &mut text)?;
    Ok(print(&text, Status::Faulty, out, errors))
}

/// A consumer of a trace that keeps nothing of it.
#[derive(Drop)]
struct Nothing;

impl Sink for Nothing {
    ghost took = { λ _ _. Unit {0} };

    fn begin(_format: Format, _alloc: Global, _clients: u16) -> Result<Nothing, Memory> {
        Ok(Nothing)
    }

    fn take(&mut self, _client: u16, _op: &OpView<'_>) -> Result<(), Memory> {
        Ok(())
    }

    fn looks_ahead(&self) -> bool {
        false
    }

    fn prefetch(&mut self, _coming: &[OpView<'_>]) {}
}

/// The first fault of these bytes, or `None` where they are a trace's text. Nothing of the trace is kept.
fn first_fault(alloc: Global, bytes: &[u8]) -> Result<Option<TraceFault>, Memory>
    ensures { IfOk result (HasFirst bytes.now) }
{
    fault_in(read_into::<Nothing, &[u8]>(alloc, &mut Counted::new(bytes)))
}

/// The fault of what was read, or `None` where a whole trace was read.
fn fault_in(read: Result<SinkTaken<Nothing>, TraceFault>) -> Result<Option<TraceFault>, Memory>
    ensures { (bytes : List ℕ) → AgreesInto (λ _ _. Unit {0}) bytes read → IfOk result (HasFirst bytes) }
{
    match read {
        Ok(taken) => match taken.cut {
            None => Ok(None),
            Some(offset) => Ok(Some(TraceFault::Cut { offset })),
        },
        Err(TraceFault::Memory) | Err(TraceFault::ReadFailed) => Err(Memory),
        Err(fault) => Ok(Some(fault)),
    }
}

/// The offset at which showing ends: the end of the bytes, or the fault's offset.
fn end_of(bytes: &[u8], fault: Option<TraceFault>) -> Result<u64, Memory>
    ensures { IfOk result (λ end. end ≡ end_of bytes.now fault) }
{
    let Some(fault) = fault else {
        return Ok(bytes.len() as u64);
    };
    match fault.offset() {
        Some(offset) => Ok(offset),
        None => Err(Memory),
    }
}

/// Writes the lines of the frames that end at or before `end`, and returns whether all were written.
fn show_frames<W: Write>(
    alloc: Global,
    bytes: &[u8],
    end: u64,
    out: &mut Counted<W>,
) -> Result<bool, Memory>
    ensures written { result ≡ Ok true → (ms : List AMessage) × AreShown bytes.now end ms × Appends (W.contents (inner out.old)) (W.contents (inner out.new)) (lines_of ms) }
    ensures failed { result ≡ Ok false → Failed (failures out.old) (failures out.new) }
    ensures heard { (result ≡ Ok false) ⊎ (failures out.new ≡ failures out.old) }
{
    let format = format_of(alloc, bytes)?;
    show_frames_in(format, alloc, bytes, end, out)
}

/// The format in which the frames are read: the one that the head names, or format 1 where no head names one.
fn format_of(alloc: Global, bytes: &[u8]) -> Result<Format, Memory>
    ensures { IfOk result (AreReadIn bytes.now) }
{
    match decode(alloc, bytes) {
        Ok(decoded) => {
            let format = named(&decoded.message);
            drop(decoded);
            Ok(format.unwrap_or(Format::One))
        }
        Err(fault) => match fault {
            WireFault::Memory => Err(Memory),
            _ => Ok(Format::One),
        },
    }
}

/// The format that a message names, where it is a head that names one.
fn named(message: &Message) -> Option<Format>
    ensures { result ≡ named message.now }
{
    match message {
        Message::TraceHead { format, .. } => Format::of_number(*format),
        _ => None,
    }
}

/// Writes the lines of the frames of a format.
fn show_frames_in<W: Write>(
    format: Format,
    alloc: Global,
    bytes: &[u8],
    end: u64,
    out: &mut Counted<W>,
) -> Result<bool, Memory>
    ensures written { result ≡ Ok true → (ms : List AMessage) × AreAllBefore format bytes.now end ms × Appends (W.contents (inner out.old)) (W.contents (inner out.new)) (lines_of ms) }
    ensures failed { result ≡ Ok false → Failed (failures out.old) (failures out.new) }
    ensures heard { (result ≡ Ok false) ⊎ (failures out.new ≡ failures out.old) }
{
    let mut text = Vec::new(alloc);
    let mut at = 0;
    while let Some(used) = append_next(format, alloc, &bytes[at..], end - at as u64, &mut text)? {
        at += used;
        if !write_long(out, &mut text) {
            return Ok(false);
        }
    }
    match write_text(out, &text) {
        Ok(()) => Ok(true),
        Err(_) => Ok(false),
    }
}

/// If the bytes begin with a whole frame of the format that ends at or before `end`, appends its line and returns its
/// length.
fn append_next(
    format: Format,
    alloc: Global,
    bytes: &[u8],
    end: u64,
    text: &mut Vec<u8>,
) -> Result<Option<usize>, Memory>
    ensures next { IfOk result (AppendsNext format bytes.now end text.old.items text.new.items) }
    ensures used { IfOk result (λ next. IfSome next (λ used. (0 < used) × (used ≤ length bytes.now) × (used ≤ end))) }
{
    match decode_in(format, alloc, bytes) {
        Ok(decoded) => append_ending(alloc, &decoded, end, text),
        Err(fault) => match fault {
            WireFault::Memory => Err(Memory),
            _ => Ok(None),
        },
    }
}

/// Appends the line of a frame that ends at or before `end`, and returns its length.
fn append_ending(
    alloc: Global,
    frame: &Decoded,
    end: u64,
    text: &mut Vec<u8>,
) -> Result<Option<usize>, Memory>
    ensures late { result ≡ Ok None → (end < frame.now.used) × (text.new.items ≡ text.old.items) }
    ensures line { IfOk result (λ next. IfSome next (λ used. (used ≡ frame.now.used) × (frame.now.used ≤ end) × (text.new.items ≡ text.old.items ++ line_of frame.now.message))) }
{
    if frame.used as u64 > end {
        return Ok(None);
    }
    append_line(alloc, &frame.message, text)?;
    Ok(Some(frame.used))
}

/// Appends the line of a message, with its end.
#[tactic(auto, unfolding(crate::specs::Show::line_of))]
fn append_line(alloc: Global, message: &Message, text: &mut Vec<u8>) -> Result<(), Memory>
    ensures { OnOk result (text.new.items ≡ text.old.items ++ line_of message.now) }
{
    show(alloc, message, text)?;
    text.push(b'\n')?;
    Ok(())
}

/// Writes a text and empties it where enough is gathered, and returns whether no write failed.
fn write_long<W: Write>(out: &mut Counted<W>, text: &mut Vec<u8>) -> bool
    ensures written { result ≡ true → (front : List ℕ) × (text.old.items ≡ front ++ text.new.items) × Appends (W.contents (inner out.old)) (W.contents (inner out.new)) front }
    ensures short { result ≡ true → length text.new.items < GATHERED }
    ensures failed { result ≡ false → Failed (failures out.old) (failures out.new) }
    ensures heard { result ≡ true → failures out.new ≡ failures out.old }
{
    if text.len() < GATHERED {
        return true;
    }
    match write_text(out, text) {
        Ok(()) => {
            text.clear();
            true
        }
        Err(_) => false,
    }
}
