//! A trace's text, in memory or written.
ghost use Rattle.std.specs.Prelude.{◌≡◌, ◌≢◌, ◌≤◌, ◌<◌, ◌+◌, ◌^◌, ◌++◌, ℕ, [], length, take, vec_len, vec_capacity, OnOk, IfOk, IfErr, IsErrOf};
ghost use Rattle.std.specs.Io.KnownBytes.{Appends, Keeps};
ghost use Rattle.cops_wire.specs.Legal.{IsLegalMessage};
ghost use Rattle.cops_wire.specs.Message.{encoded};
ghost use Rattle.cops_trace.specs.Text.{beginning, end_text, text};
ghost use Rattle.cops_trace.specs.Writing.{CountPrefix, HasSent, IsCutAt, prefix};
ghost use Rattle.cops_trace.specs.declared.trace.TheConstants.{LONGEST_FRAME};
ghost use Rattle.cops_trace.specs.declared.writing.TheConstants.{PIECE};
ghost use Rattle.cops_types.specs.Failures.{Failed};
ghost use Rattle.cops_types.specs.Counted.{failures, inner};

use crate::counts::Counts;
use crate::fault::WriteFault;
use crate::trace::{LONGEST_FRAME, Trace};
use cops_types::{Counted, Memory, write_text};
use cops_wire::{Message, encode};
use std::alloc::Global;
use std::io::Write;

/// A text is written once it has this many bytes.
const PIECE: usize = 262_144;

/// Appends the frame of a legal message.
pub(crate) fn append(message: Message, out: &mut Vec<u8>) -> Result<(), Memory>
    requires { IsLegalMessage message }
    ensures { OnOk result (out.new.items ≡ out.old.items ++ encoded message) }
{
    let appended = encode(&message, out);
    drop(message);
    appended
}

/// The head of a trace's text.
fn head_of(alloc: Global, trace: &Trace) -> Result<Vec<u8>, Memory>
    ensures text { IfOk result (λ out. out.items ≡ beginning (prefix 0 trace.now)) }
    ensures few { IfOk result (λ out. vec_len out ≤ LONGEST_FRAME) }
{
    let mut out = Vec::new(alloc);
    let head = Message::TraceHead {
        format: trace.format().number(),
        clients: trace.clients(),
    };
    append(head, &mut out)?;
    Ok(out)
}

/// The end of a trace's text.
fn end_of(alloc: Global, trace: &Trace) -> Result<Vec<u8>, Memory>
    ensures text { IfOk result (λ out. out.items ≡ end_text trace.now) }
    ensures few { IfOk result (λ out. vec_len out ≤ LONGEST_FRAME) }
{
    let mut out = Vec::new(alloc);
    let end = Message::TraceEnd {
        ops: trace.len() as u32,
    };
    append(end, &mut out)?;
    Ok(out)
}

/// The counts of no record of a trace.
fn none_of(alloc: Global, trace: &Trace) -> Result<Counts, Memory>
    ensures { IfOk result (λ counts. CountPrefix trace.now counts × (counts.total ≡ 0)) }
{
    Counts::new(trace.format(), alloc, trace.clients())
}

/// A trace's text: the head, the records in order of arrival, and the end.
pub(crate) fn text_of(alloc: Global, trace: &Trace) -> Result<Vec<u8>, Memory>
    ensures { IfOk result (λ out. out.items ≡ text trace.now) }
{
    let mut counts = none_of(alloc, trace)?;
    let mut out = head_of(alloc, trace)?;
    trace.append_records(&mut counts, usize::MAX, &mut out)?;
    let end = end_of(alloc, trace)?;
    out.extend_from_slice(&end)?;
    Ok(out)
}

/// Writes the bytes of a text that are left behind the first ones, which were written: how many are written then.
fn send<W: Write>(
    writer: &mut Counted<W>,
    left: &mut Vec<u8>,
    written: usize,
) -> Result<usize, WriteFault>
    requires { written + length left.old.items < 2 ^ 63 }
    ensures ok { IfOk result (λ n. (n ≡ written + length left.old.items) × Appends (W.contents (inner writer.old)) (W.contents (inner writer.new)) left.old.items) }
    ensures none { OnOk result (left.new.items ≡ []) }
    ensures capacity { vec_capacity left.old ≤ vec_capacity left.new }
    ensures err { IfErr result (λ e. (k : ℕ) × (k < length left.old.items) × (e ≡ WriteFault.WriteFailed (written + k))
        × Appends (W.contents (inner writer.old)) (W.contents (inner writer.new)) (take k left.old.items)) }
    ensures failed { IfErr result (λ _. Failed (failures writer.old) (failures writer.new)) }
    ensures heard { OnOk result (failures writer.new ≡ failures writer.old) }
{
    match write_text(writer, left) {
        Ok(()) => {
            let written = written + left.len();
            left.clear();
            Ok(written)
        }
        Err(count) => Err(WriteFault::WriteFailed {
            written: written + count,
        }),
    }
}

/// Writes a trace's text but for its end, in pieces, the last of which is left: how many bytes were written. It takes
/// no memory.
fn write_records<W: Write>(
    writer: &mut Counted<W>,
    trace: &Trace,
    counts: &mut Counts,
    left: &mut Vec<u8>,
) -> Result<usize, WriteFault>
    requires counts { CountPrefix trace.now counts.old }
    requires none { counts.old.total ≡ 0 }
    requires head { left.old.items ≡ beginning (prefix 0 trace.now) }
    requires room { PIECE + LONGEST_FRAME ≤ vec_capacity left.old }
    requires few { vec_len left.old < PIECE }
    ensures sent { IfOk result (HasSent (W.contents (inner writer.old)) (W.contents (inner writer.new)) (beginning trace.now) left.new.items) }
    ensures room { OnOk result (PIECE + LONGEST_FRAME ≤ vec_capacity left.new) }
    ensures few { OnOk result (vec_len left.new < PIECE) }
    ensures cut { IfErr result (IsCutAt (text trace.now) (W.contents (inner writer.old)) (W.contents (inner writer.new))) }
    ensures failed { IfErr result (λ _. Failed (failures writer.old) (failures writer.new)) }
    ensures heard { OnOk result (failures writer.new ≡ failures writer.old) }
{
    let mut written = 0;
    while (counts.total() as usize) < trace.len() {
        trace.append_records(counts, PIECE, left).unwrap();
        if left.len() >= PIECE {
            match send(writer, left, written) {
                Ok(more) => written = more,
                Err(fault) => return Err(fault),
            }
        }
    }
    Ok(written)
}

/// What the text of a trace is made in, without memory that could run out afterwards: the counts of no record, the head
/// with room for a piece, and the end.
fn drafted(alloc: Global, trace: &Trace) -> Result<(Counts, Vec<u8>, Vec<u8>), Memory>
    ensures counts { IfOk result (λ (counts, head, end). CountPrefix trace.now counts × (counts.total ≡ 0)) }
    ensures head { IfOk result (λ (counts, head, end). (head.items ≡ beginning (prefix 0 trace.now)) × (vec_len head < PIECE)) }
    ensures room { IfOk result (λ (counts, head, end). PIECE + LONGEST_FRAME ≤ vec_capacity head) }
    ensures end { IfOk result (λ (counts, head, end). (end.items ≡ end_text trace.now) × (vec_len end ≤ LONGEST_FRAME)) }
{
    let counts = none_of(alloc, trace)?;
    let mut head = head_of(alloc, trace)?;
    let end = end_of(alloc, trace)?;
    head.reserve(PIECE + LONGEST_FRAME)?;
    Ok((counts, head, end))
}

/// Writes a trace's text. Where memory runs out nothing is written. A failed write is not tried again.
pub fn write_trace<W: Write>(
    alloc: Global,
    writer: &mut Counted<W>,
    trace: &Trace,
) -> Result<(), WriteFault>
    ensures ok { OnOk result (Appends (W.contents (inner writer.old)) (W.contents (inner writer.new)) (text trace.now)) }
    ensures memory { IsErrOf result WriteFault.Memory → Keeps (W.contents (inner writer.old)) (W.contents (inner writer.new)) }
    ensures cut { IfErr result (λ e. (n : ℕ) → e ≡ WriteFault.WriteFailed n
        → (n < length (text trace.now)) × Appends (W.contents (inner writer.old)) (W.contents (inner writer.new)) (take n (text trace.now))) }
    ensures failed { IfErr result (λ e. e ≢ WriteFault.Memory → Failed (failures writer.old) (failures writer.new)) }
    ensures heard { (OnOk result (failures writer.new ≡ failures writer.old)) × (IsErrOf result WriteFault.Memory → failures writer.new ≡ failures writer.old) }
{
    let Ok((mut counts, mut left, end)) = drafted(alloc, trace) else {
        return Err(WriteFault::Memory);
    };
    let written = write_records(writer, trace, &mut counts, &mut left)?;
    left.extend_from_slice(&end).unwrap();
    let _records = trace.len();
    match send(writer, &mut left, written) {
        Ok(_) => Ok(()),
        Err(fault) => Err(fault),
    }
}
