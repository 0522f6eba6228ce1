//! Finding what comes next in a trace's text.
ghost use Rattle.std.specs.Prelude.{◌≡◌, ◌≢◌, ◌<◌, ◌^◌, ◌+◌, ℕ, None, Some, IfOk, IfNone, IfSome, OnErr};
ghost use Rattle.cops_types.specs.declared.op.Op.{Op as AnOp};
ghost use Rattle.cops_trace.specs.Next.{Stands, format_next, unread, first_message, later_message, record_found, end_found};
ghost use Rattle.cops_trace.specs.Counts.{progress_from};
ghost use Rattle.cops_wire.specs.Answer.{BeginsWithTaking};
ghost use Rattle.cops_wire.specs.Grammar.{grammar};

use crate::counts::Counts;
use crate::fault::TraceFault;
use crate::found::{Found, Item};
use cops_types::{Format, MAX_CLIENT_OPS, MAX_OPS, Memory};
use cops_wire::{Message, TraceRecord, WireFault, decode_in, record_of_message};
use std::alloc::Global;

/// The result for a frame at this offset that is no message: it is not whole yet, or it has a fault.
fn unread(at: u64, fault: WireFault) -> Result<Found, Memory>
    requires { at < 2 ^ 63 }
    ensures found { IfOk result (λ found. (fault ≢ WireFault.Memory) × (found ≡ unread at fault)) }
    ensures memory { OnErr result (fault ≡ WireFault.Memory) }
{
    match fault {
        WireFault::Memory => Err(Memory),
        WireFault::Short => Ok(Found::Waits),
        WireFault::BadField { offset } => {
            let offset = at + u64::from(offset);
            Ok(Found::Fails(TraceFault::Frame { fault, offset }))
        }
        _ => Ok(Found::Fails(TraceFault::Frame { fault, offset: at })),
    }
}

/// The item of the first message.
fn first_message(message: &Message, used: usize) -> Found
    ensures { result ≡ first_message message.now used }
{
    match message {
        Message::TraceHead { format, clients } => match Format::of_number(*format) {
            Some(format) => {
                let clients = *clients;
                let item = Item::Head { format, clients };
                Found::Gives { item, used }
            }
            None => Found::Fails(TraceFault::BadFormat { offset: 0 }),
        },
        _ => Found::Fails(TraceFault::NoHead { offset: 0 }),
    }
}

/// What a text begins with. Fails if memory runs out.
pub(crate) fn first_found(alloc: Global, bytes: &[u8]) -> Result<Found, Memory>
    ensures found { IfOk result (Stands None bytes.now) }
    ensures memory { OnErr result (BeginsWithTaking (grammar (format_next None)) bytes.now) }
{
    match decode_in(Format::One, alloc, bytes) {
        Ok(decoded) => {
            let found = first_message(&decoded.message, decoded.used);
            drop(decoded);
            Ok(found)
        }
        Err(fault) => unread(0, fault),
    }
}

/// The fault of a record with this client and index after the counted records, if it has one.
#[inline(always)]
pub(crate) fn record_fault(counts: &Counts, at: u64, client: u16, index: u32) -> Option<TraceFault>
    ensures none { IfNone result ((op : AnOp) (used : ℕ) → record_found (progress_from at counts.now) (record { client = client; index = index; op = op }) used ≡ Found.Gives (Item.Op client op) used) }
    ensures some { IfSome result (λ fault. (op : AnOp) (used : ℕ) → record_found (progress_from at counts.now) (record { client = client; index = index; op = op }) used ≡ Found.Fails fault) }
{
    let next = counts.next(client);
    if client >= counts.clients() {
        return Some(TraceFault::ClientOutOfRange { offset: at });
    }
    if index != next {
        return Some(TraceFault::IndexOutOfTurn { offset: at });
    }
    if (next as usize) < MAX_CLIENT_OPS && (counts.total() as usize) < MAX_OPS {
        None
    } else {
        Some(TraceFault::TooLong { offset: at })
    }
}

/// The item of a record after the counted records, whose frame has `used` bytes at this offset, or its fault.
fn record_found(counts: &Counts, at: u64, entry: TraceRecord, used: usize) -> Found
    ensures { result ≡ record_found (progress_from at counts.now) entry used }
{
    let TraceRecord { client, index, op } = entry;
    match record_fault(counts, at, client, index) {
        Some(fault) => {
            drop(op);
            Found::Fails(fault)
        }
        None => {
            let item = Item::Op { client, op };
            Found::Gives { item, used }
        }
    }
}

/// The item of an end that counts `ops` records, or its fault.
fn end_found(counts: &Counts, at: u64, ops: u32, used: usize) -> Found
    ensures { result ≡ end_found (progress_from at counts.now) ops used }
{
    if ops == counts.total() {
        let item = Item::End;
        Found::Gives { item, used }
    } else {
        Found::Fails(TraceFault::BadCount { offset: at })
    }
}

/// The item of a message after the head and the counted records, or its fault.
fn later_message(counts: &Counts, at: u64, message: Message, used: usize) -> Found
    ensures { result ≡ later_message (progress_from at counts.now) message used }
{
    match message {
        Message::TraceEnd { ops } => end_found(counts, at, ops, used),
        other => match record_of_message(other) {
            Some(entry) => record_found(counts, at, entry, used),
            None => Found::Fails(TraceFault::NotARecord { offset: at }),
        },
    }
}

/// What the text has at this offset, after the head and the counted records. Fails if memory runs out.
pub(crate) fn later_found(
    alloc: Global,
    counts: &Counts,
    at: u64,
    rest: &[u8],
) -> Result<Found, Memory>
    requires { at < 2 ^ 63 }
    ensures found { IfOk result (Stands (Some (progress_from at counts.now)) rest.now) }
    ensures memory { OnErr result (BeginsWithTaking (grammar counts.now.format) rest.now) }
{
    match decode_in(counts.format(), alloc, rest) {
        Ok(decoded) => Ok(later_message(counts, at, decoded.message, decoded.used)),
        Err(fault) => unread(at, fault),
    }
}
