//! Reading several records ahead, before the first of them is taken, so that a sink can prefetch what they need.
ghost use Rattle.std.specs.Prelude.{◌≡◌, ◌≤◌, ◌+◌, false, length, drop, IfOk, OnErr, Some};
ghost use Rattle.cops_trace.specs.Ahead.{AreSeen, GoesOn, reading_at};
ghost use Rattle.cops_trace.specs.Parsing.{IsUnderway};
ghost use Rattle.cops_trace.specs.Reading.{IsWithinReach};

use crate::counts::Counts;
use crate::finding::record_fault;
use crate::parser::push;
use crate::sink::Sink;
use cops_types::{Format, Memory, OpView};
use cops_wire::record_at;
use std::alloc::Global;

/// The most records that are read ahead.
const TOGETHER: usize = 64;

/// The offset of a record in some bytes, its number of bytes, its client, and its index.
#[derive(Clone, Copy)]
pub(crate) struct RecordPlace {
    at: usize,
    used: usize,
    client: u16,
    index: u32,
}

/// Consecutive records at the front of some bytes, and their operations, borrowed from the bytes.
#[derive(Drop)]
pub(crate) struct Ahead<'a> {
    bytes: &'a [u8],
    places: Vec<RecordPlace>,
    pub(crate) ops: Vec<OpView<'a>>,
}

/// Reads the records of a format at the front of some bytes, up to `TOGETHER` of them, and fewer if memory runs out.
pub(crate) fn see_ahead<'a>(format: Format, alloc: Global, bytes: &'a [u8]) -> Ahead<'a>
    ensures bytes { result.bytes.now ≡ bytes.now }
    ensures seen { AreSeen format bytes.now result.places.items result.ops.items }
{
    let mut places = Vec::new(alloc);
    let mut ops = Vec::new(alloc);
    let _ = places.reserve(TOGETHER);
    let _ = ops.reserve(TOGETHER);
    let mut at = 0;
    for _ in 0..TOGETHER {
        let Some(record) = record_at(format, alloc, &bytes[at..]) else {
            break;
        };
        let place = RecordPlace {
            at,
            used: record.used,
            client: record.client,
            index: record.index,
        };
        let Ok(()) = ops.push(record.op) else {
            break;
        };
        let Ok(()) = places.push(place) else {
            break;
        };
        at += record.used;
    }
    Ahead { bytes, places, ops }
}

/// Gives records to the sink, up to the first that may not come next, and returns the number of their bytes. Fails if
/// memory runs out.
pub(crate) fn take_ahead<S: Sink>(
    begun: &mut Option<S>,
    counts: &mut Counts,
    at: u64,
    ahead: &Ahead<'_>,
) -> Result<usize, Memory>
    requires seen { AreSeen counts.old.format ahead.now.bytes.now ahead.now.places.items ahead.now.ops.items }
    requires underway { IsUnderway S.took begun.old (reading_at counts.old at ahead.now.bytes.now) }
    requires reach { IsWithinReach (Some counts.old) false at }
    ensures within { IfOk result (λ used. used ≤ length ahead.now.bytes.now) }
    ensures on { IfOk result (λ used. GoesOn S.took begun.old (reading_at counts.old at ahead.now.bytes.now) begun.new (reading_at counts.new (at + used) (drop used ahead.now.bytes.now))) }
    ensures reach { IfOk result (λ used. IsWithinReach (Some counts.new) false (at + used)) }
    ensures err { OnErr result (IsWithinReach (Some counts.new) false at) }
{
    let mut used = 0;
    for k in 0..ahead.places.len() {
        let place = ahead.places[k];
        if place.at != used {
            break;
        }
        match record_fault(counts, at + used as u64, place.client, place.index) {
            None => {}
            Some(_) => break,
        }
        push(begun, place.client, &ahead.ops[k])?;
        counts.add(place.client);
        used += place.used;
    }
    Ok(used)
}
