//! The verdict on a trace, by each way to obtain it.

use cops_audit::{FeedFault, Online};
use cops_batch::{BatchFault, judge_with};
use cops_report::{report, report_judged, report_of};
use cops_trace::{Trace, TraceFault, read_trace};
use cops_types::{Counted, History, Memory, OpName, OpRef, OpenGate};
use std::alloc::Global;
use std::sync::Wait;
use std::thread::Threads;

/// The trace of bytes, or nothing if they are no trace.
fn read(alloc: Global, bytes: &[u8]) -> Result<Option<Trace>, Memory> {
    match read_trace(alloc, &mut Counted::new(bytes)) {
        Ok(trace) => Ok(Some(trace)),
        Err(TraceFault::Memory) => Err(Memory),
        Err(_) => Ok(None),
    }
}

/// The report of a judge with two workers, or nothing if it gives no verdict for another reason than memory.
fn report_of_two<R: Threads + Wait + Sync>(
    rt: &R,
    alloc: Global,
    history: &History,
) -> Result<Option<Vec<u8>>, Memory> {
    match judge_with(rt, alloc, history, 2, &OpenGate) {
        Ok(verdict) => {
            let text = report(alloc, history, &verdict);
            drop(verdict);
            Ok(Some(text?))
        }
        Err(BatchFault::Memory) => Err(Memory),
        Err(_) => Ok(None),
    }
}

/// Feeds an operation, a second time if memory runs out, and returns whether it was taken.
fn feed(online: &mut Online, client: u16, op: OpRef<'_>) -> Result<bool, Memory> {
    match online.feed(client, op.to_op()?) {
        Ok(()) => Ok(true),
        Err(FeedFault::Memory) => Ok(online.feed(client, op.to_op()?).is_ok()),
        Err(_) => Ok(false),
    }
}

/// Feeds a client's operations, and returns whether all were taken.
fn feed_session(online: &mut Online, history: &History, client: u16) -> Result<bool, Memory> {
    for index in 0..history.session_len(client) {
        let index = index as u32;
        let is_fed = match history.op(OpName { client, index }) {
            Some(op) => feed(online, client, op)?,
            None => false,
        };
        if !is_fed {
            return Ok(false);
        }
    }
    Ok(true)
}

/// Feeds a history, and returns whether all of it was taken.
fn feed_all(online: &mut Online, history: &History) -> Result<bool, Memory> {
    for client in 0..history.clients() {
        if !feed_session(online, history, client as u16)? {
            return Ok(false);
        }
    }
    Ok(true)
}

/// The report of an online auditor on what it was fed.
fn closed_report(alloc: Global, online: Online) -> Result<Vec<u8>, Memory> {
    let judged = online.close()?;
    let text = report_judged(alloc, &judged);
    drop(judged);
    text
}

/// The report of an online auditor on a history, or nothing if it did not take every operation.
fn fed_report(alloc: Global, history: &History) -> Result<Option<Vec<u8>>, Memory> {
    let mut online = Online::new(alloc, history.clients() as u16)?;
    match feed_all(&mut online, history) {
        Ok(true) => Ok(Some(closed_report(alloc, online)?)),
        Ok(false) => {
            drop(online);
            Ok(None)
        }
        Err(Memory) => {
            drop(online);
            Err(Memory)
        }
    }
}

/// Whether there is a report, and it is the expected one.
fn is_wanted(report: Option<Vec<u8>>, wanted: &[u8]) -> bool {
    match report {
        Some(text) => text.as_slice() == wanted,
        None => false,
    }
}

/// Whether one judge, two workers and an online auditor all give the expected report on a history.
fn all_say<R: Threads + Wait + Sync>(
    rt: &R,
    alloc: Global,
    history: &History,
    wanted: &[u8],
) -> Result<bool, Memory> {
    Ok(
        report_of(alloc, history)?.as_slice() == wanted
            && is_wanted(report_of_two(rt, alloc, history)?, wanted)
            && is_wanted(fed_report(alloc, history)?, wanted),
    )
}

/// Like `all_say`, on the history of a trace's bytes.
pub fn says<R: Threads + Wait + Sync>(
    rt: &R,
    alloc: Global,
    bytes: &[u8],
    wanted: &[u8],
) -> Result<bool, Memory> {
    match read(alloc, bytes)? {
        Some(trace) => {
            let said = all_say(rt, alloc, trace.history(), wanted);
            drop(trace);
            said
        }
        None => Ok(false),
    }
}
