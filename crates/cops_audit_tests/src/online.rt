use crate::building::*;
use cops_audit::SoFar::{Clean, Refused, Waiting};
use cops_audit::{FeedFault, Online, SoFar};
use cops_trace::{Partial, Trace, read_so_far};
use cops_types::{Counted, History, OpName};
use std::alloc::Global;
use std::test::Fail;

fn feed(alloc: Global, online: &mut Online, client: u16, test_op: TestOp) -> Result<(), FeedFault> {
    let op = op(alloc, test_op).or(Err(FeedFault::Memory))?;
    online.feed(client, op)
}

/// Whether exactly this is the verdict so far, asked twice.
fn is_said(online: &mut Online, wanted: SoFar) -> bool {
    let first = online.so_far();
    let second = online.so_far();
    first == wanted && second == wanted
}

/// Whether exactly these are the verdicts so far after each of these operations.
fn says(
    alloc: Global,
    online: &mut Online,
    entries: &[(u16, TestOp)],
    wanted: &[SoFar],
) -> Result<bool, FeedFault> {
    for ((client, test_op), so_far) in entries.iter().zip(wanted) {
        feed(alloc, online, *client, *test_op)?;
        if !is_said(online, *so_far) {
            return Ok(false);
        }
    }
    Ok(entries.len() == wanted.len())
}

/// Whether the verdict is the one of `judge` on these operations.
fn ends(
    alloc: Global,
    online: Online,
    clients: u16,
    entries: &[(u16, TestOp)],
) -> Result<bool, Fail> {
    let verdict = online.finish()?;
    match judged(alloc, clients, entries) {
        Ok(wanted) => {
            let same = same(verdict, &wanted);
            drop(wanted);
            Ok(same)
        }
        Err(fault) => {
            drop(verdict);
            Err(fault)
        }
    }
}

/// Whether exactly these are the verdicts so far after each of these operations, and the verdict at the end is the one
/// of `judge`.
fn fed(
    alloc: Global,
    clients: u16,
    entries: &[(u16, TestOp)],
    wanted: &[SoFar],
) -> Result<bool, Fail> {
    let mut online = Online::new(alloc, clients)?;
    let said = says(alloc, &mut online, entries, wanted);
    let ended = ends(alloc, online, clients, entries)?;
    Ok(said? && ended)
}

#[test]
fn a_put_and_another_operation(rt: HostRuntime) -> Result<(), Fail> {
    let put = (0, TestOp::Put(b'x', 1, 1, 0));
    let got = (1, TestOp::Got(b'x', 1, 1, 0));
    let other_put = (1, TestOp::Put(b'x', 2, 1, 0));
    let other_value = (1, TestOp::Got(b'x', 2, 1, 0));
    let newer = (0, TestOp::Got(b'y', 2, 2, 0));
    let del = (0, TestOp::Del(b'x', 1, 0));
    let gone = (1, TestOp::Gone(b'x', 1, 0));
    for (first, second, wanted) in [
        (put, got, [Clean, Clean]),
        (got, put, [Waiting(1), Clean]),
        (put, other_put, [Clean, Refused]),
        (put, other_value, [Clean, Refused]),
        (newer, put, [Waiting(1), Refused]),
        (del, gone, [Clean, Clean]),
        (gone, del, [Waiting(1), Clean]),
        (del, got, [Clean, Refused]),
        (put, gone, [Clean, Refused]),
    ] {
        assert!(rt; fed(rt.alloc(), 2, &[first, second], &wanted)?);
    }
    assert!(rt; fed(rt.alloc(), 2, &[got], &[Waiting(1)])?);
    Ok(())
}

/// A get that found a deletion waits for it, and a get of what was put before the deletion is stale.
#[test]
fn deletions_that_wait(rt: HostRuntime) -> Result<(), Fail> {
    let entries = [
        (1, TestOp::Gone(b'x', 2, 0)),
        (1, TestOp::Got(b'x', 1, 1, 0)),
        (0, TestOp::Put(b'x', 1, 1, 0)),
        (0, TestOp::Del(b'x', 2, 0)),
    ];
    let wanted = [Waiting(1), Waiting(2), Waiting(1), Refused];
    assert!(rt; fed(rt.alloc(), 2, &entries, &wanted)?);
    Ok(())
}

#[test]
fn refused_while_a_get_waits(rt: HostRuntime) -> Result<(), Fail> {
    let entries = [
        (0, TestOp::Put(b'x', 1, 1, 0)),
        (0, TestOp::Put(b'x', 2, 2, 0)),
        (1, TestOp::Got(b'y', 9, 9, 0)),
        (1, TestOp::Got(b'x', 2, 2, 0)),
        (1, TestOp::Got(b'x', 1, 1, 0)),
    ];
    let wanted = [Clean, Clean, Waiting(1), Waiting(1), Refused];
    assert!(rt; fed(rt.alloc(), 2, &entries, &wanted)?);
    assert!(rt; fed(rt.alloc(), 2, &entries[..4], &wanted[..4])?);
    Ok(())
}

#[test]
fn refused_from_then_on(rt: HostRuntime) -> Result<(), Fail> {
    let entries = [
        (0, TestOp::Put(b'x', 1, 1, 0)),
        (1, TestOp::Got(b'y', 9, 9, 0)),
        (0, TestOp::Put(b'x', 2, 2, 0)),
        (1, TestOp::Got(b'x', 2, 2, 0)),
        (1, TestOp::Got(b'x', 1, 1, 0)),
        (0, TestOp::Put(b'y', 9, 9, 0)),
        (1, TestOp::Missed(b'z')),
    ];
    let wait = Waiting(1);
    let wanted = [Clean, wait, wait, wait, Refused, Refused, Refused];
    assert!(rt; fed(rt.alloc(), 2, &entries, &wanted)?);
    Ok(())
}

/// Feeds a client's rounds: in each it puts on its own key, and gets what the next client puts in the same round.
fn feed_rounds(alloc: Global, online: &mut Online, client: u8, next: u8) -> Result<(), FeedFault> {
    let node = u16::from(client);
    let next_node = u16::from(next);
    for round in 1..101u8 {
        let clock = u64::from(round);
        feed(alloc, online, node, TestOp::Put(client, round, clock, node))?;
        feed(
            alloc,
            online,
            node,
            TestOp::Got(next, round, clock, next_node),
        )?;
    }
    Ok(())
}

/// Feeds the rounds of ten clients in turn, and returns whether the gets of each client wait for the puts of the next.
fn all_wait(alloc: Global, online: &mut Online) -> Result<bool, FeedFault> {
    for client in 0..9u8 {
        feed_rounds(alloc, online, client, client + 1)?;
        if !is_said(online, Waiting(100)) {
            return Ok(false);
        }
    }
    feed_rounds(alloc, online, 9, 0)?;
    Ok(is_said(online, Clean))
}

/// The puts of ten clients in a hundred rounds, in order of versions.
fn puts_of_rounds(alloc: Global) -> Result<Vec<OpName>, Fail> {
    let mut puts = Vec::new(alloc);
    for round in 0..100u32 {
        for client in 0..10u16 {
            puts.push(name(client, 2 * round))?;
        }
    }
    Ok(puts)
}

/// An auditor that was fed the rounds of ten clients, whose gets waited for their puts.
fn fed_rounds(alloc: Global) -> Result<Online, Fail> {
    let mut online = Online::new(alloc, 10)?;
    if all_wait(alloc, &mut online) == Ok(true) {
        return Ok(online);
    }
    drop(online);
    Err(Fail::new("a get did not wait"))
}

#[test]
fn many_gets_before_their_puts(rt: HostRuntime) -> Result<(), Fail> {
    let puts = puts_of_rounds(rt.alloc())?;
    let verdict = fed_rounds(rt.alloc())?.finish()?;
    assert!(rt; accepts(verdict, &puts));
    Ok(())
}

#[test]
fn a_stale_get_after_many(rt: HostRuntime) -> Result<(), Fail> {
    let mut online = fed_rounds(rt.alloc())?;
    let fed = feed(rt.alloc(), &mut online, 0, TestOp::Got(1, 7, 7, 1));
    let refused = is_said(&mut online, Refused);
    drop(online);
    fed?;
    assert!(rt; refused);
    Ok(())
}

const WAITS: TestOp = TestOp::Got(b'x', 1, 1, 0);

/// Whether an operation of a client that does not exist is refused, and the verdict so far stays.
fn refuses_others(alloc: Global, online: &mut Online) -> Result<bool, FeedFault> {
    feed(alloc, online, 0, WAITS)?;
    let refused = feed(alloc, online, 1, TestOp::Put(b'x', 1, 1, 0));
    Ok(refused == Err(FeedFault::UnknownClient) && is_said(online, Waiting(1)))
}

#[test]
fn clients_that_are_not_there(rt: HostRuntime) -> Result<(), Fail> {
    let mut online = Online::new(rt.alloc(), 1)?;
    let refused = refuses_others(rt.alloc(), &mut online);
    let ended = ends(rt.alloc(), online, 1, &[(0, WAITS)])?;
    assert!(rt; refused? && ended);
    Ok(())
}

/// Feeds all operations of a client.
fn feed_client(online: &mut Online, history: &History, client: u16) -> Result<(), Fail> {
    for index in 0..history.session_len(client) {
        let index = index as u32;
        if let Some(op) = history.op(OpName { client, index }) {
            let op = op.to_op()?;
            online.feed(client, op)?;
        }
    }
    Ok(())
}

/// The verdict so far after all operations of a trace were fed, client by client.
fn said_of_all(online: &mut Online, trace: &Trace) -> Result<SoFar, Fail> {
    for client in 0..trace.clients() {
        feed_client(online, trace.history(), client)?;
    }
    Ok(online.so_far())
}

/// The verdict so far on a trace, by a new auditor.
fn said_of_trace(alloc: Global, trace: &Trace) -> Result<SoFar, Fail> {
    let mut online = Online::new(alloc, trace.clients())?;
    let said = said_of_all(&mut online, trace);
    drop(online);
    said
}

/// The place where a text is cut, and the verdict so far on the whole records before it.
fn said_of(alloc: Global, text: &[u8]) -> Result<(Option<u64>, SoFar), Fail> {
    let Partial { trace, cut } = read_so_far(alloc, &mut Counted::new(text))?;
    let said = said_of_trace(alloc, &trace);
    drop(trace);
    Ok((cut, said?))
}

#[test]
fn a_text_that_is_cut(rt: HostRuntime) -> Result<(), Fail> {
    let (head, get) = (&TWO[..9], &TWO[33..57]);
    let mut waiting = Vec::new(rt.alloc());
    waiting.extend_from_slice(head)?;
    waiting.extend_from_slice(get)?;
    for (text, wanted) in [
        (&TWO[..65], (Some(57), Clean)),
        (&TWO[..], (None, Clean)),
        (&TWO[..8], (Some(0), Clean)),
        (waiting.as_slice(), (Some(33), Waiting(1))),
    ] {
        assert_eq!(rt; said_of(rt.alloc(), text)?, wanted);
    }
    Ok(())
}

/// Where the first `len` bytes of the trace with a deletion are cut.
fn cut_of(len: usize) -> Option<u64> {
    match len {
        0..9 => Some(0),
        9..30 => Some(9),
        30..51 => Some(30),
        51..60 => Some(51),
        _ => None,
    }
}

#[test]
fn a_deletion_that_is_cut(rt: HostRuntime) -> Result<(), Fail> {
    for len in 0..61 {
        let text = DELETED.get(..len).unwrap_or(&[]);
        assert_eq!(rt; said_of(rt.alloc(), text)?, (cut_of(len), Clean));
    }
    // (the get that found the deletion comes first)
    let mut waiting = [0; 30];
    waiting[..9].copy_from_slice(&DELETED[..9]);
    waiting[9..].copy_from_slice(&DELETED[30..51]);
    waiting[19] = 0;
    assert_eq!(rt; said_of(rt.alloc(), &waiting)?, (Some(30), Waiting(1)));
    Ok(())
}
