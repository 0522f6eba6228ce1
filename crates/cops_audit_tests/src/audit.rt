use crate::building::*;
use cops_audit::*;
use cops_testing::pair;
use cops_types::{History, Op, OpName, Version};
use std::alloc::Global;
use std::test::Fail;

/// The puts are listed in order of versions, and not of names.
#[test]
fn an_accepted_history(rt: HostRuntime) -> Result<(), Fail> {
    let entries = [
        (0, TestOp::Put(b'x', 1, 2, 0)),
        (1, TestOp::Put(b'x', 2, 1, 64)),
        (1, TestOp::Put(b'x', 3, 2, 64)),
        (2, TestOp::Got(b'x', 2, 1, 64)),
    ];
    let verdict = judged(rt.alloc(), 3, &entries)?;
    assert!(rt; accepts(verdict, &[name(1, 0), name(0, 0), name(1, 1)]));
    Ok(())
}

/// The names of a history's puts, in the order in which the history lists them.
fn listed(alloc: Global, history: &History) -> Result<Vec<OpName>, Fail> {
    let mut puts = Vec::new(alloc);
    history.list_puts(&mut puts)?;
    Ok(puts.iter().map(|put| put.name).collect(alloc)?)
}

/// The numbers of the puts with four names.
fn numbers(history: &History) -> [Option<u32>; 4] {
    [name(0, 0), name(1, 0), name(1, 1), name(2, 0)].map(|name| history.put_number(name))
}

/// Puts are numbered and listed in the order in which they were recorded, and a get knows the number of its put.
#[test]
fn puts_have_numbers(rt: HostRuntime) -> Result<(), Fail> {
    let entries = [
        (0, TestOp::Put(b'x', 1, 2, 0)),
        (1, TestOp::Put(b'x', 2, 1, 64)),
        (1, TestOp::Put(b'x', 3, 2, 64)),
        (2, TestOp::Got(b'x', 2, 1, 64)),
    ];
    let history = history(rt.alloc(), 3, &entries)?;
    let names = listed(rt.alloc(), &history);
    let (numbers, source, count) = (
        numbers(&history),
        history.source_number(name(2, 0)),
        history.puts(),
    );
    drop(history);
    assert!(rt; names?.as_slice() == [name(0, 0), name(1, 0), name(1, 1)].as_slice());
    assert!(rt; numbers == [Some(0), Some(1), Some(2), None]);
    assert!(rt; source == Some(1) && count == 3);
    Ok(())
}

/// A deletion has a number like any put, and is the source of a get that found it.
#[test]
fn a_deletion_has_a_number(rt: HostRuntime) -> Result<(), Fail> {
    let entries = [
        (0, TestOp::Put(b'x', 1, 1, 0)),
        (1, TestOp::Del(b'x', 2, 64)),
        (2, TestOp::Gone(b'x', 2, 64)),
    ];
    let history = history(rt.alloc(), 3, &entries)?;
    let names = listed(rt.alloc(), &history);
    let (numbers, source, count) = (
        numbers(&history),
        history.source_number(name(2, 0)),
        history.puts(),
    );
    drop(history);
    assert!(rt; names?.as_slice() == [name(0, 0), name(1, 0)].as_slice());
    assert!(rt; numbers == [Some(0), Some(1), None, None]);
    assert!(rt; source == Some(1) && count == 2);
    Ok(())
}

/// How many operations a history has, and the puts among them that have the version of another put.
fn counted(alloc: Global, history: &History) -> Result<(usize, Vec<OpName>), Fail> {
    let puts = Puts::new(alloc, history)?;
    let count = puts.count();
    let doubled = puts.doubled(alloc, 0, count);
    drop(puts);
    Ok((count, doubled?))
}

/// Puts of different clients have the same version, and a put, a deletion and a get that found nothing do not.
#[test]
fn doubled_among_all(rt: HostRuntime) -> Result<(), Fail> {
    let entries = [
        (0, TestOp::Put(b'x', 1, 2, 0)),
        (1, TestOp::Put(b'x', 2, 1, 64)),
        (1, TestOp::Missed(b'y')),
        (2, TestOp::Put(b'y', 3, 2, 0)),
        (2, TestOp::Del(b'y', 1, 64)),
    ];
    let wanted = [name(0, 0), name(1, 0), name(2, 0), name(2, 1)];
    let history = history(rt.alloc(), 3, &entries)?;
    let (count, doubled) = counted(rt.alloc(), &history)?;
    assert!(rt; count == 5);
    assert!(rt; doubled.as_slice() == wanted.as_slice());
    Ok(())
}

/// Whether exactly this get is stale. The verdict is dropped.
fn is_stale(verdict: Verdict, fault: Stale) -> bool {
    let is_stale = match &verdict {
        Verdict::Refused(Faults::Stale(faults)) => faults.as_slice() == [fault].as_slice(),
        _ => false,
    };
    drop(verdict);
    is_stale
}

/// The newer put may be a deletion.
#[test]
fn a_refused_history(rt: HostRuntime) -> Result<(), Fail> {
    let fault = Stale {
        op: name(1, 1),
        newer: name(0, 1),
    };
    for entries in [&STALE, &STALE_BELOW_A_DELETION] {
        let verdict = judged(rt.alloc(), 2, entries)?;
        assert!(rt; is_stale(verdict, fault));
    }
    Ok(())
}

/// The first four operations of a client that put, deleted and put again, and of one that got the last put, and then
/// `last` as the second operation of the latter.
fn ending_with(last: TestOp) -> [(u16, TestOp); 5] {
    let mut entries = STALE_BELOW_A_DELETION;
    entries[4] = (1, last);
    entries
}

/// Whether the get with which such a history ends has no source.
fn ends_without_source(alloc: Global, last: TestOp) -> Result<bool, Fail> {
    let history = history(alloc, 2, &ending_with(last))?;
    let is_sourceless = is_sourceless(alloc, &history, name(1, 1));
    drop(history);
    is_sourceless
}

/// A get that found a deletion has it as its source, and not a put of a value; a get of a value does not have a
/// deletion as its source.
#[test]
fn gets_behind_a_deletion(rt: HostRuntime) -> Result<(), Fail> {
    let entries = ending_with(TestOp::Gone(b'x', 2, 0));
    let verdict = judged(rt.alloc(), 2, &entries)?;
    assert!(rt; accepts(verdict, &[name(0, 0), name(0, 1), name(0, 2)]));
    for (last, wanted) in [
        (TestOp::Gone(b'x', 2, 0), false),
        (TestOp::Gone(b'x', 1, 0), true),
        (TestOp::Gone(b'y', 2, 0), true),
        (TestOp::Got(b'x', 1, 2, 0), true),
    ] {
        assert!(rt; ends_without_source(rt.alloc(), last)? == wanted);
    }
    Ok(())
}

/// An operation with a key of the greatest length, a value of this length and the greatest version.
fn largest(alloc: Global, length: usize, is_put: bool) -> Result<Op, Fail> {
    let version = Version::new(281_474_976_710_655, 1023)?;
    let bytes = vec![in alloc; 255u8; length]?;
    let pair = pair(alloc, &[255; 64], bytes.as_slice());
    drop(bytes);
    let (key, value) = pair?;
    if is_put {
        return Ok(Op::Put {
            key,
            value,
            version,
        });
    }
    Ok(Op::Got {
        key,
        value,
        version,
    })
}

fn push_largest(
    alloc: Global,
    history: &mut History,
    client: u16,
    length: usize,
) -> Result<(), Fail> {
    let op = largest(alloc, length, client == 0)?;
    Ok(history.push(client, op)?)
}

fn is_accepted(alloc: Global, history: &History) -> Result<bool, Fail> {
    let verdict = judge(alloc, history)?;
    Ok(accepts(verdict, &[name(0, 0)]))
}

/// Whether exactly the get with this name has no source.
fn is_sourceless(alloc: Global, history: &History, get: OpName) -> Result<bool, Fail> {
    let verdict = judge(alloc, history)?;
    let is_sourceless = match &verdict {
        Verdict::Refused(Faults::NoSource(gets)) => gets.as_slice() == [get].as_slice(),
        _ => false,
    };
    drop(verdict);
    Ok(is_sourceless)
}

/// Whether the largest put is the source of a get of its whole value, and not of one of a shorter value.
fn is_source_of_all(alloc: Global, history: &mut History) -> Result<bool, Fail> {
    push_largest(alloc, history, 0, 4096)?;
    push_largest(alloc, history, 1, 4096)?;
    let accepted = is_accepted(alloc, history)?;
    push_largest(alloc, history, 1, 4095)?;
    Ok(accepted && is_sourceless(alloc, history, name(1, 1))?)
}

#[test]
fn limits_of_keys_and_values(rt: HostRuntime) -> Result<(), Fail> {
    let mut history = History::new(rt.alloc(), 2)?;
    let is_source = is_source_of_all(rt.alloc(), &mut history);
    drop(history);
    assert!(rt; is_source?);
    Ok(())
}

/// Whether the past of an operation has exactly these numbers of each client's first operations.
fn has_past(
    alloc: Global,
    clients: u16,
    entries: &[(u16, TestOp)],
    op: OpName,
    wanted: &[(u16, u32)],
) -> Result<bool, Fail> {
    let history = history(alloc, clients, entries)?;
    let past = past(alloc, &history, op);
    drop(history);
    Ok(past?.as_slice() == wanted)
}

/// A chain of a hundred clients: client 0 puts x twice and then its own key, each next client gets the key of the one
/// before and puts its own, and the last one gets the first x.
fn chain(alloc: Global) -> Result<Vec<(u16, TestOp)>, Fail> {
    let first = [
        (0, TestOp::Put(b'x', 1, 1, 0)),
        (0, TestOp::Put(b'x', 2, 2, 0)),
        (0, TestOp::Put(128, 1, 3, 0)),
    ];
    let mut entries = Vec::from_slice(alloc, &first)?;
    for client in 1..100u8 {
        let clock = u64::from(client) + 2;
        entries.push((u16::from(client), TestOp::Got(127 + client, 1, clock, 0)))?;
        entries.push((
            u16::from(client),
            TestOp::Put(128 + client, 1, clock + 1, 0),
        ))?;
    }
    entries.push((100, TestOp::Got(227, 1, 102, 0)))?;
    entries.push((100, TestOp::Got(b'x', 1, 1, 0)))?;
    Ok(entries)
}

/// How many of each client's first operations are in the past of the last one of such a chain.
fn past_of_chain() -> [(u16, u32); 101] {
    let mut past = [(0, 3); 101];
    for client in 1..100u16 {
        past[client as usize] = (client, 2);
    }
    past[100] = (100, 1);
    past
}

#[test]
fn past_through_a_hundred_clients(rt: HostRuntime) -> Result<(), Fail> {
    let entries = chain(rt.alloc())?;
    let wanted = past_of_chain();
    assert!(rt; has_past(rt.alloc(), 101, &entries, name(100, 1), &wanted)?);
    Ok(())
}

/// The last two names are of no operation and of no client.
#[test]
fn past_in_a_cycle(rt: HostRuntime) -> Result<(), Fail> {
    let entries = [
        (0, TestOp::Got(b'a', 2, 1, 64)),
        (0, TestOp::Put(b'b', 1, 1, 0)),
        (1, TestOp::Got(b'b', 1, 1, 0)),
        (1, TestOp::Put(b'a', 2, 1, 64)),
        (2, TestOp::Missed(b'a')),
    ];
    let wanted = [(0, 2), (1, 2)];
    assert!(rt; has_past(rt.alloc(), 3, &entries, name(0, 0), &wanted)?);
    for op in [name(2, 0), name(2, 1), name(3, 0)] {
        assert!(rt; has_past(rt.alloc(), 3, &entries, op, &[])?, "{op}");
    }
    Ok(())
}

/// A deletion that a get found is in its past, with what its client did before.
#[test]
fn past_through_a_deletion(rt: HostRuntime) -> Result<(), Fail> {
    let entries = [
        (0, TestOp::Put(b'y', 1, 1, 0)),
        (0, TestOp::Del(b'x', 2, 0)),
        (1, TestOp::Gone(b'x', 2, 0)),
        (1, TestOp::Missed(b'z')),
    ];
    assert!(rt; has_past(rt.alloc(), 2, &entries, name(1, 1), &[(0, 2), (1, 1)])?);
    Ok(())
}

/// Each put that a get may have returned is in its past, where two puts have one version.
#[test]
fn past_with_two_sources(rt: HostRuntime) -> Result<(), Fail> {
    let entries = [
        (0, TestOp::Put(b'x', 1, 1, 0)),
        (1, TestOp::Missed(b'x')),
        (1, TestOp::Put(b'x', 1, 1, 0)),
        (2, TestOp::Put(b'x', 2, 1, 0)),
        (3, TestOp::Got(b'x', 1, 1, 0)),
    ];
    assert!(rt; has_past(rt.alloc(), 4, &entries, name(3, 0), &[(0, 1), (1, 2)])?);
    Ok(())
}
