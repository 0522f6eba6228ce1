use cops_record::*;
use cops_testing::pair;
use cops_trace::Trace;
use cops_types::{Format, Key, Memory, Op, OpName, TypeFault, Version};
use std::alloc::Global;
use std::sync::Wait;
use std::test::Fail;
use std::thread;
use std::thread::Threads;

fn put(alloc: Global, clock: u64) -> Result<Op, TypeFault> {
    let version = Version::new(clock, 0)?;
    let (key, value) = pair(alloc, b"x", b"1")?;
    Ok(Op::Put {
        key,
        value,
        version,
    })
}

/// Reserves a slot for the client, and fills it.
fn record<R: Wait>(rt: &R, recorder: &Recorder, client: u16, op: Op) -> Result<(), RecordFault> {
    match recorder.reserve(rt, client) {
        Ok(slot) => {
            recorder.fill(rt, slot, op);
            Ok(())
        }
        Err(fault) => {
            drop(op);
            Err(fault)
        }
    }
}

/// Reserves a slot for the client, and fills it with a put of that clock.
fn record_put<R: Wait>(
    rt: &R,
    alloc: Global,
    recorder: &Recorder,
    client: u16,
    clock: u64,
) -> Result<(), Fail> {
    let op = put(alloc, clock)?;
    Ok(record(rt, recorder, client, op)?)
}

/// The number of records from a place on, and the client of the first of them.
fn copies<R: Wait>(rt: &R, recorder: &Recorder, from: usize) -> Result<(usize, u16), Memory> {
    let copies = recorder.copy_from(rt, from)?;
    Ok(match copies.first() {
        Some(first) => (copies.len(), first.client),
        None => (0, 0),
    })
}

/// The number of the client's operations, and whether the last of them is this one.
fn ends(trace: &Trace, client: u16, op: &Op) -> (usize, bool) {
    let history = trace.history();
    let operations = history.session_len(client);
    let index = operations.saturating_sub(1) as u32;
    let is_last = match history.op(OpName { client, index }) {
        Some(last) => last.is(&op.as_ref()),
        None => false,
    };
    (operations, is_last)
}

/// The number of the client's operations, and whether the last of them is the put of that clock.
fn ends_with_put(
    alloc: Global,
    trace: &Trace,
    client: u16,
    clock: u64,
) -> Result<(usize, bool), TypeFault> {
    let op = put(alloc, clock)?;
    let ends = ends(trace, client, &op);
    drop(op);
    Ok(ends)
}

/// Reserves a slot of client 0 first, but fills it after that of client 1.
fn record_backwards<R: Wait>(rt: &R, alloc: Global, recorder: &Recorder) -> Result<(), Fail> {
    let op = put(alloc, 10)?;
    match recorder.reserve(rt, 0) {
        Ok(slot) => {
            let recorded = record_put(rt, alloc, recorder, 1, 11);
            recorder.fill(rt, slot, op);
            recorded
        }
        Err(fault) => {
            drop(op);
            Err(Fail::from(fault))
        }
    }
}

/// Whether there are two records, the first of client 1 and the second of client 0, and no third.
fn are_backwards<R: Wait>(rt: &R, recorder: &Recorder) -> Result<bool, Memory> {
    Ok(
        copies(rt, recorder, 0)? == (2, 1)
            && copies(rt, recorder, 1)? == (1, 0)
            && copies(rt, recorder, usize::MAX)? == (0, 0),
    )
}

/// Records backwards, and returns whether the records show it.
fn is_seen_backwards<R: Wait>(rt: &R, alloc: Global, recorder: &Recorder) -> Result<bool, Fail> {
    record_backwards(rt, alloc, recorder)?;
    Ok(are_backwards(rt, recorder)?)
}

fn has_both(alloc: Global, trace: &Trace) -> Result<bool, TypeFault> {
    Ok(
        ends_with_put(alloc, trace, 0, 10)? == (1, true)
            && ends_with_put(alloc, trace, 1, 11)? == (1, true),
    )
}

#[test]
fn a_record_takes_its_place_when_its_slot_is_filled(rt: HostRuntime) -> Result<(), Fail> {
    let recorder = Recorder::new(rt.alloc(), 2)?;
    assert!(rt; is_seen_backwards(&rt, rt.alloc(), &recorder)?);
    let trace = recorder.into_trace()?;
    let has_both = has_both(rt.alloc(), &trace);
    drop(trace);
    assert!(rt; has_both?);
    Ok(())
}

/// Cancels one slot of client 0, and then fills another one.
fn cancel_one<R: Wait>(rt: &R, alloc: Global, recorder: &Recorder) -> Result<(), Fail> {
    let slot = recorder.reserve(rt, 0)?;
    recorder.cancel(rt, slot);
    record_put(rt, alloc, recorder, 0, 1)
}

/// The number of operations that were recorded.
fn recorded(recorder: Recorder) -> Result<usize, IntoTraceFault> {
    let trace = recorder.into_trace()?;
    let len = trace.len();
    drop(trace);
    Ok(len)
}

#[test]
fn a_cancelled_slot_leaves_no_record(rt: HostRuntime) -> Result<(), Fail> {
    let recorder = Recorder::new(rt.alloc(), 1)?;
    cancel_one(&rt, rt.alloc(), &recorder)?;
    assert_eq!(rt; recorded(recorder)?, 1);
    Ok(())
}

/// A deletion of x, and a get that found it.
fn deletion(alloc: Global) -> Result<[Op; 2], TypeFault> {
    let version = Version::new(2, 0)?;
    let key = Key::new(alloc, b"x")?;
    match Key::new(alloc, b"x") {
        Ok(found) => Ok([
            Op::Del { key, version },
            Op::Gone {
                key: found,
                version,
            },
        ]),
        Err(fault) => {
            drop(key);
            Err(fault)
        }
    }
}

/// Records a put, a deletion and a get that found it.
fn record_deletion<R: Wait>(rt: &R, alloc: Global, recorder: &Recorder) -> Result<(), Fail> {
    record_put(rt, alloc, recorder, 0, 1)?;
    let [deleted, gone] = deletion(alloc)?;
    let first = record(rt, recorder, 0, deleted);
    let second = record(rt, recorder, 0, gone);
    first?;
    Ok(second?)
}

/// An operation that the recorder's format does not have leaves no record.
#[test]
fn deletions_are_recorded_in_format_2(rt: HostRuntime) -> Result<(), Fail> {
    for (format, wanted) in [(Format::One, 1), (Format::Two, 3)] {
        let recorder = Recorder::new_in(format, rt.alloc(), 1)?;
        record_deletion(&rt, rt.alloc(), &recorder)?;
        assert_eq!(rt; recorded(recorder)?, wanted);
    }
    Ok(())
}

/// Uses two slots of another recorder on this one: one is filled, one cancelled.
fn spend_elsewhere<R: Wait>(
    rt: &R,
    alloc: Global,
    recorder: &Recorder,
    other: &Recorder,
) -> Result<(), Fail> {
    let op = put(alloc, 1)?;
    match other.reserve(rt, 1) {
        Ok(slot) => recorder.fill(rt, slot, op),
        Err(fault) => {
            drop(op);
            return Err(Fail::from(fault));
        }
    }
    let slot = other.reserve(rt, 2)?;
    recorder.cancel(rt, slot);
    Ok(())
}

/// Uses slots of another recorder, and returns the number of records after one of client 0, and the client of the
/// first.
fn spent_and_recorded<R: Wait>(
    rt: &R,
    alloc: Global,
    recorder: &Recorder,
) -> Result<(usize, u16), Fail> {
    let other = Recorder::new(alloc, 3)?;
    let spent = spend_elsewhere(rt, alloc, recorder, &other);
    drop(other);
    spent?;
    record_put(rt, alloc, recorder, 0, 2)?;
    Ok(copies(rt, recorder, 0)?)
}

#[test]
fn a_slot_of_another_recorder_changes_nothing(rt: HostRuntime) -> Result<(), Fail> {
    let recorder = Recorder::new(rt.alloc(), 2)?;
    let recorded = spent_and_recorded(&rt, rt.alloc(), &recorder);
    drop(recorder);
    assert!(rt; recorded? == (1, 0));
    Ok(())
}

/// Why the client gets no slot.
fn refusal<R: Wait>(rt: &R, recorder: &Recorder, client: u16) -> Option<RecordFault> {
    match recorder.reserve(rt, client) {
        Ok(slot) => {
            recorder.cancel(rt, slot);
            None
        }
        Err(fault) => Some(fault),
    }
}

/// Fills a session: a million gets of client 0 that found nothing.
fn fill_session<R: Wait>(rt: &R, alloc: Global, recorder: &Recorder) -> Result<(), Fail> {
    for _ in 0..1_000_000 {
        let key = Key::new(alloc, b"x")?;
        record(rt, recorder, 0, Op::Missed { key })?;
    }
    Ok(())
}

/// Why a client that does not exist gets no slot, client 0 while there is room, and clients 0 and 1 once the session of
/// client 0 is full. A slot that is given here is cancelled, so that a reservation that was not undone would leave no
/// room for the last operation of the session.
fn refusals<R: Wait>(
    rt: &R,
    alloc: Global,
    recorder: &Recorder,
) -> Result<[Option<RecordFault>; 4], Fail> {
    let unknown = refusal(rt, recorder, 2);
    let cancelled = refusal(rt, recorder, 0);
    fill_session(rt, alloc, recorder)?;
    Ok([
        unknown,
        cancelled,
        refusal(rt, recorder, 0),
        refusal(rt, recorder, 1),
    ])
}

#[test]
fn refusals_of_a_slot(rt: HostRuntime) -> Result<(), Fail> {
    let recorder = Recorder::new(rt.alloc(), 2)?;
    let refusals = refusals(&rt, rt.alloc(), &recorder);
    drop(recorder);
    let wanted = [
        Some(RecordFault::UnknownClient),
        None,
        Some(RecordFault::SessionFull),
        None,
    ];
    assert_eq!(rt; refusals?, wanted);
    Ok(())
}

/// An operation, even if one allocation fails.
fn surely_put(alloc: Global) -> Result<Op, TypeFault> {
    match put(alloc, 1) {
        Err(TypeFault::Memory) => put(alloc, 1),
        made => made,
    }
}

/// A slot of client 0, even if one allocation fails.
fn surely_reserve<R: Wait>(rt: &R, recorder: &Recorder) -> Result<Slot, RecordFault> {
    match recorder.reserve(rt, 0) {
        Err(RecordFault::Memory) => recorder.reserve(rt, 0),
        answer => answer,
    }
}

/// Records a put, even if one allocation fails.
fn surely_record<R: Wait>(rt: &R, alloc: Global, recorder: &Recorder) -> Result<(), Fail> {
    let op = surely_put(alloc)?;
    match surely_reserve(rt, recorder) {
        Ok(slot) => {
            recorder.fill(rt, slot, op);
            Ok(())
        }
        Err(fault) => {
            drop(op);
            Err(Fail::from(fault))
        }
    }
}

/// The number of records, even if one allocation fails.
fn surely_count<R: Wait>(rt: &R, recorder: &Recorder) -> Result<(usize, u16), Memory> {
    match copies(rt, recorder, 0) {
        Err(Memory) => copies(rt, recorder, 0),
        count => count,
    }
}

/// Records nine puts, and counts them.
fn record_nine<R: Wait>(rt: &R, alloc: Global, recorder: &Recorder) -> Result<(usize, u16), Fail> {
    for _ in 1..10 {
        surely_record(rt, alloc, recorder)?;
    }
    Ok(surely_count(rt, recorder)?)
}

/// The number of operations that were recorded, even if one allocation fails.
fn surely_recorded(recorder: Recorder) -> Result<usize, IntoTraceFault> {
    match recorded(recorder) {
        Err(IntoTraceFault::Memory(back)) => recorded(back),
        answer => answer,
    }
}

/// Holds whichever single allocation fails: no record is lost, and none is incomplete.
#[test]
fn a_refused_allocation_changes_nothing(rt: HostRuntime) -> Result<(), Fail> {
    let recorder = match Recorder::new(rt.alloc(), 1) {
        Ok(recorder) => recorder,
        Err(_) => Recorder::new(rt.alloc(), 1)?,
    };
    assert!(rt; record_nine(&rt, rt.alloc(), &recorder)? == (9, 0));
    assert_eq!(rt; surely_recorded(recorder)?, 9);
    Ok(())
}

/// Records a hundred operations of a client.
fn record_all<R: Wait>(rt: &R, alloc: Global, recorder: &Recorder, client: u16) -> bool {
    for clock in 1..101 {
        let is_recorded = match put(alloc, clock) {
            Ok(op) => record(rt, recorder, client, op).is_ok(),
            Err(_) => false,
        };
        if !is_recorded {
            return false;
        }
    }
    true
}

/// Whether each of two clients has a hundred operations, the last of them the put of clock 100.
fn has_two_hundred(alloc: Global, trace: &Trace) -> Result<bool, TypeFault> {
    Ok(
        ends_with_put(alloc, trace, 0, 100)? == (100, true)
            && ends_with_put(alloc, trace, 1, 100)? == (100, true),
    )
}

#[test]
fn two_threads_record(rt: HostRuntime) -> Result<(), Fail> {
    let alloc = rt.alloc();
    let recorder = Recorder::new(alloc, 2)?;
    let (zero, one) = thread::join(
        &rt,
        || record_all(&rt, alloc, &recorder, 0),
        || record_all(&rt, alloc, &recorder, 1),
    );
    let trace = recorder.into_trace()?;
    let is_whole = has_two_hundred(alloc, &trace);
    drop(trace);
    assert!(rt; zero && one);
    assert!(rt; is_whole?);
    Ok(())
}
