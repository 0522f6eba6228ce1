use crate::building::*;
use cops_audit::{Verdict, judge};
use cops_batch::*;
use cops_testing::{HoldsAt, Meeting};
use cops_types::{Gate, History, Memory, OpName, OpenGate, Point, VersionedPut};
use std::alloc::{AllocError, Global};
use std::sync::Wait;
use std::test::Fail;
use std::thread::Threads;

/// Three puts with one version.
const DOUBLED: [(u16, TestOp); 5] = [
    (0, TestOp::Put(b'x', 1, 1, 0)),
    (1, TestOp::Put(b'y', 1, 1, 0)),
    (1, TestOp::Got(b'q', 9, 9, 0)),
    (2, TestOp::Put(b'x', 2, 2, 0)),
    (2, TestOp::Put(b'x', 3, 1, 0)),
];

/// A get that found a deletion, with a version that a put of a value has, and the other way round.
const SOURCELESS: [(u16, TestOp); 4] = [
    (0, TestOp::Put(b'x', 1, 1, 0)),
    (0, TestOp::Del(b'x', 2, 0)),
    (1, TestOp::Gone(b'x', 1, 0)),
    (2, TestOp::Got(b'x', 1, 2, 0)),
];

/// Whether this number of workers gives this verdict.
fn gives<R: Threads + Wait + Sync + AllocGlobal, G: Gate>(
    rt: &R,
    gate: &G,
    workers: u8,
    history: &History,
    wanted: &Verdict,
) -> Result<bool, BatchFault> {
    let verdict = judge_with(rt, rt.alloc(), history, workers, gate)?;
    Ok(same(verdict, wanted))
}

/// Whether this number of workers gives the verdict that one worker gives, or the fault with which they end.
fn answer_on<R: Threads + Wait + Sync + AllocGlobal, G: Gate>(
    rt: &R,
    gate: &G,
    workers: u8,
    history: &History,
) -> Result<Result<bool, BatchFault>, Memory> {
    let wanted = judge(rt.alloc(), history)?;
    let answer = gives(rt, gate, workers, history, &wanted);
    drop(wanted);
    Ok(answer)
}

/// Whether this number of workers gives the verdict that one gives on a history of three clients with these entries, or
/// the fault with which they end.
fn answer<R: Threads + Wait + Sync + AllocGlobal, G: Gate>(
    rt: &R,
    gate: &G,
    workers: u8,
    entries: &[(u16, TestOp)],
) -> Result<Result<bool, BatchFault>, Fail> {
    let history = history(rt.alloc(), 3, entries)?;
    let answer = answer_on(rt, gate, workers, &history);
    drop(history);
    Ok(answer?)
}

#[test]
fn workers_say_what_one_does(rt: HostRuntime) -> Result<(), Fail> {
    assert!(rt; answer(&rt, &OpenGate, 2, &STALE)? == Ok(true));
    for workers in [1, 2, 64] {
        for entries in [&STALE_BELOW_A_DELETION[..], &SOURCELESS[..]] {
            assert!(rt; answer(&rt, &OpenGate, workers, entries)? == Ok(true));
        }
    }
    Ok(())
}

fn names_of(alloc: Global, puts: &[VersionedPut]) -> Result<Vec<OpName>, AllocError> {
    puts.iter().map(|put| put.name).collect(alloc)
}

/// Whether this number of workers gives the puts of a history of two clients in this order.
fn orders<R: Threads + Wait + Sync + AllocGlobal>(
    rt: &R,
    workers: u8,
    entries: &[(u16, TestOp)],
    wanted: &[OpName],
) -> Result<bool, Fail> {
    let history = history(rt.alloc(), 2, entries)?;
    let ordered = judge_in_order_with(rt, rt.alloc(), &history, workers, &OpenGate);
    drop(history);
    let ordered = ordered?;
    let names = names_of(rt.alloc(), ordered.puts.as_slice());
    drop(ordered);
    Ok(names?.as_slice() == wanted)
}

#[test]
fn puts_in_order_of_versions(rt: HostRuntime) -> Result<(), Fail> {
    let out_of_order = [
        (0, TestOp::Put(b'x', 1, 3, 0)),
        (1, TestOp::Put(b'y', 1, 1, 0)),
        (0, TestOp::Got(b'y', 1, 1, 0)),
        (1, TestOp::Put(b'x', 2, 2, 0)),
    ];
    for workers in [1, 2, 64] {
        let wanted = [name(1, 0), name(1, 1), name(0, 0)];
        assert!(rt; orders(&rt, workers, &out_of_order, &wanted)?);
        let wanted = [name(0, 0), name(0, 1), name(0, 2)];
        assert!(rt; orders(&rt, workers, &STALE, &wanted)?);
    }
    Ok(())
}

#[test]
fn too_few_and_too_many_workers(rt: HostRuntime) -> Result<(), Fail> {
    for workers in [0u8, 65, 255] {
        let answer = answer(&rt, &OpenGate, workers, &STALE)?;
        assert!(rt; answer == Err(BatchFault::BadWorkers), "{workers}");
    }
    Ok(())
}

/// Whether the pieces meet, and the verdict is that of one worker.
fn meets<R: Threads + Wait + Sync + AllocGlobal>(
    rt: &R,
    workers: u8,
    entries: &[(u16, TestOp)],
) -> Result<bool, Fail> {
    let gate = Meeting::new(Point::PieceStart(0), Point::PieceStart(1));
    Ok(answer(rt, &gate, workers, entries)? == Ok(true))
}

#[test]
fn pieces_stand_side_by_side(rt: HostRuntime) -> Result<(), Fail> {
    for (workers, entries) in [(2, &STALE[..]), (2, &DOUBLED[..]), (64, &STALE[..4])] {
        assert!(rt; meets(&rt, workers, entries)?);
    }
    Ok(())
}

/// Whether a call with three workers is held at the point.
fn is_held<R: Threads + Wait + Sync + AllocGlobal>(
    rt: &R,
    entries: &[(u16, TestOp)],
    point: Point,
) -> Result<bool, Fail> {
    Ok(answer(rt, &HoldsAt { point }, 3, entries)? == Err(BatchFault::Held))
}

#[test]
fn a_held_worker_is_reported(rt: HostRuntime) -> Result<(), Fail> {
    let sourceless = &DOUBLED[1..3];
    for i in 0..3 {
        assert!(rt; is_held(&rt, &STALE, Point::PieceStart(i))?, "{i}");
        assert!(rt; is_held(&rt, sourceless, Point::PieceDone(i))?, "{i}");
        assert!(rt; is_held(&rt, &DOUBLED, Point::PieceDone(i))?, "{i}");
    }
    assert!(rt; !is_held(&rt, &STALE, Point::PieceDone(3))?);
    Ok(())
}
