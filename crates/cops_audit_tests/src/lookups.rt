//! What makes a search faster changes no history, no place and no verdict: each is compared with the plain search.

use crate::building::*;
use cops_audit::{Buckets, Verdict, first_from, judge, place_near, place_of, puts_by_version};
use cops_types::{History, TypeFault, Version};
use std::alloc::Global;
use std::test::Fail;

/// How a history finds the keys and the puts of the operations that it is given.
#[derive(Clone, Copy, PartialEq, Eq)]
enum Way {
    /// By its lookups, and by a search where they find nothing.
    LookedUp,
    /// By a search alone: it forgets what the lookups need before each operation.
    Searched,
}

/// The number of rounds.
const ROUNDS: u8 = 200;

/// The put of the round after the last one, and two gets of it and of the put on its key 16 rounds before: the second of
/// them is stale.
const LAST: [(u16, TestOp); 3] = [
    (0, TestOp::Put(8, 200, 401, 0)),
    (3, TestOp::Got(8, 200, 401, 0)),
    (3, TestOp::Got(8, 184, 369, 0)),
];

/// The operations of a round. One get names the put of the next round, so that it comes before that put.
fn round_of(round: u8) -> [(u16, TestOp); 6] {
    let (key, next) = (round % 16, round.wrapping_add(1));
    let clock = 2 * u64::from(round) + 1;
    [
        (0, TestOp::Put(key, round, clock, 0)),
        (1, TestOp::Got(key, round, clock, 0)),
        (1, TestOp::Del(key + 16, clock + 1, 1)),
        (2, TestOp::Gone(key + 16, clock + 1, 1)),
        (2, TestOp::Got(next % 16, next, clock + 2, 0)),
        (3, TestOp::Missed(key + 32)),
    ]
}

fn push(
    alloc: Global,
    history: &mut History,
    client: u16,
    test_op: TestOp,
    way: Way,
) -> Result<(), TypeFault> {
    history.reserve(client)?;
    if way == Way::Searched {
        history.forget_candidates();
    }
    history.push(client, op(alloc, test_op)?)
}

fn push_rounds(
    alloc: Global,
    history: &mut History,
    last: &[(u16, TestOp)],
    way: Way,
) -> Result<(), TypeFault> {
    for round in 0..ROUNDS {
        for (client, test_op) in round_of(round) {
            push(alloc, history, client, test_op, way)?;
        }
    }
    for (client, test_op) in last {
        push(alloc, history, *client, *test_op, way)?;
    }
    Ok(())
}

/// A history of four clients: all rounds, and these operations at the end.
fn rounds_of(alloc: Global, last: &[(u16, TestOp)], way: Way) -> Result<History, Fail> {
    let mut history = History::new(alloc, 4)?;
    match push_rounds(alloc, &mut history, last, way) {
        Ok(()) => Ok(history),
        Err(fault) => {
            drop(history);
            Err(Fail::from(fault))
        }
    }
}

/// Whether the two have the same operations.
fn are_equal(history: &History, other: &History) -> bool {
    for client in 0..4 {
        for index in 0..history.session_len(client) {
            let name = name(client, index as u32);
            let equal = match (history.op(name), other.op(name)) {
                (Some(op), Some(other)) => op.is(&other),
                _ => false,
            };
            if !equal {
                return false;
            }
        }
    }
    history.len() == other.len()
}

/// Whether the two have the same verdict, and whether it accepts them.
fn judgements(alloc: Global, history: &History, other: &History) -> Result<[bool; 2], Fail> {
    let verdict = judge(alloc, history)?;
    match judge(alloc, other) {
        Ok(wanted) => {
            let accepts = match &wanted {
                Verdict::Accepted(_) => true,
                Verdict::Refused(_) => false,
            };
            let equal = same(verdict, &wanted);
            drop(wanted);
            Ok([equal, accepts])
        }
        Err(fault) => {
            drop(verdict);
            Err(Fail::from(fault))
        }
    }
}

/// Whether lookups are used, and two histories, one built with them and one without, are equal and have the same
/// verdict; and whether that accepts them.
fn compared(alloc: Global, last: &[(u16, TestOp)]) -> Result<[bool; 4], Fail> {
    let history = rounds_of(alloc, last, Way::LookedUp)?;
    match rounds_of(alloc, last, Way::Searched) {
        Ok(other) => {
            let uses_lookups = history.pending_reads() < other.pending_reads();
            let equal = are_equal(&history, &other);
            let judged = judgements(alloc, &history, &other);
            drop(other);
            drop(history);
            let [judged_equal, accepts] = judged?;
            Ok([uses_lookups, equal, judged_equal, accepts])
        }
        Err(fault) => {
            drop(history);
            Err(fault)
        }
    }
}

#[test]
fn lookups_change_no_history_and_no_verdict(rt: HostRuntime) -> Result<(), Fail> {
    assert_eq!(rt; compared(rt.alloc(), &[])?, [true, true, true, false]);
    assert_eq!(rt; compared(rt.alloc(), &LAST[..1])?, [true, true, true, true]);
    assert_eq!(rt; compared(rt.alloc(), &LAST)?, [true, true, true, false]);
    Ok(())
}

/// Whether each version, also one that no put has, is found at the same place by each search.
fn places_agree(alloc: Global, history: &History) -> Result<bool, Fail> {
    let table = puts_by_version(alloc, history)?;
    let buckets = Buckets::new(alloc, table.as_slice(), 1_000_000);
    for clock in 0..500 {
        for node in 0..3 {
            let version = Version::new(clock + 1, node)?;
            let plain = place_of(table.as_slice(), version);
            let near = place_near(table.as_slice(), version, clock as u32);
            if buckets.place_of(table.as_slice(), version) != plain || near != plain {
                return Ok(false);
            }
        }
    }
    Ok(true)
}

#[test]
fn faster_searches_find_the_same_places(rt: HostRuntime) -> Result<(), Fail> {
    let history = rounds_of(rt.alloc(), &[], Way::LookedUp)?;
    let agree = places_agree(rt.alloc(), &history);
    drop(history);
    assert!(rt; agree?);
    Ok(())
}

/// The first places of puts with the versions 2.0 and 4.0 or later ones.
fn first_places(alloc: Global, history: &History) -> Result<(usize, usize), Fail> {
    let second = Version::new(2, 0)?;
    let fourth = Version::new(4, 0)?;
    let puts = puts_by_version(alloc, history)?;
    Ok((first_from(&puts, second), first_from(&puts, fourth)))
}

#[test]
fn first_places_of_versions(rt: HostRuntime) -> Result<(), Fail> {
    let history = history(rt.alloc(), 2, &STALE)?;
    let places = first_places(rt.alloc(), &history);
    drop(history);
    assert!(rt; places? == (1, 3));
    Ok(())
}
