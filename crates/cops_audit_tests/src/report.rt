use crate::building::*;
use cops_audit::{Judged, Online, judge};
use cops_report::*;
use cops_types::{History, Memory, OpName};
use std::alloc::Global;
use std::test::Fail;

fn feed_all(alloc: Global, online: &mut Online, entries: &[(u16, TestOp)]) -> Result<(), Fail> {
    for (client, test_op) in entries {
        let op = op(alloc, *test_op)?;
        online.feed(*client, op)?;
    }
    Ok(())
}

/// The verdict of an auditor of two clients that was fed these operations, with their history.
fn fed(alloc: Global, entries: &[(u16, TestOp)]) -> Result<Judged, Fail> {
    let mut online = Online::new(alloc, 2)?;
    match feed_all(alloc, &mut online, entries) {
        Ok(()) => Ok(online.close()?),
        Err(fault) => {
            drop(online);
            Err(fault)
        }
    }
}

/// Whether the report of the verdict on a history is this text.
fn is_reported(alloc: Global, history: &History, text: &str) -> Result<bool, Memory> {
    let verdict = judge(alloc, history)?;
    let reported = report(alloc, history, &verdict);
    drop(verdict);
    Ok(reported?.as_slice() == text.as_bytes())
}

/// Whether the report of the verdict on a history is this text, also where the history was fed operation by operation.
fn both_report(alloc: Global, entries: &[(u16, TestOp)], text: &str) -> Result<bool, Fail> {
    let history = history(alloc, 2, entries)?;
    let is_reported = is_reported(alloc, &history, text);
    drop(history);
    if !is_reported? {
        return Ok(false);
    }
    let fed = fed(alloc, entries)?;
    let reported = report_judged(alloc, &fed);
    drop(fed);
    Ok(reported?.as_slice() == text.as_bytes())
}

#[test]
fn reports(rt: HostRuntime) -> Result<(), Fail> {
    let accepted = "accepted: 4 operations, 3 puts\n";
    assert!(rt; both_report(rt.alloc(), &STALE[..4], accepted)?);
    let refused =
        "refused: 5 operations, 3 puts, 1 faults\nstale (1,1) returned 1.0, newer (0,1) at 2.0, chain (0,1) (0,2) (1,0) (1,1)\n";
    assert!(rt; both_report(rt.alloc(), &STALE, refused)?);
    let other_value = [
        (0, TestOp::Put(b'x', 1, 1, 0)),
        (1, TestOp::Got(b'x', 2, 1, 0)),
    ];
    let no_source = "refused: 2 operations, 1 puts, 1 faults\nno source (1,0) at 1.0\n";
    assert!(rt; both_report(rt.alloc(), &other_value, no_source)?);
    Ok(())
}

/// Whether the last of three puts in order of versions has this name, and the report by the puts is this text.
fn reports_by_puts(
    alloc: Global,
    entries: &[(u16, TestOp)],
    last: OpName,
    text: &str,
) -> Result<bool, Fail> {
    let fed = fed(alloc, entries)?;
    let is_last = match fed.puts().get(2) {
        Some(put) => put.name == last,
        None => false,
    };
    let reported = report_by(alloc, fed.history(), fed.puts(), fed.verdict());
    drop(fed);
    Ok(reported?.as_slice() == text.as_bytes() && is_last)
}

#[test]
fn reports_by_the_order_of_puts(rt: HostRuntime) -> Result<(), Fail> {
    let refused =
        "refused: 5 operations, 3 puts, 1 faults\nstale (1,1) returned 1.0, newer (0,1) at 2.0, chain (0,1) (0,2) (1,0) (1,1)\n";
    assert!(rt; reports_by_puts(rt.alloc(), &STALE, name(0, 2), refused)?);
    Ok(())
}

/// A deletion is counted and named as a put, and the chain leads through it.
#[test]
fn reports_of_deletions(rt: HostRuntime) -> Result<(), Fail> {
    let mut entries = STALE_BELOW_A_DELETION;
    let stale =
        "refused: 5 operations, 3 puts, 1 faults\nstale (1,1) returned 1.0, newer (0,1) at 2.0, chain (0,1) (0,2) (1,0) (1,1)\n";
    assert!(rt; both_report(rt.alloc(), &entries, stale)?);
    let accepted = "accepted: 5 operations, 3 puts\n";
    entries[4] = (1, TestOp::Gone(b'x', 2, 0));
    assert!(rt; both_report(rt.alloc(), &entries, accepted)?);
    let no_source = "refused: 5 operations, 3 puts, 1 faults\nno source (1,1) at 1.0\n";
    entries[4] = (1, TestOp::Gone(b'x', 1, 0));
    assert!(rt; both_report(rt.alloc(), &entries, no_source)?);
    let missed =
        "refused: 5 operations, 3 puts, 1 faults\nstale (1,1) returned nothing, newer (0,1) at 2.0, chain (0,1) (0,2) (1,0) (1,1)\n";
    entries[4] = (1, TestOp::Missed(b'x'));
    assert!(rt; both_report(rt.alloc(), &entries, missed)?);
    Ok(())
}

/// Whether this is the chain from one name to another. An empty list stands for no chain.
fn leads(
    alloc: Global,
    entries: &[(u16, TestOp)],
    clients: u16,
    ends: (OpName, OpName),
    wanted: &[OpName],
) -> Result<bool, Fail> {
    let history = history(alloc, clients, entries)?;
    let chain = chain(alloc, &history, ends.0, ends.1);
    drop(history);
    match chain? {
        Some(names) => Ok(names.as_slice() == wanted),
        None => Ok(wanted.is_empty()),
    }
}

#[test]
fn chains(rt: HostRuntime) -> Result<(), Fail> {
    let through = [name(0, 1), name(0, 2), name(1, 0), name(1, 1)];
    let ends = (name(0, 1), name(1, 1));
    assert!(rt; leads(rt.alloc(), &STALE, 2, ends, &through)?);
    let itself = name(1, 0);
    assert!(rt; leads(rt.alloc(), &STALE, 2, (itself, itself), &[itself])?);
    Ok(())
}

/// A get that found a deletion is a step from it.
#[test]
fn a_chain_from_a_deletion(rt: HostRuntime) -> Result<(), Fail> {
    let entries = [
        (0, TestOp::Put(b'x', 1, 1, 0)),
        (0, TestOp::Del(b'x', 2, 0)),
        (1, TestOp::Gone(b'x', 2, 0)),
        (1, TestOp::Missed(b'y')),
    ];
    let through = [name(0, 1), name(1, 0), name(1, 1)];
    let ends = (name(0, 1), name(1, 1));
    assert!(rt; leads(rt.alloc(), &entries, 2, ends, &through)?);
    Ok(())
}

/// There is no chain from a later name to an earlier one, to a name of no operation, or from a name of no client.
#[test]
fn no_chains(rt: HostRuntime) -> Result<(), Fail> {
    for (from, to) in [
        (name(1, 0), name(0, 0)),
        (name(0, 0), name(1, 2)),
        (name(2, 0), name(2, 0)),
    ] {
        assert!(rt;
            leads(rt.alloc(), &STALE, 2, (from, to), &[])?,
            "{from} {to}"
        );
    }
    Ok(())
}

#[test]
fn the_first_of_the_shortest_chains(rt: HostRuntime) -> Result<(), Fail> {
    let entries = [
        (0, TestOp::Put(b'x', 1, 1, 0)),
        (2, TestOp::Got(b'x', 1, 1, 0)),
        (2, TestOp::Put(b'z', 1, 2, 2)),
        (1, TestOp::Got(b'x', 1, 1, 0)),
        (1, TestOp::Put(b'y', 1, 2, 1)),
        (3, TestOp::Got(b'z', 1, 2, 2)),
        (3, TestOp::Got(b'y', 1, 2, 1)),
        (3, TestOp::Missed(b'q')),
    ];
    let wanted = [name(2, 0), name(2, 1), name(3, 0), name(3, 2)];
    let ends = (name(2, 0), name(3, 2));
    assert!(rt; leads(rt.alloc(), &entries, 4, ends, &wanted)?);
    Ok(())
}

#[test]
fn chains_where_steps_lead_back(rt: HostRuntime) -> Result<(), Fail> {
    let entries = [
        (0, TestOp::Got(b'a', 2, 1, 64)),
        (0, TestOp::Put(b'b', 1, 1, 0)),
        (1, TestOp::Got(b'b', 1, 1, 0)),
        (1, TestOp::Put(b'a', 2, 1, 64)),
        (2, TestOp::Put(b'a', 2, 1, 64)),
    ];
    let back = [name(0, 1), name(1, 0), name(1, 1), name(0, 0)];
    let ends = (name(0, 1), name(0, 0));
    assert!(rt; leads(rt.alloc(), &entries, 3, ends, &back)?);
    let ends = (name(2, 0), name(0, 0));
    assert!(rt; leads(rt.alloc(), &entries, 3, ends, &[ends.0, ends.1])?);
    Ok(())
}
