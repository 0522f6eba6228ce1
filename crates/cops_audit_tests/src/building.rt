use cops_audit::{Verdict, judge};
use cops_testing::pair;
use cops_types::{History, Key, Op, OpName, TypeFault, Value, Version};
use std::alloc::Global;
use std::test::Fail;

/// An operation with a key and a value of one byte, and a version's clock and node.
#[derive(Clone, Copy)]
pub enum TestOp {
    Put(u8, u8, u64, u16),
    Got(u8, u8, u64, u16),
    Missed(u8),
    /// A deletion: a key, and a version's clock and node.
    Del(u8, u64, u16),
    /// A get that found a deletion.
    Gone(u8, u64, u16),
}

/// One get is stale: the second of client 1, whose past has the put of x at 2.
pub const STALE: [(u16, TestOp); 5] = [
    (0, TestOp::Put(b'x', 1, 1, 0)),
    (0, TestOp::Put(b'x', 2, 2, 0)),
    (0, TestOp::Put(b'y', 3, 3, 0)),
    (1, TestOp::Got(b'y', 3, 3, 0)),
    (1, TestOp::Got(b'x', 1, 1, 0)),
];

/// Like `STALE`, but in format 2: the put of x at 2 is a deletion.
pub const STALE_BELOW_A_DELETION: [(u16, TestOp); 5] = [
    (0, TestOp::Put(b'x', 1, 1, 0)),
    (0, TestOp::Del(b'x', 2, 0)),
    (0, TestOp::Put(b'y', 3, 3, 0)),
    (1, TestOp::Got(b'y', 3, 3, 0)),
    (1, TestOp::Got(b'x', 1, 1, 0)),
];

/// The text of a trace: the first client puts 1 at x with the version 1.0, and the second gets it.
pub const TWO: [u8; 66] = [
    0, 0, 0, 5, 17, 0, 1, 0, 2, //
    0, 0, 0, 20, 18, 0, 0, 0, 0, 0, 0, 1, 120, 0, 1, 49, 0, 0, 0, 0, 0, 1, 0, 0, //
    0, 0, 0, 20, 19, 0, 1, 0, 0, 0, 0, 1, 120, 0, 1, 49, 0, 0, 0, 0, 0, 1, 0, 0, //
    0, 0, 0, 5, 21, 0, 0, 0, 2,
];

/// The text of a trace of format 2: the only client deletes x with the version 1.0, and then finds that deletion.
pub const DELETED: [u8; 60] = [
    0, 0, 0, 5, 17, 0, 2, 0, 1, //
    0, 0, 0, 17, 26, 0, 0, 0, 0, 0, 0, 1, 120, 0, 0, 0, 0, 0, 1, 0, 0, //
    0, 0, 0, 17, 27, 0, 0, 0, 0, 0, 1, 1, 120, 0, 0, 0, 0, 0, 1, 0, 0, //
    0, 0, 0, 5, 21, 0, 0, 0, 2,
];

/// A key and a value of one byte each, and a version.
fn versioned(
    alloc: Global,
    key: u8,
    value: u8,
    clock: u64,
    node: u16,
) -> Result<(Key, Value, Version), TypeFault> {
    let version = Version::new(clock, node)?;
    let (key, value) = pair(alloc, &[key], &[value])?;
    Ok((key, value, version))
}

pub fn op(alloc: Global, test_op: TestOp) -> Result<Op, TypeFault> {
    match test_op {
        TestOp::Put(key, value, clock, node) => {
            let (key, value, version) = versioned(alloc, key, value, clock, node)?;
            Ok(Op::Put {
                key,
                value,
                version,
            })
        }
        TestOp::Got(key, value, clock, node) => {
            let (key, value, version) = versioned(alloc, key, value, clock, node)?;
            Ok(Op::Got {
                key,
                value,
                version,
            })
        }
        TestOp::Missed(key) => Ok(Op::Missed {
            key: Key::new(alloc, &[key])?,
        }),
        TestOp::Del(key, clock, node) => Ok(Op::Del {
            version: Version::new(clock, node)?,
            key: Key::new(alloc, &[key])?,
        }),
        TestOp::Gone(key, clock, node) => Ok(Op::Gone {
            version: Version::new(clock, node)?,
            key: Key::new(alloc, &[key])?,
        }),
    }
}

/// Adds what the entries say to each client's session, in their order.
fn push_all(
    alloc: Global,
    history: &mut History,
    entries: &[(u16, TestOp)],
) -> Result<(), TypeFault> {
    for (client, test_op) in entries {
        let op = op(alloc, *test_op)?;
        history.push(*client, op)?;
    }
    Ok(())
}

/// A history in which each client did what its entries say, in their order.
pub fn history(alloc: Global, clients: u16, entries: &[(u16, TestOp)]) -> Result<History, Fail> {
    let mut history = History::new(alloc, clients)?;
    match push_all(alloc, &mut history, entries) {
        Ok(()) => Ok(history),
        Err(fault) => {
            drop(history);
            Err(Fail::from(fault))
        }
    }
}

/// The verdict of `judge` on such a history.
pub fn judged(alloc: Global, clients: u16, entries: &[(u16, TestOp)]) -> Result<Verdict, Fail> {
    let history = history(alloc, clients, entries)?;
    let verdict = judge(alloc, &history);
    drop(history);
    Ok(verdict?)
}

pub fn name(client: u16, index: u32) -> OpName {
    OpName { client, index }
}

/// Whether a verdict accepts exactly these puts, in this order. The verdict is dropped.
pub fn accepts(verdict: Verdict, puts: &[OpName]) -> bool {
    let accepts = match &verdict {
        Verdict::Accepted(accepted) => accepted.as_slice() == puts,
        Verdict::Refused(_) => false,
    };
    drop(verdict);
    accepts
}

/// Whether two verdicts are equal. The first of them is dropped.
pub fn same(verdict: Verdict, other: &Verdict) -> bool {
    let same = verdict == *other;
    drop(verdict);
    same
}
