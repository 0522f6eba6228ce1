use crate::building::{DELETING, DONE, HEAD, HEAD_OF_TWO, TWO, fault_of, operations_of, scenario};
use cops_audit_commands::{Answer, StreamFault, audit_stream};
use cops_clients::*;
use cops_testing::waits_for;
use cops_types::{Counted, FailingWriter, Gate, GateHeld, OpenGate, Point};
use std::alloc::{AllocGlobal, Global};
use std::io;
use std::io::Write;
use std::sync::Wait;
use std::sync::atomic::{AtomicBool, AtomicU64, Ordering};
use std::test::Fail;
use std::thread::Threads;

/// Whether the audit of a text accepts it and prints exactly `wanted`.
fn is_accepted<R: Threads + Wait + Sync + AllocGlobal>(
    rt: &R,
    alloc: Global,
    text: &[u8],
    wanted: &[u8],
) -> Result<bool, StreamFault> {
    let mut reader = Counted::new(text);
    let mut reported = Counted::new(Vec::new(alloc));
    let answer = audit_stream(rt, alloc, &mut reader, &mut reported, 1, &OpenGate);
    let is_reported = reported.into_inner().as_slice() == wanted;
    Ok(matches!(answer?, Answer::Accepted) && is_reported)
}

/// The number of operations in the trace of a run of a scenario's text, if both clients are done, and what was written.
fn written<R: Threads + Wait + Sync>(
    rt: &R,
    alloc: Global,
    text: &str,
) -> Result<(Option<usize>, Vec<u8>), Fail> {
    let scenario = scenario(alloc, text)?;
    let writer = Counted::new(Vec::new(alloc));
    let Live { ran, writer } = run_live(rt, alloc, scenario, &OpenGate, writer);
    let operations = operations_of(ran, &[DONE, DONE]);
    Ok((operations, writer.into_inner()))
}

#[test]
fn what_is_written_is_audited(rt: HostRuntime) -> Result<(), Fail> {
    let (operations, text) = written(&rt, rt.alloc(), TWO)?;
    let wanted = b"accepted: 4 operations, 2 puts\n";
    let is_accepted = is_accepted(&rt, rt.alloc(), &text, wanted);
    let has_head = text.starts_with(&HEAD);
    drop(text);
    assert!(rt; operations == Some(4));
    assert!(rt; has_head);
    assert!(rt; is_accepted?);
    Ok(())
}

/// A deletion counts as a put.
#[test]
fn deletions_are_written_and_audited(rt: HostRuntime) -> Result<(), Fail> {
    let (operations, text) = written(&rt, rt.alloc(), DELETING)?;
    let wanted = b"accepted: 5 operations, 3 puts\n";
    let is_accepted = is_accepted(&rt, rt.alloc(), &text, wanted);
    let has_head = text.starts_with(&HEAD_OF_TWO);
    drop(text);
    assert!(rt; operations == Some(5));
    assert!(rt; has_head);
    assert!(rt; is_accepted?);
    Ok(())
}

/// A gate that counts the answers to clients.
#[derive(Drop)]
struct LiveAnswers {
    reported: AtomicU64,
}

impl Gate for LiveAnswers {
    ghost may_hold = { λ _ _. ⊥ };

    fn pass<R: Wait>(&self, _rt: &R, point: Point) -> Result<(), GateHeld> {
        if let Point::Answered { client: 0 | 1, .. } = point {
            self.reported.fetch_add(1, Ordering::SeqCst);
        }
        Ok(())
    }
}

#[test]
fn clients_end_though_a_write_failed(rt: HostRuntime) -> Result<(), Fail> {
    let scenario = scenario(rt.alloc(), TWO)?;
    let gate = LiveAnswers {
        reported: AtomicU64::new(0),
    };
    let failing = FailingWriter::new(Vec::new(rt.alloc()), 1, u64::MAX, usize::MAX);
    let writer = Counted::new(failing);
    let Live { ran, writer } = run_live(&rt, rt.alloc(), scenario, &gate, writer);
    let fault = fault_of(ran);
    let failures = writer.failures();
    let text = writer.into_inner().into_inner();
    let is_head = text.as_slice() == HEAD.as_slice();
    drop(text);
    assert!(rt; fault == Some(RunFault::WriteFailed { written: 9 }));
    assert!(rt; failures == 1);
    assert!(rt; is_head);
    assert!(rt; gate.reported.load(Ordering::SeqCst) == 4);
    Ok(())
}

/// A gate that lets client 0 continue from its first answer once a second piece was written.
#[derive(Drop)]
struct Waits<'a> {
    written: &'a AtomicBool,
}

impl Gate for Waits<'_> {
    ghost may_hold = { λ _ _. Unit {0} };

    fn pass<R: Wait>(&self, _rt: &R, point: Point) -> Result<(), GateHeld> {
        match point {
            Point::Answered { client: 0, .. } => waits_for(self.written),
            _ => Ok(()),
        }
    }
}

/// A writer that reports its second write.
#[derive(Drop)]
struct Reporting<'a> {
    writes: u64,
    written: &'a AtomicBool,
}

impl Write for Reporting<'_> {
    ghost use Rattle.std.specs.Prelude.{None};

    ghost contents = { λ _. None };

    fn write(&mut self, buf: &[u8]) -> io::Result<usize> {
        self.writes = self.writes.saturating_add(1);
        if self.writes > 1 {
            self.written.store(true, Ordering::SeqCst);
        }
        Ok(buf.len())
    }

    fn flush(&mut self) -> io::Result<()> {
        Ok(())
    }
}

/// A trace that is written only at the end would be held here.
#[test]
fn records_are_written_while_clients_run(rt: HostRuntime) -> Result<(), Fail> {
    let scenario = scenario(rt.alloc(), TWO)?;
    let written = AtomicBool::new(false);
    let gate = Waits { written: &written };
    let writer = Counted::new(Reporting {
        writes: 0,
        written: &written,
    });
    let Live { ran, .. } = run_live(&rt, rt.alloc(), scenario, &gate, writer);
    assert!(rt; fault_of(ran) == None);
    Ok(())
}
