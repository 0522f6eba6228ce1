use crate::building::{DELETED, STALE_BELOW_A_DELETION, TWO, TestOp, op};
use cops_audit_commands::*;
use cops_testing::HoldsAt;
use cops_trace::{Trace, write_trace};
use cops_types::{Counted, FailingReader, FailingWriter, Format, OpenGate, Point};
use std::alloc::Global;
use std::sync::Wait;
use std::test::Fail;
use std::thread::Threads;

/// A get without a source.
const NO_SOURCE: [u8; 42] = [
    0, 0, 0, 5, 17, 0, 1, 0, 1, //
    0, 0, 0, 20, 19, 0, 0, 0, 0, 0, 0, 1, 120, 0, 1, 49, 0, 0, 0, 0, 0, 1, 0, 0, //
    0, 0, 0, 5, 21, 0, 0, 0, 1,
];

const REPORTED: &[u8] = b"refused: 1 operations, 0 puts, 1 faults\nno source (0,0) at 1.0\n";

/// What is written for the first 65 bytes of `TWO`.
const CUT: &[u8] = b"cut at 57\nso far: clean\n";

#[test]
fn bad_or_held_workers_write_nothing(rt: HostRuntime) {
    for (workers, fault) in [
        (0, StreamFault::BadWorkers),
        (65, StreamFault::BadWorkers),
        (2, StreamFault::Held),
    ] {
        let mut reader = Counted::new(TWO.as_slice());
        let mut writer = Counted::new(Vec::new(rt.alloc()));
        let gate = HoldsAt {
            point: Point::PieceDone(1),
        };
        let got = audit_stream(&rt, rt.alloc(), &mut reader, &mut writer, workers, &gate);
        assert_eq!(rt; got, Err(fault), "{workers}");
        assert_eq!(rt; writer.into_inner().len(), 0, "{workers}");
    }
}

/// The 66 bytes are read in ten reads, and one more finds their end.
#[test]
fn a_failed_read_writes_nothing(rt: HostRuntime) {
    for reads in 0..11 {
        let reader = FailingReader::new(TWO.as_slice(), reads, 1_000_000, 7);
        let mut reader = Counted::new(reader);
        let mut writer = Counted::new(Vec::new(rt.alloc()));
        let got = audit_stream(&rt, rt.alloc(), &mut reader, &mut writer, 1, &OpenGate);
        assert_eq!(rt; got, Err(StreamFault::ReadFailed), "{reads}");
        assert_eq!(rt; reader.failures(), 1, "{reads}");
        assert_eq!(rt; writer.into_inner().len(), 0, "{reads}");
    }
}

/// The first 65 bytes are read in ten reads, and one more finds that they are cut.
#[test]
fn a_failed_read_writes_nothing_so_far(rt: HostRuntime) {
    let failed = Err(StreamFault::ReadFailed);
    for reads in 0..12 {
        let reader = FailingReader::new(&TWO[..65], reads, 1_000_000, 7);
        let mut reader = Counted::new(reader);
        let mut writer = Counted::new(Vec::new(rt.alloc()));
        let got = audit_so_far(rt.alloc(), &mut reader, &mut writer);
        let (answer, count, text) = match reads {
            11 => (Ok(Answer::Accepted), 0, CUT),
            _ => (failed, 1, b"".as_slice()),
        };
        assert_eq!(rt; got, answer, "{reads}");
        assert_eq!(rt; reader.failures(), count, "{reads}");
        assert_eq!(rt; writer.into_inner().as_slice(), text, "{reads}");
    }
}

#[test]
fn a_failed_write_leaves_a_prefix(rt: HostRuntime) {
    for written in 0..REPORTED.len() {
        let device = FailingWriter::new(Vec::new(rt.alloc()), 100, written as u64, 9);
        let mut reader = Counted::new(NO_SOURCE.as_slice());
        let mut writer = Counted::new(device);
        let got = audit_stream(&rt, rt.alloc(), &mut reader, &mut writer, 1, &OpenGate);
        assert_eq!(rt; got, Err(StreamFault::WriteFailed), "{written}");
        assert_eq!(rt; writer.failures(), 1, "{written}");
        let out = writer.into_inner().into_inner();
        let front = REPORTED.get(..written).unwrap_or(&[]);
        assert_eq!(rt; out.as_slice(), front, "{written}");
    }
}

#[test]
fn a_failed_device_is_reported(rt: HostRuntime) -> Result<(), Fail> {
    for (reads, writes, reported) in [(0, 9, "failed: read\n"), (9, 0, "failed: write\n")] {
        let reader = FailingReader::new(TWO.as_slice(), reads, 1_000_000, 4096);
        let mut reader = Counted::new(reader);
        let device = FailingWriter::new(Vec::new(rt.alloc()), writes, 1_000_000, 4096);
        let mut out = Counted::new(device);
        let mut errors = Counted::new(Vec::new(rt.alloc()));
        let got = show_stream(rt.alloc(), &mut reader, &mut out, &mut errors)?;
        assert_eq!(rt; got, 4, "{reported}");
        assert_eq!(rt; out.into_inner().into_inner().len(), 0, "{reported}");
        assert_eq!(rt; errors.into_inner().as_slice(), reported.as_bytes());
    }
    Ok(())
}

/// Whether exactly this text is written and this answer returned for a trace's text by 1, 2 and 64 workers.
fn is_reported<R: Threads + Wait + Sync + AllocGlobal>(
    rt: &R,
    bytes: &[u8],
    answer: Answer,
    text: &str,
) -> Result<bool, StreamFault> {
    let mut all = true;
    for workers in [1, 2, 64] {
        let mut reader = Counted::new(bytes);
        let mut writer = Counted::new(Vec::new(rt.alloc()));
        let got = audit_stream(rt, rt.alloc(), &mut reader, &mut writer, workers, &OpenGate)?;
        let out = writer.into_inner();
        all = all && got == answer && out.as_slice() == text.as_bytes();
    }
    Ok(all)
}

#[test]
fn a_text_with_a_deletion(rt: HostRuntime) -> Result<(), Fail> {
    let mut text = DELETED;
    let accepted = "accepted: 2 operations, 1 puts\n";
    assert!(rt; is_reported(&rt, &text, Answer::Accepted, accepted)?);
    for (format, fault) in [
        (1, "faulty: unknown kind at 9\n"),
        (3, "faulty: bad format at 0\n"),
    ] {
        text[6] = format;
        assert!(rt; is_reported(&rt, &text, Answer::Faulty, fault)?);
    }
    Ok(())
}

/// Adds what two clients did to a trace, without the operations that its format does not allow.
fn push_all(alloc: Global, trace: &mut Trace, entries: &[(u16, TestOp)]) -> Result<(), Fail> {
    for (client, test_op) in entries {
        let op = op(alloc, *test_op)?;
        if op.in_format(trace.format()) {
            trace.push(*client, op)?;
        } else {
            drop(op);
        }
    }
    Ok(())
}

/// The text of a trace of format 2 in which two clients did this.
fn text_of(alloc: Global, entries: &[(u16, TestOp)]) -> Result<Vec<u8>, Fail> {
    let mut trace = Trace::new_in(Format::Two, alloc, 2)?;
    push_all(alloc, &mut trace, entries)?;
    let mut writer = Counted::new(Vec::new(alloc));
    match write_trace(alloc, &mut writer, &trace) {
        Ok(()) => Ok(writer.into_inner()),
        Err(_) => Err(Fail::new("the trace is not written")),
    }
}

/// Whether exactly this is the answer and the text for a put, a deletion and a put of client 0, and for two gets of
/// client 1, the second of which is `last`.
fn reported_of_last<R: Threads + Wait + Sync + AllocGlobal>(
    rt: &R,
    last: TestOp,
    answer: Answer,
    text: &str,
) -> Result<bool, Fail> {
    let mut entries = STALE_BELOW_A_DELETION;
    entries[4] = (1, last);
    let bytes = text_of(rt.alloc(), &entries)?;
    let reported = is_reported(rt, bytes.as_slice(), answer, text);
    drop(bytes);
    Ok(reported?)
}

#[test]
fn gets_behind_a_deletion(rt: HostRuntime) -> Result<(), Fail> {
    for (last, answer, text) in [
        (
            TestOp::Got(b'x', 1, 1, 0),
            Answer::Refused,
            "refused: 5 operations, 3 puts, 1 faults\nstale (1,1) returned 1.0, newer (0,1) at 2.0, chain (0,1) (0,2) (1,0) (1,1)\n",
        ),
        (
            TestOp::Gone(b'x', 2, 0),
            Answer::Accepted,
            "accepted: 5 operations, 3 puts\n",
        ),
        (
            TestOp::Gone(b'x', 1, 0),
            Answer::Refused,
            "refused: 5 operations, 3 puts, 1 faults\nno source (1,1) at 1.0\n",
        ),
    ] {
        assert!(rt; reported_of_last(&rt, last, answer, text)?);
    }
    Ok(())
}

/// The verdict so far on the first bytes of the text with a deletion is clean, and the text is whole at the end.
#[test]
fn a_deletion_that_is_cut_anywhere(rt: HostRuntime) -> Result<(), Fail> {
    for len in 0..61 {
        let text = match len {
            0..9 => "cut at 0\nso far: clean\n",
            9..30 => "cut at 9\nso far: clean\n",
            30..51 => "cut at 30\nso far: clean\n",
            51..60 => "cut at 51\nso far: clean\n",
            _ => "accepted: 2 operations, 1 puts\n",
        };
        let mut reader = Counted::new(DELETED.get(..len).unwrap_or(&[]));
        let mut writer = Counted::new(Vec::new(rt.alloc()));
        let got = audit_so_far(rt.alloc(), &mut reader, &mut writer);
        assert_eq!(rt; got, Ok(Answer::Accepted), "{len}");
        assert_eq!(rt; writer.into_inner().as_slice(), text.as_bytes(), "{len}");
    }
    Ok(())
}
