//! A trace's text that is read byte by byte, and one that is written frame by frame.
use crate::building::{DELETED, TWO, TestOp, op};
use cops_trace::{Item, TraceFault, TraceReader, TraceWriter, Unwritten, WriteFault};
use cops_types::{Counted, FailingWriter, Format, Memory, Op};
use cops_wire::WireFault;
use std::alloc::Global;
use std::test::Fail;

/// An item as a number: the client of an operation, 100 and the number of clients for the head, and 200 for the end.
fn reported(item: &Item) -> u16 {
    match item {
        Item::Head { clients, .. } => clients.saturating_add(100),
        Item::Op { client, .. } => *client,
        Item::End => 200,
    }
}

/// The number of the next item, or `None` where there is none yet. The item is dropped.
fn next_reported(reader: &mut TraceReader) -> Option<u16> {
    let next = reader.next();
    let reported = match &next {
        Ok(Some(item)) => Some(reported(item)),
        _ => None,
    };
    drop(next);
    reported
}

/// Adds the numbers of the items of a text that is read byte by byte.
fn read_all(reader: &mut TraceReader, text: &[u8], all: &mut Vec<u16>) -> Result<(), Memory> {
    for k in 0..text.len() {
        reader.feed(&text[k..k + 1])?;
        for _ in 0..text.len() {
            match next_reported(reader) {
                Some(reported) => all.push(reported)?,
                None => break,
            }
        }
    }
    Ok(())
}

/// The numbers of the items of a text that is read byte by byte, and how it closes.
fn items(alloc: Global, text: &[u8]) -> Result<(Vec<u16>, Result<(), TraceFault>), Memory> {
    let mut reader = TraceReader::new(alloc);
    let mut all = Vec::new(alloc);
    let read = read_all(&mut reader, text, &mut all);
    let closed = reader.close();
    drop(reader);
    read?;
    Ok((all, closed))
}

/// Whether the first `len` bytes of a text give exactly the first `count` of its items, and how they close.
fn front(
    alloc: Global,
    text: &[u8],
    wanted: &[u16],
    len: usize,
    count: usize,
) -> Result<(bool, Result<(), TraceFault>), Memory> {
    let (all, closed) = items(alloc, text.get(..len).unwrap_or(text))?;
    let first = wanted.get(..count).unwrap_or(wanted);
    Ok((all.as_slice() == first, closed))
}

/// How a text closes that is cut where its last whole item ends, or that is not cut.
fn closing(cut: Option<u64>) -> Result<(), TraceFault> {
    match cut {
        Some(offset) => Err(TraceFault::Cut { offset }),
        None => Ok(()),
    }
}

#[test]
fn a_byte_at_a_time(rt: HostRuntime) -> Result<(), Fail> {
    for (len, count, cut) in [
        (0, 0, Some(0)),
        (8, 0, Some(0)),
        (9, 1, Some(9)),
        (32, 1, Some(9)),
        (33, 2, Some(33)),
        (56, 2, Some(33)),
        (65, 3, Some(57)),
        (66, 4, None),
    ] {
        let got = front(rt.alloc(), &TWO, &[102, 0, 1, 200], len, count)?;
        assert!(rt; got == (true, closing(cut)), "{len}");
    }
    Ok(())
}

#[test]
fn a_byte_of_a_deletion_at_a_time(rt: HostRuntime) -> Result<(), Fail> {
    for (len, count, cut) in [
        (8, 0, Some(0)),
        (9, 1, Some(9)),
        (29, 1, Some(9)),
        (30, 2, Some(30)),
        (50, 2, Some(30)),
        (51, 3, Some(51)),
        (59, 3, Some(51)),
        (60, 4, None),
    ] {
        let got = front(rt.alloc(), &DELETED, &[101, 0, 0, 200], len, count)?;
        assert!(rt; got == (true, closing(cut)), "{len}");
    }
    Ok(())
}

/// The first fault of `TWO` with one byte changed, or with a byte after its end. It is returned again whatever is fed
/// after it.
fn fault(alloc: Global, at: usize, byte: u8) -> Result<Result<(), TraceFault>, Memory> {
    let mut text = [0; 67];
    text[..66].copy_from_slice(&TWO);
    text[at.min(66)] = byte;
    let (_all, closed) = items(alloc, &text)?;
    Ok(closed)
}

/// The first fault of `DELETED` with one byte changed.
fn fault_of_deletion(alloc: Global, at: usize, byte: u8) -> Result<Result<(), TraceFault>, Memory> {
    let mut text = DELETED;
    text[at.min(59)] = byte;
    let (_all, closed) = items(alloc, &text)?;
    Ok(closed)
}

fn unknown_kind(offset: u64) -> TraceFault {
    let fault = WireFault::UnknownKind;
    TraceFault::Frame { fault, offset }
}

/// Byte 6 is the format, byte 4 the kind of the first frame, and byte 13 that of the first record.
#[test]
fn formats_and_kinds(rt: HostRuntime) -> Result<(), Fail> {
    for (at, byte, wanted) in [
        (6, 1, unknown_kind(9)),
        (6, 3, TraceFault::BadFormat { offset: 0 }),
        (6, 0, TraceFault::BadFormat { offset: 0 }),
        (4, 26, unknown_kind(0)),
        (13, 28, unknown_kind(9)),
    ] {
        assert!(rt;
            fault_of_deletion(rt.alloc(), at, byte)? == Err(wanted),
            "{at}"
        );
    }
    assert!(rt; fault_of_deletion(rt.alloc(), 6, 2)? == Ok(()));
    Ok(())
}

#[test]
fn a_fault_stays(rt: HostRuntime) -> Result<(), Fail> {
    for (at, byte, wanted) in [
        (66, 0, TraceFault::BytesAfterEnd { offset: 66 }),
        (4, 21, TraceFault::NoHead { offset: 0 }),
        (19, 1, TraceFault::IndexOutOfTurn { offset: 9 }),
        (38, 2, TraceFault::ClientOutOfRange { offset: 33 }),
        (65, 3, TraceFault::BadCount { offset: 57 }),
    ] {
        assert!(rt; fault(rt.alloc(), at, byte)? == Err(wanted), "{at}");
    }
    Ok(())
}

/// A device that fails after some bytes.
type Device = FailingWriter<Vec<u8>>;

/// What was written to a device.
fn taken(device: Counted<Device>) -> Vec<u8> {
    device.into_inner().into_inner()
}

/// Writes the text of a put and its get to a writer that fails after `bytes` bytes, and returns what was written, and
/// the fault. Nothing is written where one of them is not allowed in the format.
fn written_of(
    alloc: Global,
    format: Format,
    bytes: usize,
    put: &Op,
    got: &Op,
) -> (Vec<u8>, Option<WriteFault>) {
    let device = Counted::new(FailingWriter::new(Vec::new(alloc), 100, bytes as u64, 5));
    if !put.in_format(format) || !got.in_format(format) {
        return (taken(device), None);
    }
    let mut writer = match TraceWriter::new(format, alloc, device, 2) {
        Ok(writer) => writer,
        Err(Unwritten { writer, fault }) => return (taken(writer), Some(fault)),
    };
    let mut ended = writer.op(0, put);
    if ended.is_ok() {
        ended = writer.op(1, got);
    }
    if let Err(fault) = ended {
        return (taken(writer.into_writer()), Some(fault));
    }
    match writer.end() {
        Ok(writer) => (taken(writer), None),
        Err(Unwritten { writer, fault }) => (taken(writer), Some(fault)),
    }
}

/// Like `written_of`, for two operations that are still to be created.
fn written(
    alloc: Global,
    format: Format,
    bytes: usize,
    test_op: [TestOp; 2],
) -> Result<(Vec<u8>, Option<WriteFault>), Fail> {
    let put = op(alloc, test_op[0])?;
    let got = match op(alloc, test_op[1]) {
        Ok(got) => got,
        Err(fault) => {
            drop(put);
            return Err(Fail::from(fault));
        }
    };
    let reported = written_of(alloc, format, bytes, &put, &got);
    drop(put);
    drop(got);
    Ok(reported)
}

/// Whether exactly the first `bytes` of the 66 bytes were written, and the fault.
fn prefix_of(alloc: Global, bytes: usize) -> Result<(bool, Option<WriteFault>), Fail> {
    let test_op = [TestOp::Put(b'x', b'1', 1, 0), TestOp::Got(b'x', b'1', 1, 0)];
    let (out, fault) = written(alloc, Format::One, bytes, test_op)?;
    Ok((out.as_slice() == &TWO[..bytes.min(66)], fault))
}

#[test]
fn a_writer_that_fails_after_each_byte(rt: HostRuntime) -> Result<(), Fail> {
    for bytes in 0..66 {
        let fault = Some(WriteFault::WriteFailed { written: bytes });
        assert!(rt; prefix_of(rt.alloc(), bytes)? == (true, fault), "{bytes}");
    }
    assert!(rt; prefix_of(rt.alloc(), 66)? == (true, None));
    Ok(())
}

/// Whether exactly the first `bytes` bytes of a deletion by one client, which the other one found, were written, and
/// the fault.
fn prefix_of_deletion(alloc: Global, bytes: usize) -> Result<(bool, Option<WriteFault>), Fail> {
    let test_op = [TestOp::Del(b'x', 1, 0), TestOp::Gone(b'x', 1, 0)];
    let (out, fault) = written(alloc, Format::Two, bytes, test_op)?;
    let mut text = DELETED;
    // (two clients, and the second record is the first of client 1)
    (text[8], text[36], text[40]) = (2, 1, 0);
    Ok((out.as_slice() == &text[..bytes.min(60)], fault))
}

#[test]
fn a_deletion_goes_out_until_the_writer_fails(rt: HostRuntime) -> Result<(), Fail> {
    for bytes in 0..60 {
        let fault = Some(WriteFault::WriteFailed { written: bytes });
        assert!(rt;
            prefix_of_deletion(rt.alloc(), bytes)? == (true, fault),
            "{bytes}"
        );
    }
    assert!(rt; prefix_of_deletion(rt.alloc(), 60)? == (true, None));
    Ok(())
}
