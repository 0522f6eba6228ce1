//! Conversions to format 2, also over readers and writers that fail.
use crate::building::{DELETED, TWO};
use cops_audit_commands::convert_stream;
use cops_trace::{ConvertFault, TraceFault};
use cops_types::{Counted, FailingReader, FailingWriter};
use std::alloc::Global;
use std::test::Fail;

/// The text of `TWO` in format 2.
fn two_in_format_2() -> [u8; 66] {
    let mut text = TWO;
    text[6] = 2;
    text
}

/// What a conversion returns, and whether exactly `wanted` was written, where the writer takes this number of bytes.
fn converted(
    alloc: Global,
    text: &[u8],
    bytes: usize,
    wanted: &[u8],
) -> (Result<u32, ConvertFault>, bool) {
    let mut reader = Counted::new(text);
    let writer = FailingWriter::new(Vec::new(alloc), 1_000_000, bytes as u64, 7);
    let mut writer = Counted::new(writer);
    let answer = convert_stream(alloc, &mut reader, &mut writer);
    let is_written = writer.into_inner().into_inner().as_slice() == wanted;
    (answer, is_written)
}

#[test]
fn a_trace_of_each_format(rt: HostRuntime) -> Result<(), Fail> {
    let text = two_in_format_2();
    assert!(rt; converted(rt.alloc(), &TWO, 66, &text) == (Ok(2), true));
    assert!(rt; converted(rt.alloc(), &text, 66, &text) == (Ok(2), true));
    assert!(rt; converted(rt.alloc(), &DELETED, 60, &DELETED) == (Ok(2), true));
    Ok(())
}

#[test]
fn a_failed_write_leaves_the_first_bytes(rt: HostRuntime) -> Result<(), Fail> {
    let text = two_in_format_2();
    for bytes in 0..66 {
        let failed = Err(ConvertFault::WriteFailed { written: bytes });
        let got = converted(rt.alloc(), &TWO, bytes, &text[..bytes]);
        assert!(rt; got == (failed, true), "{bytes}");
    }
    Ok(())
}

/// Where the frame begins in which the first `bytes` bytes of the two records end.
fn frame_at(bytes: usize) -> u64 {
    match bytes {
        0..9 => 0,
        9..33 => 9,
        33..57 => 33,
        _ => 57,
    }
}

#[test]
fn a_trace_that_is_cut_writes_nothing(rt: HostRuntime) -> Result<(), Fail> {
    for bytes in 0..66 {
        let offset = frame_at(bytes);
        let cut = Err(ConvertFault::Faulty(TraceFault::Cut { offset }));
        let got = converted(rt.alloc(), &TWO[..bytes], 66, b"");
        assert!(rt; got == (cut, true), "{bytes}");
    }
    Ok(())
}

/// The 66 bytes are read in ten reads, and one more finds their end.
#[test]
fn a_failed_read_writes_nothing(rt: HostRuntime) {
    for reads in 0..11 {
        let reader = FailingReader::new(TWO.as_slice(), reads, 1_000_000, 7);
        let mut reader = Counted::new(reader);
        let mut writer = Counted::new(Vec::new(rt.alloc()));
        let got = convert_stream(rt.alloc(), &mut reader, &mut writer);
        assert_eq!(rt; got, Err(ConvertFault::ReadFailed), "{reads}");
        assert_eq!(rt; reader.failures(), 1, "{reads}");
        assert_eq!(rt; writer.into_inner().len(), 0, "{reads}");
    }
}
