use cops_types::{Counted, FailingReader, FailingWriter};
use std::io::{Read, Write};
use std::test::Fail;

#[test]
fn refused_reads_are_counted(rt: HostRuntime) -> Result<(), Fail> {
    let mut reader = Counted::new(FailingReader::new(b"abc".as_slice(), 1, 100, 2));
    let mut buf = [0u8; 8];
    assert_eq!(rt; reader.read(&mut buf)?, 2);
    assert_eq!(rt; reader.failures(), 0);
    assert!(rt; reader.read(&mut buf).is_err());
    assert_eq!(rt; reader.failures(), 1);
    Ok(())
}

#[test]
fn refused_writes_are_counted(rt: HostRuntime) -> Result<(), Fail> {
    let mut writer = Counted::new(FailingWriter::new(Vec::new(rt.alloc()), 100, 3, 2));
    assert!(rt; writer.write_all(b"abcd").is_err());
    assert_eq!(rt; writer.failures(), 1);
    let written = writer.into_inner().into_inner();
    assert_eq!(rt; written.as_slice(), b"abc".as_slice());
    Ok(())
}
