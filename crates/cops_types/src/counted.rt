ghost use Rattle.std.specs.Prelude.{◌≡◌, ◌<◌, length, take, OnOk, IfErr};
ghost use Rattle.std.specs.Io.{ReadsAtMost, WritesAtMost};
ghost use Rattle.std.specs.Io.KnownBytes.{Appends, Keeps, ReadConsumes, WriteAppends};
ghost use Rattle.cops_types.specs.Failures.{Failed, counted, counted_write};
ghost use Rattle.cops_types.specs.Counted.{failures, inner};

use std::io;
use std::io::{Read, Write};

/// A reader or a writer that counts its failures: errors, and writes that take nothing of a slice that isn't empty. The
/// count stops at its greatest value.
#[derive(Drop)]
pub struct Counted<T> {
    inner: T,
    failures: u64,
}

impl<T> Counted<T> {
    pub fn new(device: T) -> Counted<T>
        ensures none { failures result ≡ 0 }
        ensures device { inner result ≡ device }
    {
        Counted {
            inner: device,
            failures: 0,
        }
    }

    pub fn failures(&self) -> u64
        ensures { result ≡ failures self.now }
    {
        self.failures
    }

    pub fn get_ref(&self) -> &T
        ensures { result.now ≡ inner self.now }
    {
        &self.inner
    }

    pub fn into_inner(self) -> T
        ensures { result ≡ inner self }
    {
        self.inner
    }
}

impl<T: Read> Read for Counted<T> {
    ghost remaining = { λ c. T.remaining (inner c) };

    fn read(&mut self, buf: &mut [u8]) -> io::Result<usize>
        ensures bound { ReadsAtMost result buf.new }
        ensures bytes { ReadConsumes (T.remaining (inner self.old)) (T.remaining (inner self.new)) result buf.new }
        ensures count { failures self.new ≡ counted (failures self.old) result }
    {
        let answer = self.inner.read(buf);
        if answer.is_err() {
            self.failures = self.failures.saturating_add(1);
        }
        answer
    }
}

impl<T: Write> Write for Counted<T> {
    ghost contents = { λ c. T.contents (inner c) };

    fn write(&mut self, buf: &[u8]) -> io::Result<usize>
        ensures bound { WritesAtMost result buf.now }
        ensures bytes { WriteAppends (T.contents (inner self.old)) (T.contents (inner self.new)) result buf.now }
        ensures count { failures self.new ≡ counted_write (failures self.old) result buf.now }
    {
        let answer = self.inner.write(buf);
        let took_nothing = match answer {
            Ok(count) => count == 0 && !buf.is_empty(),
            Err(_) => true,
        };
        if took_nothing {
            self.failures = self.failures.saturating_add(1);
        }
        answer
    }

    fn flush(&mut self) -> io::Result<()>
        ensures bytes { Keeps (T.contents (inner self.old)) (T.contents (inner self.new)) }
        ensures count { failures self.new ≡ counted (failures self.old) result }
    {
        let answer = self.inner.flush();
        if answer.is_err() {
            self.failures = self.failures.saturating_add(1);
        }
        answer
    }
}

/// Writes all of a text. On `Err` returns the number of bytes written, which is less than the text's length. A failed
/// write is not tried again.
pub fn write_text<W: Write>(writer: &mut Counted<W>, text: &[u8]) -> Result<(), usize>
    ensures ok { OnOk result (Appends (W.contents (inner writer.old)) (W.contents (inner writer.new)) text.now) }
    ensures err { IfErr result (λ n. Appends (W.contents (inner writer.old)) (W.contents (inner writer.new)) (take n text.now)) }
    ensures failed { IfErr result (λ n. (n < length text.now) × Failed (failures writer.old) (failures writer.new)) }
    ensures heard { OnOk result (failures writer.new ≡ failures writer.old) }
{
    let mut written = 0;
    while written < text.len() {
        let (_, rest) = text.split_at(written);
        match writer.write(rest) {
            Ok(0) => return Err(written),
            Ok(count) => written += count,
            Err(_) => return Err(written),
        }
    }
    Ok(())
}
