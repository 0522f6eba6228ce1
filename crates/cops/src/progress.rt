//! How much a command has read, which it shows on a terminal while it reads, and how its input begins. No clause says
//! anything about either.
ghost use Rattle.std.specs.Prelude.{◌≡◌};

use cops_types::Format;
use cops_wire::{Buffer, whole_body};
use std::io;
use std::io::{Eprint, Read, Write};
use std::time::{Clock, Instant};

/// For how many seconds a command reads before it shows how much it read, and then until it shows it again.
const PATIENCE: u64 = 1;

/// The length of the bodies of a head and of an end. That of each record is greater.
const NO_RECORD: usize = 5;

/// Counts the records of a trace that comes in pieces.
#[derive(Drop)]
struct FrameRecords {
    ended: u64,
    rest: Buffer,
}

impl FrameRecords {
    /// Counts the records that are whole with this piece. It counts none from a length on that no frame has, where
    /// reading the trace ends too.
    fn take(&mut self, piece: &[u8]) {
        if self.rest.feed(piece).is_err() {
            return;
        }
        while let Ok(body) = whole_body(Format::Two, self.rest.rest()) {
            let len = body.len();
            if len > NO_RECORD {
                self.ended = self.ended.saturating_add(1);
            }
            self.rest.take(4 + len);
        }
    }
}

/// What is counted of the bytes that are read.
#[derive(Drop)]
enum ProgressCounts {
    /// The records of a trace.
    FrameRecords(FrameRecords),
    /// Lines, in a reading with this name.
    Lines { ended: u64, reading: &'static str },
}

impl ProgressCounts {
    fn take(&mut self, piece: &[u8]) {
        match self {
            ProgressCounts::FrameRecords(records) => records.take(piece),
            ProgressCounts::Lines { ended, .. } => {
                for byte in piece {
                    if *byte == b'\n' {
                        *ended = ended.saturating_add(1);
                    }
                }
            }
        }
    }
}

/// What is read: a trace, or the lines of an import in a reading with this name.
#[derive(Clone, Copy, Debug, PartialEq, Eq)]
pub enum Reading {
    Trace,
    Lines(&'static str),
}

/// When a command began, if it shows how much it read.
pub fn begun<R: Clock>(rt: &R, is_reported: bool) -> Option<Instant> {
    if is_reported {
        Instant::now(rt).ok()
    } else {
        None
    }
}

/// Removes the line that shows how much a command read, if it began so long ago that there may be one.
pub fn remove<R: Clock + Eprint>(rt: &R, begun: Option<Instant>) {
    let Some(begun) = begun else {
        return;
    };
    if let Ok(elapsed) = begun.elapsed(rt) {
        if elapsed.as_secs() >= PATIENCE {
            let _ = eprint!(rt; "\r\x1b[K");
        }
    }
}

/// How much was read, and when it was last shown.
#[derive(Drop)]
struct Progress<'r, R> {
    rt: &'r R,
    reported: Instant,
    counts: ProgressCounts,
    bytes: u64,
}

impl<R: Clock + Eprint> Progress<'_, R> {
    /// Counts what was read, and shows it if it was not shown for `PATIENCE` seconds.
    fn take(&mut self, piece: &[u8]) {
        self.counts.take(piece);
        self.bytes = self.bytes.saturating_add(piece.len() as u64);
        let Ok(now) = Instant::now(self.rt) else {
            return;
        };
        if now.saturating_duration_since(self.reported).as_secs() < PATIENCE {
            return;
        }
        self.reported = now;
        self.report();
    }

    fn report(&self) {
        let bytes = self.bytes;
        let _ = match &self.counts {
            ProgressCounts::FrameRecords(records) => {
                let operations = records.ended;
                eprint!(self.rt; "\r{operations} operations, {bytes} bytes")
            }
            ProgressCounts::Lines { ended, reading } => {
                eprint!(self.rt; "\r\x1b[K{reading}: {ended} lines, {bytes} bytes")
            }
        };
    }
}

/// The first bytes of an input.
#[derive(Drop)]
struct Beginning {
    bytes: [u8; 3],
    count: usize,
}

impl Beginning {
    fn take(&mut self, piece: &[u8]) {
        for byte in piece {
            if self.count >= self.bytes.len() {
                return;
            }
            self.bytes[self.count] = *byte;
            self.count += 1;
        }
    }

    /// Whether the input begins like JSON, or with a byte order mark.
    fn looks_like_lines(&self) -> bool {
        let [first, second, third] = self.bytes;
        match first {
            b'{' | b'[' => self.count > 0,
            0xef => self.count == 3 && second == 0xbb && third == 0xbf,
            _ => false,
        }
    }
}

/// An input that shows how much of it was read.
#[derive(Drop)]
pub struct Watched<'r, R, I> {
    input: I,
    beginning: Beginning,
    progress: Option<Progress<'r, R>>,
}

impl<'r, R: AllocGlobal, I> Watched<'r, R, I> {
    /// An input of which nothing is read yet. It shows nothing where `begun` is `None`.
    pub fn new(rt: &'r R, input: I, reading: Reading, begun: Option<Instant>) -> Self
        ensures { result.input ≡ input }
    {
        let counts = match reading {
            Reading::Trace => ProgressCounts::FrameRecords(FrameRecords {
                ended: 0,
                rest: Buffer::new(rt.alloc()),
            }),
            Reading::Lines(reading) => ProgressCounts::Lines { ended: 0, reading },
        };
        let progress = match begun {
            Some(begun) => Some(Progress {
                rt,
                reported: begun,
                counts,
                bytes: 0,
            }),
            None => None,
        };
        let beginning = Beginning {
            bytes: [0; 3],
            count: 0,
        };
        Watched {
            input,
            beginning,
            progress,
        }
    }

    pub fn into_inner(self) -> I {
        self.input
    }

    /// Whether what was read begins like JSON Lines.
    pub fn looks_like_lines(&self) -> bool {
        self.beginning.looks_like_lines()
    }
}

impl<R: Clock + Eprint, I: Read> Read for Watched<'_, R, I> {
    ghost remaining = { λ w. I.remaining w.input };

    fn read(&mut self, buf: &mut [u8]) -> io::Result<usize> {
        let answer = self.input.read(buf);
        if let Ok(count) = &answer {
            self.beginning.take(&buf[..*count]);
        }
        if let (Some(progress), Ok(count)) = (&mut self.progress, &answer) {
            progress.take(&buf[..*count]);
        }
        answer
    }
}

/// An output that, before its first write, removes the line that shows how much the command read.
#[derive(Drop)]
pub struct Cleared<'r, R, W> {
    rt: &'r R,
    output: W,
    begun: Option<Instant>,
}

impl<'r, R, W> Cleared<'r, R, W> {
    pub fn new(rt: &'r R, output: W, begun: Option<Instant>) -> Self
        ensures { result.output ≡ output }
    {
        Cleared { rt, output, begun }
    }
}

impl<R: Clock + Eprint, W: Write> Write for Cleared<'_, R, W> {
    ghost contents = { λ c. W.contents c.output };

    fn write(&mut self, buf: &[u8]) -> io::Result<usize> {
        remove(self.rt, self.begun.take());
        self.output.write(buf)
    }

    fn flush(&mut self) -> io::Result<()> {
        self.output.flush()
    }
}
