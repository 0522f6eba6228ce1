//! The check of lines while they are written.
use crate::state::{State, state_of};
use cops_command::{Status, failed, print};
use cops_types::{Counted, Memory};
use crossbeam_channel::{Receiver, RecvTimeoutError, Sender, bounded};
use std::alloc::Global;
use std::io::{ErrorKind, Read, Write};
use std::sync::Wait;
use std::thread;
use std::thread::Threads;
use std::time::{Clock, Duration, Instant};

/// For how many seconds lines are not looked at again.
const PAUSE: u64 = 1;

/// The most bytes that a read asks for.
const PIECE: usize = 65_536;

/// How many pieces may wait while lines are judged. Sending one takes no memory.
const PIECES: usize = 65_536;

/// The greatest number of reads, and of looks at the lines.
const TURNS: u64 = 1 << 40;

/// What a read gave.
#[derive(Drop)]
enum Piece {
    /// Bytes, none where nothing was written meanwhile.
    Bytes(Vec<u8>),
    /// The read failed.
    ReadFailed,
    /// Memory ran out.
    NoMemory,
}

/// What is known of the end of the lines.
#[derive(Clone, Copy, Debug, PartialEq, Eq)]
enum Stand {
    Open,
    Ended,
    ReadFailed,
}

/// The lines as far as they were read, how many of their bytes were judged, and the state that was found last.
#[derive(Drop)]
struct Watched {
    is_ranked: bool,
    bytes: Vec<u8>,
    judged: usize,
    state: Option<State>,
}

/// The piece of these bytes.
fn piece_of(alloc: Global, bytes: &[u8]) -> Piece {
    let mut copy = Vec::new(alloc);
    match copy.extend_from_slice(bytes) {
        Ok(()) => Piece::Bytes(copy),
        Err(_) => Piece::NoMemory,
    }
}

/// Reads the next piece, `None` at the end. A reader that would block has nothing yet.
fn next_piece<R: Clock, I: Read>(
    rt: &R,
    alloc: Global,
    lines: &mut I,
    buffer: &mut [u8],
) -> Option<Piece> {
    match lines.read(buffer) {
        Ok(0) => None,
        Ok(count) => Some(piece_of(alloc, &buffer[..count])),
        Err(fault) if fault.kind() == ErrorKind::WouldBlock => {
            thread::sleep(rt, Duration::from_secs(PAUSE));
            Some(piece_of(alloc, &[]))
        }
        Err(_) => Some(Piece::ReadFailed),
    }
}

/// Reads lines and sends them, piece by piece, until they end or nobody receives.
fn read_on<R, I>(rt: &R, alloc: Global, lines: I, sender: Sender<Piece, Global>)
where
    R: Clock + Wait,
    I: Read + Drop,
{
    let mut lines = lines;
    let mut buffer = [0u8; PIECE];
    for _ in 0..TURNS {
        let Some(piece) = next_piece(rt, alloc, &mut lines, &mut buffer) else {
            return;
        };
        let is_last = !matches!(piece, Piece::Bytes(_));
        if sender.send(rt, piece).is_err() || is_last {
            return;
        }
    }
}

impl Watched {
    fn new(alloc: Global, is_ranked: bool) -> Watched {
        Watched {
            is_ranked,
            bytes: Vec::new(alloc),
            judged: 0,
            state: None,
        }
    }

    /// Waits for the next piece, and takes in all that come until that time, if one is given.
    fn take<R: Clock + Wait>(
        &mut self,
        rt: &R,
        receiver: &Receiver<Piece, Global>,
        until: Option<Instant>,
    ) -> Result<Stand, Memory> {
        let Ok(mut piece) = receiver.recv(rt) else {
            return Ok(Stand::Ended);
        };
        for _ in 0..TURNS {
            match piece {
                Piece::Bytes(bytes) => self.bytes.extend_from_slice(&bytes)?,
                Piece::ReadFailed => return Ok(Stand::ReadFailed),
                Piece::NoMemory => return Err(Memory),
            }
            let next = match until {
                Some(until) => receiver.recv_deadline(rt, until),
                None => receiver.recv_timeout(rt, Duration::ZERO),
            };
            piece = match next {
                Ok(next) => next,
                Err(RecvTimeoutError::Timeout) => break,
                Err(RecvTimeoutError::Disconnected) => return Ok(Stand::Ended),
            };
        }
        Ok(Stand::Open)
    }

    /// The lines that are whole: up to the last line feed, or all where the lines have ended.
    fn whole(&self, stand: Stand) -> &[u8] {
        if stand == Stand::Ended {
            return &self.bytes;
        }
        match self.bytes.iter().rposition(|byte| *byte == b'\n') {
            Some(place) => &self.bytes[..=place],
            None => &[],
        }
    }

    /// Whether these lines were judged, or are refused whatever follows.
    fn is_settled(&self, lines: &[u8]) -> bool {
        match &self.state {
            None => false,
            Some(State::Refused(_)) => true,
            Some(_) => self.judged == lines.len(),
        }
    }

    /// Judges the whole lines, and returns whether their state is another one than before.
    fn changes(&mut self, alloc: Global, stand: Stand) -> Result<bool, Memory> {
        let lines = self.whole(stand);
        if self.is_settled(lines) {
            return Ok(false);
        }
        let state = state_of(alloc, lines, self.is_ranked)?;
        self.judged = lines.len();
        if self.state.as_ref() == Some(&state) {
            return Ok(false);
        }
        self.state = Some(state);
        Ok(true)
    }

    /// The status of the state that was found last.
    fn status(&self) -> Status {
        match &self.state {
            Some(state) => state.status(),
            None => Status::Accepted,
        }
    }

    /// Prints the state that was found last, and returns whether that succeeded.
    fn print<W: Write, E: Write>(
        &self,
        alloc: Global,
        out: &mut Counted<W>,
        errors: &mut Counted<E>,
    ) -> Result<bool, Memory> {
        let Some(state) = &self.state else {
            return Ok(true);
        };
        let text = state.text(alloc)?;
        let status = print(&text, Status::Accepted, out, errors);
        Ok(status == Status::Accepted.number())
    }
}

/// When the lines are looked at next, if the clock is known.
fn later<R: Clock>(rt: &R) -> Option<Instant> {
    let now = Instant::now(rt).ok()?;
    now.checked_add(Duration::from_secs(PAUSE))
}

/// Looks at the lines that are received until they end or one is wrong, prints each new state, and returns the status.
fn watch<R, W, E>(
    rt: &R,
    mut watched: Watched,
    receiver: Receiver<Piece, Global>,
    out: &mut Counted<W>,
    errors: &mut Counted<E>,
) -> Result<u8, Memory>
where
    R: AllocGlobal + Clock + Wait,
    W: Write,
    E: Write,
{
    let mut next = None;
    for _ in 0..TURNS {
        let stand = watched.take(rt, &receiver, next)?;
        if stand == Stand::ReadFailed {
            return Ok(failed(errors, b"failed: read\n"));
        }
        if watched.changes(rt.alloc(), stand)? && !watched.print(rt.alloc(), out, errors)? {
            return Ok(Status::Failed.number());
        }
        let status = watched.status();
        if stand == Stand::Ended || status == Status::Faulty {
            return Ok(status.number());
        }
        next = later(rt);
    }
    Ok(watched.status().number())
}

/// How a check of lines that are written ended: its status, and its writers.
#[derive(Drop)]
pub struct Followed<W, E> {
    pub status: Result<u8, Memory>,
    pub out: Counted<W>,
    pub errors: Counted<E>,
}

/// Reads JSON Lines while they are written, with their versions by their ranks or as they stand, judges at most once a
/// second those that are whole, and writes their state (`State::text`) when it changes. A read that fails since it would
/// block is tried again after a second: nothing is written yet. A last line without a line feed counts once the lines
/// end.
///
/// Returns the status of the last state where the lines end, at once where a line is wrong, and 4 where a read or a write
/// failed, or no thread could be started, which a line on `errors` says. It reads on a thread of its own, and returns
/// once that has ended, which it does at the next bytes that it reads. The status is `Memory` where memory runs out.
pub fn follow_stream<R, I, W, E>(
    rt: &R,
    is_ranked: bool,
    lines: I,
    out: Counted<W>,
    errors: Counted<E>,
) -> Followed<W, E>
where
    R: AllocGlobal + Clock + Threads + Wait + Sync,
    I: Read + Send + Drop,
    W: Write + Drop,
    E: Write + Drop,
{
    let alloc = rt.alloc();
    let (sender, receiver) = match bounded(alloc, PIECES) {
        Ok(ends) => ends,
        Err(_) => {
            return Followed {
                status: Err(Memory),
                out,
                errors,
            };
        }
    };
    thread::scope(thread::scope_env(), rt, |scope| -> Followed<W, E> {
        let (mut out, mut errors) = (out, errors);
        let status = match scope.spawn(move || read_on(rt, alloc, lines, sender)) {
            Ok(_) => {
                let watched = Watched::new(alloc, is_ranked);
                watch(rt, watched, receiver, &mut out, &mut errors)
            }
            Err(_) => Ok(failed(&mut errors, b"failed: no thread\n")),
        };
        Followed {
            status,
            out,
            errors,
        }
    })
}
