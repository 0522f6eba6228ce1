//! How a connection ends.
ghost use Rattle.std.specs.Prelude.{◌≤◌, List, ℕ, length};
ghost use Rattle.std.specs.Io.KnownBytes.{Consumes};

use std::io::Read;
use std::net::{Shutdown, TcpStream};
use std::time::Duration;

/// The greatest number of bytes that are read and discarded after a session.
const MOST_BEHIND: usize = 1_048_576;

/// The greatest number of reads after a session.
const READS_BEHIND: u32 = 1_024;

/// The number of bytes that one of these reads asks for.
const PIECE: usize = 16_384;

/// The number of seconds that one of these reads may wait.
const LAST_WAIT: u64 = 1;

/// Reads and discards what still comes, until the reader's end, a failed read or the limits on bytes and reads.
fn read_away<I: Read>(reader: &mut I)
    ensures { (came : List ℕ) × Consumes (I.remaining reader.old) (I.remaining reader.new) came × (length came ≤ MOST_BEHIND) }
{
    let mut piece = [0u8; PIECE];
    let mut room = MOST_BEHIND;
    for _ in 0..READS_BEHIND {
        if room < PIECE {
            return;
        }
        let Ok(count) = reader.read(&mut piece) else {
            return;
        };
        if count == 0 {
            return;
        }
        room -= count;
    }
}

/// Ends a connection whose session has ended. Closing a connection while bytes of its client are unread makes the
/// system discard what the client has not read yet. So only the writing side is shut down at first, and what still
/// comes is read and discarded. A client that stays and sends nothing more is waited for once. A failure here is
/// ignored.
pub(crate) fn part_from(stream: &TcpStream) {
    let wait = Duration::from_secs(LAST_WAIT);
    if stream.shutdown(Shutdown::Write).is_ok() && stream.set_read_timeout(Some(wait)).is_ok() {
        let mut reader = stream;
        read_away(&mut reader);
    }
}
