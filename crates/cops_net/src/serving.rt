//! One session of a client.
ghost use Rattle.std.specs.Prelude.{◌≡◌, ◌++◌, ◌⊎◌, List, ℕ, IsErrOf};
ghost use Rattle.std.specs.Io.KnownBytes.{Appends, Consumes, IsAtEnd};
ghost use Rattle.cops_types.specs.declared.format.Format.{Format as AFormat};
ghost use Rattle.cops_types.specs.Failures.{Failed};
ghost use Rattle.cops_types.specs.Counted.{failures, inner};
ghost use Rattle.cops_wire.specs.declared.message.Message.{Message as AMessage};
ghost use Rattle.cops_wire.specs.Legal.{IsLegalMessage};
ghost use Rattle.cops_net.specs.declared.reply.Call.{Call};
ghost use Rattle.cops_net.specs.Sessions.{Serves};
ghost use Rattle.cops_net.specs.Turns.{IsTurn, IsAnswered};

use crate::answering::answer;
use crate::fault::NetFault;
use crate::incoming::Incoming;
use crate::own::{is_bye, is_welcome, phase};
use crate::session::Session;
use cops_types::{Counted, Format, MAX_VALUE, MAX_VALUE_IN_ONE, write_text};
use cops_wire::{Message, encode};
use std::alloc::Global;
use std::io::{Read, Write};
use std::sync::Wait;

/// The greatest number of messages in one session.
const MAX_MESSAGES: u32 = 1_000_000;

/// The number of bytes around the value in the reply that has one: the frame's length, the kind, the request number,
/// the value's length, and the version.
const AROUND_A_VALUE: usize = 19;

/// The greatest number of bytes in a reply.
fn longest_reply(format: Format) -> usize {
    match format {
        Format::One => AROUND_A_VALUE + MAX_VALUE_IN_ONE,
        Format::Two => AROUND_A_VALUE + MAX_VALUE,
    }
}

/// The result of a session that came to its end.
#[derive(Clone, Copy, Debug, PartialEq, Eq)]
pub struct Served {
    /// The number of replies that were written: one for each message.
    pub answered: u32,
}

/// Encodes a reply in `out` and writes it. Returns whether the session is greeted after it.
///
/// Errors: `Memory` when memory runs out; `WriteFailed` where the write failed.
fn write_reply<W: Write>(
    writer: &mut Counted<W>,
    out: &mut Vec<u8>,
    greeted: bool,
    reply: &Message,
) -> Result<bool, NetFault>
    requires { IsLegalMessage reply.now }
    ensures answered { (format : AFormat) (message : AMessage) (gained : List Call) → IsTurn format greeted message gained reply.now
        → (written : List ℕ) × Appends (W.contents (inner writer.old)) (W.contents (inner writer.new)) written
        × IsAnswered format greeted message gained written result }
    ensures failed { IsErrOf result NetFault.WriteFailed → Failed (failures writer.old) (failures writer.new) }
    ensures heard { IsErrOf result NetFault.WriteFailed ⊎ (failures writer.new ≡ failures writer.old) }
{
    out.clear();
    let Ok(()) = encode(reply, out) else {
        return Err(NetFault::Memory);
    };
    match write_text(writer, out) {
        Ok(()) => Ok(greeted | is_welcome(reply)),
        Err(_) => Err(NetFault::WriteFailed),
    }
}

/// Answers a message, and encodes its reply in `out` and writes it. Returns whether the session is greeted after it.
fn turn<R: Wait, W: Write, S: Session>(
    rt: &R,
    writer: &mut Counted<W>,
    session: &mut S,
    out: &mut Vec<u8>,
    greeted: bool,
    message: Message,
) -> Result<bool, NetFault>
    ensures answered { (gained : List Call) × (written : List ℕ)
        × (S.calls session.new ≡ S.calls session.old ++ gained)
        × Appends (W.contents (inner writer.old)) (W.contents (inner writer.new)) written
        × IsAnswered (S.format session.old) greeted message gained written result }
    ensures failed { IsErrOf result NetFault.WriteFailed → Failed (failures writer.old) (failures writer.new) }
    ensures heard { IsErrOf result NetFault.WriteFailed ⊎ (failures writer.new ≡ failures writer.old) }
    ensures kept_format { S.format session.new ≡ S.format session.old }
    ensures ended { S.ended session.new ≡ S.ended session.old }
{
    match answer(rt, session, greeted, message) {
        Ok(reply) => {
            let written = write_reply(writer, out, greeted, &reply);
            drop(reply);
            written
        }
        Err(_) => Err(NetFault::Memory),
    }
}

/// Serves one client: reads its messages, hands to the session those that the protocol hands over, and writes one reply
/// for each, until the client says `Bye` or its bytes end between two messages. `answered` is the number of replies.
/// The bytes up to a greeting that was answered with a data centre are read in format 1, and those after it in the
/// session's format.
///
/// Errors: `Wire` at a fault of the bytes, which gets no reply (`Short` where they end inside a frame); `ReadFailed` or
/// `WriteFailed` where a read or a write failed, which is not tried again; `TurnLimit` at a 1,000,001st message, which
/// gets no reply; and `Memory` when memory runs out, where the last message may be left without a reply.
pub fn serve_session<R: Wait, I: Read, W: Write, S: Session>(
    rt: &R,
    alloc: Global,
    reader: &mut Counted<I>,
    writer: &mut Counted<W>,
    session: &mut S,
) -> Result<Served, NetFault>
    // The bytes that were taken from the reader, the calls that the session's list gained and the bytes that the writer
    // gained are those of a session with this result.
    ensures serves { (input : List ℕ) × (gained : List Call) × (written : List ℕ)
        × Consumes (I.remaining (inner reader.old)) (I.remaining (inner reader.new)) input
        × (S.calls session.new ≡ S.calls session.old ++ gained)
        × Appends (W.contents (inner writer.old)) (W.contents (inner writer.new)) written
        × Serves (S.format session.old) (IsAtEnd (I.remaining (inner reader.new))) input gained written result }

    // The reader's and the writer's failures are reported exactly where they happened.
    ensures read_count { IsErrOf result NetFault.ReadFailed → Failed (failures reader.old) (failures reader.new) }
    ensures write_count { IsErrOf result NetFault.WriteFailed → Failed (failures writer.old) (failures writer.new) }
    ensures read_heard { IsErrOf result NetFault.ReadFailed ⊎ (failures reader.new ≡ failures reader.old) }
    ensures write_heard { IsErrOf result NetFault.WriteFailed ⊎ (failures writer.new ≡ failures writer.old) }

    // The session's format does not change.
    ensures kept_format { S.format session.new ≡ S.format session.old }

    // This does not change the number of ended sessions.
    ensures ended { S.ended session.new ≡ S.ended session.old }
{
    let format = session.format();
    let mut incoming = Incoming::new(alloc);
    let mut out = Vec::new(alloc);
    out.reserve(longest_reply(format))
        .or(Err(NetFault::Memory))?;
    let mut greeted = false;
    for answered in 0..MAX_MESSAGES {
        let message = match incoming.next(phase(format, greeted), reader)? {
            Some(message) => message,
            None => return Ok(Served { answered }),
        };
        let ends = is_bye(&message);
        greeted = turn(rt, writer, session, &mut out, greeted, message)?;
        if ends {
            let answered = answered + 1;
            return Ok(Served { answered });
        }
    }
    match incoming.next(phase(format, greeted), reader)? {
        Some(message) => {
            drop(message);
            Err(NetFault::TurnLimit)
        }
        None => Ok(Served {
            answered: MAX_MESSAGES,
        }),
    }
}
