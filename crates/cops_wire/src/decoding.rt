//! Decoding the message at the front of some bytes.
ghost use Rattle.std.specs.Prelude.{◌≡◌, ◌<◌, ◌≤◌, ◌+◌, ℕ, length, take, drop, Result, Err, IfOk, IfErr, IsTrue};
ghost use Rattle.cops_types.specs.Format.{longest_body};
ghost use Rattle.cops_types.specs.declared.limits.TheConstants.{MAX_BODY_IN_ONE};
ghost use Rattle.cops_wire.specs.declared.fault.WireFault.{WireFault};
ghost use Rattle.cops_wire.specs.Grammar.{grammar, grammar_one, Parts};
ghost use Rattle.cops_wire.specs.Answer.{IsAnswer, Answers, BeginsWithTaking, IsPlacedWithin, length_at};
ghost use Rattle.cops_wire.specs.Reading.{HasNoBody, body_at, body_takes, frame_at};

use crate::fault::WireFault;
use crate::message::Message;
use crate::reading::{ReadFault, Rest};
use cops_types::Format;
use std::alloc::Global;

/// A message, and the number of bytes of its frame: more than 4, and at most 4 plus the most bytes of a body.
#[derive(Debug, Drop)]
pub struct Decoded {
    pub message: Message,
    pub used: usize,
}

/// Decodes the message of format 1 at the front of some bytes, as `decode_in` with `Format::One` does. As there, memory
/// runs out only at a field whose reading allocates.
pub fn decode(alloc: Global, bytes: &[u8]) -> Result<Decoded, WireFault>
    ensures answer { Answers result (IsAnswer grammar_one bytes.now) }
    ensures only { (a : Result (Parts × ℕ) WireFault) → IsAnswer grammar_one bytes.now a → Answers result (λ b. b ≡ a) }
    ensures reading { Answers result (λ a. a ≡ frame_at grammar_one bytes.now) }
    ensures memory { result ≡ Err WireFault.Memory → BeginsWithTaking grammar_one bytes.now }
    ensures used { IfOk result (λ decoded. (4 < decoded.used) × (decoded.used ≤ length bytes.now) × (decoded.used ≤ 4 + MAX_BODY_IN_ONE)) }
    ensures offset { IfErr result (IsPlacedWithin MAX_BODY_IN_ONE) }
{
    decode_in(Format::One, alloc, bytes)
}

/// Decodes the message of a format at the front of some bytes, and returns the number of bytes of its frame. It does
/// not look at what follows the frame.
///
/// The errors are checked in this order: `Short` if there are fewer than 4 bytes; `BadLength` if the length is 0 or
/// above the format's limit; `Short` if the frame is not whole; `UnknownKind`; `BadField` at the first field from the
/// left that runs past the body's end or is not legal; `TrailingBytes`. `Memory` comes only at a legal key or value, or
/// at dependencies whose count is legal: at no other field, and at no kind without one.
pub fn decode_in(format: Format, alloc: Global, bytes: &[u8]) -> Result<Decoded, WireFault>
    // The result is the one that this order gives, unless memory runs out.
    ensures answer { Answers result (IsAnswer (grammar format) bytes.now) }

    // This order gives only one result.
    ensures only { (a : Result (Parts × ℕ) WireFault) → IsAnswer (grammar format) bytes.now a → Answers result (λ b. b ≡ a) }

    // The result as a computed function.
    ensures reading { Answers result (λ a. a ≡ frame_at (grammar format) bytes.now) }

    // Memory runs out only in a whole frame of a known kind, at a legal key or value or at dependencies whose count is
    // legal, and only if the fields before are legal too.
    ensures memory { result ≡ Err WireFault.Memory → BeginsWithTaking (grammar format) bytes.now }

    // The frame is within the bytes, and the offset of a bad field is within its frame.
    ensures used { IfOk result (λ decoded. (4 < decoded.used) × (decoded.used ≤ length bytes.now) × (decoded.used ≤ 4 + longest_body format)) }
    ensures offset { IfErr result (IsPlacedWithin (longest_body format)) }
{
    frame(format, alloc, bytes)
}

/// The body of the frame of a format at the front of some bytes, which is not decoded. It does not look at what follows
/// the frame. `Short` comes if there are fewer than 4 bytes, or fewer than the frame has; `BadLength`, which is checked
/// between the two, if the length is 0 or above the format's limit.
#[tactic(auto, unfolding(crate::specs::Reading::frame_at))]
pub fn whole_body(format: Format, bytes: &[u8]) -> Result<&[u8], WireFault>
    ensures some { IfOk result (λ text. (0 < length text.now) × (length text.now ≤ longest_body format)) }
    ensures place { IfOk result (λ text. (4 + length text.now ≤ length bytes.now) × (length text.now ≡ length_at bytes.now) × (text.now ≡ take (length_at bytes.now) (drop 4 bytes.now))) }
    ensures reading { IfOk result (λ text. frame_at (grammar format) bytes.now ≡ body_at (grammar format) text.now) }
    ensures err { IfErr result (λ fault. HasNoBody fault × (frame_at (grammar format) bytes.now ≡ Err fault)) }
{
    if bytes.len() < 4 {
        return Err(WireFault::Short);
    }
    let (head, rest) = bytes.split_at(4);
    let len = u32::from_be_bytes([head[0], head[1], head[2], head[3]]) as usize;
    if len == 0 || len > format.longest_body() {
        return Err(WireFault::BadLength);
    }
    if rest.len() < len {
        return Err(WireFault::Short);
    }
    let (text, _) = rest.split_at(len);
    Ok(text)
}

/// All checks.
fn frame(format: Format, alloc: Global, bytes: &[u8]) -> Result<Decoded, WireFault>
    ensures reading { Answers result (λ a. a ≡ frame_at (grammar format) bytes.now) }
    ensures memory { result ≡ Err WireFault.Memory → BeginsWithTaking (grammar format) bytes.now }
    ensures used { IfOk result (λ decoded. (4 < decoded.used) × (decoded.used ≤ length bytes.now) × (decoded.used ≤ 4 + longest_body format)) }
    ensures offset { IfErr result (IsPlacedWithin (longest_body format)) }
{
    match whole_body(format, bytes) {
        Ok(text) => body(format, alloc, text),
        Err(fault) => Err(fault),
    }
}

/// The last three checks, on a whole body.
fn body(format: Format, alloc: Global, text: &[u8]) -> Result<Decoded, WireFault>
    requires some { 0 < length text.now }
    requires fits { length text.now ≤ longest_body format }
    ensures reading { Answers result (λ a. a ≡ body_at (grammar format) text.now) }
    ensures memory { result ≡ Err WireFault.Memory → IsTrue (body_takes (grammar format) text.now) }
    ensures used { IfOk result (λ decoded. decoded.used ≡ 4 + length text.now) }
    ensures offset { IfErr result (IsPlacedWithin (length text.now)) }
{
    let used = 4 + text.len();
    let mut rest = Rest {
        alloc,
        format,
        bytes: &text[1..],
    };
    match rest.message(text[0]) {
        Ok(message) => {
            if rest.bytes.is_empty() {
                Ok(Decoded { message, used })
            } else {
                drop(message);
                Err(WireFault::TrailingBytes)
            }
        }
        Err(ReadFault::Memory) => Err(WireFault::Memory),
        Err(ReadFault::UnknownKind) => Err(WireFault::UnknownKind),
        Err(ReadFault::BadField(left)) => {
            let place = used - left;
            let offset = place as u32;
            Err(WireFault::BadField { offset })
        }
    }
}
