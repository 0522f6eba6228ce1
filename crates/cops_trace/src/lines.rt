//! The printed line of a trace's fault.
ghost use Rattle.std.specs.Prelude.{◌≡◌, ◌++◌, IfOk, OnOk, OnErr, option_map, string_bytes};
ghost use Rattle.cops_trace.specs.Lines.{wire_words, words, fault_line, fault_text};

use crate::fault::TraceFault;
use cops_types::Memory;
use cops_wire::WireFault;
use std::alloc::{AllocError, Global};

fn wire_words(fault: WireFault) -> Option<&'static str>
    ensures { option_map (λ s. s.now) result ≡ wire_words fault }
{
    match fault {
        WireFault::BadLength => Some("bad length"),
        WireFault::UnknownKind => Some("unknown kind"),
        WireFault::BadField { .. } => Some("bad field"),
        WireFault::TrailingBytes => Some("trailing bytes"),
        WireFault::Memory | WireFault::Short => None,
    }
}

/// The words of a fault, and its offset.
fn words(fault: &TraceFault) -> Option<(&'static str, u64)>
    ensures { option_map (λ p. (p.0.now, p.1)) result ≡ words fault.now }
{
    match *fault {
        TraceFault::NoHead { offset } => Some(("no head", offset)),
        TraceFault::BadFormat { offset } => Some(("bad format", offset)),
        TraceFault::ClientOutOfRange { offset } => Some(("client out of range", offset)),
        TraceFault::IndexOutOfTurn { offset } => Some(("index out of turn", offset)),
        TraceFault::BadCount { offset } => Some(("bad count", offset)),
        TraceFault::BytesAfterEnd { offset } => Some(("bytes after end", offset)),
        TraceFault::Cut { offset } => Some(("cut", offset)),
        TraceFault::Frame { fault, offset } => match wire_words(fault) {
            Some(words) => Some((words, offset)),
            None => None,
        },
        TraceFault::TooLong { offset } => Some(("too long", offset)),
        TraceFault::NotARecord { offset } => Some(("not a record", offset)),
        TraceFault::Memory | TraceFault::ReadFailed => None,
    }
}

/// What is wrong and where, `WORDS at OFFSET`, or nothing for `Memory`, for `ReadFailed` and for a frame with the fault
/// `Memory` or `Short`. Fails if memory runs out.
pub fn fault_text(alloc: Global, fault: &TraceFault) -> Result<Option<String>, AllocError>
    ensures { IfOk result (λ text. option_map string_bytes text ≡ fault_text fault.now) }
{
    match words(fault) {
        Some((words, offset)) => {
            let text = format!(in alloc; "{words} at {offset}")?;
            Ok(Some(text))
        }
        None => Ok(None),
    }
}

/// Appends the line of a fault, `faulty: WORDS at OFFSET`. Appends nothing for `Memory`, for `ReadFailed`, for a frame
/// with the fault `Memory` or `Short`, and if memory runs out.
pub fn fault_line(alloc: Global, fault: &TraceFault, out: &mut Vec<u8>) -> Result<(), Memory>
    ensures ok { OnOk result (out.new.items ≡ out.old.items ++ fault_line fault.now) }
    ensures err { OnErr result (out.new.items ≡ out.old.items) }
{
    let Some(text) = fault_text(alloc, fault)? else {
        return Ok(());
    };
    let line = format!(in alloc; "faulty: {text}\n")?;
    out.extend_from_slice(line.as_bytes())?;
    Ok(())
}
