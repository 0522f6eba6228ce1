//! The audit of a trace's bytes, which may be cut.
ghost use Rattle.std.specs.Prelude.{◌≡◌, ◌⊎◌, ℕ, List, Err, IfErr, IfOk, IfSome, IsErrOf};
ghost use Rattle.std.specs.Io.KnownBytes.{Keeps};
ghost use Rattle.cops_types.specs.Counted.{failures, inner};
ghost use Rattle.cops_types.specs.Failures.{ReportsFailure};
ghost use Rattle.cops_trace.specs.Answer.{AgreesInto, TakesFrom};
ghost use Rattle.cops_trace.specs.Text.{ATrace, sessions_of};
ghost use Rattle.cops_audit.specs.SoFar.{IsSoFar};
ghost use Rattle.cops_audit.specs.declared.verdict.SoFar.{SoFar as ASoFar};
ghost use Rattle.cops_audit_commands.specs.Fed.{WasFed};
ghost use Rattle.cops_audit_commands.specs.SoFar.{IsSoundSoFar, SaysSoFar, WritesPrefixSoFar, WritesSoFar, answer_so_far, cut_text};

use crate::alone::whole;
use crate::audit::{Answer, StreamFault, no_trace};
use crate::fed::Fed;
use cops_audit::SoFar;
use cops_trace::{SinkTaken, TraceFault, read_into};
use cops_types::{Counted, Memory, write_text};
use std::alloc::Global;
use std::io::{Read, Write};

/// The answer for a verdict so far.
fn answer_so_far(so_far: SoFar) -> Answer
    ensures { result ≡ answer_so_far so_far }
{
    match so_far {
        SoFar::Clean | SoFar::Waiting(_) => Answer::Accepted,
        SoFar::Refused => Answer::Refused,
    }
}

/// Two lines: where the bytes are cut, and the verdict so far.
fn cut_text(alloc: Global, offset: u64, so_far: SoFar) -> Result<Vec<u8>, Memory>
    ensures { IfOk result (λ text. text.items ≡ cut_text offset so_far) }
{
    let text = match so_far {
        SoFar::Clean => format!(in alloc; "cut at {offset}\nso far: clean\n")?,
        SoFar::Waiting(gets) => format!(in alloc; "cut at {offset}\nso far: waiting {gets}\n")?,
        SoFar::Refused => format!(in alloc; "cut at {offset}\nso far: refused\n")?,
    };
    Ok(text.into_bytes())
}

/// The answer for the whole records before a cut, with its text, by an auditor that took them.
fn cut(alloc: Global, fed: Fed, offset: u64) -> Result<(Answer, Vec<u8>), Memory>
    ensures { (t : ATrace) → WasFed fed t → IfOk result (λ reported. (so_far : ASoFar) × IsSoFar (sessions_of t) so_far
        × (reported.0 ≡ answer_so_far so_far) × (reported.1.items ≡ cut_text offset so_far)) }
{
    let mut online = fed.into_online();
    let so_far = online.so_far();
    let text = cut_text(alloc, offset, so_far)?;
    Ok((answer_so_far(so_far), text))
}

/// The answer for a trace that is whole or cut, with its text.
fn reported_of(alloc: Global, taken: SinkTaken<Fed>) -> Result<(Answer, Vec<u8>), Memory>
    ensures { (bytes : List ℕ) → TakesFrom WasFed bytes taken → IfOk result (λ reported. SaysSoFar bytes reported.0 reported.1.items) }
{
    let SinkTaken { sink, cut: place } = taken;
    match place {
        Some(offset) => cut(alloc, sink, offset),
        None => whole(alloc, sink),
    }
}

/// The answer for what was read, with its text.
fn reported(
    alloc: Global,
    read: Result<SinkTaken<Fed>, TraceFault>,
) -> Result<(Answer, Vec<u8>), StreamFault>
    ensures says { (bytes : List ℕ) → AgreesInto WasFed bytes read → IfOk result (λ reported. SaysSoFar bytes reported.0 reported.1.items) }
    ensures faults { IfErr result (λ e. (e ≡ StreamFault.Memory) ⊎ (e ≡ StreamFault.ReadFailed)) }
    ensures read_failed { IsErrOf result StreamFault.ReadFailed → read ≡ Err TraceFault.ReadFailed }
    ensures read_reported { IsErrOf read TraceFault.ReadFailed → IsErrOf result StreamFault.ReadFailed }
{
    match read {
        Ok(taken) => reported_of(alloc, taken).or(Err(StreamFault::Memory)),
        Err(fault) => no_trace(alloc, fault),
    }
}

/// Judges the bytes of a trace, which may be cut, and returns the answer with the text that `audit_so_far` writes.
///
/// Fails if memory runs out. A read from memory does not fail; as that is not proved, such a failure would be reported
/// as that of memory.
pub fn audit_bytes_so_far(alloc: Global, bytes: &[u8]) -> Result<(Answer, Vec<u8>), Memory>
    ensures says { IfOk result (λ reported. SaysSoFar bytes.now reported.0 reported.1.items) }
    ensures accepted { IfOk result (λ reported. reported.0 ≡ Answer.Accepted → IsSoundSoFar bytes.now) }
{
    let read = read_into::<Fed, &[u8]>(alloc, &mut Counted::new(bytes));
    reported(alloc, read).or(Err(Memory))
}

/// Reads a trace to its end or its first fault, and does the same as `audit_stream` with one worker, unless the trace
/// is cut. For a cut trace it writes two lines: `cut at OFFSET`, and the verdict so far on the whole records before the
/// cut, which is `so far: clean`, `so far: waiting N` or `so far: refused`. For the last the answer is refused, for the
/// others accepted. Nothing is written before the input's end.
///
/// The errors: `ReadFailed` where a read failed, and `WriteFailed` where a write failed, neither of which is tried
/// again; `Memory` where memory runs out, and then nothing is written.
pub fn audit_so_far<R: Read, W: Write>(
    alloc: Global,
    reader: &mut Counted<R>,
    writer: &mut Counted<W>,
) -> Result<Answer, StreamFault>
    // What is written is the text for the reader's bytes, and the answer is the one for that text.
    ensures ok { IfOk result (λ answer. IfSome (R.remaining (inner reader.old)) (λ bytes.
        WritesSoFar bytes answer (W.contents (inner writer.old)) (W.contents (inner writer.new)))) }

    // Where the answer is accepted, the bytes decode to one history, which is causally convergent, or they are cut
    // after records without a lasting fault.
    ensures accepted { IfOk result (λ answer. answer ≡ Answer.Accepted → IfSome (R.remaining (inner reader.old)) IsSoundSoFar) }

    // There are no other errors than these. Where a write failed, a prefix of the text is written; on any other error
    // nothing is.
    ensures faults { IfErr result (λ e. (e ≡ StreamFault.Memory) ⊎ (e ≡ StreamFault.ReadFailed) ⊎ (e ≡ StreamFault.WriteFailed)) }
    ensures nothing { (IsErrOf result StreamFault.ReadFailed ⊎ IsErrOf result StreamFault.Memory)
        → Keeps (W.contents (inner writer.old)) (W.contents (inner writer.new)) }
    ensures write_failed { IsErrOf result StreamFault.WriteFailed → IfSome (R.remaining (inner reader.old)) (λ bytes.
        WritesPrefixSoFar bytes (W.contents (inner writer.old)) (W.contents (inner writer.new))) }

    // A device's fault is reported exactly where it was met, the reader's and the writer's.
    ensures reads { ReportsFailure (IsErrOf result StreamFault.ReadFailed) (failures reader.old) (failures reader.new) }
    ensures writes { ReportsFailure (IsErrOf result StreamFault.WriteFailed) (failures writer.old) (failures writer.new) }
{
    let (answer, text) = reported(alloc, read_into::<Fed, R>(alloc, reader))?;
    match write_text(writer, &text) {
        Ok(()) => Ok(answer),
        Err(_) => Err(StreamFault::WriteFailed),
    }
}
