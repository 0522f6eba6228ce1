//! The audit of a trace's bytes.
ghost use Rattle.std.specs.Prelude.{◌≡◌, ◌≢◌, ◌⊎◌, ◌↔◌, ◌<◌, List, ℕ, IfOk, IfErr, IfSome, IsErrOf, Ok, Err};
ghost use Rattle.std.specs.Io.KnownBytes.{Keeps};
ghost use Rattle.cops_types.specs.Failures.{ReportsFailure};
ghost use Rattle.cops_types.specs.declared.limits.TheConstants.{MAX_WORKERS};
ghost use Rattle.cops_types.specs.Counted.{failures, inner};
ghost use Rattle.cops_trace.specs.Answer.{Agrees, AgreesInto, Says};
ghost use Rattle.cops_trace.specs.Lines.{fault_line};
ghost use Rattle.cops_batch.specs.Pieces.{MayHoldPiece};
ghost use Rattle.cops_audit.specs.Ordered.{IsOrderedVerdict};
ghost use Rattle.cops_trace.specs.Text.{ATrace, sessions_of};
ghost use Rattle.cops_audit_commands.specs.Audit.{AuditSays, Writes, WritesPrefix, IsReported, answer_of};
ghost use Rattle.cops_audit_commands.specs.Convergent.{EncodesConvergent};
ghost use Rattle.cops_audit_commands.specs.Fed.{WasFed};

use crate::alone::{judged_alone, whole};
use crate::fed::Fed;
use cops_audit::{OrderedVerdict, Verdict};
use cops_batch::{BatchFault, judge_in_order_with};
use cops_command::Status;
use cops_report::report_by;
use cops_trace::{SinkTaken, TraceFault, fault_line, read_into};
use cops_types::{Counted, Gate, History, MAX_WORKERS, Memory, write_text};
use std::alloc::Global;
use std::io::{Read, Write};
use std::sync::Wait;
use std::thread::Threads;
use thiserror::Error;

/// What an audit says of a trace's bytes.
#[derive(Clone, Copy, Debug, PartialEq, Eq)]
pub enum Answer {
    /// The bytes decode to one history, and it is causally convergent.
    Accepted,
    /// The bytes decode to one history, and it has faults.
    Refused,
    /// The bytes decode to no history.
    Faulty,
}

impl Answer {
    ghost use Rattle.std.specs.Prelude.{◌≡◌};
    ghost use Rattle.cops_audit_commands.specs.Audit.{answer_status};

    /// The status with which a command ends for this answer.
    pub fn status(self) -> Status
        ensures { result ≡ answer_status self }
    {
        match self {
            Answer::Accepted => Status::Accepted,
            Answer::Refused => Status::Refused,
            Answer::Faulty => Status::Faulty,
        }
    }
}

/// Why no audit was written. The numbers are the faults' codes.
#[derive(Clone, Copy, Debug, PartialEq, Eq, Error)]
pub enum StreamFault {
    /// 0: out of memory.
    #[error("out of memory")]
    Memory,
    /// 1: the workers are not 1 to 64.
    #[error("the workers are not 1 to 64")]
    BadWorkers,
    /// 2: the gate held a worker.
    #[error("the gate held a worker")]
    Held,
    /// 3: the reader failed.
    #[error("the reader failed")]
    ReadFailed,
    /// 4: the writer failed.
    #[error("the writer failed")]
    WriteFailed,
}

/// The answer for a verdict.
pub(crate) fn answer_of(verdict: &Verdict) -> Answer
    ensures { result ≡ answer_of verdict.now }
{
    match verdict {
        Verdict::Accepted(_) => Answer::Accepted,
        Verdict::Refused(_) => Answer::Refused,
    }
}

/// The answer for a verdict on a history, with its report.
fn report_on(
    alloc: Global,
    history: &History,
    ordered: &OrderedVerdict,
) -> Result<(Answer, Vec<u8>), Memory>
    requires { IsOrderedVerdict history.now.sessions ordered.now }
    ensures { (t : ATrace) → history.now.sessions ≡ sessions_of t → IfOk result (λ reported. IsReported t reported.0 reported.1.items) }
{
    let text = report_by(alloc, history, &ordered.puts, &ordered.verdict)?;
    Ok((answer_of(&ordered.verdict), text))
}

/// The answer for what the auditor took, with its report, by `workers` workers.
fn judged<T: Threads + Wait + Sync, G: Gate>(
    rt: &T,
    alloc: Global,
    fed: Fed,
    workers: u8,
    gate: &G,
) -> Result<(Answer, Vec<u8>), StreamFault>
    ensures reported { (t : ATrace) → WasFed fed t → IfOk result (λ reported. IsReported t reported.0 reported.1.items) }
    ensures bad { IsErrOf result StreamFault.BadWorkers → (workers ≡ 0) ⊎ (MAX_WORKERS < workers) }
    ensures held { IsErrOf result StreamFault.Held → (i : ℕ) × (i < workers) × MayHoldPiece (G.may_hold gate.now) i }
    ensures no_read { ¬ IsErrOf result StreamFault.ReadFailed }
    ensures no_write { ¬ IsErrOf result StreamFault.WriteFailed }
{
    let history = fed.into_online().into_history();
    let ordered = match judge_in_order_with(rt, alloc, &history, workers, gate) {
        Ok(ordered) => ordered,
        Err(BatchFault::Memory) => return Err(StreamFault::Memory),
        Err(BatchFault::BadWorkers) => return Err(StreamFault::BadWorkers),
        Err(BatchFault::Held) => return Err(StreamFault::Held),
    };
    match report_on(alloc, &history, &ordered) {
        Ok(reported) => Ok(reported),
        Err(Memory) => Err(StreamFault::Memory),
    }
}

/// What was taken of a whole trace, or why there is none: the bytes have a fault, which a cut is too, or reading failed.
fn whole_trace(read: Result<SinkTaken<Fed>, TraceFault>) -> Result<Fed, TraceFault>
    ensures whole { (bytes : List ℕ) → AgreesInto WasFed bytes read → IfOk result (λ fed. (t : ATrace) × Says bytes (Ok t) × WasFed fed t) }
    ensures fault { (bytes : List ℕ) → AgreesInto WasFed bytes read → IfErr result (λ fault. Agrees bytes (Err fault)) }
    ensures read_failed { IsErrOf result TraceFault.ReadFailed → read ≡ Err TraceFault.ReadFailed }
    ensures read_reported { IsErrOf read TraceFault.ReadFailed → IsErrOf result TraceFault.ReadFailed }
{
    let SinkTaken { sink, cut } = read?;
    match cut {
        Some(offset) => {
            drop(sink);
            Err(TraceFault::Cut { offset })
        }
        None => Ok(sink),
    }
}

/// The answer where there is no whole trace, with its text.
pub(crate) fn no_trace(alloc: Global, fault: TraceFault) -> Result<(Answer, Vec<u8>), StreamFault>
    ensures says { (bytes : List ℕ) → Agrees bytes (Err fault) → IfOk result (λ reported. AuditSays bytes reported.0 reported.1.items) }
    ensures reported { IfOk result (λ reported. (reported.0 ≡ Answer.Faulty) × (reported.1.items ≡ fault_line fault)) }
    ensures known { IfOk result (λ reported. (fault ≢ TraceFault.Memory) × (fault ≢ TraceFault.ReadFailed)) }
    ensures faults { IfErr result (λ e. (e ≡ StreamFault.Memory) ⊎ (e ≡ StreamFault.ReadFailed)) }
    ensures read_failed { IsErrOf result StreamFault.ReadFailed ↔ (fault ≡ TraceFault.ReadFailed) }
{
    match fault {
        TraceFault::Memory => Err(StreamFault::Memory),
        TraceFault::ReadFailed => Err(StreamFault::ReadFailed),
        fault => {
            let mut text = Vec::new(alloc);
            fault_line(alloc, &fault, &mut text).or(Err(StreamFault::Memory))?;
            Ok((Answer::Faulty, text))
        }
    }
}

/// The answer for what was read, with its text.
fn reported<T: Threads + Wait + Sync, G: Gate>(
    rt: &T,
    alloc: Global,
    read: Result<SinkTaken<Fed>, TraceFault>,
    workers: u8,
    gate: &G,
) -> Result<(Answer, Vec<u8>), StreamFault>
    ensures says { (bytes : List ℕ) → AgreesInto WasFed bytes read → IfOk result (λ reported. AuditSays bytes reported.0 reported.1.items) }
    ensures bad { IsErrOf result StreamFault.BadWorkers → (workers ≡ 0) ⊎ (MAX_WORKERS < workers) }
    ensures held { IsErrOf result StreamFault.Held → (i : ℕ) × (i < workers) × MayHoldPiece (G.may_hold gate.now) i }
    ensures read_failed { IsErrOf result StreamFault.ReadFailed → read ≡ Err TraceFault.ReadFailed }
    ensures read_reported { IsErrOf read TraceFault.ReadFailed → IsErrOf result StreamFault.ReadFailed }
    ensures no_write { ¬ IsErrOf result StreamFault.WriteFailed }
{
    match whole_trace(read) {
        Ok(fed) if workers == 1 => judged_alone(rt, alloc, fed, gate),
        Ok(fed) => judged(rt, alloc, fed, workers, gate),
        Err(fault) => no_trace(alloc, fault),
    }
}

/// Judges the bytes of a trace by one worker without threads, and returns the answer with the report, or with the line of
/// the bytes' fault.
///
/// Fails if memory runs out. A read from memory does not fail; as that is not proved, such a failure would be reported
/// as that of memory.
pub fn audit_bytes(alloc: Global, bytes: &[u8]) -> Result<(Answer, Vec<u8>), Memory>
    ensures says { IfOk result (λ reported. AuditSays bytes.now reported.0 reported.1.items) }
    ensures accepted { IfOk result (λ reported. reported.0 ≡ Answer.Accepted → EncodesConvergent bytes.now) }
{
    match whole_trace(read_into::<Fed, &[u8]>(alloc, &mut Counted::new(bytes))) {
        Ok(fed) => whole(alloc, fed),
        Err(fault) => no_trace(alloc, fault).or(Err(Memory)),
    }
}

/// The answer for what a reader gives, with its text, by `workers` workers.
fn read_and_reported<T: Threads + Wait + Sync, R: Read, G: Gate>(
    rt: &T,
    alloc: Global,
    reader: &mut Counted<R>,
    workers: u8,
    gate: &G,
) -> Result<(Answer, Vec<u8>), StreamFault>
    ensures says { IfOk result (λ reported. IfSome (R.remaining (inner reader.old)) (λ bytes. AuditSays bytes reported.0 reported.1.items)) }
    ensures bad { IsErrOf result StreamFault.BadWorkers → (workers ≡ 0) ⊎ (MAX_WORKERS < workers) }
    ensures held { IsErrOf result StreamFault.Held → (i : ℕ) × (i < workers) × MayHoldPiece (G.may_hold gate.now) i }
    ensures reads { ReportsFailure (IsErrOf result StreamFault.ReadFailed) (failures reader.old) (failures reader.new) }
    ensures no_write { ¬ IsErrOf result StreamFault.WriteFailed }
{
    reported(rt, alloc, read_into(alloc, reader), workers, gate)
}

/// Reads a trace to its end or its first fault, judges it by `workers` workers, 1 to 64, and writes the report or the
/// fault's line, and nothing else. Nothing is written before the input's end.
///
/// The errors: `BadWorkers` exactly where `workers` is not 1 to 64, and then nothing is read; `Held` where the gate
/// held a worker at a point of its piece; `ReadFailed` where a read failed, and `WriteFailed` where a write failed,
/// neither of which is tried again; `Memory` where memory runs out, and then nothing is written.
pub fn audit_stream<T: Threads + Wait + Sync, R: Read, W: Write, G: Gate>(
    rt: &T,
    alloc: Global,
    reader: &mut Counted<R>,
    writer: &mut Counted<W>,
    workers: u8,
    gate: &G,
) -> Result<Answer, StreamFault>
    // What is written is the audit's text of the reader's bytes, and the answer is the audit's.
    ensures ok { IfOk result (λ answer. IfSome (R.remaining (inner reader.old)) (λ bytes.
        Writes bytes answer (W.contents (inner writer.old)) (W.contents (inner writer.new)))) }

    // Where the answer is accepted, the bytes decode to one history, and it is causally convergent.
    ensures accepted { IfOk result (λ answer. answer ≡ Answer.Accepted → IfSome (R.remaining (inner reader.old)) EncodesConvergent) }

    // Where a write failed, a prefix of the text is written; on any other error nothing is.
    ensures write_failed { IsErrOf result StreamFault.WriteFailed → IfSome (R.remaining (inner reader.old)) (λ bytes.
        WritesPrefix bytes (W.contents (inner writer.old)) (W.contents (inner writer.new))) }
    ensures nothing { (IsErrOf result StreamFault.ReadFailed ⊎ IsErrOf result StreamFault.Memory ⊎ IsErrOf result StreamFault.BadWorkers ⊎ IsErrOf result StreamFault.Held)
        → Keeps (W.contents (inner writer.old)) (W.contents (inner writer.new)) }

    // A bad number of workers is reported exactly where it is bad, before anything is read; a worker is held only by
    // the gate.
    ensures bad { IsErrOf result StreamFault.BadWorkers ↔ ((workers ≡ 0) ⊎ (MAX_WORKERS < workers)) }
    ensures unread { IsErrOf result StreamFault.BadWorkers → reader.new ≡ reader.old }
    ensures held { IsErrOf result StreamFault.Held → (i : ℕ) × (i < workers) × MayHoldPiece (G.may_hold gate.now) i }

    // The devices' faults are reported exactly where they were met.
    ensures writes { ReportsFailure (IsErrOf result StreamFault.WriteFailed) (failures writer.old) (failures writer.new) }
    ensures reads { ReportsFailure (IsErrOf result StreamFault.ReadFailed) (failures reader.old) (failures reader.new) }
{
    if workers == 0 {
        return Err(StreamFault::BadWorkers);
    }
    if workers > MAX_WORKERS {
        return Err(StreamFault::BadWorkers);
    }
    let (answer, text) = read_and_reported(rt, alloc, reader, workers, gate)?;
    match write_text(writer, &text) {
        Ok(()) => Ok(answer),
        Err(_) => Err(StreamFault::WriteFailed),
    }
}
