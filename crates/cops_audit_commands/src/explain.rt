//! The explanation of a trace's bytes.
ghost use Rattle.std.specs.Prelude.{◌≡◌, ◌⊎◌, ℕ, List, Err, None, IfErr, IfOk, IfSome, IsErrOf, false, true};
ghost use Rattle.std.specs.Io.KnownBytes.{Keeps};
ghost use Rattle.cops_types.specs.Counted.{failures, inner};
ghost use Rattle.cops_types.specs.Failures.{ReportsFailure};
ghost use Rattle.cops_audit.specs.Verdicts.{IsVerdict};
ghost use Rattle.cops_explain.specs.Naming.{named_of};
ghost use Rattle.cops_explain.specs.declared.naming.Naming.TheVariants as naming;
ghost use Rattle.cops_trace.specs.Answer.{Agrees};
ghost use Rattle.cops_audit_commands.specs.Convergent.{EncodesConvergent};
ghost use Rattle.cops_audit_commands.specs.Explain.{ExplainSays, IsDrawing, IsDrawn, IsExplainedAs, IsExplanation, PictureSays, WritesExplained, WritesPrefixExplained, drawn_number, faulty_text};

use crate::audit::{Answer, StreamFault, answer_of};
use cops_audit::{Verdict, judge};
use cops_explain::{NamedHistory, Naming, explain, picture};
use cops_explain_json::{explain_json, faulty_json};
use cops_trace::{Trace, TraceFault, fault_line, fault_text, read_trace};
use cops_types::{Counted, Memory, Selection, write_text};
use std::alloc::Global;
use std::io::{Read, Write};

/// What an explanation is to be: of which faults, with a picture of one of them or without it, and as JSON or in words.
#[derive(Clone, Copy, Debug, PartialEq, Eq)]
pub struct Request {
    pub faults: Selection,
    pub is_drawn: bool,
    pub is_json: bool,
}

/// The result of an explanation: the audit's answer, and the picture that was asked for, where there is one.
#[derive(Debug, Drop)]
pub struct Explained {
    pub answer: Answer,
    pub picture: Option<Vec<u8>>,
}

/// The text about a trace, and the result with the picture.
#[derive(Drop)]
pub struct ExplainedText {
    pub explained: Explained,
    pub text: Vec<u8>,
}

/// The number of the fault that is drawn: the one that is asked for, or the first.
fn drawn_number(asked: Selection) -> u32
    ensures { result ≡ drawn_number asked }
{
    match asked {
        Selection::First | Selection::All => 1,
        Selection::One(number) => number,
    }
}

/// The picture of the fault that is asked for, where one is to be drawn.
fn drawn(
    alloc: Global,
    named: NamedHistory<'_>,
    verdict: &Verdict,
    request: Request,
) -> Result<Option<Vec<u8>>, Memory>
    requires { IsVerdict named.history.now.sessions verdict.now }
    ensures drawn { request.is_drawn ≡ true → IfOk result (IsDrawn named.entry.naming.now verdict.now (drawn_number request.faults)) }
    ensures none { request.is_drawn ≡ false → IfOk result (λ picture. picture ≡ None) }
{
    if request.is_drawn {
        picture(alloc, named, verdict, drawn_number(request.faults))
    } else {
        Ok(None)
    }
}

/// The explanation of a verdict, in words or as JSON.
fn text_of(
    alloc: Global,
    named: NamedHistory<'_>,
    verdict: &Verdict,
    request: Request,
) -> Result<Vec<u8>, Memory>
    requires { IsVerdict named.history.now.sessions verdict.now }
    ensures { IfOk result (λ text. IsExplainedAs request.is_json (named_of named.entry) verdict.now request.faults text.items) }
{
    if request.is_json {
        explain_json(alloc, named.history, named.naming, verdict, request.faults)
    } else {
        explain(alloc, named, verdict, request.faults)
    }
}

/// The answer for a trace whose operations are called so, by one worker, with the text and the picture that explain it.
/// Fails if memory runs out.
pub fn explanation(
    alloc: Global,
    trace: &Trace,
    naming: &Naming,
    request: Request,
) -> Result<ExplainedText, Memory>
    ensures reported { IfOk result (λ reported. IsExplanation trace.now naming.now request reported.explained.answer reported.text.items) }
    ensures drawn { request.is_drawn ≡ true → IfOk result (λ reported. IsDrawing trace.now naming.now request.faults reported.explained.picture) }
    ensures none { request.is_drawn ≡ false → IfOk result (λ reported. reported.explained.picture ≡ None) }
{
    let history = trace.history();
    let named = NamedHistory { history, naming };
    let verdict = judge(alloc, history)?;
    let text = text_of(alloc, named, &verdict, request)?;
    let picture = drawn(alloc, named, &verdict, request)?;
    let answer = answer_of(&verdict);
    Ok(ExplainedText {
        explained: Explained { answer, picture },
        text,
    })
}

/// The answer, the text and the picture for what was read.
fn answered(
    alloc: Global,
    read: Result<Trace, TraceFault>,
    request: Request,
) -> Result<ExplainedText, StreamFault>
    ensures says { (bytes : List ℕ) → Agrees bytes read → IfOk result (λ reported. ExplainSays request bytes reported.explained.answer reported.text.items) }
    ensures drawn { request.is_drawn ≡ true → (bytes : List ℕ) → Agrees bytes read → IfOk result (λ reported. PictureSays request.faults bytes reported.explained.picture) }
    ensures none { request.is_drawn ≡ false → IfOk result (λ reported. reported.explained.picture ≡ None) }
    ensures faults { IfErr result (λ e. (e ≡ StreamFault.Memory) ⊎ (e ≡ StreamFault.ReadFailed)) }
    ensures read_failed { IsErrOf result StreamFault.ReadFailed → read ≡ Err TraceFault.ReadFailed }
    ensures read_reported { IsErrOf read TraceFault.ReadFailed → IsErrOf result StreamFault.ReadFailed }
{
    match read {
        Ok(trace) => explanation(alloc, &trace, &Naming::Trace, request).or(Err(
            StreamFault::Memory,
        )),
        Err(TraceFault::Memory) => Err(StreamFault::Memory),
        Err(TraceFault::ReadFailed) => Err(StreamFault::ReadFailed),
        Err(fault) => faulty(alloc, &fault, request.is_json).or(Err(StreamFault::Memory)),
    }
}

/// What is said of a fault in the bytes, without a picture.
fn faulty(alloc: Global, fault: &TraceFault, is_json: bool) -> Result<ExplainedText, Memory>
    ensures reported { IfOk result (λ reported. (reported.explained.answer ≡ Answer.Faulty) × (reported.text.items ≡ faulty_text is_json fault.now) × (reported.explained.picture ≡ None)) }
{
    let text = faulty_text(alloc, fault, is_json)?;
    Ok(ExplainedText {
        explained: Explained {
            answer: Answer::Faulty,
            picture: None,
        },
        text,
    })
}

/// What is said of a fault in the bytes, in words or as JSON.
fn faulty_text(alloc: Global, fault: &TraceFault, is_json: bool) -> Result<Vec<u8>, Memory>
    ensures { IfOk result (λ text. text.items ≡ faulty_text is_json fault.now) }
{
    if is_json {
        let text = fault_text(alloc, fault)?;
        let why = text.as_ref().map_or("", |text| text.as_str());
        return Ok(faulty_json(alloc, why, None)?);
    }
    let mut line = Vec::new(alloc);
    fault_line(alloc, fault, &mut line)?;
    Ok(line)
}

/// Reads a trace to its end or its first fault, judges it by one worker, and returns the answer of `audit_stream`. It
/// writes the text of `explain`, or of `explain_json`, for the faults that are asked for, or the fault's line, or its
/// JSON, and nothing else. Where a picture is asked for, it also returns that of the one fault that is asked for, or of
/// the first, if there is such a fault. Nothing is written before the input's end.
///
/// The errors: `ReadFailed` where a read failed, and `WriteFailed` where a write failed, neither of which is tried
/// again; `Memory` where memory runs out, and then nothing is written.
pub fn explain_stream<R: Read, W: Write>(
    alloc: Global,
    reader: &mut Counted<R>,
    writer: &mut Counted<W>,
    request: Request,
) -> Result<Explained, StreamFault>
    // What is written is the explanation of the reader's bytes, and the answer is the audit's.
    ensures ok { IfOk result (λ explained. IfSome (R.remaining (inner reader.old)) (λ bytes.
        WritesExplained request bytes explained.answer (W.contents (inner writer.old)) (W.contents (inner writer.new)))) }

    // Where the answer is accepted, the bytes decode to one history, and it is causally convergent.
    ensures accepted { IfOk result (λ explained. explained.answer ≡ Answer.Accepted → IfSome (R.remaining (inner reader.old)) EncodesConvergent) }

    // What is drawn is the picture of that fault, where it is to be drawn.
    ensures drawn { request.is_drawn ≡ true → IfOk result (λ explained. IfSome (R.remaining (inner reader.old)) (λ bytes. PictureSays request.faults bytes explained.picture)) }
    ensures none { request.is_drawn ≡ false → IfOk result (λ explained. explained.picture ≡ None) }

    // There are no other errors than these. Where a write failed, a prefix of the text is written; on any other error
    // nothing is.
    ensures faults { IfErr result (λ e. (e ≡ StreamFault.Memory) ⊎ (e ≡ StreamFault.ReadFailed) ⊎ (e ≡ StreamFault.WriteFailed)) }
    ensures nothing { (IsErrOf result StreamFault.ReadFailed ⊎ IsErrOf result StreamFault.Memory)
        → Keeps (W.contents (inner writer.old)) (W.contents (inner writer.new)) }
    ensures write_failed { IsErrOf result StreamFault.WriteFailed → IfSome (R.remaining (inner reader.old)) (λ bytes.
        WritesPrefixExplained request bytes (W.contents (inner writer.old)) (W.contents (inner writer.new))) }

    // A device's fault is reported exactly where it was met, the reader's and the writer's.
    ensures reads { ReportsFailure (IsErrOf result StreamFault.ReadFailed) (failures reader.old) (failures reader.new) }
    ensures writes { ReportsFailure (IsErrOf result StreamFault.WriteFailed) (failures writer.old) (failures writer.new) }
{
    let ExplainedText { explained, text } = answered(alloc, read_trace(alloc, reader), request)?;
    match write_text(writer, &text) {
        Ok(()) => Ok(explained),
        Err(_) => Err(StreamFault::WriteFailed),
    }
}
