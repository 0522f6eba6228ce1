//! The check of lines.
ghost use Rattle.std.specs.Prelude.{◌≡◌, ◌⊎◌, ◌++◌, [], Some, IfErr, IfOk, IfSome, IsErrOf, None, OnOk, false, map, true};
ghost use Rattle.std.specs.Io.KnownBytes.{Keeps};
ghost use Rattle.cops_types.specs.Counted.{failures, inner};
ghost use Rattle.cops_types.specs.Failures.{ReportsFailure};
ghost use Rattle.cops_import.specs.declared.rules.Rules.{Rules as ARules};
ghost use Rattle.cops_import.specs.Imports.{IsImport};
ghost use Rattle.cops_import.specs.Line.{AreRead};
ghost use Rattle.cops_audit_commands.specs.declared.audit.Answer.TheVariants as answer;
ghost use Rattle.cops_check.specs.Check.{AreRules, CheckSays, CheckSaysJson, DescribesConvergent, DrawingSays, DrawsBy, IsImported, SaysBy, WritesChecked, WritesPrefixChecked, lines_in, naming_in, own_names, wrong_text};

use crate::fault::CheckFault;
use crate::numbers::{line_numbers, op_lines, trace_lines};
use cops_audit_commands::{Answer, Explained, ExplainedText, Request, explanation};
use cops_command::read_all;
use cops_explain::{LineNames, Naming};
use cops_explain_json::faulty_json;
use cops_import::{
    ImportFault, Imported, JsonLineFault, Name, Names, Outcome, Rules, Surveyed, faulty_line,
    import_stream, outcome_counts, survey, survey_outcomes,
};
use cops_trace::{Trace, read_trace};
use cops_types::{Counted, Format, Memory, Selection, write_text};
use std::alloc::{AllocError, Global};
use std::io::{Read, Write};

/// A copy of a name's bytes.
fn copied(alloc: Global, name: &Name) -> Result<Vec<u8>, AllocError>
    ensures { IfOk result (λ copy. copy.items ≡ name.now) }
{
    let mut copy = Vec::new(alloc);
    copy.extend_from_slice(name.as_bytes())?;
    Ok(copy)
}

/// The names of clients, each at its client's number.
fn names_in(alloc: Global, names: &Names) -> Result<Vec<Vec<u8>>, AllocError>
    ensures { IfOk result (λ copies. map (λ name. name.items) copies.items ≡ names.now) }
{
    let mut copies = Vec::new(alloc);
    for client in 0..names.len() {
        copies.push(copied(alloc, names.name(client))?)?;
    }
    Ok(copies)
}

/// Adds the names of the clients of puts of unknown outcome that took effect.
fn add_own(alloc: Global, copies: &mut Vec<Vec<u8>>, unknown: &[Outcome]) -> Result<(), AllocError>
    ensures { OnOk result (map (λ name. name.items) copies.new.items ≡ map (λ name. name.items) copies.old.items ++ own_names unknown.now) }
{
    for outcome in unknown {
        if outcome.version.is_some() {
            copies.push(copied(alloc, &outcome.name)?)?;
        }
    }
    Ok(())
}

/// The names of the clients of a trace: of those with these names, and then of puts of unknown outcome that took effect.
pub(crate) fn names_of(
    alloc: Global,
    names: &Names,
    unknown: &[Outcome],
) -> Result<Vec<Vec<u8>>, AllocError>
    ensures { IfOk result (λ copies. map (λ name. name.items) copies.items ≡ names.now ++ own_names unknown.now) }
{
    let mut copies = names_in(alloc, names)?;
    add_own(alloc, &mut copies, unknown)?;
    Ok(copies)
}

/// For each client of a trace the numbers of the lines of its operations, where these are the puts of unknown outcome.
pub(crate) fn lines_in(
    alloc: Global,
    bytes: &[u8],
    unknown: &[Outcome],
    trace: &Trace,
) -> Result<Vec<Vec<u64>>, AllocError>
    ensures { IfOk result (λ table. map (λ numbers. numbers.items) table.items ≡ lines_in bytes.now unknown.now trace.now) }
{
    let numbers = line_numbers(alloc, bytes)?;
    let numbers = trace_lines(alloc, &numbers, unknown)?;
    op_lines(alloc, trace.clients(), trace.arrivals(), &numbers)
}

/// What the lines of a text call the operations of their trace, whose clients have these names, and in which these puts of
/// unknown outcome took effect or are left out.
fn naming_of(
    alloc: Global,
    bytes: &[u8],
    names: &Names,
    unknown: &[Outcome],
    trace: &Trace,
) -> Result<Naming, AllocError>
    ensures { IfOk result (λ naming. naming ≡ naming_in bytes.now names.now unknown.now trace.now) }
{
    let lines = lines_in(alloc, bytes, unknown, trace)?;
    let copies = names_of(alloc, names, unknown)?;
    let outcomes = outcome_counts(unknown);
    Ok(Naming::Lines(LineNames::new(copies, lines, outcomes)))
}

/// What is said of the lines of a text, if this trace was imported of them.
fn judged(
    alloc: Global,
    bytes: &[u8],
    imported: Imported<Vec<u8>>,
    request: Request,
) -> Result<ExplainedText, CheckFault>
    ensures says { (rules : ARules) → IsImport rules bytes.now (Some []) (Some (inner imported.writer).items) imported.names imported.unknown.items imported.operations
        → IfOk result (λ reported. SaysBy rules request bytes.now reported.explained.answer reported.text.items) }
    ensures drawn { request.is_drawn ≡ true → (rules : ARules) → IsImport rules bytes.now (Some []) (Some (inner imported.writer).items) imported.names imported.unknown.items imported.operations
        → IfOk result (λ reported. DrawsBy rules request.faults bytes.now reported.explained.picture) }
    ensures none { request.is_drawn ≡ false → IfOk result (λ reported. reported.explained.picture ≡ None) }
    ensures faults { IfErr result (λ e. e ≡ CheckFault.Memory) }
{
    let Imported {
        names,
        unknown,
        writer,
        ..
    } = imported;
    let text = writer.into_inner();
    let trace = match read_trace(alloc, &mut Counted::new(text.as_slice())) {
        Ok(trace) => trace,
        // The text of an import is a trace's, which has no fault.
        Err(_) => return Err(CheckFault::Memory),
    };
    drop(text);
    let naming = naming_of(alloc, bytes, &names, &unknown, &trace)?;
    Ok(explanation(alloc, &trace, &naming, request)?)
}

/// What an import has to know of the lines of a text.
fn surveyed(alloc: Global, bytes: &[u8], is_ranked: bool) -> Result<Surveyed, CheckFault>
    ensures read { IfOk result (λ surveyed. AreRead is_ranked surveyed.versions) }
    ensures faults { IfErr result (λ e. (e ≡ CheckFault.Memory) ⊎ (e ≡ CheckFault.Changed)) }
{
    let surveyed = match survey(alloc, is_ranked, &mut Counted::new(bytes)) {
        Ok(surveyed) => surveyed,
        Err(fault) => return Err(CheckFault::of_import(fault)),
    };
    if surveyed.expected.unknown.is_empty() {
        return Ok(surveyed);
    }
    match survey_outcomes(alloc, surveyed, &mut Counted::new(bytes)) {
        Ok(surveyed) => Ok(surveyed),
        Err(fault) => Err(CheckFault::of_import(fault)),
    }
}

/// The import of lines to memory, with their versions by their ranks or as they stand, or the first wrong line.
pub(crate) fn imported(
    alloc: Global,
    bytes: &[u8],
    is_ranked: bool,
) -> Result<Result<Imported<Vec<u8>>, (u64, JsonLineFault)>, CheckFault>
    ensures imported { IfOk result (λ found. (rules : ARules) × AreRules is_ranked rules × IsImported rules bytes.now found) }
    ensures faults { IfErr result (λ e. (e ≡ CheckFault.Memory) ⊎ (e ≡ CheckFault.Changed)) }
{
    let Surveyed { expected, versions } = surveyed(alloc, bytes, is_ranked)?;
    let rules = Rules {
        format: Format::Two,
        versions,
    };
    let trace = Counted::new(Vec::new(alloc));
    match import_stream(alloc, rules, expected, &mut Counted::new(bytes), trace) {
        Ok(imported) => Ok(Ok(imported)),
        Err(unimported) => match unimported.fault {
            ImportFault::Line { number, fault } => Ok(Err((number, fault))),
            fault => Err(CheckFault::of_import(fault)),
        },
    }
}

/// What is said of a wrong line, in words or as JSON.
fn wrong_text(
    alloc: Global,
    number: u64,
    fault: JsonLineFault,
    is_json: bool,
) -> Result<Vec<u8>, AllocError>
    ensures { IfOk result (λ text. text.items ≡ wrong_text is_json number fault) }
{
    if is_json {
        return faulty_json(alloc, fault.words(), Some(number));
    }
    let line = faulty_line(alloc, number, fault)?;
    let mut text = Vec::new(alloc);
    text.extend_from_slice(line.as_bytes())?;
    Ok(text)
}

/// What is said of the lines of a text, with the picture that is asked for.
pub(crate) fn checked(
    alloc: Global,
    bytes: &[u8],
    is_ranked: bool,
    request: Request,
) -> Result<ExplainedText, CheckFault>
    ensures says { IfOk result (λ reported. CheckSays is_ranked request bytes.now reported.explained.answer reported.text.items) }
    ensures drawn { request.is_drawn ≡ true → IfOk result (λ reported. DrawingSays is_ranked request.faults bytes.now reported.explained.picture) }
    ensures none { request.is_drawn ≡ false → IfOk result (λ reported. reported.explained.picture ≡ None) }
    ensures faults { IfErr result (λ e. (e ≡ CheckFault.Memory) ⊎ (e ≡ CheckFault.Changed)) }
{
    match imported(alloc, bytes, is_ranked)? {
        Ok(imported) => judged(alloc, bytes, imported, request),
        Err((number, fault)) => Ok(ExplainedText {
            explained: Explained {
                answer: Answer::Faulty,
                picture: None,
            },
            text: wrong_text(alloc, number, fault, request.is_json)?,
        }),
    }
}

/// Judges JSON Lines in memory, with their versions by their ranks or as they stand, as `check_stream` does, and returns
/// the answer with the JSON object for the first faults.
///
/// Fails if memory runs out. The lines do not change meanwhile; as that is not proved, such a failure would be reported
/// as that of memory.
pub fn check_bytes(
    alloc: Global,
    lines: &[u8],
    is_ranked: bool,
) -> Result<(Answer, Vec<u8>), Memory>
    ensures says { IfOk result (λ reported. CheckSaysJson is_ranked lines.now reported.0 reported.1.items) }
    ensures accepted { IfOk result (λ reported. reported.0 ≡ answer.Accepted → DescribesConvergent is_ranked lines.now) }
{
    let request = Request {
        faults: Selection::First,
        is_drawn: false,
        is_json: true,
    };
    match checked(alloc, lines, is_ranked, request) {
        Ok(ExplainedText { explained, text }) => Ok((explained.answer, text)),
        Err(_) => Err(Memory),
    }
}

/// Reads JSON Lines to their end, with their versions by their ranks or as they stand, judges the trace of format 2 that
/// they describe by one worker, and returns the answer of its audit. It writes the text of `explain`, or of
/// `explain_json`, for the faults that are asked for, with the clients' names and the lines' numbers for the operations,
/// or what is wrong with the first wrong line, and nothing else. Where a picture is asked for, it also returns that of
/// the one fault that is asked for, or of the first, if there is such a fault. Nothing is written before the input's end.
///
/// The errors: `ReadFailed` where a read failed, and `WriteFailed` where a write failed, neither of which is tried
/// again; `Memory` where memory runs out; `Changed` where the lines name other clients, or have other versions, than a
/// first pass over them found. At the last two nothing is written.
pub fn check_stream<R: Read, W: Write>(
    alloc: Global,
    lines: &mut Counted<R>,
    writer: &mut Counted<W>,
    is_ranked: bool,
    request: Request,
) -> Result<Explained, CheckFault>
    // What is written is the explanation of the reader's lines.
    ensures ok { IfOk result (λ explained. IfSome (R.remaining (inner lines.old)) (λ bytes.
        WritesChecked is_ranked request bytes explained.answer (W.contents (inner writer.old)) (W.contents (inner writer.new)))) }

    // Where the answer is accepted, the lines describe one history, and it is causally convergent.
    ensures accepted { IfOk result (λ explained. explained.answer ≡ answer.Accepted → IfSome (R.remaining (inner lines.old)) (DescribesConvergent is_ranked)) }

    // What is drawn is the picture of that fault, where it is to be drawn.
    ensures drawn { request.is_drawn ≡ true → IfOk result (λ explained. IfSome (R.remaining (inner lines.old)) (λ bytes. DrawingSays is_ranked request.faults bytes explained.picture)) }
    ensures none { request.is_drawn ≡ false → IfOk result (λ explained. explained.picture ≡ None) }

    // Where a write failed, a prefix of the text is written; on any other error nothing is.
    ensures nothing { (IsErrOf result CheckFault.WriteFailed) ⊎ (Keeps (W.contents (inner writer.old)) (W.contents (inner writer.new))) ⊎ (IfErr result (λ e. ⊥)) }
    ensures write_failed { IsErrOf result CheckFault.WriteFailed → IfSome (R.remaining (inner lines.old)) (λ bytes.
        WritesPrefixChecked is_ranked request bytes (W.contents (inner writer.old)) (W.contents (inner writer.new))) }

    // A device's fault is reported exactly where it was met, the reader's and the writer's.
    ensures reads { ReportsFailure (IsErrOf result CheckFault.ReadFailed) (failures lines.old) (failures lines.new) }
    ensures writes { ReportsFailure (IsErrOf result CheckFault.WriteFailed) (failures writer.old) (failures writer.new) }
{
    let Some(bytes) = read_all(alloc, lines)? else {
        return Err(CheckFault::ReadFailed);
    };
    let ExplainedText { explained, text } = checked(alloc, &bytes, is_ranked, request)?;
    match write_text(writer, &text) {
        Ok(()) => Ok(explained),
        Err(_) => Err(CheckFault::WriteFailed),
    }
}
