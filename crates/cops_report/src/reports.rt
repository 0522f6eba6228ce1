ghost use Rattle.std.specs.Prelude.{◌≡◌, IfOk, Contains, length, string_bytes};
ghost use Rattle.std.specs.List.{flat_map};
ghost use Rattle.cops_types.specs.declared.op.OpName.{OpName};
ghost use Rattle.cops_types.specs.Faults.{IsStale};
ghost use Rattle.cops_types.specs.Counts.{count_of, put_count};
ghost use Rattle.cops_types.specs.Histories.{Sessions};
ghost use Rattle.cops_audit.specs.Judged.{IsJudged};
ghost use Rattle.cops_audit.specs.Tables.{IsPutTable};
ghost use Rattle.cops_audit.specs.Verdicts.{IsVerdict};
ghost use Rattle.cops_audit.specs.declared.verdict.NotAbove.{NotAbove};
ghost use Rattle.cops_audit.specs.declared.verdict.Stale.{Stale};
ghost use Rattle.cops_audit.specs.declared.verdict.Verdict.{Verdict as AVerdict};
ghost use Rattle.cops_report.specs.Puts.{FindsStale};
ghost use Rattle.cops_report.specs.Reported.{IsReportOf};
ghost use Rattle.cops_report.specs.Reports.{HasSomeVersion, IsRefusal, IsReport, IsStaleRefusal, accepted_line, named_line, not_above_line, refusal, refused_line};

use crate::chains::chain_by;
use crate::lines::{stale, version_at};
use cops_audit::{Faults, Judged, NotAbove, Stale, Verdict, judge_in_order, puts_by_version};
use cops_types::{History, Memory, OpName, VersionedPut};
use std::alloc::{AllocError, Global};
use std::fmt::Write;

/// The first line of a refusal with this number of faults: `refused: N operations, M puts, F faults`.
fn refused(alloc: Global, history: &History, faults: usize) -> Result<String, AllocError>
    ensures { IfOk result (λ text. string_bytes text
        ≡ refused_line (count_of history.now.sessions) (put_count history.now.sessions) faults) }
{
    let operations = history.len();
    let puts = history.puts();
    format!(in alloc; "refused: {operations} operations, {puts} puts, {faults} faults\n")
}

/// The text of an acceptance.
fn accepted(alloc: Global, history: &History) -> Result<String, AllocError>
    ensures { IfOk result (λ text. string_bytes text
        ≡ accepted_line (count_of history.now.sessions) (put_count history.now.sessions)) }
{
    let operations = history.len();
    let puts = history.puts();
    format!(in alloc; "accepted: {operations} operations, {puts} puts\n")
}

/// The text of a refusal with a line for each name, with its version.
fn refused_names(
    alloc: Global,
    history: &History,
    word: &str,
    names: &[OpName],
) -> Result<String, AllocError>
    requires { (n : OpName) → Contains names.now n → HasSomeVersion history.now.sessions n }
    ensures { IfOk result (λ text. string_bytes text ≡ refusal history.now.sessions (length names.now)
        (flat_map (named_line word.now history.now.sessions) names.now)) }
{
    let mut text = refused(alloc, history, names.len())?;
    for name in names {
        let version = version_at(history, *name);
        writeln!(text, "{word} {name} at {version}")?;
    }
    Ok(text)
}

/// The text of a refusal with a line for each put that is not above an earlier operation of its session.
fn refused_not_above(
    alloc: Global,
    history: &History,
    faults: &[NotAbove],
) -> Result<String, AllocError>
    requires op { (f : NotAbove) → Contains faults.now f → HasSomeVersion history.now.sessions f.op }
    requires earlier { (f : NotAbove) → Contains faults.now f → HasSomeVersion history.now.sessions f.earlier }
    ensures { IfOk result (λ text. string_bytes text ≡ refusal history.now.sessions (length faults.now)
        (flat_map (not_above_line history.now.sessions) faults.now)) }
{
    let mut text = refused(alloc, history, faults.len())?;
    for fault in faults {
        let op = fault.op;
        let earlier = fault.earlier;
        let own = version_at(history, op);
        let other = version_at(history, earlier);
        writeln!(
            text,
            "not above {op} at {own}, earlier {earlier} at {other}"
        )?;
    }
    Ok(text)
}

/// The text of a refusal with a line for each stale get. `puts` are the history's, in order of versions.
fn refused_stale(
    alloc: Global,
    history: &History,
    puts: &[VersionedPut],
    faults: &[Stale],
) -> Result<String, Memory>
    requires puts { IsPutTable history.now.sessions puts.now }
    requires faults { (f : Stale) → Contains faults.now f → IsStale history.now.sessions f.op f.newer }
    ensures { IfOk result (λ text. IsStaleRefusal history.now.sessions faults.now (string_bytes text)) }
{
    let mut text = refused(alloc, history, faults.len())?;
    for fault in faults {
        let found = chain_by(alloc, history, puts, fault.newer, fault.op)?;
        let Some(names) = found else { unreachable!() };
        stale(&mut text, history, *fault, &names)?;
    }
    Ok(text)
}

/// The text of a refusal, with the puts as in `report_by`.
fn refusal(
    alloc: Global,
    history: &History,
    puts: &[VersionedPut],
    faults: &Faults,
) -> Result<String, Memory>
    requires verdict { IsVerdict history.now.sessions (Verdict.Refused faults.now) }
    requires puts { FindsStale (Verdict.Refused faults.now) → IsPutTable history.now.sessions puts.now }
    ensures { IfOk result (λ text. IsRefusal history.now.sessions faults.now (string_bytes text)) }
{
    match faults {
        Faults::Doubled(names) => Ok(refused_names(alloc, history, "doubled", names)?),
        Faults::NoSource(names) => Ok(refused_names(alloc, history, "no source", names)?),
        Faults::NotAbove(faults) => Ok(refused_not_above(alloc, history, faults)?),
        Faults::Stale(faults) => refused_stale(alloc, history, puts, faults),
    }
}

/// The puts in order of versions where the verdict is that gets are stale, for whose chains a report needs them.
fn puts_for_chains(
    alloc: Global,
    history: &History,
    verdict: &Verdict,
) -> Result<Vec<VersionedPut>, AllocError>
    ensures { IfOk result (λ puts. FindsStale verdict.now → IsPutTable history.now.sessions puts.items) }
{
    match verdict {
        Verdict::Refused(Faults::Stale(_)) => puts_by_version(alloc, history),
        _ => Ok(Vec::new(alloc)),
    }
}

/// The text of a verdict on a history. Each line ends with a line feed. It is `accepted: N operations, M puts`, or
/// `refused: N operations, M puts, F faults` and then, in order of names, a line for each fault: `doubled NAME at
/// VERSION`, `no source NAME at VERSION`, `not above NAME at VERSION, earlier NAME at VERSION`, or `stale NAME returned
/// VERSION, newer NAME at VERSION, chain NAME NAME ..`, which for a get that found nothing says `returned nothing`. A
/// stale get's chain is that of `chain` from the newer put to it. A deletion is counted and named as a put. The only
/// error is `Memory`, where memory runs out.
pub fn report(alloc: Global, history: &History, verdict: &Verdict) -> Result<Vec<u8>, Memory>
    requires { IsVerdict history.now.sessions verdict.now }
    ensures { IfOk result (λ text. IsReport history.now.sessions verdict.now text.items) }
{
    let puts = puts_for_chains(alloc, history, verdict)?;
    report_by(alloc, history, &puts, verdict)
}

/// Like `report`, with the puts of the history given, in order of versions; they are looked at where gets are stale.
pub fn report_by(
    alloc: Global,
    history: &History,
    puts: &[VersionedPut],
    verdict: &Verdict,
) -> Result<Vec<u8>, Memory>
    requires verdict { IsVerdict history.now.sessions verdict.now }
    requires puts { FindsStale verdict.now → IsPutTable history.now.sessions puts.now }
    ensures { IfOk result (λ text. IsReport history.now.sessions verdict.now text.items) }
{
    match verdict {
        Verdict::Accepted(_) => Ok(accepted(alloc, history)?.into_bytes()),
        Verdict::Refused(faults) => Ok(refusal(alloc, history, puts, faults)?.into_bytes()),
    }
}

/// The report of the verdict on what clients saw. The only error is `Memory`, where memory runs out.
pub fn report_of(alloc: Global, history: &History) -> Result<Vec<u8>, Memory>
    ensures { IfOk result (λ text. (verdict : AVerdict) × IsReportOf history.now.sessions verdict text.items) }
{
    let ordered = judge_in_order(alloc, history)?;
    Ok(report_by(alloc, history, &ordered.puts, &ordered.verdict)?)
}

/// The text of the verdict on a history of which only the sessions without their values are kept. It is the text of
/// `report` for each history with these sessions. The only error is `Memory`, where memory runs out.
pub fn report_judged(alloc: Global, judged: &Judged) -> Result<Vec<u8>, Memory>
    ensures { (h : Sessions) → IsJudged h judged.now → IfOk result (λ text. IsReport h judged.now.verdict text.items) }
{
    report_by(alloc, judged.history(), judged.puts(), judged.verdict())
}
