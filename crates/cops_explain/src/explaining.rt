ghost use Rattle.std.specs.Prelude.{◌≡◌, ◌++◌, length, take, string_bytes, IfOk, OnOk};
ghost use Rattle.cops_types.specs.Counts.{count_of, put_count};
ghost use Rattle.cops_outcomes.specs.Words.{outcome_text};
ghost use Rattle.cops_audit.specs.Verdicts.{IsVerdict};
ghost use Rattle.cops_audit.specs.Faults.{faults_of};
ghost use Rattle.cops_explain.specs.Explained.{AddsAsked, AddsParagraphs, IsExplained, counted, first_line, later_text, more_text};
ghost use Rattle.cops_explain.specs.Refused.{HasItsFaults, HasItsPuts, history_of};
ghost use Rattle.cops_explain.specs.Naming.{named_of, outcomes_of};

use crate::contents::Written;
use crate::limits::FIRST_FAULTS;
use crate::naming::{NamedHistory, Naming};
use crate::paragraphs::push_paragraph;
use crate::refused::Refused;
use cops_audit::{Faults, Verdict, puts_by_version};
use cops_report::report;
use cops_types::{Memory, Selection};
use std::alloc::{AllocError, Global};
use std::fmt::Write;

/// Adds the paragraphs of the first `count` faults, or of all where there are fewer.
fn push_paragraphs(out: &mut String, refused: Refused<'_>, count: usize) -> Result<(), Memory>
    requires puts { HasItsPuts refused }
    requires faults { HasItsFaults refused }
    ensures { OnOk result
        (AddsParagraphs (history_of refused.entry) 1 (take count (faults_of refused.entry.faults.now)) (string_bytes out.old) (string_bytes out.new)) }
{
    for place in 0..count {
        if let Some(fault) = refused.faults.get(place) {
            push_paragraph(out, refused, place + 1, fault)?;
        }
    }
    Ok(())
}

/// Adds how many faults are left out, if any are.
fn push_more(out: &mut String, more: usize) -> Written
    ensures { OnOk result (string_bytes out.new ≡ string_bytes out.old ++ more_text more) }
{
    if more == 0 {
        return Ok(());
    }
    write!(
        out,
        "\nand {more} more: --all explains every fault, --fault N the fault of that number\n"
    )
}

/// Adds the paragraph of the fault with this number, or that there is none.
fn push_one(out: &mut String, refused: Refused<'_>, number: u32) -> Result<(), Memory>
    requires puts { HasItsPuts refused }
    requires faults { HasItsFaults refused }
    ensures { OnOk result
        (AddsAsked (history_of refused.entry) (faults_of refused.entry.faults.now) (Selection.One number) (string_bytes out.old) (string_bytes out.new)) }
{
    match refused.faults.of_number(number) {
        Some(fault) => push_paragraph(out, refused, number as usize, fault)?,
        None => write!(out, "\nthere is no fault {number}\n")?,
    }
    Ok(())
}

/// Adds the explanation of the faults that are asked for.
fn push_asked(out: &mut String, refused: Refused<'_>, asked: Selection) -> Result<(), Memory>
    requires puts { HasItsPuts refused }
    requires faults { HasItsFaults refused }
    ensures { OnOk result
        (AddsAsked (history_of refused.entry) (faults_of refused.entry.faults.now) asked (string_bytes out.old) (string_bytes out.new)) }
{
    let count = refused.faults.len();
    match asked {
        Selection::First => {
            push_paragraphs(out, refused, FIRST_FAULTS)?;
            push_more(out, count.saturating_sub(FIRST_FAULTS))?;
            Ok(())
        }
        Selection::All => push_paragraphs(out, refused, count),
        Selection::One(number) => push_one(out, refused, number),
    }
}

/// Adds a count with its noun, after other words: the noun has an `s` unless the count is one.
fn push_counted(out: &mut String, before: &str, count: usize, word: &str) -> Written
    ensures { OnOk result (string_bytes out.new ≡ string_bytes out.old ++ counted before.now count word.now) }
{
    if count == 1 {
        write!(out, "{before}1 {word}")
    } else {
        write!(out, "{before}{count} {word}s")
    }
}

/// The first line of a refusal: how many operations, puts and faults there are.
fn first_line(
    alloc: Global,
    operations: usize,
    puts: usize,
    faults: usize,
) -> Result<String, AllocError>
    ensures { IfOk result (λ line. string_bytes line ≡ first_line operations puts faults) }
{
    let mut line = String::new(alloc);
    push_counted(&mut line, "refused: ", operations, "operation")?;
    push_counted(&mut line, ", ", puts, "put")?;
    push_counted(&mut line, ", ", faults, "fault")?;
    line.push_str("\n")?;
    Ok(line)
}

/// The first line of a refusal, and the line of the puts of unknown outcome, if there are any.
fn opening(refused: Refused<'_>) -> Result<String, AllocError>
    ensures { IfOk result (λ text. let h = history_of refused.entry in
        string_bytes text ≡ first_line (count_of h.sessions) (put_count h.sessions) (length (faults_of refused.entry.faults.now))
        ++ outcome_text (outcomes_of h.naming)) }
{
    let history = refused.named.history;
    let outcomes = refused.named.naming.outcomes();
    let mut text = first_line(
        refused.alloc,
        history.len(),
        history.puts(),
        refused.faults.len(),
    )?;
    text.push_str(outcomes.text(refused.alloc)?.as_str())?;
    Ok(text)
}

/// The classes that were not looked for, in a line after an empty one.
fn later(faults: &Faults) -> &'static str
    ensures { result.now ≡ later_text faults.now }
{
    match faults {
        Faults::Doubled(_) => "\nnot looked for while duplicate versions remain: \
             reads without a source, puts out of order, stale reads\n",
        Faults::NoSource(_) =>
            "\nnot looked for while reads without a source remain: puts out of order, stale reads\n",
        Faults::NotAbove(_) => "\nnot looked for while puts out of order remain: stale reads\n",
        Faults::Stale(_) => "",
    }
}

/// The first line of a refusal, the line of the puts of unknown outcome, if there are any, the explanation of the
/// faults that are asked for, and which classes were not looked for.
fn refusal(
    alloc: Global,
    named: NamedHistory<'_>,
    faults: &Faults,
    asked: Selection,
) -> Result<Vec<u8>, Memory>
    requires { IsVerdict named.history.now.sessions (Verdict.Refused faults.now) }
    ensures { IfOk result (λ text. IsExplained (named_of named.entry) (Verdict.Refused faults.now) asked text.items) }
{
    let puts = puts_by_version(alloc, named.history)?;
    let refused = Refused {
        alloc,
        named,
        puts: &puts,
        faults,
    };
    let mut text = opening(refused)?;
    push_asked(&mut text, refused, asked)?;
    text.push_str(later(faults))?;
    Ok(text.into_bytes())
}

/// A text with the line of the puts of unknown outcome after it, if there are any.
fn with_outcomes(alloc: Global, mut text: Vec<u8>, naming: &Naming) -> Result<Vec<u8>, AllocError>
    ensures { IfOk result (λ with. with.items ≡ text.items ++ outcome_text (outcomes_of naming.now)) }
{
    let outcomes = naming.outcomes().text(alloc)?;
    text.extend_from_slice(outcomes.as_bytes())?;
    Ok(text)
}

/// The text that explains a verdict on a history, whose operations are called as its naming says. Each line ends with a
/// line feed. For an accepted history it is the report's line, whatever is asked for. For a refused one it is a line
/// with the numbers of operations, puts and faults, and then, each after an empty line, a paragraph for each fault that
/// is asked for, in order of names. Where lines have puts of unknown outcome, the second line says how many of them
/// took effect, and how many are left out of the history.
///
/// A paragraph has the fault's number, counted from 1, its class and its name; what happened, with keys, values and
/// versions; the operations that show it, which for a stale get are the chain of `chain` from the newer put, and the
/// operation by which its client knew of that put; and in two lines what usually causes it. A deletion is written as
/// `deleted KEY at VERSION`, and a get that found one as `found a deletion of KEY at VERSION`. Keys, values and clients'
/// names are written as they are where they are printable text, and otherwise escaped as `show` does. A value of more
/// than 64 bytes is cut: the whole characters that fit into 64 bytes, then `.. (N bytes)` with its length.
///
/// Where the first 20 faults are asked for and there are more, the text says how many are left out, and where there is
/// no fault with the number that is asked for, it says so. The last line names the classes of faults that were not
/// looked for, if there are any. The only error is `Memory`, where memory runs out.
pub fn explain(
    alloc: Global,
    named: NamedHistory<'_>,
    verdict: &Verdict,
    asked: Selection,
) -> Result<Vec<u8>, Memory>
    requires { IsVerdict named.history.now.sessions verdict.now }
    ensures { IfOk result (λ text. IsExplained (named_of named.entry) verdict.now asked text.items) }
{
    match verdict {
        Verdict::Accepted(_) => {
            let text = report(alloc, named.history, verdict)?;
            Ok(with_outcomes(alloc, text, named.naming)?)
        }
        Verdict::Refused(faults) => refusal(alloc, named, faults, asked),
    }
}
