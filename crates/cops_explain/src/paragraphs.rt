//! The paragraphs of faults, by their classes.
ghost use Rattle.std.specs.Prelude.{◌≡◌, ◌++◌, OnOk, string_bytes};
ghost use Rattle.cops_types.specs.Histories.{op_at};
ghost use Rattle.cops_types.specs.Texts.{◌⧺◌};
ghost use Rattle.cops_audit.specs.Faults.{IsFault};
ghost use Rattle.cops_explain.specs.Refused.{HasItsPuts, history_of};
ghost use Rattle.cops_explain.specs.Naming.{named_of};
ghost use Rattle.cops_explain.specs.Paragraphs.{AddsParagraph, AddsShown, called, cause_text, holders_text, known_text, more_others, others_text, returned_text, right_text, said_text, stale_end, stale_head, stale_return, stale_text, title};

use crate::causes;
use crate::contents::{Form, Written};
use crate::limits::MOST_OTHERS;
use crate::names::{push_fault, push_name};
use crate::naming::NamedHistory;
use crate::operation::{push_act, push_line, push_lines, push_reported};
use crate::refused::Refused;
use crate::steps::{known_by, push_chain};
use cops_audit::{Fault, NotAbove, Stale};
use cops_types::{History, Memory, OpName, OpRef};
use std::fmt::Write;

/// Writes what an operation is called, between words.
fn push_called(
    out: &mut String,
    named: NamedHistory<'_>,
    before: &str,
    name: OpName,
    after: &str,
) -> Written
    ensures { OnOk result (string_bytes out.new ≡ string_bytes out.old ++ (before.now ⧺ called (named_of named.entry) name ⧺ after.now)) }
{
    out.push_str(before)?;
    push_name(out, Form::Readable, named.naming, name)?;
    out.push_str(after)
}

/// Writes an empty line, and then the number, the class and the name of a fault.
fn push_title(out: &mut String, named: NamedHistory<'_>, number: usize, fault: Fault) -> Written
    ensures { OnOk result (string_bytes out.new ≡ string_bytes out.old ++ title (named_of named.entry) number fault) }
{
    write!(out, "\nfault {number}: ")?;
    push_fault(out, Form::Readable, named.naming, fault)?;
    out.push_str("\n")
}

/// Writes an operation, and what is said of it.
fn push_said(out: &mut String, named: NamedHistory<'_>, name: OpName, words: &str) -> Written
    ensures { OnOk result (string_bytes out.new ≡ string_bytes out.old ++ said_text (named_of named.entry) name words.now) }
{
    push_line(out, named, name)?;
    out.push_str(words)
}

/// Writes how many more puts have a version, if any do.
fn push_more_others(out: &mut String, more: usize) -> Written
    ensures { OnOk result (string_bytes out.new ≡ string_bytes out.old ++ more_others more) }
{
    if more == 0 {
        return Ok(());
    }
    write!(out, "and {more} more of that version\n")
}

/// Writes the first puts with a version, and how many more there are.
fn push_others(out: &mut String, named: NamedHistory<'_>, others: &[OpName]) -> Written
    ensures { OnOk result (string_bytes out.new ≡ string_bytes out.old ++ others_text (named_of named.entry) others.now) }
{
    if others.len() <= MOST_OTHERS {
        return push_lines(out, named, others);
    }
    push_lines(out, named, &others[..MOST_OTHERS])?;
    push_more_others(out, others.len() - MOST_OTHERS)
}

/// Writes the puts with the version that a get without a source returned.
fn push_holders(out: &mut String, named: NamedHistory<'_>, holders: &[OpName]) -> Written
    ensures { OnOk result (string_bytes out.new ≡ string_bytes out.old ++ holders_text (named_of named.entry) holders.now) }
{
    if holders.is_empty() {
        return out.push_str("no put has that version\n");
    }
    out.push_str("of that version there is:\n")?;
    push_others(out, named, holders)
}

/// Writes a stale get, and the newer put that it had to know of.
fn push_stale_head(out: &mut String, named: NamedHistory<'_>, fault: Stale) -> Written
    ensures { OnOk result (string_bytes out.new ≡ string_bytes out.old ++ stale_head (named_of named.entry) fault) }
{
    push_act(out, Form::Readable, named, fault.op)?;
    let before = ", though it had to know of the newer put ";
    push_called(out, named, before, fault.newer, "\n")
}

/// What a stale get returned.
fn stale_return(history: &History, name: OpName) -> &'static str
    ensures { result.now ≡ stale_return (op_at history.now.sessions name) }
{
    match history.op(name) {
        Some(OpRef::Missed { .. }) => "nothing",
        Some(OpRef::Got { value: None, .. }) => "an older deletion",
        Some(OpRef::Got { value: Some(_), .. }) => "an older put",
        Some(OpRef::Put { .. }) => "an older put",
        None => "an older put",
    }
}

/// Writes how the client of a stale get knew of the newer put.
fn push_known(out: &mut String, named: NamedHistory<'_>, fault: Stale, by: OpName) -> Written
    ensures { OnOk result (string_bytes out.new ≡ string_bytes out.old ++ known_text (named_of named.entry) fault by) }
{
    if fault.newer.client == fault.op.client {
        push_called(
            out,
            named,
            "the newer put ",
            fault.newer,
            " is its client's own\n",
        )
    } else {
        push_called(out, named, "its client knew of the newer put by ", by, "\n")
    }
}

/// Writes the operation to look at, and what it returned.
fn push_returned(out: &mut String, named: NamedHistory<'_>, name: OpName) -> Written
    ensures { OnOk result (string_bytes out.new ≡ string_bytes out.old ++ returned_text (named_of named.entry) name) }
{
    let returned = stale_return(named.history, name);
    push_called(out, named, "look at: ", name, ", which returned ")?;
    write!(out, "{returned}; ")
}

/// Writes what a stale get should have returned.
fn push_right(out: &mut String, named: NamedHistory<'_>, newer: OpName) -> Written
    ensures { OnOk result (string_bytes out.new ≡ string_bytes out.old ++ right_text (named_of named.entry) newer) }
{
    out.push_str("should have returned: ")?;
    push_reported(out, Form::Readable, named, newer)?;
    out.push_str(", or a newer put\n")
}

/// Writes what a stale get should have returned, and where to look: the get, what it returned, and how its client knew
/// of the newer put.
fn push_stale_end(out: &mut String, named: NamedHistory<'_>, fault: Stale, by: OpName) -> Written
    ensures { OnOk result (string_bytes out.new ≡ string_bytes out.old ++ stale_end (named_of named.entry) fault by) }
{
    push_right(out, named, fault.newer)?;
    push_returned(out, named, fault.op)?;
    push_known(out, named, fault, by)
}

/// Writes a stale get with its chain.
fn push_stale(out: &mut String, named: NamedHistory<'_>, fault: Stale, chain: &[OpName]) -> Written
    ensures { OnOk result (string_bytes out.new ≡ string_bytes out.old ++ stale_text (named_of named.entry) fault chain.now) }
{
    push_stale_head(out, named, fault)?;
    push_chain(out, named, chain)?;
    push_stale_end(out, named, fault, known_by(fault.newer, chain))
}

/// Adds what shows a stale get.
fn stale(out: &mut String, refused: Refused<'_>, fault: Stale) -> Result<(), Memory>
    requires puts { HasItsPuts refused }
    requires stale { IsFault (history_of refused).sessions (Fault.Stale fault) }
    ensures { OnOk result
        (AddsShown (history_of refused.entry) (Fault.Stale fault) (string_bytes out.old) (string_bytes out.new)) }
{
    let chain = refused.chain(fault)?;
    push_stale(out, refused.named, fault, &chain)?;
    Ok(())
}

/// Adds what shows a fault, by its class.
fn push_shown(out: &mut String, refused: Refused<'_>, fault: Fault) -> Result<(), Memory>
    requires puts { HasItsPuts refused }
    requires fault { IsFault (history_of refused).sessions fault }
    ensures { OnOk result (AddsShown (history_of refused.entry) fault (string_bytes out.old) (string_bytes out.new)) }
{
    let named = refused.named;
    match fault {
        Fault::Doubled(name) => {
            let others = refused.others(name)?;
            let words = "no other put may have that version, and these do:\n";
            push_said(out, named, name, words)?;
            push_others(out, named, &others)?;
        }
        Fault::NoSource(name) => {
            let holders = refused.others(name)?;
            push_said(out, named, name, "no put has that key, value and version\n")?;
            push_holders(out, named, &holders)?;
        }
        Fault::NotAbove(fault) => {
            let words = "its version is not above that of what its client did before:\n";
            push_said(out, named, fault.op, words)?;
            push_line(out, named, fault.earlier)?;
        }
        Fault::Stale(fault) => stale(out, refused, fault)?,
    }
    Ok(())
}

/// What usually causes the faults of a class.
fn cause(fault: Fault) -> &'static str
    ensures { result.now ≡ cause_text fault }
{
    match fault {
        Fault::Doubled(_) => causes::DOUBLED,
        Fault::NoSource(_) => causes::NO_SOURCE,
        Fault::NotAbove(_) => causes::NOT_ABOVE,
        Fault::Stale(_) => causes::STALE,
    }
}

/// Adds the paragraph of a fault, with its number.
pub fn push_paragraph(
    out: &mut String,
    refused: Refused<'_>,
    number: usize,
    fault: Fault,
) -> Result<(), Memory>
    requires puts { HasItsPuts refused }
    requires fault { IsFault (history_of refused).sessions fault }
    ensures { OnOk result
        (AddsParagraph (history_of refused.entry) number fault (string_bytes out.old) (string_bytes out.new)) }
{
    push_title(out, refused.named, number, fault)?;
    push_shown(out, refused, fault)?;
    out.push_str(cause(fault))?;
    Ok(())
}
