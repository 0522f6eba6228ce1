//! The chain of a stale get, step by step.
ghost use Rattle.std.specs.Prelude.{◌≡◌, ◌==◌, ◌++◌, if◌then◌else◌, OnOk, string_bytes};
ghost use Rattle.cops_explain.specs.Naming.{named_of};
ghost use Rattle.cops_explain.specs.Steps.{chain_text, known_by, step_line, step_lines};

use crate::contents::{Form, Written};
use crate::naming::NamedHistory;
use crate::operation::{push_line, push_reported};
use cops_types::OpName;

/// Writes the line of an operation to which a step leads, with the kind of the step.
fn push_step(out: &mut String, named: NamedHistory<'_>, from: OpName, to: OpName) -> Written
    ensures { OnOk result (string_bytes out.new ≡ string_bytes out.old ++ step_line (named_of named.entry) from to) }
{
    push_reported(out, Form::Readable, named, to)?;
    if from.client == to.client {
        out.push_str(": the same client's later operation\n")
    } else {
        out.push_str(": returned that put\n")
    }
}

/// Writes the lines of the operations to which the steps lead, one after the other.
fn push_steps(out: &mut String, named: NamedHistory<'_>, from: OpName, names: &[OpName]) -> Written
    ensures { OnOk result (string_bytes out.new
        ≡ string_bytes out.old ++ step_lines (named_of named.entry) from names.now) }
{
    let mut from = from;
    for name in names {
        push_step(out, named, from, *name)?;
        from = *name;
    }
    Ok(())
}

/// Writes the lines of a chain.
pub fn push_chain(out: &mut String, named: NamedHistory<'_>, chain: &[OpName]) -> Written
    ensures { OnOk result (string_bytes out.new ≡ string_bytes out.old ++ chain_text (named_of named.entry) chain.now) }
{
    match chain {
        [first, rest @ ..] => {
            push_line(out, named, *first)?;
            push_steps(out, named, *first, rest)
        }
        [] => Ok(()),
    }
}

/// The operation by which the client of a chain's last operation came to know of its first one.
pub fn known_by(first: OpName, chain: &[OpName]) -> OpName
    ensures { result ≡ known_by first chain.now }
{
    let mut at = first;
    for name in chain {
        at = entry(at, *name);
    }
    at
}

/// The first of two operations if both are of one client, otherwise the second.
fn entry(at: OpName, next: OpName) -> OpName
    ensures { result ≡ (if at.client == next.client then at else next) }
{
    if at.client == next.client { at } else { next }
}
