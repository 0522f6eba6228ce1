//! What an operation did, in words.
ghost use Rattle.std.specs.Prelude.{◌≡◌, ◌++◌, OnOk, option_copied, string_bytes};
ghost use Rattle.cops_types.specs.Histories.{op_at};
ghost use Rattle.cops_types.specs.OpRefs.{seen};
ghost use Rattle.cops_explain.specs.Naming.{named_of};
ghost use Rattle.cops_explain.specs.Operations.{act_text, object_text, operation_text, operation_word, pair_text, reported_line, reported_lines, reported_text};

use crate::contents::{Form, Written, push_content, push_value};
use crate::names::{push_client, push_opening};
use crate::naming::NamedHistory;
use cops_types::{History, Key, OpName, OpRef, Value, Version};
use std::fmt::Write;

/// Writes a key, its value if it has one, and the version.
fn push_pair(
    out: &mut String,
    form: Form,
    key: &Key,
    value: Option<&Value>,
    version: Version,
) -> Written
    ensures { OnOk result (string_bytes out.new
        ≡ string_bytes out.old ++ pair_text form key.now (option_copied value.entry) version) }
{
    push_content(out, form, key.as_bytes())?;
    if let Some(value) = value {
        out.push_str("=")?;
        push_value(out, form, value.as_bytes())?;
    }
    write!(out, " at {version}")
}

/// What an operation did, in the words before its key.
pub fn word_of(op: OpRef<'_>) -> &'static str
    ensures { result.now ≡ operation_word (seen op.entry) }
{
    match op {
        OpRef::Put { value: Some(_), .. } => "put ",
        OpRef::Put { value: None, .. } => "deleted ",
        OpRef::Got { value: Some(_), .. } => "got ",
        OpRef::Got { value: None, .. } => "found a deletion of ",
        OpRef::Missed { .. } => "got nothing at ",
    }
}

/// Writes the key of an operation, with its value and version, if it has them.
fn push_object(out: &mut String, form: Form, op: OpRef<'_>) -> Written
    ensures { OnOk result (string_bytes out.new ≡ string_bytes out.old ++ object_text form (seen op.entry)) }
{
    match op {
        OpRef::Put {
            key,
            value,
            version,
        } => push_pair(out, form, key, value, *version),
        OpRef::Got {
            key,
            value,
            version,
        } => push_pair(out, form, key, value, *version),
        OpRef::Missed { key } => push_content(out, form, key.as_bytes()),
    }
}

/// Writes what an operation did: a put or a deletion with its version, or a get with what it returned, or that it found
/// a deletion or nothing.
fn push_operation(out: &mut String, form: Form, history: &History, name: OpName) -> Written
    ensures { OnOk result (string_bytes out.new ≡ string_bytes out.old ++ operation_text form (op_at history.now.sessions name)) }
{
    match history.op(name) {
        Some(op) => {
            out.push_str(word_of(op))?;
            push_object(out, form, op)
        }
        None => Ok(()),
    }
}

/// Writes a client and what it did with an operation.
pub fn push_act(out: &mut String, form: Form, named: NamedHistory<'_>, name: OpName) -> Written
    ensures { OnOk result (string_bytes out.new ≡ string_bytes out.old ++ act_text form (named_of named.entry) name) }
{
    push_client(out, form, named.naming, name.client)?;
    out.push_str(" ")?;
    push_operation(out, form, named.history, name)
}

/// Writes an operation's name, its client, and what it did.
pub fn push_reported(out: &mut String, form: Form, named: NamedHistory<'_>, name: OpName) -> Written
    ensures { OnOk result (string_bytes out.new ≡ string_bytes out.old ++ reported_text form (named_of named.entry) name) }
{
    push_opening(out, form, named.naming, name)?;
    push_operation(out, form, named.history, name)
}

/// Writes the readable text of `push_reported`, in a line of its own.
pub fn push_line(out: &mut String, named: NamedHistory<'_>, name: OpName) -> Written
    ensures { OnOk result (string_bytes out.new ≡ string_bytes out.old ++ reported_line (named_of named.entry) name) }
{
    push_reported(out, Form::Readable, named, name)?;
    out.push_str("\n")
}

/// Writes a line for each operation.
pub fn push_lines(out: &mut String, named: NamedHistory<'_>, names: &[OpName]) -> Written
    ensures { OnOk result (string_bytes out.new ≡ string_bytes out.old ++ reported_lines (named_of named.entry) names.now) }
{
    for name in names {
        push_line(out, named, *name)?;
    }
    Ok(())
}
