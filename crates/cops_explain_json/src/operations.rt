//! Operations as JSON objects.
ghost use Rattle.std.specs.Prelude.{◌≡◌, codes, map, Option, List, ℕ, IfOk, OnOk, option_copied};
ghost use Rattle.serde_json.specs.Data.{null};
ghost use Rattle.serde_json.specs.View.{view};
ghost use Rattle.cops_types.specs.Histories.{op_at};
ghost use Rattle.cops_explain_json.specs.Objects.{members_in, with_member, with_members};
ghost use Rattle.cops_explain_json.specs.Operations.{act_members, did_members, line_members, name_members, operation_json, operation_members, seen, value_member, version_json};

use crate::object::Object;
use cops_explain::{NamedHistory, Naming};
use cops_types::{History, Key, OpName, OpRef, Value, Version};
use serde_json::Value as Json;
use std::alloc::{AllocError, Global};

/// Adds what a recorder's lines call an operation.
fn add_line(object: &mut Object, naming: &Naming, op: OpName) -> Result<(), AllocError>
    ensures { OnOk result (members_in object.new ≡ with_members (members_in object.old) (line_members naming.now op)) }
{
    match naming {
        Naming::Trace => Ok(()),
        Naming::Lines(names) => {
            object.add_bytes("name", "name_hex", names.name(op.client))?;
            object.add_number("line", names.line(op))
        }
    }
}

/// Adds an operation's client and index, and what a recorder's lines call it.
fn add_name(object: &mut Object, naming: &Naming, op: OpName) -> Result<(), AllocError>
    ensures { OnOk result (members_in object.new ≡ with_members (members_in object.old) (name_members naming.now op)) }
{
    object.add_number("client", u64::from(op.client))?;
    object.add_number("index", u64::from(op.index))?;
    add_line(object, naming, op)
}

/// Adds a value, if there is one.
fn add_value(object: &mut Object, value: Option<&Value>) -> Result<(), AllocError>
    ensures { OnOk result (let member = value_member (option_copied value.entry)
        in members_in object.new ≡ with_member (members_in object.old) member.0 member.1) }
{
    match value {
        Some(value) => object.add_bytes("value", "value_hex", value.as_bytes()),
        None => object.add_null("value"),
    }
}

/// Adds an operation's word, key, value and version.
fn add_act(
    object: &mut Object,
    word: &str,
    key: &Key,
    value: Option<&Value>,
    version: Json,
) -> Result<(), AllocError>
    ensures { OnOk result
        (members_in object.new ≡ with_members (members_in object.old) (act_members word.now key.now (option_copied value.entry) (view version))) }
{
    object.add_text("operation", word)?;
    object.add_bytes("key", "key_hex", key.as_bytes())?;
    add_value(object, value)?;
    object.add("version", version)
}

/// A version.
fn version_json(alloc: Global, version: Version) -> Result<Json, AllocError>
    ensures { IfOk result (λ json. view json ≡ version_json version) }
{
    Ok(Json::String(format!(in alloc; "{version}")?))
}

/// Adds what an operation did.
fn add_did(
    alloc: Global,
    object: &mut Object,
    history: &History,
    op: OpName,
) -> Result<(), AllocError>
    ensures { OnOk result (members_in object.new ≡ with_members (members_in object.old) (did_members (op_at history.now.sessions op))) }
{
    match history.op(op) {
        Some(
            OpRef::Put {
                key,
                value,
                version,
            },
        ) => {
            let word = if value.is_some() { "put" } else { "del" };
            add_act(object, word, key, value, version_json(alloc, *version)?)
        }
        Some(
            OpRef::Got {
                key,
                value,
                version,
            },
        ) => add_act(object, "get", key, value, version_json(alloc, *version)?),
        Some(OpRef::Missed { key }) => add_act(object, "get", key, None, Json::Null),
        None => Ok(()),
    }
}

/// Adds what an operation is called, and what it did.
pub fn add_operation(
    alloc: Global,
    object: &mut Object,
    named: &NamedHistory<'_>,
    op: OpName,
) -> Result<(), AllocError>
    ensures { OnOk result (members_in object.new ≡ with_members (members_in object.old) (operation_members (seen named.now) op)) }
{
    add_name(object, named.naming, op)?;
    add_did(alloc, object, named.history, op)
}

/// An operation.
pub fn operation_json(
    alloc: Global,
    named: &NamedHistory<'_>,
    op: OpName,
) -> Result<Json, AllocError>
    ensures { IfOk result (λ json. view json ≡ operation_json (seen named.now) op) }
{
    let mut object = Object::new(alloc);
    add_operation(alloc, &mut object, named, op)?;
    Ok(object.into_json())
}

/// The objects of operations.
pub fn operations_json(
    alloc: Global,
    named: &NamedHistory<'_>,
    ops: &[OpName],
) -> Result<Vec<Json>, AllocError>
    ensures { IfOk result (λ list. map view list.items ≡ map (operation_json (seen named.now)) ops.now) }
{
    let mut list = Vec::with_capacity(alloc, ops.len())?;
    for op in ops {
        let json = operation_json(alloc, named, *op)?;
        list.push(json)?;
    }
    Ok(list)
}
