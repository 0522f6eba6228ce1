//! A message's fields as they are written.
ghost use Rattle.std.specs.Prelude.{◌≡◌, ◌+◌, ◌*◌, ◌≤◌, ◌++◌, length, vec_len, vec_capacity, IsOk, OnOk, OnErr};
ghost use Rattle.std.specs.List.{flat_map};
ghost use Rattle.cops_wire.specs.Field.{encoded_pair};
ghost use Rattle.cops_wire.specs.Written.{encoded_field, encoded_body, encoded_frame};

use crate::put;
use cops_types::{Deps, Key, Memory, Value, Version};

/// A field of a message.
#[derive(Clone, Copy)]
pub(crate) enum FieldRef<'a> {
    U8(&'a u8),
    U16(&'a u16),
    U32(&'a u32),
    U64(&'a u64),
    Key(&'a Key),
    Value(&'a Value),
    Version(&'a Version),
    Deps(&'a Deps),
}

/// A field by its type in the table.
macro_rules! as_written {
    (u16 $field:ident) => { FieldRef::U16($field) };
    (u32 $field:ident) => { FieldRef::U32($field) };
    (u8_in $field:ident) => { FieldRef::U8($field) };
    (u64_in $field:ident) => { FieldRef::U64($field) };
    (key $field:ident) => { FieldRef::Key($field) };
    (value $field:ident) => { FieldRef::Value($field) };
    (version $field:ident) => { FieldRef::Version($field) };
    (deps $field:ident) => { FieldRef::Deps($field) };
}

pub(crate) use as_written;

/// The number of bytes of a field's encoding: at most 74,754, for a count and 1,024 pairs of 73 bytes.
#[tactic(auto, unfolding(crate::specs::Field::encoded_number))]
fn field_len(field: &FieldRef<'_>) -> usize
    ensures len { result ≡ length (encoded_field field.now) }
    ensures most { result ≤ 74754 }
{
    match field {
        FieldRef::U8(_) => 1,
        FieldRef::U16(_) => 2,
        FieldRef::U32(_) => 4,
        FieldRef::U64(_) => 8,
        FieldRef::Key(key) => 1 + key.as_bytes().len(),
        FieldRef::Value(value) => 2 + value.as_bytes().len(),
        FieldRef::Version(_) => 8,
        FieldRef::Deps(deps) => deps_len(deps),
    }
}

#[tactic(auto, unfolding(crate::specs::Field::encoded_number))]
fn deps_len(deps: &Deps) -> usize
    ensures len { result ≡ 2 + length (flat_map encoded_pair deps.now) }
    ensures most { result ≤ 74754 }
{
    let mut len = 2;
    for pair in deps.as_slice() {
        len += 9 + pair.key.as_bytes().len();
    }
    len
}

/// The number of bytes of a body.
pub(crate) fn len(kind: u8, fields: &[FieldRef<'_>]) -> usize
    requires { length fields.now ≤ 8 }
    ensures len { result ≡ length (encoded_body kind fields.now) }
    ensures most { result ≤ 1 + 8 * 74754 }
{
    let _kind = kind;
    let mut len = 1;
    for field in fields {
        len += field_len(field);
    }
    len
}

#[tactic(auto, unfolding(crate::specs::Field::encoded_number))]
fn put_field(out: &mut Vec<u8>, field: &FieldRef<'_>)
    requires { vec_len out.old + length (encoded_field field.now) ≤ vec_capacity out.old }
    ensures items { out.new.items ≡ out.old.items ++ encoded_field field.now }
    ensures len { vec_len out.new ≡ vec_len out.old + length (encoded_field field.now) }
    ensures room { vec_capacity out.old ≤ vec_capacity out.new }
{
    match field {
        FieldRef::U8(n) => put::bytes(out, &n.to_be_bytes()),
        FieldRef::U16(n) => put::bytes(out, &n.to_be_bytes()),
        FieldRef::U32(n) => put::bytes(out, &n.to_be_bytes()),
        FieldRef::U64(n) => put::bytes(out, &n.to_be_bytes()),
        FieldRef::Key(k) => put::key(out, k),
        FieldRef::Value(v) => put::value(out, v),
        FieldRef::Version(v) => put::version(out, v),
        FieldRef::Deps(d) => put::deps(out, d),
    }
}

/// Appends a frame, or where memory runs out nothing. It takes none where there is room for the frame.
#[tactic(auto, unfolding(crate::specs::Field::encoded_number))]
pub(crate) fn append(out: &mut Vec<u8>, kind: u8, fields: &[FieldRef<'_>]) -> Result<(), Memory>
    requires { length fields.now ≤ 8 }
    ensures ok { OnOk result (out.new.items ≡ out.old.items ++ encoded_frame kind fields.now) }
    ensures err { OnErr result (out.new.items ≡ out.old.items) }
    ensures succeeds { vec_len out.old + length (encoded_frame kind fields.now) ≤ vec_capacity out.old → IsOk result }
    ensures capacity { vec_capacity out.old ≤ vec_capacity out.new }
{
    let len = len(kind, fields);
    out.reserve(4 + len)?;
    put::bytes(out, &(len as u32).to_be_bytes());
    put::bytes(out, &[kind]);
    for field in fields {
        put_field(out, field);
    }
    Ok(())
}
