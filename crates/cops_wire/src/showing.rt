//! Showing a message as a line of text.
ghost use Rattle.std.specs.Prelude.{◌≡◌, ◌<◌, ◌++◌, OnOk, OnErr, IfOk, string_bytes, codes};
ghost use Rattle.std.specs.List.{join_by};
ghost use Rattle.cops_wire.specs.Shown.{shown, is_plain, byte_text, bytes_text, pair_text, deps_text};
ghost use Rattle.cops_wire.specs.Lines.{field_text, named_text, fields_text};

use crate::field::{FieldRef, as_written};
use crate::message::Message;
use crate::table::kinds;
use cops_types::{Dep, Deps, Memory};
use std::alloc::{AllocError, Global};

/// A field with its name.
#[derive(Clone, Copy)]
struct Named<'a> {
    name: &'a str,
    field: FieldRef<'a>,
}

/// Appends the line of a message, without a line feed: the kind's name, then for each field a space, the field's name,
/// `=` and its text. Numbers are decimal, versions are `clock.node`, and dependencies are `[key@version,key@version]`.
/// In keys and values the bytes of ASCII letters, digits, `-`, `.` and `_` stand as they are, and any other byte is `%`
/// and two lower case hexadecimal digits (`shown` in `specs/Shown.antt`). Appends nothing if memory runs out.
pub fn show(alloc: Global, message: &Message, out: &mut Vec<u8>) -> Result<(), Memory>
    ensures ok { OnOk result (out.new.items ≡ out.old.items ++ shown message.now) }
    ensures err { OnErr result (out.new.items ≡ out.old.items) }
{
    let line = line_of(alloc, message)?;
    out.extend_from_slice(line.as_bytes())?;
    Ok(())
}

/// The line of a message.
fn line_of(alloc: Global, message: &Message) -> Result<String, AllocError>
    ensures { IfOk result (λ text. string_bytes text ≡ shown message.now) }
{
    macro_rules! text {
        ($alloc:ident, $message:ident; $($group:ident { $($number:literal => $name:ident { $($field:ident: $type:ident($($arg:literal),*)),* }),* })*) => {
            match $message {
                $($(Message::$name { $($field),* } => line($alloc, stringify!($name), &[$(Named { name: stringify!($field), field: as_written!($type $field) }),*]),)*)*
            }
        };
    }
    kinds!(text alloc, message)
}

/// The line of a kind's name and the fields.
fn line(alloc: Global, kind: &str, fields: &[Named<'_>]) -> Result<String, AllocError>
    ensures { IfOk result (λ text. string_bytes text ≡ kind.now ++ fields_text fields.now) }
{
    let mut line = String::from_str(alloc, kind)?;
    for named in fields {
        push_named(&mut line, named)?;
    }
    Ok(line)
}

/// Appends a space, a field's name, `=` and its text.
fn push_named(line: &mut String, named: &Named<'_>) -> Result<(), AllocError>
    ensures { OnOk result (string_bytes line.new ≡ string_bytes line.old ++ named_text named.now) }
{
    let name = named.name;
    write!(line, " {name}=")?;
    push_field(line, &named.field)
}

fn push_field(line: &mut String, field: &FieldRef<'_>) -> Result<(), AllocError>
    ensures { OnOk result (string_bytes line.new ≡ string_bytes line.old ++ field_text field.now) }
{
    match field {
        FieldRef::U8(n) => write!(line, "{n}"),
        FieldRef::U16(n) => write!(line, "{n}"),
        FieldRef::U32(n) => write!(line, "{n}"),
        FieldRef::U64(n) => write!(line, "{n}"),
        FieldRef::Key(key) => show_bytes(key.as_bytes(), line),
        FieldRef::Value(value) => show_bytes(value.as_bytes(), line),
        FieldRef::Version(version) => write!(line, "{version}"),
        FieldRef::Deps(deps) => push_deps(line, deps),
    }
}

/// Whether a byte of a key or a value is shown as it is.
fn is_plain(byte: u8) -> bool
    ensures { result ≡ is_plain byte }
{
    byte.is_ascii_alphanumeric() || matches!(byte, b'-' | b'.' | b'_')
}

#[tactic(auto, using(std::proofs::lemmas::Fmt::hex_byte))]
fn push_byte(line: &mut String, byte: u8) -> Result<(), AllocError>
    ensures { OnOk result (string_bytes line.new ≡ string_bytes line.old ++ byte_text byte) }
{
    if is_plain(byte) {
        line.push(char::from(byte))
    } else {
        write!(line, "%{byte:02x}")
    }
}

/// Appends the bytes of a key or a value: those of ASCII letters, digits, `-`, `.` and `_` as they are, and any other
/// as `%` and two lower case hexadecimal digits (`bytes_text` in `specs/Shown.antt`). If memory runs out, some of them
/// may have been appended.
pub fn show_bytes(bytes: &[u8], line: &mut String) -> Result<(), AllocError>
    ensures { OnOk result (string_bytes line.new ≡ string_bytes line.old ++ bytes_text bytes.now) }
{
    for &byte in bytes {
        push_byte(line, byte)?;
    }
    Ok(())
}

/// Appends a key and its version.
fn push_pair(line: &mut String, dep: &Dep) -> Result<(), AllocError>
    ensures { OnOk result (string_bytes line.new ≡ string_bytes line.old ++ pair_text dep.now) }
{
    show_bytes(dep.key.as_bytes(), line)?;
    let version = dep.version;
    write!(line, "@{version}")
}

/// Appends pairs, with a comma between each two.
fn push_pairs(line: &mut String, pairs: &[Dep]) -> Result<(), AllocError>
    ensures { OnOk result (string_bytes line.new ≡ string_bytes line.old ++ join_by pair_text (codes ",") pairs.now) }
{
    let Some((first, others)) = pairs.split_first() else {
        return Ok(());
    };
    push_pair(line, first)?;
    for dep in others {
        line.push(',')?;
        push_pair(line, dep)?;
    }
    Ok(())
}

fn push_deps(line: &mut String, deps: &Deps) -> Result<(), AllocError>
    ensures { OnOk result (string_bytes line.new ≡ string_bytes line.old ++ deps_text deps.now) }
{
    line.push('[')?;
    push_pairs(line, deps.as_slice())?;
    line.push(']')
}
