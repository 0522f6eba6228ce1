//! The one encoding of a message.
ghost use Rattle.std.specs.Prelude.{◌≡◌, ◌+◌, ◌≤◌, ◌++◌, length, vec_len, vec_capacity, IsOk, OnOk, OnErr};
ghost use Rattle.cops_types.specs.OpRefs.{seen};
ghost use Rattle.cops_wire.specs.Grammar.{grammar_two, body, encoding};
ghost use Rattle.cops_wire.specs.Legal.{IsLegalMessage};
ghost use Rattle.cops_wire.specs.Message.{parts};
ghost use Rattle.cops_wire.specs.Kind.{kind_of};
ghost use Rattle.cops_wire.specs.Records.{record_message};
ghost use Rattle.cops_wire.specs.Replicated.{put_after};

use crate::field::{self, FieldRef, as_written};
use crate::message::Message;
use crate::table::kinds;
use cops_types::{Memory, OpRef, PutRecord};

/// Appends the frame of a kind with these fields: those that come first, a key, a value if there is one, a version, and
/// those that come last.
macro_rules! append_fields {
    ($out:ident $kind:literal, [$($first:ident),*] $key:ident $(, $value:ident)?; $at:ident [$($last:ident),*]) => {{
        // These calls show that the fields are within their ranges.
        let _key = $key.as_bytes();
        $(let _value = $value.as_bytes();)?
        let _version = $at.as_u64();
        let fields = [
            $($first,)*
            FieldRef::Key($key),
            $(FieldRef::Value($value),)?
            FieldRef::Version($at),
            $($last),*
        ];
        field::append($out, $kind, &fields)
    }};
}

/// The number of a message's kind, 1 to 27.
pub fn kind(message: &Message) -> u8
    ensures { result ≡ kind_of message.now }
{
    macro_rules! number {
        ($message:ident; $($group:ident { $($number:literal => $name:ident { $($field:ident: $type:ident($($arg:literal),*)),* }),* })*) => {
            match $message {
                $($(Message::$name { .. } => $number,)*)*
            }
        };
    }
    kinds!(number message)
}

/// The number of bytes of a message's body, which is 4 less than that of its frame.
pub fn body_len(message: &Message) -> usize
    ensures { result ≡ length (body grammar_two (parts message.now)) }
{
    macro_rules! len {
        ($message:ident; $($group:ident { $($number:literal => $name:ident { $($field:ident: $type:ident($($arg:literal),*)),* }),* })*) => {
            match $message {
                $($(Message::$name { $($field),* } => field::len($number, &[$(as_written!($type $field)),*]),)*)*
            }
        };
    }
    kinds!(len message)
}

/// Appends the frame of a message, its only encoding. The message has to be legal in format 2. Appends nothing if
/// memory runs out. A message of format 1 has the same frame in both formats.
pub fn encode(message: &Message, out: &mut Vec<u8>) -> Result<(), Memory>
    requires { IsLegalMessage message.now }
    ensures ok { OnOk result (out.new.items ≡ out.old.items ++ encoding grammar_two (parts message.now)) }
    ensures err { OnErr result (out.new.items ≡ out.old.items) }
{
    macro_rules! append {
        ($message:ident, $out:ident; $($group:ident { $($number:literal => $name:ident { $($field:ident: $type:ident($($arg:literal),*)),* }),* })*) => {
            match $message {
                $($(Message::$name { $($field),* } => field::append($out, $number, &[$(as_written!($type $field)),*]),)*)*
            }
        };
    }
    kinds!(append message, out)
}

/// Appends the frame of the message that replicates a put or a deletion, which is always legal in format 2. Appends
/// nothing if memory runs out. The bytes are those that `encode` appends for that message, but no copy of the put is
/// made.
pub fn encode_put_after(put: &PutRecord, out: &mut Vec<u8>) -> Result<(), Memory>
    ensures legal { IsLegalMessage (put_after put.now) }
    ensures ok { OnOk result (out.new.items ≡ out.old.items ++ encoding grammar_two (parts (put_after put.now))) }
    ensures err { OnErr result (out.new.items ≡ out.old.items) }
{
    let PutRecord {
        key,
        version,
        value,
        deps,
    } = put;
    let last = FieldRef::Deps(deps);
    let _deps = deps.as_slice();
    match value {
        Some(value) => append_fields!(out 9, [] key, value; version [last]),
        None => append_fields!(out 25, [] key; version [last]),
    }
}

/// Appends the frame of the record of a client's operation at this place of its session, which is always legal in
/// format 2, or where memory runs out nothing. It takes no memory where there is room for the frame, and copies neither
/// the key nor the value.
pub fn encode_record(
    client: u16,
    index: u32,
    op: &OpRef<'_>,
    out: &mut Vec<u8>,
) -> Result<(), Memory>
    ensures legal { IsLegalMessage (record_message client index (seen op.now)) }
    ensures ok { OnOk result (out.new.items ≡ out.old.items ++ encoding grammar_two (parts (record_message client index (seen op.now)))) }
    ensures err { OnErr result (out.new.items ≡ out.old.items) }
    ensures succeeds { vec_len out.old + length (encoding grammar_two (parts (record_message client index (seen op.now)))) ≤ vec_capacity out.old → IsOk result }
    ensures capacity { vec_capacity out.old ≤ vec_capacity out.new }
{
    let (client, index) = (FieldRef::U16(&client), FieldRef::U32(&index));
    macro_rules! append_op {
        ($op:ident; $($name:ident => $with:literal or $without:literal),*) => {
            match $op {
                $(OpRef::$name { key, version, value } => match value {
                    Some(value) => append_fields!(out $with, [client, index] key, value; version []),
                    None => append_fields!(out $without, [client, index] key; version []),
                },)*
                OpRef::Missed { key } => {
                    let _key = key.as_bytes();
                    field::append(out, 20, &[client, index, FieldRef::Key(key)])
                }
            }
        };
    }
    append_op!(op; Put => 18 or 26, Got => 19 or 27)
}
