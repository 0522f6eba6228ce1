//! Records of a trace, borrowed from its bytes.
ghost use Rattle.std.specs.Prelude.{◌≡◌, ◌<◌, ◌≤◌, Ok, IfOk, IfSome, length};
ghost use Rattle.cops_types.specs.Format.{longest_body};
ghost use Rattle.cops_wire.specs.Answer.{IsAnswer};
ghost use Rattle.cops_wire.specs.Grammar.{grammar};
ghost use Rattle.cops_wire.specs.Kind.{contents_of, kind_of};
ghost use Rattle.cops_wire.specs.Message.{parts};
ghost use Rattle.cops_wire.specs.Reading.{body_at, contents_at};
ghost use Rattle.cops_wire.specs.Records.{borrowed_message};

use crate::decoding::whole_body;
use crate::reading::{ReadFault, Rest};
use cops_types::{Format, OpView};
use std::alloc::Global;

/// A record of a trace, borrowed from its bytes: a client's operation, its index in the client's session, and the
/// number of bytes of its frame.
#[derive(Debug, Drop)]
pub struct RecordView<'a> {
    pub client: u16,
    pub index: u32,
    pub op: OpView<'a>,
    pub used: usize,
}

/// Reads the fields of a record from left to right: the client, the index, the key, the value if the operation has one,
/// and the version if the operation has one. Returns from the function on a fault.
macro_rules! view {
    ($rest:ident $used:ident; $name:ident $($value:ident: $content:expr, $version:ident)?) => {{
        let client = $rest.u16()?;
        let index = $rest.u32()?;
        let key = $rest.key_view()?;
        $(let $value = $content;
        let $version = $rest.version()?;)?
        let op = OpView::$name { key, $($value, $version)? };
        Ok(RecordView { client, index, op, used: $used })
    }};
}

impl<'a> Rest<'a> {
    /// The record of this kind, one of those of format 2 alone, whose fields stand at the front.
    fn deletion_view(&mut self, kind: u8, used: usize) -> Result<RecordView<'a>, ReadFault>
        ensures { IfOk result (λ r. (kind_of (borrowed_message r) ≡ kind) × (r.used ≡ used) × (contents_at (grammar self.old.format) kind self.old.bytes.now ≡ Ok (contents_of (borrowed_message r), self.new.bytes.now))) }
    {
        let rest = self;
        match (rest.format, kind) {
            (Format::Two, 26) => view!(rest used; Put value: None, version),
            (Format::Two, 27) => view!(rest used; Got value: None, version),
            _ => Err(ReadFault::UnknownKind),
        }
    }

    /// The record of this kind whose fields stand at the front.
    #[inline(always)]
    fn record_view(&mut self, kind: u8, used: usize) -> Result<RecordView<'a>, ReadFault>
        ensures { IfOk result (λ r. (kind_of (borrowed_message r) ≡ kind) × (r.used ≡ used) × (contents_at (grammar self.old.format) kind self.old.bytes.now ≡ Ok (contents_of (borrowed_message r), self.new.bytes.now))) }
    {
        let rest = self;
        match kind {
            18 => view!(rest used; Put value: Some(rest.value_view()?), version),
            19 => view!(rest used; Got value: Some(rest.value_view()?), version),
            20 => view!(rest used; Missed),
            _ => rest.deletion_view(kind, used),
        }
    }
}

/// The record of a whole body, if it is one.
#[inline(always)]
fn record_in<'a>(format: Format, alloc: Global, text: &'a [u8]) -> Option<RecordView<'a>>
    requires some { 0 < length text.now }
    requires fits { length text.now ≤ longest_body format }
    ensures { IfSome result (λ r. body_at (grammar format) text.now ≡ Ok (parts (borrowed_message r), r.used)) }
{
    let used = 4 + text.len();
    let mut rest = Rest {
        alloc,
        format,
        bytes: &text[1..],
    };
    match rest.record_view(text[0], used) {
        Ok(record) if rest.bytes.is_empty() => Some(record),
        _ => None,
    }
}

/// The record of a trace of a format at the front of some bytes. Allocates nothing. Returns nothing if another message
/// is there, or no whole frame, or a frame with a fault; `decode_in` says which.
#[inline(always)]
pub fn record_at<'a>(format: Format, alloc: Global, bytes: &'a [u8]) -> Option<RecordView<'a>>
    ensures { IfSome result (λ r. IsAnswer (grammar format) bytes.now (Ok (parts (borrowed_message r), r.used))) }
{
    match whole_body(format, bytes) {
        Ok(text) => record_in(format, alloc, text),
        Err(_) => None,
    }
}
