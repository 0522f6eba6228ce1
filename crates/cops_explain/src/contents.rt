//! How keys, values and names of clients are written.
ghost use Rattle.std.specs.Prelude.{◌≡◌, ◌++◌, ◌<◌, MatchOption, OnOk, false, length, string_bytes, take, true};
ghost use Rattle.std.specs.List.{list_any};
ghost use Rattle.std.specs.Str.{chars};
ghost use Rattle.std.specs.Str.Lossy.{utf8_valid_len};
ghost use Rattle.cops_explain.specs.Contents.{content_text, is_hidden, is_printable, start_text, value_text};

use crate::limits::VALUE_BYTES;
use crate::sizes::SHOWN_BYTES;
use cops_wire::show_bytes;
use std::alloc::AllocError;

/// The result of writing to a text, which fails where memory runs out. Then a part may have been written.
pub type Written = Result<(), AllocError>;

/// How contents are written.
#[derive(Clone, Copy, Debug, PartialEq, Eq)]
pub enum Form {
    /// For texts: what is printable as it is, anything else escaped, and of a long value its beginning and its length.
    Readable,
    /// Escaped as by `show`, so that no byte means anything in XML.
    Escaped,
    /// Escaped, and no more than the first bytes, for the cards and lanes of a picture.
    Short,
}

/// The characters that are not shown as they are: controls, controls of the direction of writing, and separators of
/// lines and paragraphs. Each range has its first and its last character.
const HIDDEN: [(char, char); 6] = [
    ('\0', '\u{1f}'),
    ('\u{7f}', '\u{9f}'),
    ('\u{200e}', '\u{200f}'),
    ('\u{2028}', '\u{2029}'),
    ('\u{202a}', '\u{202e}'),
    ('\u{2066}', '\u{2069}'),
];

/// Whether a character is in one of the ranges of `HIDDEN`.
fn is_hidden(character: char) -> bool
    ensures { result ≡ is_hidden character }
{
    HIDDEN
        .iter()
        .any(|range| range.0 <= character && character <= range.1)
}

/// Whether a text has such a character.
fn has_hidden(text: &str) -> bool
    ensures { result ≡ list_any is_hidden (chars text.now) }
{
    text.chars().any(is_hidden)
}

/// The text that the bytes encode, where it has no such character.
fn printable(bytes: &[u8]) -> Option<&str>
    ensures { MatchOption result
        (is_printable bytes.now ≡ false)
        (λ text. (text.now ≡ bytes.now) × (is_printable bytes.now ≡ true)) }
{
    match std::str::from_utf8(bytes) {
        Ok(text) => { if has_hidden(text) { None } else { Some(text) } }
        Err(_) => None,
    }
}

/// The longest text at the beginning of the bytes.
fn text_prefix(bytes: &[u8]) -> &str
    ensures { result.now ≡ take (utf8_valid_len bytes.now) bytes.now }
{
    match std::str::from_utf8(bytes) {
        Ok(text) => text,
        Err(error) => match std::str::from_utf8(&bytes[..error.valid_up_to()]) {
            Ok(text) => text,
            Err(_) => unreachable!(),
        },
    }
}

/// Writes a key or a name.
pub fn push_content(out: &mut String, form: Form, bytes: &[u8]) -> Written
    ensures { OnOk result (string_bytes out.new ≡ string_bytes out.old ++ content_text form bytes.now) }
{
    match form {
        Form::Readable => match printable(bytes) {
            Some(text) => out.push_str(text),
            None => show_bytes(bytes, out),
        },
        Form::Escaped => show_bytes(bytes, out),
        Form::Short => {
            if bytes.len() <= SHOWN_BYTES {
                return show_bytes(bytes, out);
            }
            show_bytes(&bytes[..SHOWN_BYTES], out)?;
            out.push_str("..")
        }
    }
}

/// Writes the beginning of a long value.
fn push_start(out: &mut String, value: &[u8]) -> Written
    requires { VALUE_BYTES < length value.now }
    ensures { OnOk result (string_bytes out.new ≡ string_bytes out.old ++ start_text value.now) }
{
    let start = &value[..VALUE_BYTES];
    match printable(value) {
        Some(_) => out.push_str(text_prefix(start)),
        None => show_bytes(start, out),
    }
}

/// Writes a value.
pub fn push_value(out: &mut String, form: Form, value: &[u8]) -> Written
    ensures { OnOk result (string_bytes out.new ≡ string_bytes out.old ++ value_text form value.now) }
{
    let len = value.len();
    if form != Form::Readable || len <= VALUE_BYTES {
        return push_content(out, form, value);
    }
    push_start(out, value)?;
    write!(out, ".. ({len} bytes)")
}
