//! Texts that are made of parts.

use anyhow::{Error, bail};
use cops_types::Version;
use std::alloc::Global;

/// A part of a text.
#[derive(Clone, Copy)]
pub enum Part<'a> {
    /// A word, as it stands.
    Word(&'a str),
    /// A number, in decimal digits.
    Number(u64),
    /// How many there are, in decimal digits.
    Count(usize),
    /// A version, `CLOCK.NODE`.
    At(Version),
    /// The bytes of a key or a value.
    Bytes(&'a [u8]),
}

fn push_number(alloc: Global, text: &mut String, number: u64) -> Result<(), Error> {
    let digits = format!(in alloc; "{number}")?;
    Ok(text.push_str(&digits)?)
}

fn push_version(alloc: Global, text: &mut String, version: Version) -> Result<(), Error> {
    let reported = format!(in alloc; "{version}")?;
    Ok(text.push_str(&reported)?)
}

fn push_bytes(alloc: Global, text: &mut String, bytes: &[u8]) -> Result<(), Error> {
    let reported = String::from_utf8_lossy(alloc, bytes)?;
    Ok(text.push_str(&reported)?)
}

fn push(alloc: Global, text: &mut String, part: &Part) -> Result<(), Error> {
    match part {
        Part::Word(word) => Ok(text.push_str(word)?),
        Part::Number(number) => push_number(alloc, text, *number),
        Part::Count(count) => push_number(alloc, text, *count as u64),
        Part::At(version) => push_version(alloc, text, *version),
        Part::Bytes(bytes) => push_bytes(alloc, text, bytes),
    }
}

/// The text of parts, one after the other.
pub fn text(alloc: Global, parts: &[Part]) -> Result<String, Error> {
    let mut text = String::new(alloc);
    for part in parts {
        push(alloc, &mut text, part)?;
    }
    Ok(text)
}

/// Adds a part to a text, after a separator if the text is not empty.
pub fn add_behind(text: &mut String, sign: &str, part: &str) -> Result<(), Error> {
    if !text.is_empty() {
        text.push_str(sign)?;
    }
    Ok(text.push_str(part)?)
}

/// The texts of items, with a separator between them.
pub fn joined<T, F: Fn(Global, &T) -> Result<String, Error>>(
    alloc: Global,
    items: &[T],
    sign: &str,
    text_of: F,
) -> Result<String, Error>
    requires { F.IsAlwaysCallable text_of }
{
    let mut text = String::new(alloc);
    for item in items {
        let one = text_of(alloc, item)?;
        add_behind(&mut text, sign, &one)?;
    }
    Ok(text)
}

/// The text of one word.
pub fn word(alloc: Global, word: &str) -> Result<String, Error> {
    Ok(String::from_str(alloc, word)?)
}

/// The text of bytes.
pub fn lossy(alloc: Global, bytes: &[u8]) -> Result<String, Error> {
    let text = String::from_utf8_lossy(alloc, bytes)?;
    word(alloc, &text)
}

/// The text of a line's bytes, without its line feed.
pub fn line_of(alloc: Global, bytes: &[u8]) -> Result<String, Error> {
    let text = String::from_utf8_lossy(alloc, bytes)?;
    match text.strip_suffix('\n') {
        Some(line) => word(alloc, line),
        None => bail!("no line feed"),
    }
}
