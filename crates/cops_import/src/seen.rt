//! What a line has, found without parsing its JSON, provided that the line is right.
use crate::store_version::StoreVersion;
use memchr::memmem::Finder;
use memchr::{memchr, memrchr};
use smallvec::SmallVec;
use std::alloc::{AllocError, Global};
use std::str;

/// The member that names a client.
const CLIENT: &[u8] = b"\"client\"";

/// The member that holds a version.
const VERSION: &[u8] = b"\"version\"";

/// The member that says whether the outcome is unknown.
const OK: &[u8] = b"\"ok\"";

/// Each number with this many digits is below 2^64.
const MOST_DIGITS: usize = 19;

/// What was found of a line's version.
#[derive(Debug, Drop)]
pub(crate) enum Seen {
    Version(StoreVersion),
    /// The line has no version.
    Nothing,
    /// The line has to be parsed.
    Hidden,
}

/// The name in a line: nothing is escaped, and the member `client` occurs once, with a text or a few digits. Nothing if
/// the line has to be parsed.
pub(crate) fn seen_name(line: &[u8]) -> Option<&[u8]> {
    if memchr(b'\\', line).is_some() {
        return None;
    }
    let value = value_of(line, CLIENT)?;
    seen_text(value).or_else(|| seen_number(value))
}

/// Whether the outcome of the operation in a line, in which nothing is escaped, may be unknown: the line names the member
/// `ok`, and does not have it once and true or false.
pub(crate) fn may_be_unknown(line: &[u8]) -> bool {
    if Finder::new(OK).find(line).is_none() {
        return false;
    }
    match value_of(line, OK) {
        Some(value) => !value.starts_with(b"true") && !value.starts_with(b"false"),
        None => true,
    }
}

/// The version in a line in which nothing is escaped: the member `version` occurs once, in the only object, with a
/// text, a few digits, or a list of these.
pub(crate) fn seen_version(alloc: Global, line: &[u8]) -> Result<Seen, AllocError> {
    if Finder::new(VERSION).find(line).is_none() {
        return Ok(Seen::Nothing);
    }
    if memchr(b'{', line) != memrchr(b'{', line) {
        return Ok(Seen::Hidden);
    }
    let Some(value) = value_of(line, VERSION) else {
        return Ok(Seen::Hidden);
    };
    if value.starts_with(b"null") {
        return Ok(Seen::Nothing);
    }
    if let Some(number) = seen_number(value).and_then(number_of) {
        return Ok(Seen::Version(StoreVersion::Number(number)));
    }
    if let Some(text) = seen_text(value) {
        let text = SmallVec::from_slice(alloc, text)?;
        return Ok(Seen::Version(StoreVersion::Text(text)));
    }
    match seen_pair(value) {
        Some((number, text)) => {
            let text = SmallVec::from_slice(alloc, text)?;
            Ok(Seen::Version(StoreVersion::Pair((number, text))))
        }
        None => Ok(Seen::Hidden),
    }
}

/// The bytes from the value of a member on, if its name occurs once.
fn value_of<'l>(line: &'l [u8], name: &[u8]) -> Option<&'l [u8]> {
    let finder = Finder::new(name);
    let (_, behind) = line.split_at_checked(finder.find(line)?.checked_add(name.len())?)?;
    if finder.find(behind).is_some() {
        return None;
    }
    let value = behind.trim_ascii_start().strip_prefix(b":")?;
    Some(value.trim_ascii_start())
}

/// The digits at the front of a value, if they are all of it and no more than a whole number may have.
fn seen_number(value: &[u8]) -> Option<&[u8]> {
    let count = value.iter().position(|byte| !byte.is_ascii_digit())?;
    let is_whole = matches!(value.get(count)?, b',' | b'}' | b' ');
    if is_whole && 0 < count && count <= MOST_DIGITS {
        value.get(..count)
    } else {
        None
    }
}

/// The number of decimal digits.
fn number_of(digits: &[u8]) -> Option<u64> {
    str::from_utf8(digits).ok()?.parse().ok()
}

/// The text at the front of a value.
fn seen_text(value: &[u8]) -> Option<&[u8]> {
    let text = value.strip_prefix(b"\"")?;
    text.get(..memchr(b'"', text)?)
}

/// The number and the text of a list at the front of a value.
fn seen_pair(value: &[u8]) -> Option<(u64, &[u8])> {
    let items = value.strip_prefix(b"[")?.trim_ascii_start();
    let digits = seen_number(items)?;
    let behind = items.get(digits.len()..)?.trim_ascii_start();
    let text = behind.strip_prefix(b",")?.trim_ascii_start();
    Some((number_of(digits)?, seen_text(text)?))
}
