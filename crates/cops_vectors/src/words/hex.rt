//! Bytes as hexadecimal digits.

use crate::words::reading::no_row;
use anyhow::Error;
use std::alloc::Global;

/// The number of a digit.
fn digit(c: u8) -> Result<u8, Error> {
    match c {
        b'0'..=b'9' => Ok(c - b'0'),
        b'a'..=b'f' => Ok(c - b'a' + 10),
        _ => Err(no_row()),
    }
}

/// The byte of two digits.
fn byte(digits: &[u8]) -> Result<u8, Error> {
    match digits {
        [high, low] => Ok(digit(*high)?.wrapping_mul(16) | digit(*low)?),
        _ => Err(no_row()),
    }
}

/// The bytes of a word of digits; `-` stands for no bytes.
pub fn bytes(alloc: Global, word: &str) -> Result<Vec<u8>, Error> {
    let mut bytes = Vec::new(alloc);
    if word != "-" {
        for digits in word.as_bytes().chunks(2) {
            bytes.push(byte(digits)?)?;
        }
    }
    Ok(bytes)
}

/// The digits of bytes.
pub fn digits(alloc: Global, bytes: &[u8]) -> Result<String, Error> {
    let mut text = String::new(alloc);
    for byte in bytes {
        let two = format!(in alloc; "{byte:02x}")?;
        text.push_str(&two)?;
    }
    Ok(text)
}
