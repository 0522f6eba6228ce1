//! Test cases of frames.

use crate::words::Part::{Count, Number, Word};
use crate::words::{
    bytes, digits, format_of, lossy, no_row, text, u8_of, u32_of, u64_of, word, yes_or_no,
};
use anyhow::{Error, bail};
use cops_types::Format;
use cops_wire::{
    Decoded, Feeder, Message, body_len, decode, decode_in, encode, kind, legal, legal_in, show,
};
use std::alloc::Global;

/// The line of a message.
fn line(alloc: Global, message: &Message) -> Result<String, Error> {
    let mut line = Vec::new(alloc);
    show(alloc, message, &mut line)?;
    lossy(alloc, &line)
}

/// The frame of a format at the front of the bytes of a word.
fn prefix_in(alloc: Global, format: Format, word: &str) -> Result<Decoded, Error> {
    let bytes = bytes(alloc, word)?;
    Ok(decode_in(format, alloc, &bytes)?)
}

/// The frame at the front of the bytes of one word, in format 1, or in the format of the word before it.
fn front(alloc: Global, words: &[&str]) -> Result<Decoded, Error> {
    if let [format, word] = words {
        return prefix_in(alloc, format_of(format)?, word);
    }
    let [word] = words else {
        return Err(no_row());
    };
    let bytes = bytes(alloc, word)?;
    Ok(decode(alloc, &bytes)?)
}

/// The line of the frame at the front.
fn show_frame(alloc: Global, words: &[&str]) -> Result<String, Error> {
    let front = front(alloc, words)?;
    let line = line(alloc, &front.message);
    drop(front);
    line
}

/// The kind of the message at the front, and the bytes of its body and of its frame.
fn measures(alloc: Global, words: &[&str]) -> Result<String, Error> {
    let front = front(alloc, words)?;
    let kind = Number(u64::from(kind(&front.message)));
    let body = Count(body_len(&front.message));
    let frame = Count(front.used);
    drop(front);
    let parts = [
        Word("kind "),
        kind,
        Word(", body "),
        body,
        Word(", frame "),
        frame,
    ];
    text(alloc, &parts)
}

/// The bytes of a message.
fn encoded(alloc: Global, message: &Message) -> Result<Vec<u8>, Error> {
    if !legal_in(Format::Two, message) {
        bail!("not legal");
    }
    let mut encoding = Vec::new(alloc);
    encode(message, &mut encoding)?;
    Ok(encoding)
}

/// The encoding of the message at the front.
fn encoded_message(alloc: Global, words: &[&str]) -> Result<String, Error> {
    let front = front(alloc, words)?;
    let encoding = encoded(alloc, &front.message);
    drop(front);
    digits(alloc, &encoding?)
}

/// Adds the line of a message that was complete after `count` bytes.
fn push_line(alloc: Global, lines: &mut String, count: u64, message: Message) -> Result<(), Error> {
    let line = line(alloc, &message);
    drop(message);
    let one = text(alloc, &[Number(count), Word(": "), Word(&line?)])?;
    Ok(lines.push_str(&one)?)
}

/// Feeds one byte, and adds the line of the frame that it completes.
fn feed_byte(
    alloc: Global,
    feeder: &mut Feeder,
    lines: &mut String,
    count: u64,
    byte: u8,
) -> Result<(), Error> {
    feeder.feed(&[byte])?;
    match feeder.next()? {
        Some(message) => push_line(alloc, lines, count, message),
        None => Ok(()),
    }
}

/// Feeds bytes one by one, and returns the line of each frame that they complete, after the number of bytes fed by
/// then.
fn feed(alloc: Global, feeder: &mut Feeder, word: &str) -> Result<String, Error> {
    let bytes = bytes(alloc, word)?;
    let mut lines = String::new(alloc);
    let mut count = 0u64;
    for byte in &bytes {
        count = count.saturating_add(1);
        feed_byte(alloc, feeder, &mut lines, count, *byte)?;
    }
    Ok(lines)
}

/// Feeds a piece, and returns whether it leaves a faulty frame rather than an incomplete one.
fn feed_piece(feeder: &mut Feeder, piece: &[u8]) -> Result<bool, Error> {
    feeder.feed(piece)?;
    match feeder.next() {
        Ok(None) => Ok(false),
        Ok(Some(message)) => {
            drop(message);
            bail!("a message")
        }
        Err(_) => Ok(true),
    }
}

/// Feeds `count` pieces of a thousand equal bytes, and counts the pieces that leave an incomplete frame and those that
/// leave a faulty one.
fn flood(alloc: Global, feeder: &mut Feeder, count: &str, byte: &str) -> Result<String, Error> {
    let piece = [u8_of(byte)?; 1000];
    let (mut waiting, mut faulty) = (0u64, 0u64);
    for _ in 0..u32_of(count)? {
        if feed_piece(feeder, &piece)? {
            faulty = faulty.saturating_add(1);
        } else {
            waiting = waiting.saturating_add(1);
        }
    }
    let parts = [
        Number(waiting),
        Word(" not whole, "),
        Number(faulty),
        Word(" faulty"),
    ];
    text(alloc, &parts)
}

/// A message of two numbers.
fn pair_message(name: &str, first: &str, second: &str) -> Result<Message, Error> {
    match name {
        "HelloOk" => Ok(Message::HelloOk {
            dc: u8_of(first)?,
            nodes: u8_of(second)?,
        }),
        "Refused" => Ok(Message::Refused {
            seq: u32_of(first)?,
            code: u8_of(second)?,
        }),
        "Status" => Ok(Message::Status {
            seq: u32_of(first)?,
            node: u8_of(second)?,
        }),
        _ => Err(no_row()),
    }
}

/// A message of two numbers, or an answer to a status, whose counts are 1.
fn message(words: &[&str]) -> Result<Message, Error> {
    match words {
        ["StatusIs", clock] => Ok(Message::StatusIs {
            seq: 1,
            clock: u64_of(clock)?,
            keys: 1,
            settled: 1,
            held: 1,
        }),
        [name, first, second] => pair_message(name, first, second),
        _ => Err(no_row()),
    }
}

/// Whether the message of format 2 at the front is legal in a format.
fn is_in_format(alloc: Global, format: &str, word: &str) -> Result<String, Error> {
    let format = format_of(format)?;
    let front = prefix_in(alloc, Format::Two, word)?;
    let is = legal_in(format, &front.message);
    drop(front);
    yes_or_no(alloc, is)
}

fn is_legal(alloc: Global, words: &[&str]) -> Result<String, Error> {
    let message = message(words)?;
    let is = legal(&message);
    drop(message);
    yes_or_no(alloc, is)
}

/// The answer to a call.
pub fn answer(alloc: Global, feeder: &mut Feeder, words: &[&str]) -> Result<String, Error> {
    match words {
        ["new"] => {
            drop(std::mem::replace(feeder, Feeder::new(alloc)));
            word(alloc, "opened")
        }
        ["format", format] => {
            feeder.set_format(format_of(format)?);
            word(alloc, "set")
        }
        ["feed", word] => feed(alloc, feeder, word),
        ["flood", count, byte] => flood(alloc, feeder, count, byte),
        ["show", rest @ ..] => show_frame(alloc, rest),
        ["decode", rest @ ..] => measures(alloc, rest),
        ["encode", rest @ ..] => encoded_message(alloc, rest),
        ["legal", rest @ ..] => is_legal(alloc, rest),
        ["in", format, word] => is_in_format(alloc, format, word),
        _ => Err(no_row()),
    }
}
