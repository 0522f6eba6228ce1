ghost use Rattle.std.specs.Prelude.{◌≡◌, ◌↔◌, IsTrue, option_copied};
ghost use Rattle.cops_types.specs.Format.{format_of_number, number_of, most_value, most_deps, longest_body, fits, Fits};

use crate::limits::{
    MAX_BODY, MAX_BODY_IN_ONE, MAX_DEPS, MAX_DEPS_IN_ONE, MAX_VALUE, MAX_VALUE_IN_ONE,
};
use crate::value::Value;

/// A format of frames and traces: which kinds of messages it has, and their limits.
#[derive(Clone, Copy, Debug, PartialEq, Eq)]
pub enum Format {
    /// The first format, which has no deletions.
    One,
    /// The second one, which has deletions, longer values, more dependencies and longer frames.
    Two,
}

impl Format {
    /// The format's number: 1 or 2.
    pub fn number(self) -> u16
        ensures { result ≡ number_of self }
    {
        match self {
            Format::One => 1,
            Format::Two => 2,
        }
    }

    /// The format of a number, if there is one.
    pub fn of_number(number: u16) -> Option<Format>
        ensures { result ≡ format_of_number number }
    {
        match number {
            1 => Some(Format::One),
            2 => Some(Format::Two),
            _ => None,
        }
    }

    /// The most bytes that a value has: 4,096 in format 1, 16,384 in format 2.
    pub fn most_value(self) -> usize
        ensures { result ≡ most_value self }
    {
        match self {
            Format::One => MAX_VALUE_IN_ONE,
            Format::Two => MAX_VALUE,
        }
    }

    /// The most pairs that dependencies have: 256 in format 1, 1,024 in format 2.
    pub fn most_deps(self) -> usize
        ensures { result ≡ most_deps self }
    {
        match self {
            Format::One => MAX_DEPS_IN_ONE,
            Format::Two => MAX_DEPS,
        }
    }

    /// The most bytes that a frame's body has: 32,768 in format 1, 131,072 in format 2.
    pub fn longest_body(self) -> usize
        ensures { result ≡ longest_body self }
    {
        match self {
            Format::One => MAX_BODY_IN_ONE,
            Format::Two => MAX_BODY,
        }
    }

    /// Whether a put of the format may have this content: a value within the format's limit, or in format 2 also None,
    /// which is a deletion.
    pub fn fits(self, content: Option<&Value>) -> bool
        ensures value { result ≡ fits self (option_copied content.entry) }
        ensures fits { IsTrue result ↔ Fits self (option_copied content.entry) }
    {
        match content {
            Some(value) => value.as_bytes().len() <= self.most_value(),
            None => self == Format::Two,
        }
    }
}
