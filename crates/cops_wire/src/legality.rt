//! Checking whether a format has a message.
ghost use Rattle.std.specs.Prelude.{◌↔◌, IsTrue};
ghost use Rattle.cops_wire.specs.Grammar.{grammar, grammar_one};
ghost use Rattle.cops_wire.specs.Legal.{IsMessage};
ghost use Rattle.cops_wire.specs.Message.{parts};

use crate::limits::Limits;
use crate::message::Message;
use crate::table::kinds;
use cops_types::Format;

/// A test of a message of a group. Format 1 does not have the group of deletions.
macro_rules! in_group {
    (deletion $limits:ident, $test:expr) => {
        match $limits.format {
            Format::One => false,
            Format::Two => $test,
        }
    };
    ($group:ident $limits:ident, $test:expr) => {
        $test
    };
}

/// Whether format 1 has the message's kind, and each field is within its range there.
pub fn legal(message: &Message) -> bool
    ensures { IsTrue result ↔ IsMessage grammar_one (parts message.now) }
{
    legal_in(Format::One, message)
}

/// Whether the format has the message's kind, and each field is within its range there.
pub fn legal_in(format: Format, message: &Message) -> bool
    ensures { IsTrue result ↔ IsMessage (grammar format) (parts message.now) }
{
    macro_rules! test {
        ($message:ident, $limits:ident; $($group:ident { $($number:literal => $name:ident { $($field:ident: $type:ident($($arg:literal),*)),* }),* })*) => {
            match $message {
                $($(Message::$name { $($field),* } => in_group!($group $limits, true $(& $limits.$type($($arg,)* $field))*),)*)*
            }
        };
    }
    let limits = Limits { format };
    kinds!(test message, limits)
}
