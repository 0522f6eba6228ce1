//! Records of a trace, as messages give them.
ghost use Rattle.std.specs.Prelude.{◌≡◌};
ghost use Rattle.cops_wire.specs.Records.{record_of_message};

use crate::message::Message;
use cops_types::Op;

/// A record of a trace: a client's operation, and its index in the client's session.
#[derive(Debug, Drop)]
pub struct TraceRecord {
    pub client: u16,
    pub index: u32,
    pub op: Op,
}

/// The record that a message is, if it is one.
pub fn record_of_message(message: Message) -> Option<TraceRecord>
    ensures { result ≡ record_of_message message }
{
    macro_rules! record {
        ($message:ident; $($name:ident => $op:ident { $($field:ident),* })*) => {
            match $message {
                $(Message::$name { client, index, $($field),* } => Some(TraceRecord {
                    client,
                    index,
                    op: Op::$op { $($field),* },
                }),)*
                other => {
                    drop(other);
                    None
                }
            }
        };
    }
    record! {
        message;
        TracePut => Put { key, value, version }
        TraceGot => Got { key, value, version }
        TraceMissed => Missed { key }
        TraceDel => Del { key, version }
        TraceGone => Gone { key, version }
    }
}
