//! Replies that the front door gives without the session.
ghost use Rattle.std.specs.Prelude.{◌≡◌, false};
ghost use Rattle.cops_types.specs.declared.format.Format.{Format as AFormat};
ghost use Rattle.cops_types.specs.Refusal.{code_of};
ghost use Rattle.cops_wire.specs.declared.message.Message.TheVariants.{Refused};
ghost use Rattle.cops_net.specs.Protocol.{phase, IsLegalIn, seq_of, is_handed, own_reply};
ghost use Rattle.cops_net.specs.Sessions.{is_bye};
ghost use Rattle.cops_net.specs.Turns.{is_welcome};

use cops_types::{Format, Refusal};
use cops_wire::Message;

/// The format in which a client's next message is read: format 1 until its greeting was answered with a data centre,
/// and the session's format afterwards.
pub(crate) fn phase(format: Format, greeted: bool) -> Format
    ensures { result ≡ phase format greeted }
{
    if greeted { format } else { Format::One }
}

/// The request number of a message, or 0 where it has none.
pub(crate) fn seq_of(message: &Message) -> u32
    ensures { result ≡ seq_of message.now }
{
    match message {
        Message::Put { seq, .. }
        | Message::Del { seq, .. }
        | Message::Get { seq, .. }
        | Message::PutDone { seq, .. }
        | Message::Deleted { seq, .. }
        | Message::Got { seq, .. }
        | Message::Gone { seq, .. }
        | Message::Missed { seq }
        | Message::Refused { seq, .. }
        | Message::DepCheck { seq, .. }
        | Message::DepYes { seq }
        | Message::DepWait { seq }
        | Message::Status { seq, .. }
        | Message::StatusIs { seq, .. } => *seq,
        _ => 0,
    }
}

/// Whether a message is handed to the session.
pub(crate) fn is_handed(format: Format, greeted: bool, message: &Message) -> bool
    ensures { result ≡ is_handed format greeted message.now }
{
    match message {
        Message::Hello { profile, .. } => !greeted && *profile == format.number(),
        Message::Put { .. }
        | Message::Del { .. }
        | Message::Get { .. }
        | Message::DepCheck { .. }
        | Message::Status { .. } => greeted,
        _ => false,
    }
}

/// Whether a message ends the session.
pub(crate) fn is_bye(message: &Message) -> bool
    ensures { result ≡ is_bye message.now }
{
    matches!(message, Message::Bye)
}

/// Whether a message is the answer to a greeting.
pub(crate) fn is_welcome(message: &Message) -> bool
    ensures { result ≡ is_welcome message.now }
{
    matches!(message, Message::HelloOk { .. })
}

/// The reply that reports a refusal.
pub(crate) fn refused(seq: u32, refusal: Refusal) -> Message
    ensures reply { result ≡ Refused seq (code_of refusal) }
    ensures legal { (format : AFormat) → IsLegalIn format result }
{
    let code = refusal.code();
    Message::Refused { seq, code }
}

/// The server's own reply to a message that is not handed to the session.
pub(crate) fn own_reply(greeted: bool, message: &Message) -> Message
    ensures reply { result ≡ own_reply greeted message.now }
    ensures legal { (format : AFormat) → IsLegalIn format result }
    ensures no_welcome { is_welcome result ≡ false }
{
    let refusal = match message {
        Message::Bye => return Message::ByeOk,
        Message::Hello { .. } => {
            if greeted {
                Refusal::WrongKind
            } else {
                Refusal::BadProfile
            }
        }
        Message::Put { .. }
        | Message::Del { .. }
        | Message::Get { .. }
        | Message::DepCheck { .. }
        | Message::Status { .. } => Refusal::NotGreeted,
        _ => Refusal::WrongKind,
    };
    refused(seq_of(message), refusal)
}
