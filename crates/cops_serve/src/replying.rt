//! A cluster's answers as replies.
ghost use Rattle.std.specs.Prelude.{◌≡◌, ◌⊎◌};
ghost use Rattle.cops_cluster.specs.Outcomes.{IsAskOutcome, IsDelOutcome, IsGetOutcome, IsPutOutcome};
ghost use Rattle.cops_cluster.specs.Receiving.{outcome_of};
ghost use Rattle.cops_net.specs.Answers.{IsCheckReply, IsGetReply};
ghost use Rattle.cops_net.specs.declared.reply.Reply.{Reply as Answer};
ghost use Rattle.cops_node.specs.declared.outcome.Outcome.TheVariants.{Got as FoundValue, Gone as FoundGone, Wait as NotYet};
ghost use Rattle.cops_serve.specs.Replying.{IsReplyIn, IsReplyTo};

use cops_cluster::Asked;
use cops_net::Reply;
use cops_node::Outcome;
use cops_types::{Format, Refusal, Value, ValueRoom, Version};

/// An answer twice: one copy for the record of calls, and one to send.
#[derive(Drop)]
pub(crate) struct Replies {
    pub(crate) kept: Reply,
    pub(crate) reported: Reply,
}

/// The replies that report the outcome of a put or a deletion.
pub(crate) fn write_replies(outcome: &Outcome) -> Replies
    requires { IsPutOutcome outcome.now ⊎ IsDelOutcome outcome.now }
    ensures same { result.reported ≡ result.kept }
    ensures reported { IsReplyTo outcome.now result.reported }
{
    match outcome {
        Outcome::PutDone(version) => Replies {
            kept: Reply::PutDone(*version),
            reported: Reply::PutDone(*version),
        },
        Outcome::Deleted(version) => Replies {
            kept: Reply::Deleted(*version),
            reported: Reply::Deleted(*version),
        },
        Outcome::Refused(refusal) => refused(*refusal),
        _ => unreachable!(),
    }
}

/// The replies that report the outcome of a get in this format. In format 1, where no node has a deletion or a value
/// that is longer than the format allows, a get that found one would be refused with `Memory`.
pub(crate) fn get_replies(format: Format, room: ValueRoom, outcome: Outcome) -> Replies
    requires got { IsGetOutcome outcome }
    requires room { room ≡ format }
    ensures same { result.reported ≡ result.kept }
    ensures reported { IsReplyIn format outcome result.reported }
    ensures answer { IsGetReply format result.reported }
{
    match outcome {
        Outcome::Got(value, version) => found(format, room, value, version),
        Outcome::Gone(version) => gone(format, version),
        Outcome::Missed => Replies {
            kept: Reply::Missed,
            reported: Reply::Missed,
        },
        Outcome::Refused(refusal) => refused(refusal),
        _ => unreachable!(),
    }
}

/// The replies to a get that found a value of this version.
fn found(format: Format, room: ValueRoom, value: Value, version: Version) -> Replies
    requires { room ≡ format }
    ensures same { result.reported ≡ result.kept }
    ensures reported { IsReplyIn format (FoundValue value version) result.reported }
    ensures answer { IsGetReply format result.reported }
{
    if !format.fits(Some(&value)) {
        drop(value);
        drop(room);
        return refused(Refusal::Memory);
    }
    Replies {
        kept: Reply::Got(room.copy(&value), version),
        reported: Reply::Got(value, version),
    }
}

/// The replies to a get that found a deletion of this version.
fn gone(format: Format, version: Version) -> Replies
    ensures same { result.reported ≡ result.kept }
    ensures reported { IsReplyIn format (FoundGone version) result.reported }
    ensures answer { IsGetReply format result.reported }
{
    match format {
        Format::One => refused(Refusal::Memory),
        Format::Two => Replies {
            kept: Reply::Gone(version),
            reported: Reply::Gone(version),
        },
    }
}

/// The replies that report a refusal.
fn refused(refusal: Refusal) -> Replies
    ensures { (result.kept ≡ Answer.Refused refusal) × (result.reported ≡ Answer.Refused refusal) }
{
    Replies {
        kept: Reply::Refused(refusal),
        reported: Reply::Refused(refusal),
    }
}

/// The replies that report the outcome of the question whether a pair is settled.
pub(crate) fn check_replies(asked: &Asked) -> Replies
    requires { IsAskOutcome (outcome_of asked.now) }
    ensures same { result.reported ≡ result.kept }
    ensures reported { IsReplyTo (outcome_of asked.now) result.reported }
    ensures answer { IsCheckReply result.reported }
{
    match asked {
        Asked::Yes(_) => Replies {
            kept: Reply::Yes,
            reported: Reply::Yes,
        },
        Asked::Other(outcome) => outcome_replies(outcome),
    }
}

/// The replies that report this outcome of the question whether a pair is settled.
fn outcome_replies(outcome: &Outcome) -> Replies
    requires { IsAskOutcome outcome.now }
    ensures same { result.reported ≡ result.kept }
    ensures reported { IsReplyTo outcome.now result.reported }
    ensures answer { IsCheckReply result.reported }
{
    match outcome {
        Outcome::Yes => Replies {
            kept: Reply::Yes,
            reported: Reply::Yes,
        },
        Outcome::Wait => not_yet(),
        Outcome::Refused(refusal) => refused(*refusal),
        _ => unreachable!(),
    }
}

/// The replies where a pair is not settled yet.
pub(crate) fn not_yet() -> Replies
    ensures same { result.reported ≡ result.kept }
    ensures reported { IsReplyTo NotYet result.reported }
    ensures answer { IsCheckReply result.reported }
{
    Replies {
        kept: Reply::Wait,
        reported: Reply::Wait,
    }
}
