//! A message and its reply.
ghost use Rattle.std.specs.Prelude.{◌≡◌, ◌++◌, ◌∷◌, [], List, true, IfOk, OnErr};
ghost use Rattle.cops_types.specs.declared.format.Format.{Format as AFormat};
ghost use Rattle.cops_net.specs.declared.reply.Call.{Call as ACall};
ghost use Rattle.cops_net.specs.Answers.{IsWelcome, IsReplyIn, IsStanding};
ghost use Rattle.cops_net.specs.Protocol.{Hands, IsLegalIn, capped, is_handed, outcome, reported, seq_of, standing, welcome, welcomes};
ghost use Rattle.cops_net.specs.Turns.{is_welcome, IsTurn};

use crate::own::{is_handed, own_reply, refused};
use crate::reply::Reply;
use crate::session::Session;
use cops_types::{Memory, NodeStatus, Refusal};
use cops_wire::Message;
use std::sync::Wait;

/// The answer to a greeting as a message.
fn welcome(answer: Result<(u8, u8), Refusal>) -> Message
    requires { IsWelcome answer }
    ensures message { result ≡ welcome 0 answer }
    ensures legal { (format : AFormat) → IsLegalIn format result }
{
    match answer {
        Ok((dc, nodes)) => Message::HelloOk { dc, nodes },
        Err(refusal) => refused(0, refusal),
    }
}

/// A session's answer as a message.
fn outcome(seq: u32, reply: Reply) -> Message
    ensures message { result ≡ outcome seq reply }
    ensures legal { (format : AFormat) → IsReplyIn format reply → IsLegalIn format result }
{
    match reply {
        Reply::PutDone(version) => {
            let _version = version.as_u64();
            Message::PutDone { seq, version }
        }
        Reply::Deleted(version) => {
            let _version = version.as_u64();
            Message::Deleted { seq, version }
        }
        Reply::Got(value, version) => {
            let _value = value.as_bytes();
            let _version = version.as_u64();
            Message::Got {
                seq,
                value,
                version,
            }
        }
        Reply::Gone(version) => {
            let _version = version.as_u64();
            Message::Gone { seq, version }
        }
        Reply::Missed => Message::Missed { seq },
        Reply::Yes => Message::DepYes { seq },
        Reply::Wait => Message::DepWait { seq },
        Reply::Refused(refusal) => refused(seq, refusal),
    }
}

/// A count as a message can hold it: capped at 4,294,967,295.
fn capped(count: u64) -> u32
    ensures { result ≡ capped count }
{
    count.min(u64::from(u32::MAX)) as u32
}

/// A node's status as a message.
fn standing(seq: u32, status: Option<NodeStatus>) -> Message
    requires { IsStanding status }
    ensures message { result ≡ standing seq status }
    ensures legal { (format : AFormat) → IsLegalIn format result }
{
    match status {
        Some(status) => Message::StatusIs {
            seq,
            clock: status.clock,
            keys: capped(status.keys),
            settled: capped(status.settled),
            held: capped(status.held),
        },
        None => refused(seq, Refusal::NoSuchNode),
    }
}

/// Hands a message to the session, which has room for the call, and returns the reply that reports its answer.
fn ask<R: Wait, S: Session>(rt: &R, session: &mut S, greeted: bool, message: Message) -> Message
    requires handed { is_handed (S.format session.old) greeted message ≡ true }
    requires room { S.has_room session.old }
    ensures reported { (call : ACall) × (S.calls session.new ≡ S.calls session.old ++ call ∷ [])
        × Hands message call × (result ≡ reported (seq_of message) call) × (is_welcome result ≡ welcomes call) }
    ensures legal { IsLegalIn (S.format session.old) result }
    ensures kept_format { S.format session.new ≡ S.format session.old }
    ensures ended { S.ended session.new ≡ S.ended session.old }
{
    let _greeted = greeted;
    match message {
        Message::Hello { client, .. } => welcome(session.hello(client)),
        Message::Put { seq, key, value } => outcome(seq, session.put(rt, key, value)),
        Message::Del { seq, key } => outcome(seq, session.del(rt, &key)),
        Message::Get { seq, key } => outcome(seq, session.get(rt, &key)),
        Message::DepCheck { seq, key, version } => {
            outcome(seq, session.dep_check(rt, &key, version))
        }
        Message::Status { seq, node } => standing(seq, session.status(rt, node)),
        _ => unreachable!(),
    }
}

/// The reply to a message, which takes one call of the session or none. On `Memory` the message was not handed to the
/// session.
pub(crate) fn answer<R: Wait, S: Session>(
    rt: &R,
    session: &mut S,
    greeted: bool,
    message: Message,
) -> Result<Message, Memory>
    ensures ok { IfOk result (λ reply. (gained : List ACall) × (S.calls session.new ≡ S.calls session.old ++ gained)
        × IsTurn (S.format session.old) greeted message gained reply) }
    ensures err { OnErr result (S.calls session.new ≡ S.calls session.old) }
    ensures legal { IfOk result (λ reply. IsLegalIn (S.format session.old) reply) }
    ensures kept_format { S.format session.new ≡ S.format session.old }
    ensures ended { S.ended session.new ≡ S.ended session.old }
{
    if !is_handed(session.format(), greeted, &message) {
        let reply = own_reply(greeted, &message);
        drop(message);
        return Ok(reply);
    }
    match session.room() {
        Ok(()) => Ok(ask(rt, session, greeted, message)),
        Err(fault) => {
            drop(message);
            Err(fault)
        }
    }
}
