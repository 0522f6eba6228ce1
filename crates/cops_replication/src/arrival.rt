//! Puts and deletions taken from links, and the nodes' answers to them.
ghost use Rattle.std.specs.Prelude.{◌≡◌, [], ◌∷◌, ◌++◌, IfNone, IfOk, IfSome};
ghost use Rattle.cops_types.specs.declared.put_record.PutRecord.{PutRecord};
ghost use Rattle.cops_wire.specs.Replicated.{put_after};
ghost use Rattle.cops_link.specs.Frame.{encoded};
ghost use Rattle.cops_link.specs.Link.{seen, taken};
ghost use Rattle.cops_replication.specs.Receiving.{TakesUpTo};
ghost use Rattle.cops_replication.specs.Answers.{answer_to};

use cops_link::LinkOut;
use cops_node::Outcome;
use cops_types::{Memory, PutRecord};
use cops_wire::Message;

/// What the receiver knows of a put that it took from a link.
#[derive(Clone, Copy, PartialEq)]
pub enum ArrivalState {
    /// The put still has to be delivered.
    Taken,
    /// The put still has to be delivered. A gate stopped an earlier delivery, whose answer is not known.
    Unknown,
    /// The put waits at its node.
    Waiting,
}

/// A node's answer, reduced to what a receiver acts on.
#[derive(Clone, Copy)]
pub enum NodeAnswer {
    Waits,
    Repeat,
    Marked,
    Settled,
    Other,
}

/// A put that was taken from a link.
#[derive(Drop)]
pub struct Arrival {
    pub put: PutRecord,
    pub state: ArrivalState,
}

impl NodeAnswer {
    /// The answer for an outcome; `Memory` where the outcome is a refusal because memory ran out.
    pub fn of(outcome: Outcome) -> Result<Self, Memory>
        ensures { IfOk result (λ answer. answer ≡ answer_to outcome) }
    {
        let is_memory = outcome.is_memory();
        let answer = match &outcome {
            Outcome::Held => NodeAnswer::Waits,
            Outcome::Repeat => NodeAnswer::Repeat,
            Outcome::Marked => NodeAnswer::Marked,
            Outcome::Settled => NodeAnswer::Settled,
            _ => NodeAnswer::Other,
        };
        drop(outcome);
        if is_memory { Err(Memory) } else { Ok(answer) }
    }
}

/// Whether the put waits at its node after this answer to its delivery, given its state before the delivery.
pub fn waits(answer: NodeAnswer, state: ArrivalState) -> bool {
    match answer {
        NodeAnswer::Waits => true,
        NodeAnswer::Repeat => state == ArrivalState::Unknown,
        _ => false,
    }
}

/// Takes the next frame from the link, if there is one. Returns `Memory` when memory runs out.
pub fn next_arrival(link: &mut LinkOut) -> Result<Option<Arrival>, Memory>
    ensures takes { TakesUpTo 1 link.old link.new }
    ensures some { IfOk result (λ o. IfSome o (λ a. taken link.new ≡ taken link.old ++ encoded a.put ∷ [])) }
    ensures none { IfOk result (λ o. IfNone o ((taken link.new ≡ taken link.old) × (seen link.new ≡ []))) }
{
    match link.take()? {
        Some(message) => Ok(Some(arrival_of(message))),
        None => Ok(None),
    }
}

/// The put that a message replicates. A deletion is a put without a value.
fn arrival_of(message: Message) -> Arrival
    requires { (put : PutRecord) × (message ≡ put_after put) }
    ensures { message ≡ put_after result.put }
{
    let put = match message {
        Message::PutAfter {
            key,
            value,
            version,
            deps,
        } => PutRecord {
            key,
            value: Some(value),
            version,
            deps,
        },
        Message::DelAfter { key, version, deps } => PutRecord {
            key,
            value: None,
            version,
            deps,
        },
        _ => unreachable!(),
    };
    Arrival {
        put,
        state: ArrivalState::Taken,
    }
}
