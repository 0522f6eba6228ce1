//! The session handler that answers a cluster's clients.
ghost use Rattle.std.specs.Option.{ForSome};
ghost use Rattle.std.specs.Prelude.{◌≡◌, ◌<◌, IfOk, vec_len};
ghost use Rattle.cops_serve.specs.Seats.{AreSeated};

use crate::replicating::{receive_each, send_each};
use crate::replying::{Replies, check_replies, get_replies, not_yet, write_replies};
use crate::writing::written;
use cops_cluster::{Client, Cluster};
use cops_net::{Call, Reply, Session};
use cops_node::Outcome;
use cops_replication::{Receiver, Sender};
use cops_types::{
    Format, GateHeld, Key, KeyRoom, Memory, NodeStatus, OpenGate, Refusal, Value, ValueRoom,
    Version,
};
use std::alloc::{AllocError, Global};
use std::sync::Wait;

/// The client that has greeted, by its number, and its data centre.
#[derive(Clone, Copy, Debug)]
pub(crate) struct Greeted {
    pub(crate) client: u16,
    pub(crate) dc: u8,
}

/// Memory reserved for the copies that a call makes after its step.
#[derive(Drop)]
pub(crate) struct ReplyRoom {
    key: KeyRoom,
    value: ValueRoom,
}

impl ReplyRoom {
    fn new_in(format: Format, alloc: Global) -> Result<ReplyRoom, AllocError>
        ensures { IfOk result (λ room. room.value ≡ format) }
    {
        Ok(ReplyRoom {
            key: KeyRoom::new(alloc)?,
            value: ValueRoom::new_in(format, alloc)?,
        })
    }
}

/// A cluster behind the front door: its format; its clients, one of which has greeted in a session; the senders and
/// receivers that replicate its puts after each session, on this thread and in at most `turns` rounds of turns; the
/// calls so far; and the number of sessions that have ended.
#[derive(Drop)]
pub struct FrontEnd {
    pub(crate) format: Format,
    pub(crate) turns: u32,
    pub(crate) cluster: Cluster,
    pub(crate) clients: Vec<Client>,
    pub(crate) senders: Vec<Sender>,
    pub(crate) receivers: Vec<Receiver>,
    pub(crate) greeted: Option<Greeted>,
    pub(crate) calls: Vec<Call>,
    pub(crate) ended: u64,
    pub(crate) room: Option<ReplyRoom>,
    pub(crate) alloc: Global,
    ghost in_format: { format ≡ cluster.format },
    ghost roomy: { ForSome room (λ r. r.value ≡ format) },
    ghost at_home: { ForSome greeted (λ g. (g.client < vec_len clients) × (g.dc < cluster.place.dcs)) },
    ghost seated: { AreSeated cluster.clients cluster.place.dcs clients.items receivers.items },
}

impl FrontEnd {
    ghost use Rattle.cops_types.specs.declared.limits.TheConstants.{MAX_DCS};
    ghost use Rattle.std.specs.Prelude.{◌≡◌, ◌<◌, ◌++◌, ◌∷◌, [], ℕ, IfNone, IfSome, option_copied, vec_len, vec_capacity};
    ghost use Rattle.cops_cluster.specs.Outcomes.{IsGetOutcome, IsWriteOutcome};
    ghost use Rattle.cops_net.specs.Answers.{IsCheckReply};
    ghost use Rattle.cops_serve.specs.FrontEnd.{Checks, GetsAs, IsHome, IsSame, IsUnnoted, Writes, WritesAs};
    ghost use Rattle.cops_serve.specs.Replying.{IsOutcomeIn, IsWriteReply};

    /// Records a call with its answer. Everything else stays unchanged.
    fn record_call(&mut self, call: Call)
        requires { vec_len self.old.calls < vec_capacity self.old.calls }
        ensures recorded { self.new.calls.items ≡ self.old.calls.items ++ call ∷ [] }
        ensures same { IsSame self.old self.new }
    {
        self.calls.push_reserved(call);
    }

    /// The client that may greet with this number, and its data centre; `None` where there is no such client or its
    /// data centre does not exist.
    fn home_of(&self, client: u16) -> Option<Greeted>
        ensures some { IfSome result (λ g. (g.client ≡ client) × IsHome self.now client g.dc) }
        ensures there { IfSome result (λ g. (g.client < vec_len self.now.clients) × (g.dc < self.now.cluster.place.dcs) × (g.dc < MAX_DCS)) }
        ensures none { IfNone result ((dc : ℕ) → IsHome self.now client dc → ⊥) }
    {
        let dc = self.clients.get(usize::from(client))?.dc();
        if dc < self.cluster.dcs() {
            Some(Greeted { client, dc })
        } else {
            None
        }
    }

    /// Writes a content for the client that has greeted: a put, or a deletion where there is no value. Returns the
    /// outcome of the cluster's call, which the client's share and context show. Refused with `UnknownClient` where no
    /// client has greeted, and with `Memory` when memory runs out. No other client changes.
    fn write_outcome<R: Wait>(&mut self, rt: &R, key: &Key, content: Option<&Value>) -> Outcome
        ensures outcome { IsWriteOutcome (option_copied content.entry) result }
        ensures in_format { IsOutcomeIn self.old.cluster.format result }
        ensures done { WritesAs self.old key.now (option_copied content.entry) result self.new }
        ensures same { IsUnnoted self.old self.new }
    {
        let Some(greeted) = self.greeted else {
            return Outcome::Refused(Refusal::UnknownClient);
        };
        let Some(client) = self.clients.get_mut(usize::from(greeted.client)) else {
            unreachable!()
        };
        written(rt, &self.cluster, client, key, content)
    }

    /// The write of the client that has greeted, as a reply.
    fn write_reply<R: Wait>(&mut self, rt: &R, key: &Key, content: Option<&Value>) -> Replies
        ensures twice { result.reported ≡ result.kept }
        ensures reply { IsWriteReply self.old.cluster.format (option_copied content.entry) result.reported }
        ensures done { Writes self.old key.now (option_copied content.entry) result.reported self.new }
        ensures same { IsUnnoted self.old self.new }
    {
        let outcome = self.write_outcome(rt, key, content);
        write_replies(&outcome)
    }

    /// Gets the value of a key for the client that has greeted. Returns the outcome of the cluster's get, which the
    /// client's share and context show. Refused with `UnknownClient` where no client has greeted, and with `Memory`
    /// when memory runs out. No other client changes.
    fn get_outcome<R: Wait>(&mut self, rt: &R, key: &Key) -> Outcome
        ensures outcome { IsGetOutcome result }
        ensures done { GetsAs self.old key.now result self.new }
        ensures same { IsUnnoted self.old self.new }
    {
        let Some(greeted) = self.greeted else {
            return Outcome::Refused(Refusal::UnknownClient);
        };
        let Some(client) = self.clients.get_mut(usize::from(greeted.client)) else {
            unreachable!()
        };
        let Ok(key) = key.clone() else {
            return Outcome::Refused(Refusal::Memory);
        };
        match self.cluster.get(rt, client, &OpenGate, key) {
            Ok(outcome) => outcome,
            Err(GateHeld) => unreachable!(),
        }
    }

    /// Asks whether a pair is settled in the data centre of the client that has greeted. Replies with the outcome of
    /// the cluster's question, which the client's share shows, or with not yet where no client has greeted. No other
    /// client changes.
    fn checked<R: Wait>(&mut self, rt: &R, key: &Key, version: Version) -> Replies
        ensures twice { result.reported ≡ result.kept }
        ensures reply { IsCheckReply result.reported }
        ensures done { Checks self.old key.now version result.reported self.new }
        ensures same { IsUnnoted self.old self.new }
    {
        let Some(greeted) = self.greeted else {
            return not_yet();
        };
        let Some(client) = self.clients.get_mut(usize::from(greeted.client)) else {
            unreachable!()
        };
        let share = client.share();
        match self
            .cluster
            .ask(rt, share, &OpenGate, greeted.dc, key, version)
        {
            Ok(asked) => check_replies(&asked),
            Err(GateHeld) => unreachable!(),
        }
    }

    /// Makes one turn of every sender and then of every receiver. Returns whether any of them did something, or ran out
    /// of memory. No client changes.
    fn round<R: Wait>(&mut self, rt: &R) -> bool
        ensures recorded { self.new.calls.items ≡ self.old.calls.items }
        ensures clients { (self.new.clients ≡ self.old.clients) × (self.new.greeted ≡ self.old.greeted) }
        ensures same { (self.new.turns ≡ self.old.turns) × (self.new.cluster ≡ self.old.cluster)
            × (self.new.ended ≡ self.old.ended) }
    {
        let is_sending = send_each(rt, &self.cluster, &mut self.senders);
        let is_receiving = receive_each(rt, &self.cluster, &mut self.receivers);
        is_sending | is_receiving
    }
}

impl Session for FrontEnd {
    ghost use Rattle.cops_serve.specs.FrontEnd.{Checks, Dels, Ends, Gets, HasRoom, Hellos, IsSame, Puts, Statuses};

    ghost calls = { λ f. f.calls.items };

    ghost format = { λ f. f.cluster.format };

    ghost ended = { λ f. f.ended };

    ghost has_room = { HasRoom };

    ghost rooms = { IsSame };

    ghost hellos = { Hellos };

    ghost puts = { Puts };

    ghost dels = { Dels };

    ghost gets = { Gets };

    ghost dep_checks = { Checks };

    ghost statuses = { Statuses };

    ghost ends = { Ends };

    fn calls(&self) -> &[Call] {
        &self.calls
    }

    fn format(&self) -> Format {
        self.format
    }

    fn room(&mut self) -> Result<(), Memory> {
        if self.room.is_none() {
            self.room = Some(ReplyRoom::new_in(self.format, self.alloc)?);
        }
        self.calls.reserve(1)?;
        Ok(())
    }

    fn hello(&mut self, client: u16) -> Result<(u8, u8), Refusal> {
        let Some(greeted) = self.home_of(client) else {
            let answer = Err(Refusal::UnknownClient);
            self.record_call(Call::Hello { client, answer });
            return Err(Refusal::UnknownClient);
        };
        let nodes = self.cluster.nodes();
        self.greeted = Some(greeted);
        let answer = Ok((greeted.dc, nodes));
        self.record_call(Call::Hello { client, answer });
        Ok((greeted.dc, nodes))
    }

    fn put<R: Wait>(&mut self, rt: &R, key: Key, value: Value) -> Reply {
        let replies = self.write_reply(rt, &key, Some(&value));
        let answer = replies.kept;
        self.record_call(Call::Put { key, value, answer });
        replies.reported
    }

    fn del<R: Wait>(&mut self, rt: &R, key: &Key) -> Reply {
        let replies = self.write_reply(rt, key, None);
        let Some(room) = self.room.take() else {
            unreachable!()
        };
        self.record_call(Call::Del {
            key: room.key.copy(key),
            answer: replies.kept,
        });
        replies.reported
    }

    fn get<R: Wait>(&mut self, rt: &R, key: &Key) -> Reply {
        let outcome = self.get_outcome(rt, key);
        let Some(room) = self.room.take() else {
            unreachable!()
        };
        let replies = get_replies(self.format, room.value, outcome);
        self.record_call(Call::Get {
            key: room.key.copy(key),
            answer: replies.kept,
        });
        replies.reported
    }

    fn dep_check<R: Wait>(&mut self, rt: &R, key: &Key, version: Version) -> Reply {
        let replies = self.checked(rt, key, version);
        let Some(room) = self.room.take() else {
            unreachable!()
        };
        self.record_call(Call::DepCheck {
            key: room.key.copy(key),
            version,
            answer: replies.kept,
        });
        replies.reported
    }

    fn status<R: Wait>(&mut self, rt: &R, place: u8) -> Option<NodeStatus> {
        let answer = match self.greeted {
            Some(greeted) => self.cluster.status(rt, greeted.dc, place),
            None => None,
        };
        self.record_call(Call::Status { place, answer });
        answer
    }

    fn after_session<R: Wait>(&mut self, rt: &R) {
        self.greeted = None;
        for _ in 0..self.turns {
            if !self.round(rt) {
                break;
            }
        }
        self.ended = self.ended.saturating_add(1);
    }
}
