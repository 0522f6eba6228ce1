//! A client's put, deletion and get, and the single path by which every step reaches a node.
ghost use Rattle.std.specs.Prelude.{◌≡◌, ◌<◌, ◌++◌, [], ◌∷◌, IfOk, OnErr, option_copied, vec_capacity, vec_len};
ghost use Rattle.cops_types.specs.Histories.{write};
ghost use Rattle.cops_types.specs.Operations.{operation_of};
ghost use Rattle.cops_node.specs.declared.event.NodeEvent.TheVariants.{Get};
ghost use Rattle.cops_cluster.specs.Cluster.{write_event};
ghost use Rattle.cops_cluster.specs.Replies.{IsReplyOf, WasHeld};
ghost use Rattle.cops_cluster.specs.Shares.{made};

use crate::client::Client;
use crate::cluster::Cluster;
use crate::fault::Stop;
use crate::refusal::refusal;
use crate::share::{Made, Share};
use crate::spot::Spot;
use cops_node::{Book, NodeEvent, Outcome, Recorded};
use cops_record::Slot;
use cops_types::{
    Dep, Deps, Gate, GateHeld, Key, Memory, Op, Point, Refusal, Value, Version, content_copy,
};
use std::alloc::AllocError;
use std::sync::Wait;
use std::sync::atomic::Ordering;

/// A node's answer with the node's number.
#[derive(Drop)]
pub(crate) struct NodeReply {
    pub(crate) outcome: Outcome,
    pub(crate) node: u16,
}

/// What is kept of a client's operation until the node answers: the key for the client's context, and the key and
/// content for the operation that it saw. Only a put has a content.
#[derive(Drop)]
struct Kept {
    pair_key: Key,
    key: Key,
    content: Option<Value>,
}

/// The event that a client's operation sends to the node, and what is kept until the node answers.
#[derive(Drop)]
struct Request {
    event: NodeEvent,
    kept: Kept,
}

fn kept_of(key: &Key, content: Option<&Value>) -> Result<Kept, AllocError>
    ensures { IfOk result (λ kept. (kept.pair_key ≡ key.now) × (kept.key ≡ key.now) × (kept.content ≡ option_copied content.entry)) }
{
    Ok(Kept {
        pair_key: key.clone()?,
        key: key.clone()?,
        content: content_copy(content)?,
    })
}

fn write_request(client: &Client, key: Key, content: Option<Value>) -> Result<Request, Memory>
    ensures event { IfOk result (λ t. t.event ≡ write_event client.now.number key content client.now.context.pairs) }
    ensures kept { IfOk result (λ t. (t.kept.pair_key ≡ key) × (t.kept.key ≡ key) × (t.kept.content ≡ content)) }
{
    let deps = client.context.deps()?;
    let kept = kept_of(&key, content.as_ref())?;
    let event = event_of(client.number, key, content, deps);
    Ok(Request { event, kept })
}

/// The event for a client's write: a put of the content, or a deletion where there is none.
fn event_of(client: u16, key: Key, content: Option<Value>, deps: Deps) -> NodeEvent
    ensures { result ≡ write_event client key content deps }
{
    match content {
        Some(value) => NodeEvent::Put {
            client,
            key,
            value,
            deps,
        },
        None => NodeEvent::Del { client, key, deps },
    }
}

fn get_request(client: u16, key: Key) -> Result<Request, Memory>
    ensures event { IfOk result (λ t. t.event ≡ Get client key) }
    ensures kept { IfOk result (λ t. (t.kept.pair_key ≡ key) × (t.kept.key ≡ key)) }
{
    let kept = kept_of(&key, None)?;
    let event = NodeEvent::Get { client, key };
    Ok(Request { event, kept })
}

impl Cluster {
    ghost use Rattle.std.specs.Prelude.{◌≡◌, ◌<◌, ◌≤◌, ◌↔◌, ◌++◌, [], ◌∷◌, ℕ, true, false, length, None, option_copied, option_map, IfOk, IfErr, IsErrOf, IsTrue, Ok, Err, OnOk, OnErr};
    ghost use Rattle.cops_types.specs.declared.refusal.Refusal.{Refusal};
    ghost use Rattle.cops_types.specs.declared.refusal.Refusal.TheVariants.{ContextFull, NotInFormat, UnknownClient};
    ghost use Rattle.cops_cluster.specs.declared.fault.Stop.TheVariants.{Refused};
    ghost use Rattle.cops_types.specs.Format.{Fits, most_deps};
    ghost use Rattle.cops_types.specs.Operations.{operation_of};
    ghost use Rattle.cops_node.specs.declared.event.NodeEvent.TheVariants.{Put, Del, Get};
    ghost use Rattle.cops_node.specs.declared.outcome.Outcome.TheVariants.{Refused as RefusedWith};
    ghost use Rattle.cops_node.specs.Node.{node_step};
    ghost use Rattle.cops_place.specs.Place.{primary};
    ghost use Rattle.cops_types.specs.NodeNumber.{node_number};
    ghost use Rattle.cops_node.specs.Book.{entry};
    ghost use Rattle.cops_cluster.specs.Shares.{Adds, AddsAtMostOne, AddsEntry, is_refusal_of_node, is_of_node};
    ghost use Rattle.cops_cluster.specs.Cluster.{IsNode, IsSameClient, IsStop, MayHoldStep, after_get, after_write, get_seen, node_of, write_event, write_seen};
    ghost use Rattle.cops_cluster.specs.Outcomes.{IsDelOutcome, IsGetOutcome, IsNodeAnswer, IsPutOutcome, IsUnaskedGet, IsUnaskedWrite, IsUnknown, IsOutOfMemory, IsWriteOutcome, StopsWith};
    ghost use Rattle.cops_cluster.specs.Replies.{reply_of};

    /// Puts a value for a client.
    ///
    /// Refused with `UnknownClient` where the client belongs to another cluster (this one has no client of its number,
    /// no data centre of its, or another format); then with `NotInFormat` where the value is longer than the cluster's
    /// format allows; then with `SessionFull` where its session is full, `ClockExhausted` where the clock of the key's
    /// node can rise no further, and `Memory` when memory runs out. `GateHeld` where the gate stops the call.
    pub fn put<R: Wait, G: Gate>(
        &self,
        rt: &R,
        client: &mut Client,
        gate: &G,
        key: Key,
        value: Value,
    ) -> Result<Outcome, GateHeld>
        ensures owner { IsSameClient client.old client.new }
        ensures reported { IfOk result (λ out. Adds client.old.share.entries.items client.new.share.entries.items (node_of self.now client.old.dc key) (Put client.old.number key value client.old.context.pairs) out) }
        ensures most { AddsAtMostOne client.old.share.entries.items client.new.share.entries.items (node_of self.now client.old.dc key) (Put client.old.number key value client.old.context.pairs) }
        ensures context { IfOk result (λ out. client.new.context.pairs ≡ after_write client.old.context.pairs key out) }
        ensures outcome { IfOk result IsPutOutcome }
        ensures unknown { result ≡ Ok (RefusedWith UnknownClient) ↔ IsUnknown self.now client.old }
        ensures not_in_format { result ≡ Ok (RefusedWith NotInFormat) ↔ (¬ Fits self.now.format (Some value)) × (¬ IsUnknown self.now client.old) }
        ensures held { OnErr result (MayHoldStep (G.may_hold gate.now) (node_of self.now client.old.dc key) client.old.number) }
    {
        self.write(rt, client, gate, key, Some(value))
    }

    /// Deletes a key for a client, which only format 2 allows.
    ///
    /// Refused with `UnknownClient` where the client belongs to another cluster, as for a put; then with `NotInFormat`
    /// where the cluster's format has no deletions; then with `SessionFull` where its session is full, `ClockExhausted`
    /// where the clock of the key's node can rise no further, and `Memory` when memory runs out. `GateHeld` where the
    /// gate stops the call.
    pub fn del<R: Wait, G: Gate>(
        &self,
        rt: &R,
        client: &mut Client,
        gate: &G,
        key: Key,
    ) -> Result<Outcome, GateHeld>
        ensures owner { IsSameClient client.old client.new }
        ensures reported { IfOk result (λ out. Adds client.old.share.entries.items client.new.share.entries.items (node_of self.now client.old.dc key) (Del client.old.number key client.old.context.pairs) out) }
        ensures most { AddsAtMostOne client.old.share.entries.items client.new.share.entries.items (node_of self.now client.old.dc key) (Del client.old.number key client.old.context.pairs) }
        ensures context { IfOk result (λ out. client.new.context.pairs ≡ after_write client.old.context.pairs key out) }
        ensures outcome { IfOk result IsDelOutcome }
        ensures unknown { result ≡ Ok (RefusedWith UnknownClient) ↔ IsUnknown self.now client.old }
        ensures not_in_format { result ≡ Ok (RefusedWith NotInFormat) ↔ (¬ Fits self.now.format None) × (¬ IsUnknown self.now client.old) }
        ensures held { OnErr result (MayHoldStep (G.may_hold gate.now) (node_of self.now client.old.dc key) client.old.number) }
    {
        self.write(rt, client, gate, key, None)
    }

    /// Writes a content for a client: a put, or a deletion where there is no value.
    fn write<R: Wait, G: Gate>(
        &self,
        rt: &R,
        client: &mut Client,
        gate: &G,
        key: Key,
        content: Option<Value>,
    ) -> Result<Outcome, GateHeld>
        ensures owner { IsSameClient client.old client.new }
        ensures reported { IfOk result (λ out. Adds client.old.share.entries.items client.new.share.entries.items (node_of self.now client.old.dc key) (write_event client.old.number key content client.old.context.pairs) out) }
        ensures most { AddsAtMostOne client.old.share.entries.items client.new.share.entries.items (node_of self.now client.old.dc key) (write_event client.old.number key content client.old.context.pairs) }
        ensures context { IfOk result (λ out. client.new.context.pairs ≡ after_write client.old.context.pairs key out) }
        ensures outcome { IfOk result (IsWriteOutcome content) }
        ensures unknown { result ≡ Ok (RefusedWith UnknownClient) ↔ IsUnknown self.now client.old }
        ensures not_in_format { result ≡ Ok (RefusedWith NotInFormat) ↔ (¬ Fits self.now.format content) × (¬ IsUnknown self.now client.old) }
        ensures held { OnErr result (MayHoldStep (G.may_hold gate.now) (node_of self.now client.old.dc key) client.old.number) }
    {
        let number = client.number;
        let slot = match self.slot_for(rt, client, content.as_ref()) {
            Ok(slot) => slot,
            Err(refused) => {
                drop(key);
                drop(content);
                return Ok(Outcome::Refused(refused));
            }
        };
        let answered = self.write_step(rt, client, gate, key, content);
        let reply = self.spent(rt, slot, answered);
        passed(rt, gate, number, reply)
    }

    /// Reserves the recorder's slot for a client's write, or says why the write is refused before a node is asked.
    fn slot_for<R: Wait>(
        &self,
        rt: &R,
        client: &Client,
        content: Option<&Value>,
    ) -> Result<Slot, Refusal>
        ensures known { OnOk result ((client.now.dc < self.now.place.dcs) × (¬ IsUnknown self.now client.now)) }
        ensures fits { OnOk result (Fits self.now.format (option_copied content.entry)) }
        ensures unknown { IsErrOf result UnknownClient ↔ IsUnknown self.now client.now }
        ensures not_in_format { IsErrOf result NotInFormat ↔ (¬ Fits self.now.format (option_copied content.entry)) × (¬ IsUnknown self.now client.now) }
        ensures refused { IfErr result (IsUnaskedWrite (option_copied content.entry)) }
    {
        if !self.knows(client) {
            return Err(Refusal::UnknownClient);
        }
        if !self.format.fits(content) {
            return Err(Refusal::NotInFormat);
        }
        match self.recorder.reserve(rt, client.number) {
            Ok(slot) => Ok(slot),
            Err(fault) => Err(refusal(fault)),
        }
    }

    /// Gets the value of a key for a client.
    ///
    /// Refused with `UnknownClient` where the client belongs to another cluster, as for a put; then with `SessionFull`
    /// where its session is full, `ContextFull` where its context has as many pairs as the format allows, and `Memory`
    /// when memory runs out. `GateHeld` where the gate stops the call.
    pub fn get<R: Wait, G: Gate>(
        &self,
        rt: &R,
        client: &mut Client,
        gate: &G,
        key: Key,
    ) -> Result<Outcome, GateHeld>
        ensures owner { IsSameClient client.old client.new }
        ensures reported { IfOk result (λ out. Adds client.old.share.entries.items client.new.share.entries.items (node_of self.now client.old.dc key) (Get client.old.number key) out) }
        ensures most { AddsAtMostOne client.old.share.entries.items client.new.share.entries.items (node_of self.now client.old.dc key) (Get client.old.number key) }
        ensures context { IfOk result (λ out. client.new.context.pairs ≡ after_get client.old.context.pairs key out) }
        ensures full { most_deps self.now.format ≤ length client.old.context.pairs → client.new.share.entries.items ≡ client.old.share.entries.items }
        ensures outcome { IfOk result IsGetOutcome }
        ensures unknown { result ≡ Ok (RefusedWith UnknownClient) ↔ IsUnknown self.now client.old }
        ensures only_full { result ≡ Ok (RefusedWith ContextFull) → most_deps self.now.format ≤ length client.old.context.pairs }
        ensures refused { most_deps self.now.format ≤ length client.old.context.pairs → (refused : Refusal) × (result ≡ Ok (RefusedWith refused)) }
        ensures held { OnErr result (MayHoldStep (G.may_hold gate.now) (node_of self.now client.old.dc key) client.old.number) }
    {
        if !self.knows(client) {
            drop(key);
            return Ok(Outcome::Refused(Refusal::UnknownClient));
        }
        let number = client.number;
        let slot = match self.recorder.reserve(rt, number) {
            Ok(slot) => slot,
            Err(fault) => {
                drop(key);
                return Ok(Outcome::Refused(refusal(fault)));
            }
        };
        let answered = self.get_step(rt, client, gate, key);
        let reply = self.spent(rt, slot, answered);
        passed(rt, gate, number, reply)
    }

    /// Whether the cluster has a client of this number and the client's data centre, and the client's context has the
    /// cluster's format.
    fn knows(&self, client: &Client) -> bool
        ensures yes { IsTrue result → client.now.dc < self.now.place.dcs × client.now.number < self.now.clients × (client.now.context.format ≡ self.now.format) }
        ensures no { ¬ IsTrue result → IsUnknown self.now client.now }
    {
        client.number < self.clients
            && client.dc < self.place.dcs()
            && client.context.format() == self.format
    }

    /// A write, with a slot already reserved for it. Returns the node's reply, and the operation that the client saw,
    /// if any.
    fn write_step<R: Wait, G: Gate>(
        &self,
        rt: &R,
        client: &mut Client,
        gate: &G,
        key: Key,
        content: Option<Value>,
    ) -> Result<(NodeReply, Option<Op>), Stop>
        requires { client.old.dc < self.now.place.dcs }
        ensures owner { IsSameClient client.old client.new }
        ensures reported { IfOk result (λ a. AddsEntry client.old.share.entries.items client.new.share.entries.items (node_of self.now client.old.dc key) (write_event client.old.number key content client.old.context.pairs) a.0.outcome) }
        ensures own { IfOk result (λ a. is_of_node a.0.outcome ≡ true) }
        ensures node { IfOk result (λ a. a.0.node ≡ node_of self.now client.old.dc key) }
        ensures context { IfOk result (λ a. client.new.context.pairs ≡ after_write client.old.context.pairs key a.0.outcome) }
        ensures seen { IfOk result (λ a. option_map operation_of a.1 ≡ write_seen key content a.0.outcome) }
        ensures outcome { IfOk result (λ a. IsWriteOutcome content a.0.outcome) }
        ensures stops { IfErr result (StopsWith IsOutOfMemory) }
        ensures none { OnErr result (client.new.share.entries.items ≡ client.old.share.entries.items) }
        ensures kept { OnErr result (client.new.context.pairs ≡ client.old.context.pairs) }
        ensures stop { IfErr result (IsStop (G.may_hold gate.now) (node_of self.now client.old.dc key) client.old.number) }
    {
        let Some(spot) = self.spot_of(client.dc, &key) else {
            unreachable!()
        };
        let number = client.number;
        let Request { event, kept } = write_request(client, key, content)?;
        match self.step(rt, &mut client.share, gate, number, spot, event) {
            Ok((reply, seen)) => {
                let op = client.wrote(kept, &seen);
                drop(seen);
                Ok((reply, op))
            }
            Err(stop) => {
                drop(kept);
                Err(stop)
            }
        }
    }

    /// A get, with a slot already reserved for it. Returns the node's reply, and the operation that the client saw,
    /// if any.
    fn get_step<R: Wait, G: Gate>(
        &self,
        rt: &R,
        client: &mut Client,
        gate: &G,
        key: Key,
    ) -> Result<(NodeReply, Option<Op>), Stop>
        requires dc { client.old.dc < self.now.place.dcs }
        requires format { client.old.context.format ≡ self.now.format }
        ensures owner { IsSameClient client.old client.new }
        ensures reported { IfOk result (λ a. AddsEntry client.old.share.entries.items client.new.share.entries.items (node_of self.now client.old.dc key) (Get client.old.number key) a.0.outcome) }
        ensures own { IfOk result (λ a. is_of_node a.0.outcome ≡ true) }
        ensures node { IfOk result (λ a. a.0.node ≡ node_of self.now client.old.dc key) }
        ensures context { IfOk result (λ a. client.new.context.pairs ≡ after_get client.old.context.pairs key a.0.outcome) }
        ensures seen { IfOk result (λ a. option_map operation_of a.1 ≡ get_seen key a.0.outcome) }
        ensures outcome { IfOk result (λ a. IsGetOutcome a.0.outcome) }
        ensures stops { IfErr result (StopsWith (IsUnaskedGet self.now.format (length client.old.context.pairs))) }
        ensures full { most_deps self.now.format ≤ length client.old.context.pairs → result ≡ Err (Refused ContextFull) }
        ensures none { OnErr result (client.new.share.entries.items ≡ client.old.share.entries.items) }
        ensures kept { OnErr result (client.new.context.pairs ≡ client.old.context.pairs) }
        ensures stop { IfErr result (IsStop (G.may_hold gate.now) (node_of self.now client.old.dc key) client.old.number) }
    {
        let spot = match self.spot_with_room(client, &key) {
            Ok(spot) => spot,
            Err(refused) => {
                drop(key);
                return Err(Stop::Refused(refused));
            }
        };
        let number = client.number;
        let Request { event, kept } = get_request(number, key)?;
        match self.step(rt, &mut client.share, gate, number, spot, event) {
            Ok((reply, seen)) => {
                let op = client.saw(kept.pair_key, kept.key, seen);
                Ok((reply, op))
            }
            Err(stop) => {
                drop(kept);
                Err(stop)
            }
        }
    }

    /// The key's node in the client's data centre, with room for one more pair reserved in the client's context;
    /// otherwise why the get is refused.
    fn spot_with_room(&self, client: &mut Client, key: &Key) -> Result<Spot, Refusal>
        requires dc { client.old.dc < self.now.place.dcs }
        requires format { client.old.context.format ≡ self.now.format }
        ensures spot { IfOk result (λ spot. (spot.dc ≡ client.old.dc) × (spot.place ≡ primary self.now.place.splits key.now) × IsNode self.now spot.dc spot.place) }
        ensures room { OnOk result ((length client.old.context.pairs < most_deps self.now.format) × (client.new.context.room ≡ true)) }
        ensures same { (client.new.number ≡ client.old.number) × (client.new.dc ≡ client.old.dc) × (client.new.share ≡ client.old.share) × (client.new.context.format ≡ client.old.context.format) }
        ensures pairs { client.new.context.pairs ≡ client.old.context.pairs }
        ensures full { most_deps self.now.format ≤ length client.old.context.pairs → result ≡ Err ContextFull }
        ensures refused { IfErr result (λ refused. (is_refusal_of_node refused ≡ false) × IsUnaskedGet self.now.format (length client.old.context.pairs) (RefusedWith refused)) }
    {
        let Some(spot) = self.spot_of(client.dc, key) else {
            unreachable!()
        };
        if !client.context.has_room() {
            return Err(Refusal::ContextFull);
        }
        match client.context.reserve() {
            Ok(()) => Ok(spot),
            Err(_) => Err(Refusal::Memory),
        }
    }

    /// Uses up a slot: fills it with the operation that the client saw, or cancels it where there is none.
    fn spent<R: Wait>(
        &self,
        rt: &R,
        slot: Slot,
        answered: Result<(NodeReply, Option<Op>), Stop>,
    ) -> Result<NodeReply, Stop>
        ensures { result ≡ reply_of answered }
    {
        match answered {
            Ok((reply, op)) => {
                match op {
                    Some(op) => self.recorder.fill(rt, slot, op),
                    None => self.recorder.cancel(rt, slot),
                }
                Ok(reply)
            }
            Err(stop) => {
                self.recorder.cancel(rt, slot);
                Err(stop)
            }
        }
    }

    /// Runs one step of a node, which it locks, and adds the step's entry to the holder's share. Returns the node's
    /// reply, and a copy of its outcome.
    pub(crate) fn step<R: Wait, G: Gate>(
        &self,
        rt: &R,
        share: &mut Share,
        gate: &G,
        client: u16,
        spot: Spot,
        event: NodeEvent,
    ) -> Result<(NodeReply, Outcome), Stop>
        requires { IsNode self.now spot.dc spot.place }
        ensures owner { share.new.holder ≡ share.old.holder }
        ensures reported { IfOk result (λ t. AddsEntry share.old.entries.items share.new.entries.items (node_number spot.dc spot.place) event t.0.outcome) }
        ensures own { IfOk result (λ t. is_of_node t.0.outcome ≡ true) }
        ensures node { IfOk result (λ t. t.0.node ≡ node_number spot.dc spot.place) }
        ensures copy { IfOk result (λ t. t.1 ≡ t.0.outcome) }
        ensures outcome { IfOk result (λ t. IsNodeAnswer event t.0.outcome) }
        ensures stops { IfErr result (StopsWith IsOutOfMemory) }
        ensures none { OnErr result (share.new.entries.items ≡ share.old.entries.items) }
        ensures stop { IfErr result (IsStop (G.may_hold gate.now) (node_number spot.dc spot.place) client) }
    {
        if share.entries.reserve(1).is_err() {
            drop(event);
            return Err(Stop::Refused(Refusal::Memory));
        }
        let mut book = self.lock_of(spot).lock(rt);
        let recorded = self.asked(rt, gate, client, spot, &mut book, event)?;
        drop(book);
        Ok(gained(share, spot.number(), recorded))
    }

    /// Runs one step of a node whose lock is held, and adds the entry to its log.
    pub(crate) fn asked<R: Wait, G: Gate>(
        &self,
        rt: &R,
        gate: &G,
        client: u16,
        spot: Spot,
        book: &mut Book,
        event: NodeEvent,
    ) -> Result<Recorded, Stop>
        ensures stepped { IfOk result (λ t. node_step book.old.node event ≡ (t.outcome, book.new.node)) }
        ensures entered { IfOk result (λ t. book.new.entries ≡ book.old.entries ++ t.entry ∷ []) }
        ensures copies { IfOk result (λ t. (t.seen ≡ t.outcome) × ((ticket : ℕ) × (t.entry ≡ entry ticket event t.outcome))) }
        ensures answers { IfOk result (λ t. is_of_node t.outcome ≡ true) }
        ensures none { OnErr result (book.new ≡ book.old) }
        ensures stops { IfErr result (StopsWith IsOutOfMemory) }
        ensures stop { IfErr result (IsStop (G.may_hold gate.now) (node_number spot.dc spot.place) client) }
    {
        let node = spot.number();
        if gate.pass(rt, Point::InStep { node, client }).is_err() {
            drop(event);
            return Err(Stop::GateHeld);
        }
        let ticket = self.tickets.fetch_add(1, Ordering::SeqCst);
        match book.step_recorded(ticket, event) {
            Ok(recorded) => Ok(recorded),
            Err(_) => Err(Stop::Refused(Refusal::Memory)),
        }
    }
}

impl Client {
    ghost use Rattle.std.specs.Prelude.{◌≡◌, ◌<◌, true, length, option_map};
    ghost use Rattle.cops_types.specs.Format.{most_deps};
    ghost use Rattle.cops_types.specs.Operations.{operation_of};
    ghost use Rattle.cops_context.specs.Context.{with_pair};
    ghost use Rattle.cops_cluster.specs.Cluster.{after_get, after_write, get_seen, write_seen};

    /// Handles the answer to the client's write. Returns the operation that it saw; after a version was given, the
    /// context has the write's pair alone.
    fn wrote(&mut self, kept: Kept, answer: &Outcome) -> Option<Op>
        requires { kept.pair_key ≡ kept.key }
        ensures context { self.new.context.pairs ≡ after_write self.old.context.pairs kept.key answer.now }
        ensures seen { option_map operation_of result ≡ write_seen kept.key kept.content answer.now }
        ensures same { (self.new.number ≡ self.old.number) × (self.new.dc ≡ self.old.dc) × (self.new.share ≡ self.old.share) × (self.new.context.format ≡ self.old.context.format) }
    {
        let Some(version) = answer.version_given() else {
            drop(kept);
            return None;
        };
        let Kept {
            pair_key,
            key,
            content,
        } = kept;
        self.context.replace(Dep {
            key: pair_key,
            version,
        });
        Some(Op::write(key, content, version))
    }

    /// Handles the answer to the client's get. Returns the operation that it saw, and adds the pair that it returned to
    /// the context.
    fn saw(&mut self, pair_key: Key, key: Key, answer: Outcome) -> Option<Op>
        requires key { pair_key ≡ key }
        requires room { self.old.context.room ≡ true }
        requires few { length self.old.context.pairs < most_deps self.old.context.format }
        ensures context { self.new.context.pairs ≡ after_get self.old.context.pairs key answer }
        ensures seen { option_map operation_of result ≡ get_seen key answer }
        ensures same { (self.new.number ≡ self.old.number) × (self.new.dc ≡ self.old.dc) × (self.new.share ≡ self.old.share) × (self.new.context.format ≡ self.old.context.format) }
    {
        match answer {
            Outcome::Got(value, version) => {
                self.met(pair_key, version);
                Some(Op::Got {
                    key,
                    value,
                    version,
                })
            }
            Outcome::Gone(version) => {
                self.met(pair_key, version);
                Some(Op::Gone { key, version })
            }
            Outcome::Missed => Some(Op::Missed { key }),
            _ => None,
        }
    }

    /// Adds a pair to the client's context.
    fn met(&mut self, key: Key, version: Version)
        requires room { self.old.context.room ≡ true }
        requires few { length self.old.context.pairs < most_deps self.old.context.format }
        ensures context { self.new.context.pairs ≡ with_pair self.old.context.pairs (record { key = key; version = version }) }
        ensures same { (self.new.number ≡ self.old.number) × (self.new.dc ≡ self.old.dc) × (self.new.share ≡ self.old.share) × (self.new.context.format ≡ self.old.context.format) }
    {
        self.context.add(Dep { key, version }).unwrap()
    }
}

/// Adds to the share the entry of a step of the node with this number. Returns the node's reply, and a copy of its
/// outcome.
pub(crate) fn gained(share: &mut Share, node: u16, recorded: Recorded) -> (NodeReply, Outcome)
    requires { vec_len share.old.entries < vec_capacity share.old.entries }
    ensures owner { share.new.holder ≡ share.old.holder }
    ensures entries { share.new.entries.items ≡ share.old.entries.items ++ made node recorded.entry ∷ [] }
    ensures reply { (result.0.outcome ≡ recorded.outcome) × (result.0.node ≡ node) }
    ensures copy { result.1 ≡ recorded.seen }
{
    let Recorded {
        outcome,
        seen,
        entry,
    } = recorded;
    share.entries.push_reserved(Made { entry, node });
    (NodeReply { outcome, node }, seen)
}

/// The outcome that the caller gets, after the gate has let a node's answer pass.
pub(crate) fn passed<R: Wait, G: Gate>(
    rt: &R,
    gate: &G,
    client: u16,
    reply: Result<NodeReply, Stop>,
) -> Result<Outcome, GateHeld>
    ensures reported { IfOk result (IsReplyOf reply) }
    ensures held { OnErr result (WasHeld (G.may_hold gate.now) client reply) }
{
    match reply {
        Ok(NodeReply { outcome, node }) => {
            if gate.pass(rt, Point::Answered { node, client }).is_err() {
                drop(outcome);
                return Err(GateHeld);
            }
            Ok(outcome)
        }
        Err(Stop::Refused(refused)) => Ok(Outcome::Refused(refused)),
        Err(Stop::GateHeld) => Err(GateHeld),
    }
}
