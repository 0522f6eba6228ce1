//! The steps by which a data centre receives puts of other data centres: deliveries, dependency checks, marks and
//! settlements.
ghost use Rattle.std.specs.Prelude.{◌≡◌};
ghost use Rattle.cops_cluster.specs.Receiving.{IsAskedOf, outcome_of};
ghost use Rattle.cops_cluster.specs.Replies.{reply_of};

use crate::cluster::Cluster;
use crate::fault::Stop;
use crate::share::Share;
use crate::spot::Spot;
use crate::stepping::{NodeReply, gained, passed};
use cops_node::{Book, Node, NodeEvent, Outcome, Recorded};
use cops_types::{Dep, Gate, GateHeld, Key, PutRecord, Refusal, Version};
use std::sync::Wait;

/// The client number that a gate gets for a receiver's steps.
pub const RECEIVER: u16 = 65_535;

/// A Yes to a dependency check: exactly this pair is settled in this data centre.
#[derive(Debug, Drop)]
pub struct Yes {
    dc: u8,
    key: Key,
    version: Version,
}

/// A node's answer to the question whether a pair is settled.
#[derive(Debug, Drop)]
pub enum Asked {
    /// The pair is settled.
    Yes(Yes),
    /// The pair is not settled, or the question was refused.
    Other(Outcome),
}

impl Yes {
    ghost use Rattle.std.specs.Prelude.{◌↔◌, IsTrue};
    ghost use Rattle.cops_held.specs.Held.{waiting};
    ghost use Rattle.cops_node.specs.Node.{dep_at};
    ghost use Rattle.cops_cluster.specs.Receiving.{Allows, Forbids, IsFor};

    /// Whether this answer allows marking dependency `dep` of the put that waits at `version` at a node of data centre
    /// `dc`. It does if it is an answer for that dependency's pair in that data centre. It also does where there is no
    /// such put or dependency, since the node then refuses the mark itself.
    pub fn allows(&self, dc: u8, node: &Node, version: Version, dep: u16) -> bool
        ensures yes { IsTrue result → Allows self.now dc (dep_at (waiting node.now.held version) dep) }
        ensures no { ¬ IsTrue result → Forbids self.now dc (dep_at (waiting node.now.held version) dep) }
    {
        match node.dep_of(version, dep) {
            Some(pair) => self.is_for(dc, pair),
            None => true,
        }
    }

    /// Whether this is an answer for this pair in this data centre.
    fn is_for(&self, dc: u8, pair: &Dep) -> bool
        ensures { IsTrue result ↔ IsFor self.now dc pair.now }
    {
        if self.dc != dc {
            return false;
        }
        if self.version != pair.version {
            return false;
        }
        self.key.is(&pair.key)
    }
}

impl Cluster {
    ghost use Rattle.std.specs.Prelude.{◌≡◌, ◌<◌, ◌≤◌, ◌↔◌, ◌⊎◌, ◌++◌, [], ◌∷◌, ℕ, true, length, Ok, IfOk, IfErr, IsErrOf, OnOk, OnErr};
    ghost use Rattle.cops_types.specs.declared.refusal.Refusal.TheVariants.{NotHeld, NoYes, UnknownDc};
    ghost use Rattle.cops_types.specs.NodeNumber.{place_of, node_number};
    ghost use Rattle.cops_cluster.specs.declared.receiving.TheConstants.{RECEIVER};
    ghost use Rattle.cops_node.specs.declared.outcome.Outcome.TheVariants.{Marked as OnceMarked, Refused as RefusedWith};
    ghost use Rattle.cops_held.specs.Held.{waiting};
    ghost use Rattle.cops_node.specs.declared.event.NodeEvent.TheVariants.{Ask, Deliver, Mark, Settle};
    ghost use Rattle.cops_node.specs.Node.{dep_at, node_step};
    ghost use Rattle.cops_place.specs.Place.{primary};
    ghost use Rattle.cops_node.specs.Book.{entry};
    ghost use Rattle.cops_cluster.specs.Shares.{Adds, AddsAtMostOne, AddsEntry, is_of_node};
    ghost use Rattle.cops_cluster.specs.Cluster.{IsNode, IsStop, MayHoldStep, node_of};
    ghost use Rattle.cops_cluster.specs.Outcomes.{IsAskOutcome, IsDeliverOutcome, IsMarkOutcome, IsNodeAnswer, IsSettleOutcome, IsOutOfMemory, StopsWith};
    ghost use Rattle.cops_cluster.specs.Receiving.{Allows, Forbids, IsAllowedMark, IsAskedOf, IsMarkedAs, IsUnaskedMark, outcome_of};
    ghost use Rattle.cops_cluster.specs.declared.fault.Stop.TheVariants.{Refused};

    /// Delivers a put of another data centre to its key's node in data centre `dc`.
    ///
    /// Refused with `UnknownDc` where there is no such data centre, and with `Memory` when memory runs out. `GateHeld`
    /// where the gate stops the call.
    pub fn deliver<R: Wait, G: Gate>(
        &self,
        rt: &R,
        share: &mut Share,
        gate: &G,
        dc: u8,
        put: PutRecord,
    ) -> Result<Outcome, GateHeld>
        ensures owner { share.new.holder ≡ share.old.holder }
        ensures reported { IfOk result (λ out. Adds share.old.entries.items share.new.entries.items (node_of self.now dc put.key) (Deliver put) out) }
        ensures most { AddsAtMostOne share.old.entries.items share.new.entries.items (node_of self.now dc put.key) (Deliver put) }
        ensures answer { dc < self.now.place.dcs → IfOk result (λ out. IsNodeAnswer (Deliver put) out ⊎ IsOutOfMemory out) }
        ensures outcome { dc < self.now.place.dcs → IfOk result IsDeliverOutcome }
        ensures unknown { self.now.place.dcs ≤ dc → result ≡ Ok (RefusedWith UnknownDc) }
        ensures node { OnErr result (IsNode self.now dc (primary self.now.place.splits put.key)) }
        ensures held { OnErr result (MayHoldStep (G.may_hold gate.now) (node_of self.now dc put.key) RECEIVER) }
    {
        let Some(spot) = self.spot_of(dc, &put.key) else {
            drop(put);
            return Ok(Outcome::Refused(Refusal::UnknownDc));
        };
        self.received(rt, share, gate, spot, NodeEvent::Deliver(put))
    }

    /// Asks a key's node in data centre `dc` whether exactly this pair is settled.
    ///
    /// Refused with `UnknownDc` where there is no such data centre, and with `Memory` when memory runs out. `GateHeld`
    /// where the gate stops the call.
    pub fn ask<R: Wait, G: Gate>(
        &self,
        rt: &R,
        share: &mut Share,
        gate: &G,
        dc: u8,
        key: &Key,
        version: Version,
    ) -> Result<Asked, GateHeld>
        ensures owner { share.new.holder ≡ share.old.holder }
        ensures reported { IfOk result (λ asked. Adds share.old.entries.items share.new.entries.items (node_of self.now dc key.now) (Ask key.now version) (outcome_of asked)) }
        ensures most { AddsAtMostOne share.old.entries.items share.new.entries.items (node_of self.now dc key.now) (Ask key.now version) }
        ensures names { IfOk result (IsAskedOf dc key.now version) }
        ensures outcome { dc < self.now.place.dcs → IfOk result (λ asked. IsAskOutcome (outcome_of asked)) }
        ensures unknown { self.now.place.dcs ≤ dc → result ≡ Ok (Asked.Other (RefusedWith UnknownDc)) }
        ensures node { OnErr result (IsNode self.now dc (primary self.now.place.splits key.now)) }
        ensures held { OnErr result (MayHoldStep (G.may_hold gate.now) (node_of self.now dc key.now) RECEIVER) }
    {
        let Some(spot) = self.spot_of(dc, key) else {
            return Ok(Asked::Other(Outcome::Refused(Refusal::UnknownDc)));
        };
        let Ok(asked) = key.clone() else {
            return Ok(Asked::Other(Outcome::Refused(Refusal::Memory)));
        };
        let Ok(named) = key.clone() else {
            drop(asked);
            return Ok(Asked::Other(Outcome::Refused(Refusal::Memory)));
        };
        let event = NodeEvent::Ask {
            key: asked,
            version,
        };
        match self.received(rt, share, gate, spot, event) {
            Ok(outcome) => Ok(asked_of(dc, named, version, outcome)),
            Err(held) => {
                drop(named);
                Err(held)
            }
        }
    }

    /// Marks a dependency, given by its index, of a put that waits at the node of its version in data centre `dc`.
    /// `yes` is the answer that the dependency is settled.
    ///
    /// Refused with `UnknownDc` where there is no such data centre, `NotHeld` where no put waits at the version,
    /// `NoSuchDep` where it has no such dependency, `NoYes` exactly where the answer is for another pair or another
    /// data centre, and `Memory` when memory runs out. `GateHeld` where the gate stops the call.
    pub fn mark<R: Wait, G: Gate>(
        &self,
        rt: &R,
        share: &mut Share,
        gate: &G,
        dc: u8,
        version: Version,
        dep: u16,
        yes: &Yes,
    ) -> Result<Outcome, GateHeld>
        ensures owner { share.new.holder ≡ share.old.holder }
        ensures reported { IsNode self.now dc (place_of version) → IfOk result (λ out. Adds share.old.entries.items share.new.entries.items (node_number dc (place_of version)) (Mark version dep) out) }
        ensures most { AddsAtMostOne share.old.entries.items share.new.entries.items (node_number dc (place_of version)) (Mark version dep) }
        ensures marked { IsNode self.now dc (place_of version) → IfOk result (IsMarkedAs yes.now dc version dep) }
        ensures outcome { IsNode self.now dc (place_of version) → IfOk result IsMarkOutcome }
        ensures here { result ≡ Ok OnceMarked → yes.now.dc ≡ dc }
        ensures no_node { (IsNode self.now dc (place_of version) → ⊥) → share.new.entries.items ≡ share.old.entries.items }
        ensures unknown { self.now.place.dcs ≤ dc → result ≡ Ok (RefusedWith UnknownDc) }
        ensures not_held { dc < self.now.place.dcs → length self.now.place.splits < place_of version → result ≡ Ok (RefusedWith NotHeld) }
        ensures node { OnErr result (IsNode self.now dc (place_of version)) }
        ensures held { OnErr result (MayHoldStep (G.may_hold gate.now) (node_number dc (place_of version)) RECEIVER) }
    {
        let Some(spot) = self.spot_at(dc, version.place()) else {
            return Ok(Outcome::Refused(self.refusal_of_no_node(dc)));
        };
        let answered = self.mark_step(rt, share, gate, spot, version, dep, yes);
        passed(rt, gate, RECEIVER, reply_in(answered))
    }

    /// Settles a put that waits at the node of its version in data centre `dc`.
    ///
    /// Refused with `UnknownDc` where there is no such data centre, `NotHeld` where no put waits at the version,
    /// `DepsOpen` where not all its dependencies are marked, and `Memory` when memory runs out. `GateHeld` where the
    /// gate stops the call.
    pub fn settle<R: Wait, G: Gate>(
        &self,
        rt: &R,
        share: &mut Share,
        gate: &G,
        dc: u8,
        version: Version,
    ) -> Result<Outcome, GateHeld>
        ensures owner { share.new.holder ≡ share.old.holder }
        ensures reported { IsNode self.now dc (place_of version) → IfOk result (λ out. Adds share.old.entries.items share.new.entries.items (node_number dc (place_of version)) (Settle version) out) }
        ensures most { AddsAtMostOne share.old.entries.items share.new.entries.items (node_number dc (place_of version)) (Settle version) }
        ensures answer { IsNode self.now dc (place_of version) → IfOk result (λ out. IsNodeAnswer (Settle version) out ⊎ IsOutOfMemory out) }
        ensures outcome { IsNode self.now dc (place_of version) → IfOk result IsSettleOutcome }
        ensures no_node { (IsNode self.now dc (place_of version) → ⊥) → share.new.entries.items ≡ share.old.entries.items }
        ensures unknown { self.now.place.dcs ≤ dc → result ≡ Ok (RefusedWith UnknownDc) }
        ensures not_held { dc < self.now.place.dcs → length self.now.place.splits < place_of version → result ≡ Ok (RefusedWith NotHeld) }
        ensures node { OnErr result (IsNode self.now dc (place_of version)) }
        ensures held { OnErr result (MayHoldStep (G.may_hold gate.now) (node_number dc (place_of version)) RECEIVER) }
    {
        let Some(spot) = self.spot_at(dc, version.place()) else {
            return Ok(Outcome::Refused(self.refusal_of_no_node(dc)));
        };
        self.received(rt, share, gate, spot, NodeEvent::Settle { version })
    }

    /// Why there is no node at a place of a data centre: `UnknownDc` where that data centre does not exist, otherwise
    /// `NotHeld`.
    fn refusal_of_no_node(&self, dc: u8) -> Refusal
        ensures unknown { self.now.place.dcs ≤ dc → result ≡ UnknownDc }
        ensures not_held { dc < self.now.place.dcs → result ≡ NotHeld }
    {
        if dc < self.place.dcs() {
            Refusal::NotHeld
        } else {
            Refusal::UnknownDc
        }
    }

    /// A receiver's step. The gate gets `RECEIVER` as the client number.
    fn received<R: Wait, G: Gate>(
        &self,
        rt: &R,
        share: &mut Share,
        gate: &G,
        spot: Spot,
        event: NodeEvent,
    ) -> Result<Outcome, GateHeld>
        requires { IsNode self.now spot.dc spot.place }
        ensures owner { share.new.holder ≡ share.old.holder }
        ensures reported { IfOk result (λ out. Adds share.old.entries.items share.new.entries.items (node_number spot.dc spot.place) event out) }
        ensures most { AddsAtMostOne share.old.entries.items share.new.entries.items (node_number spot.dc spot.place) event }
        ensures outcome { IfOk result (λ out. IsNodeAnswer event out ⊎ IsOutOfMemory out) }
        ensures held { OnErr result (MayHoldStep (G.may_hold gate.now) (node_number spot.dc spot.place) RECEIVER) }
    {
        let answered = self.step(rt, share, gate, RECEIVER, spot, event);
        passed(rt, gate, RECEIVER, reply_in(answered))
    }

    /// A mark at a node, which it locks.
    fn mark_step<R: Wait, G: Gate>(
        &self,
        rt: &R,
        share: &mut Share,
        gate: &G,
        spot: Spot,
        version: Version,
        dep: u16,
        yes: &Yes,
    ) -> Result<(NodeReply, Outcome), Stop>
        requires { IsNode self.now spot.dc spot.place }
        ensures owner { share.new.holder ≡ share.old.holder }
        ensures reported { IfOk result (λ t. AddsEntry share.old.entries.items share.new.entries.items (node_number spot.dc spot.place) (Mark version dep) t.0.outcome) }
        ensures own { IfOk result (λ t. is_of_node t.0.outcome ≡ true) }
        ensures node { IfOk result (λ t. t.0.node ≡ node_number spot.dc spot.place) }
        ensures allowed { IfOk result (λ t. IsAllowedMark yes.now spot.dc version dep t.0.outcome) }
        ensures stops { IfErr result (StopsWith (IsUnaskedMark yes.now spot.dc version dep)) }
        ensures none { OnErr result (share.new.entries.items ≡ share.old.entries.items) }
        ensures stop { IfErr result (IsStop (G.may_hold gate.now) (node_number spot.dc spot.place) RECEIVER) }
    {
        if share.entries.reserve(1).is_err() {
            return Err(Stop::Refused(Refusal::Memory));
        }
        let mut book = self.lock_of(spot).lock(rt);
        let recorded = self.marked(rt, gate, spot, &mut book, version, dep, yes)?;
        drop(book);
        Ok(gained(share, spot.number(), recorded))
    }

    /// A mark at a node whose lock is held. Refused with `NoYes` exactly where the answer is not for the dependency
    /// that is there.
    fn marked<R: Wait, G: Gate>(
        &self,
        rt: &R,
        gate: &G,
        spot: Spot,
        book: &mut Book,
        version: Version,
        dep: u16,
        yes: &Yes,
    ) -> Result<Recorded, Stop>
        ensures allowed { OnOk result (Allows yes.now spot.dc (dep_at (waiting book.old.node.held version) dep)) }
        ensures no_yes { IsErrOf result (Refused NoYes) ↔ Forbids yes.now spot.dc (dep_at (waiting book.old.node.held version) dep) }
        ensures stops { IfErr result (StopsWith (IsUnaskedMark yes.now spot.dc version dep)) }
        ensures stepped { IfOk result (λ t. node_step book.old.node (Mark version dep) ≡ (t.outcome, book.new.node)) }
        ensures entered { IfOk result (λ t. book.new.entries ≡ book.old.entries ++ t.entry ∷ []) }
        ensures copies { IfOk result (λ t. (t.seen ≡ t.outcome) × ((ticket : ℕ) × (t.entry ≡ entry ticket (Mark version dep) t.outcome))) }
        ensures answers { IfOk result (λ t. is_of_node t.outcome ≡ true) }
        ensures none { OnErr result (book.new ≡ book.old) }
        ensures stop { IfErr result (IsStop (G.may_hold gate.now) (node_number spot.dc spot.place) RECEIVER) }
    {
        if !yes.allows(spot.dc, book.node(), version, dep) {
            return Err(Stop::Refused(Refusal::NoYes));
        }
        let event = NodeEvent::Mark { version, dep };
        self.asked(rt, gate, RECEIVER, spot, book, event)
    }
}

/// The answer to a question about this pair, from its outcome.
fn asked_of(dc: u8, key: Key, version: Version, outcome: Outcome) -> Asked
    ensures reported { outcome_of result ≡ outcome }
    ensures names { IsAskedOf dc key version result }
{
    match outcome {
        Outcome::Yes => Asked::Yes(Yes { dc, key, version }),
        other => Asked::Other(other),
    }
}

/// The node's reply, without the copy of its outcome.
fn reply_in(answered: Result<(NodeReply, Outcome), Stop>) -> Result<NodeReply, Stop>
    ensures { result ≡ reply_of answered }
{
    match answered {
        Ok((reply, seen)) => {
            drop(seen);
            Ok(reply)
        }
        Err(stop) => Err(stop),
    }
}
