use crate::arrival::{Arrival, ArrivalState, NodeAnswer, next_arrival, waits};
use crate::backlog::Backlog;
use crate::turn::{Turn, TurnFault};
use cops_cluster::{Asked, Cluster, Share, Yes};
use cops_link::LinkOut;
use cops_types::{Gate, Memory, PutRecord, Version};
use std::alloc::Global;
use std::sync::Wait;

/// A receiver brings the puts of other data centres into its own. After the answer Wait it asks for a dependency again
/// only once it has settled exactly that pair, so a turn's work is proportional to what arrived and what became ready.
#[derive(Drop)]
pub struct Receiver {
    dc: u8,
    links: Vec<LinkOut>,
    share: Share,
    arrival: Option<Arrival>,
    backlog: Backlog,
}

impl Receiver {
    ghost use Rattle.std.specs.Prelude.{◌≡◌, ◌↔◌, ◌+◌, ◌-◌, IsTrue, OnOk, OnErr, IfOk, IfErr, Ok, Err, None};
    ghost use Rattle.std.specs.Borrow.{sem};
    ghost use Rattle.cops_replication.specs.Lending.{LendsShare};
    ghost use Rattle.cops_replication.specs.Drains.{IsDrained};
    ghost use Rattle.cops_replication.specs.Receiving.{EachTakesUpTo, IsSame, KeepsNothing, ends};
    ghost use Rattle.cops_replication.specs.Shares.{Gains};
    ghost use Rattle.cops_replication.specs.Turns.{IsCountOf, IsEndAt, IsFaultAt, IsTurnOf};
    ghost use Rattle.cops_replication.specs.Doing.{AreEmpty, advances, at_hand, delivered, done};

    /// The receiver of a data centre, with these links and this share. It allocates no memory.
    pub fn new(alloc: Global, dc: u8, links: Vec<LinkOut>, share: Share) -> Self
        ensures dc { result.dc ≡ dc }
        ensures links { ends result ≡ links.items }
        ensures share { result.share ≡ share }
    {
        Receiver {
            dc,
            links,
            share,
            arrival: None,
            backlog: Backlog::new(alloc),
        }
    }

    /// The receiver's data centre.
    pub fn dc(&self) -> u8
        ensures { result ≡ self.now.dc }
    {
        self.dc
    }

    /// Takes at most one frame from each link and delivers its put. It then asks for each dependency that it has not
    /// asked for, or whose pair was settled since, marks those that are settled, and settles each put whose
    /// dependencies are all marked.
    ///
    /// Errors: `Memory` when memory runs out; the next turn tries again. `Held` where the gate stops a step.
    pub fn turn<R: Wait, G: Gate>(
        &mut self,
        rt: &R,
        cluster: &Cluster,
        gate: &G,
    ) -> Result<Turn, TurnFault>
        ensures dc { self.new.dc ≡ self.old.dc }
        ensures links { EachTakesUpTo 1 (ends self.old) (ends self.new) }
        ensures share { Gains self.old.share self.new.share }
        ensures fault { IfErr result (IsFaultAt (G.may_hold gate.now) cluster.now self.old.dc) }
        ensures did { IfOk result (IsTurnOf (done self.old self.new)) }
        ensures idle { IfOk result (λ turn. turn ≡ Turn.Idle → AreEmpty (ends self.new)) }
    {
        let delivered = self.take_in(rt, cluster, gate)?;
        let done = self.work(rt, cluster, gate)?;
        Ok(Turn::of(done.saturating_add(delivered)))
    }

    /// Makes turns until one is idle and nothing is pending, that is, every put that was taken is settled.
    ///
    /// Errors: `TurnLimit` where none of `turns` turns is such; otherwise the error of the turn that failed, which is
    /// `Memory` or `Held`.
    pub fn drain<R: Wait, G: Gate>(
        &mut self,
        rt: &R,
        cluster: &Cluster,
        gate: &G,
        turns: u32,
    ) -> Result<(), TurnFault>
        ensures dc { self.new.dc ≡ self.old.dc }
        ensures links { EachTakesUpTo turns (ends self.old) (ends self.new) }
        ensures share { Gains self.old.share self.new.share }
        ensures fault { IfErr result (IsEndAt (G.may_hold gate.now) cluster.now self.old.dc) }
        ensures ok { OnOk result (KeepsNothing self.new) }
        ensures idle { OnOk result (IsDrained turns self.old self.new) }
    {
        for _ in 0..turns {
            let turn = self.turn(rt, cluster, gate)?;
            if turn.is_idle() && self.is_clear() {
                return Ok(());
            }
        }
        Err(TurnFault::TurnLimit)
    }

    /// Borrows the share mutably. The rest of the receiver does not change.
    pub fn share(&mut self) -> &mut Share
        ensures* writes_back { sem 𝓛 (LendsShare self.entry result) }
        ensures value { result.now ≡ self.old.share }
    {
        &mut self.share
    }

    /// Consumes the receiver and returns its share.
    pub fn into_share(self) -> Share
        ensures { result ≡ self.share }
    {
        let Receiver { share, .. } = self;
        share
    }

    /// Whether nothing is pending.
    fn is_clear(&self) -> bool
        ensures { IsTrue result ↔ KeepsNothing self.now }
    {
        self.arrival.is_none() && self.backlog.is_empty()
    }

    /// Delivers the put that an earlier turn left pending, and then what arrives on each link. Returns how many puts
    /// were delivered.
    fn take_in<R: Wait, G: Gate>(
        &mut self,
        rt: &R,
        cluster: &Cluster,
        gate: &G,
    ) -> Result<usize, TurnFault>
        ensures dc { self.new.dc ≡ self.old.dc }
        ensures links { EachTakesUpTo 1 (ends self.old) (ends self.new) }
        ensures share { Gains self.old.share self.new.share }
        ensures fault { IfErr result (IsFaultAt (G.may_hold gate.now) cluster.now self.old.dc) }
        ensures still { advances self.new.share ≡ advances self.old.share }
        ensures did { IfOk result (IsCountOf (delivered self.old self.new)) }
        ensures idle { IfOk result (λ did. did ≡ 0 → AreEmpty (ends self.new)) }
    {
        let mut delivered = self.arrive(rt, cluster, gate)?;
        for k in 0..self.links.len() {
            let Some(arrival) = next_arrival(&mut self.links[k])? else {
                continue;
            };
            drop(self.arrival.replace(arrival));
            let more = self.arrive(rt, cluster, gate)?;
            delivered = more.saturating_add(delivered);
        }
        Ok(delivered)
    }

    /// Delivers the put that was taken, if there is one. Returns how many puts that are.
    fn arrive<R: Wait, G: Gate>(
        &mut self,
        rt: &R,
        cluster: &Cluster,
        gate: &G,
    ) -> Result<usize, TurnFault>
        ensures same { IsSame self.old self.new }
        ensures share { Gains self.old.share self.new.share }
        ensures still { advances self.new.share ≡ advances self.old.share }
        ensures did { IfOk result (λ did. (did ≡ at_hand self.old.arrival) × (self.new.arrival ≡ None)) }
        ensures fault { IfErr result (IsFaultAt (G.may_hold gate.now) cluster.now self.old.dc) }
    {
        let Some(arrival) = &self.arrival else {
            return Ok(0);
        };
        let state = arrival.state;
        if state == ArrivalState::Waiting {
            return self.keep();
        }
        let copy = arrival.put.clone().or(Err(TurnFault::Memory))?;
        let answer = self.deliver(rt, cluster, gate, copy)?;
        if waits(answer, state) {
            self.set_state(ArrivalState::Waiting);
            return self.keep();
        }
        self.forget();
        Ok(1)
    }

    /// Delivers a copy of the put that was taken.
    fn deliver<R: Wait, G: Gate>(
        &mut self,
        rt: &R,
        cluster: &Cluster,
        gate: &G,
        copy: PutRecord,
    ) -> Result<NodeAnswer, TurnFault>
        ensures same { IsSame self.old self.new }
        ensures share { Gains self.old.share self.new.share }
        ensures still { advances self.new.share ≡ advances self.old.share }
        ensures fault { IfErr result (IsFaultAt (G.may_hold gate.now) cluster.now self.old.dc) }
    {
        let Ok(outcome) = cluster.deliver(rt, &mut self.share, gate, self.dc, copy) else {
            self.set_state(ArrivalState::Unknown);
            return Err(TurnFault::Held);
        };
        let answer = NodeAnswer::of(outcome)?;
        Ok(answer)
    }

    fn set_state(&mut self, state: ArrivalState)
        ensures same { IsSame self.old self.new }
        ensures share { self.new.share ≡ self.old.share }
    {
        if let Some(arrival) = &mut self.arrival {
            arrival.state = state;
        }
    }

    /// Moves the put that was taken to the backlog, and counts it as delivered.
    fn keep(&mut self) -> Result<usize, TurnFault>
        ensures same { IsSame self.old self.new }
        ensures share { self.new.share ≡ self.old.share }
        ensures did { IfOk result (λ did. (did ≡ 1) × (self.new.arrival ≡ None)) }
        ensures fault { OnErr result (result ≡ Err TurnFault.Memory) }
    {
        if let Some(arrival) = &self.arrival {
            self.backlog.add(&arrival.put)?;
        }
        self.forget();
        Ok(1)
    }

    /// Drops the put that was taken.
    fn forget(&mut self)
        ensures same { IsSame self.old self.new }
        ensures share { self.new.share ≡ self.old.share }
        ensures none { self.new.arrival ≡ None }
    {
        drop(self.arrival.take());
    }

    /// Asks, marks and settles until nothing is left to ask or to settle. Returns how many marks and settlements it
    /// made.
    fn work<R: Wait, G: Gate>(
        &mut self,
        rt: &R,
        cluster: &Cluster,
        gate: &G,
    ) -> Result<usize, TurnFault>
        ensures same { IsSame self.old self.new }
        ensures arrival { self.new.arrival ≡ self.old.arrival }
        ensures share { Gains self.old.share self.new.share }
        ensures did { IfOk result (IsCountOf (advances self.new.share - advances self.old.share)) }
        ensures fault { IfErr result (IsFaultAt (G.may_hold gate.now) cluster.now self.old.dc) }
    {
        let mut done = 0;
        for _ in 0..u64::MAX {
            let more = if let Some(version) = self.backlog.ready() {
                self.settle(rt, cluster, gate, version)?
            } else if self.backlog.question().is_some() {
                self.ask(rt, cluster, gate)?
            } else {
                break;
            };
            done = more.saturating_add(done);
        }
        Ok(done)
    }

    /// Asks the next question, and marks its dependency if the answer is yes. Returns how many marks it made.
    fn ask<R: Wait, G: Gate>(
        &mut self,
        rt: &R,
        cluster: &Cluster,
        gate: &G,
    ) -> Result<usize, TurnFault>
        ensures same { IsSame self.old self.new }
        ensures arrival { self.new.arrival ≡ self.old.arrival }
        ensures share { Gains self.old.share self.new.share }
        ensures did { IfOk result (λ did. advances self.new.share ≡ advances self.old.share + did) }
        ensures fault { IfErr result (IsFaultAt (G.may_hold gate.now) cluster.now self.old.dc) }
    {
        let Some(pair) = self.backlog.pair() else {
            self.backlog.skip();
            return Ok(0);
        };
        let version = pair.version;
        let asked = cluster.ask(rt, &mut self.share, gate, self.dc, &pair.key, version)?;
        match asked {
            Asked::Yes(yes) => {
                let marked = self.mark(rt, cluster, gate, &yes);
                drop(yes);
                marked
            }
            Asked::Other(outcome) => {
                NodeAnswer::of(outcome)?;
                self.backlog.park()?;
                Ok(0)
            }
        }
    }

    /// Marks the dependency of the next question, to which `yes` is the answer. Returns how many marks it made.
    fn mark<R: Wait, G: Gate>(
        &mut self,
        rt: &R,
        cluster: &Cluster,
        gate: &G,
        yes: &Yes,
    ) -> Result<usize, TurnFault>
        ensures same { IsSame self.old self.new }
        ensures arrival { self.new.arrival ≡ self.old.arrival }
        ensures share { Gains self.old.share self.new.share }
        ensures did { IfOk result (λ did. advances self.new.share ≡ advances self.old.share + did) }
        ensures fault { IfErr result (IsFaultAt (G.may_hold gate.now) cluster.now self.old.dc) }
    {
        let Some(asked) = self.backlog.question() else {
            return Ok(0);
        };
        let (version, dep) = (asked.version, asked.dep);
        let outcome = cluster.mark(rt, &mut self.share, gate, self.dc, version, dep, yes)?;
        let answer = NodeAnswer::of(outcome)?;
        self.backlog.mark();
        match answer {
            NodeAnswer::Marked => Ok(1),
            _ => Ok(0),
        }
    }

    /// Settles a put whose dependencies are all marked. Before that, it moves the questions parked at the put back to
    /// the questions to ask. Returns how many settlements it made.
    fn settle<R: Wait, G: Gate>(
        &mut self,
        rt: &R,
        cluster: &Cluster,
        gate: &G,
        version: Version,
    ) -> Result<usize, TurnFault>
        ensures same { IsSame self.old self.new }
        ensures arrival { self.new.arrival ≡ self.old.arrival }
        ensures share { Gains self.old.share self.new.share }
        ensures did { IfOk result (λ did. advances self.new.share ≡ advances self.old.share + did) }
        ensures fault { IfErr result (IsFaultAt (G.may_hold gate.now) cluster.now self.old.dc) }
    {
        self.backlog.wake(version)?;
        let outcome = cluster.settle(rt, &mut self.share, gate, self.dc, version)?;
        let answer = NodeAnswer::of(outcome)?;
        self.backlog.settle(version);
        match answer {
            NodeAnswer::Settled => Ok(1),
            _ => Ok(0),
        }
    }
}
