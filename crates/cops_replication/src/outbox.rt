//! Puts waiting to be sent on links.
ghost use Rattle.std.specs.Prelude.{◌≡◌, ◌≤◌, ◌↔◌, ◌-◌, ◌++◌, All, IfOk, OnOk, IsTrue, drop, map, replicate, vec_len};
ghost use Rattle.cops_replication.specs.Lanes.{AreClearOrFull, EachSends, counted_from, frames, repeated, shown, IsWithin};
ghost use Rattle.cops_replication.specs.Turns.{IsCountOf};

use cops_link::{Frame, LinkIn};
use cops_types::{Memory, PutRecord};
use std::alloc::Global;
use std::marker::Model;

/// A link, and how many of the outbox's puts were sent on it.
#[derive(Drop)]
pub(crate) struct Lane {
    link: LinkIn,
    next: usize,
}

/// Links, and an ordered list of puts, all of which are sent on each link.
#[derive(Drop)]
pub(crate) struct Outbox {
    lanes: Vec<Lane>,
    puts: Vec<PutRecord>,
    alloc: Global,
}

impl Model for Outbox {
    ghost use Rattle.std.specs.Prelude.{List, length, map};
    ghost use Rattle.std.specs.List.{All};
    ghost use Rattle.cops_replication.specs.Lanes.{ALane, shown, IsWithin};

    ghost Value = { List ALane };

    ghost view = { λ o. map (shown o.puts.items) o.lanes.items };

    ghost invariant = { λ o. All (IsWithin o.puts.items) o.lanes.items };
}

impl Lane {
    ghost use Rattle.std.specs.Prelude.{◌≡◌, ◌≤◌, ◌+◌, IfOk, OnOk, length};
    ghost use Rattle.cops_link.specs.Link.{sent};
    ghost use Rattle.cops_replication.specs.Lanes.{IsClearOrFull, Sends, shown, IsWithin};

    /// Sends the puts that were not sent yet until the link is full, and returns how many it sent. Unless memory runs
    /// out (`Memory`), it stops only at a full link.
    fn send(&mut self, alloc: Global, puts: &[PutRecord]) -> Result<usize, Memory>
        requires { IsWithin puts.now self.old }
        ensures within { IsWithin puts.now self.new }
        ensures sends { Sends (shown puts.now self.old) (shown puts.now self.new) }
        ensures count { IfOk result (λ n. length (sent self.new.link) ≡ length (sent self.old.link) + n) }
        ensures filled { OnOk result (IsClearOrFull (shown puts.now self.new)) }
    {
        let before = self.next;
        while self.next < puts.len() {
            let frame = Frame::of(alloc, &puts[self.next])?;
            if self.link.send(frame).is_err() {
                return Ok(self.next - before);
            }
            self.next += 1;
        }
        Ok(self.next - before)
    }
}

impl Outbox {
    ghost use Rattle.std.specs.Prelude.{◌≡◌, ◌↔◌, ◌-◌, IfOk, OnOk, OnErr, IsTrue, map};
    ghost use Rattle.cops_replication.specs.Lanes.{AreClearOrFull, EachSends, HasSentAll, and_due, frames, idle, repeated};
    ghost use Rattle.cops_replication.specs.Turns.{IsCountOf};

    /// An outbox of these links, with nothing to send. On `Memory` the links are dropped.
    pub(crate) fn new(alloc: Global, links: Vec<LinkIn>) -> Result<Self, Memory>
        ensures { IfOk result (λ o. o ≡ map idle links.items) }
    {
        let mut lanes = Vec::with_capacity(alloc, links.len())?;
        for link in links {
            lanes.push(Lane { link, next: 0 })?;
        }
        Ok(Outbox {
            lanes,
            puts: Vec::new(alloc),
            alloc,
        })
    }

    /// Appends puts, each repeated `repeat` more times. An error, which is `Memory`, leaves the outbox unchanged.
    pub(crate) fn add(&mut self, puts: Vec<PutRecord>, repeat: u8) -> Result<(), Memory>
        ensures ok { OnOk result (self.new ≡ map (and_due (repeated repeat puts.items)) self.old) }
        ensures err { OnErr result (self.new ≡ self.old) }
    {
        let mut puts = repeated(self.alloc, puts, repeat)?;
        self.puts.append(&mut puts)?;
        Ok(())
    }

    /// Sends on each link the puts that were not sent on it yet until it is full, and returns the total number of
    /// frames. Returns `Memory` when memory runs out.
    pub(crate) fn send(&mut self) -> Result<usize, Memory>
        ensures sends { EachSends self.old self.new }
        ensures count { IfOk result (IsCountOf (frames self.new - frames self.old)) }
        ensures filled { OnOk result (AreClearOrFull self.new) }
    {
        send_on(&mut self.lanes, self.alloc, &self.puts)
    }

    /// Drops the puts that were sent on every link, once they are at least half of the list.
    pub(crate) fn forget(&mut self)
        ensures { self.new ≡ self.old }
    {
        let sent = sent_on_all(&self.lanes, self.puts.len());
        if sent < self.puts.len() - sent {
            return;
        }
        let_go(&mut self.puts, sent);
        count_from(&mut self.lanes, sent);
    }

    /// Whether all puts were sent on every link.
    pub(crate) fn is_clear(&self) -> bool
        ensures { IsTrue result ↔ HasSentAll self.now }
    {
        were_sent(&self.lanes, self.puts.len())
    }

    /// Closes the sending end of each link.
    pub(crate) fn finish(self) {
        let Outbox {
            lanes,
            puts: _,
            alloc: _,
        } = self;
        for lane in lanes {
            let Lane { link, next: _ } = lane;
            let _finished = link.finish();
        }
    }
}

/// The puts, each repeated `repeat` more times.
fn repeated(alloc: Global, puts: Vec<PutRecord>, repeat: u8) -> Result<Vec<PutRecord>, Memory>
    ensures { IfOk result (λ all. all.items ≡ repeated repeat puts.items) }
{
    if repeat == 0 {
        return Ok(puts);
    }
    let mut all = Vec::new(alloc);
    for put in &puts {
        push_times(&mut all, put, u16::from(repeat) + 1)?;
    }
    Ok(all)
}

/// Appends a put `times` times.
fn push_times(all: &mut Vec<PutRecord>, put: &PutRecord, times: u16) -> Result<(), Memory>
    ensures { OnOk result (all.new.items ≡ all.old.items ++ replicate times put.now) }
{
    for _ in 0..times {
        all.push(put.clone()?)?;
    }
    Ok(())
}

/// Sends on each link the puts that were not sent on it yet until it is full, and returns the total number of frames.
fn send_on(lanes: &mut [Lane], alloc: Global, puts: &[PutRecord]) -> Result<usize, Memory>
    requires { All (IsWithin puts.now) lanes.old }
    ensures within { All (IsWithin puts.now) lanes.new }
    ensures sends { EachSends (map (shown puts.now) lanes.old) (map (shown puts.now) lanes.new) }
    ensures count { IfOk result (IsCountOf (frames (map (shown puts.now) lanes.new) - frames (map (shown puts.now) lanes.old))) }
    ensures filled { OnOk result (AreClearOrFull (map (shown puts.now) lanes.new)) }
{
    let mut sent = 0usize;
    for k in 0..lanes.len() {
        let more = lanes[k].send(alloc, puts)?;
        sent = sent.saturating_add(more);
    }
    Ok(sent)
}

/// How many of the first `puts` puts were sent on every link.
fn sent_on_all(lanes: &[Lane], puts: usize) -> usize
    ensures puts { result ≤ puts }
    ensures each { All (λ l. result ≤ l.next) lanes.now }
{
    let mut least = puts;
    for lane in lanes {
        least = least.min(lane.next);
    }
    least
}

/// Drops the first `count` puts.
fn let_go(puts: &mut Vec<PutRecord>, count: usize)
    requires { count ≤ vec_len puts.old }
    ensures { puts.new.items ≡ drop count puts.old.items }
{
    puts.drain(..count);
}

/// Makes the counters of the links relative to the put at `first`.
fn count_from(lanes: &mut [Lane], first: usize)
    requires { All (λ l. first ≤ l.next) lanes.old }
    ensures { lanes.new ≡ map (counted_from first) lanes.old }
{
    for lane in lanes {
        lane.next -= first;
    }
}

/// Whether at least `puts` puts were sent on each link.
fn were_sent(lanes: &[Lane], puts: usize) -> bool
    ensures { IsTrue result ↔ All (λ l. puts ≤ l.next) lanes.now }
{
    lanes.iter().all(|lane| puts <= lane.next)
}
