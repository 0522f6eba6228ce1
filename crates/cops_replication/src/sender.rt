use crate::outbox::Outbox;
use crate::turn::{Turn, TurnFault};
use cops_cluster::Cluster;
use cops_link::LinkIn;
use cops_types::Memory;
use std::alloc::Global;
use std::sync::Wait;

/// The greatest number of nodes of a data centre.
const MAX_NODES: usize = 64;

/// A sender sends the puts of its data centre to others: each put once on each of its links, or more often if `repeat`
/// is not 0.
#[derive(Drop)]
pub struct Sender {
    dc: u8,
    /// How many more times than once each put is sent.
    repeat: u8,
    /// For each node, by its place, how many entries of its log were read.
    read: [usize; MAX_NODES],
    outbox: Outbox,
}

impl Sender {
    ghost use Rattle.std.specs.Prelude.{◌≡◌, ◌-◌, IfOk, OnOk, Err, map};
    ghost use Rattle.cops_types.specs.declared.limits.TheConstants.{PLACES};
    ghost use Rattle.cops_replication.specs.Drains.{IsSentOut};
    ghost use Rattle.cops_replication.specs.Lanes.{AreClearOrFull, HasSentAll, frames, idle};
    ghost use Rattle.cops_replication.specs.Reading.{unread};
    ghost use Rattle.cops_replication.specs.Sending.{Carries, CarriesBelow, lanes};
    ghost use Rattle.cops_replication.specs.Turns.{IsTurnOf};

    /// The sender of a data centre, with these links, which has read nothing yet and sends each put `repeat` more times
    /// than once. On `Memory` the links are dropped.
    pub fn new(alloc: Global, dc: u8, links: Vec<LinkIn>, repeat: u8) -> Result<Self, Memory>
        ensures dc { IfOk result (λ s. s.dc ≡ dc) }
        ensures repeat { IfOk result (λ s. s.repeat ≡ repeat) }
        ensures unread { IfOk result (λ s. s.read ≡ unread) }
        ensures links { IfOk result (λ s. lanes s ≡ map idle links.items) }
    {
        Ok(Sender {
            dc,
            repeat,
            read: [0; MAX_NODES],
            outbox: Outbox::new(alloc, links)?,
        })
    }

    /// Reads the puts that were issued at the nodes of its data centre since the last reading, and sends on each link
    /// those that were not sent on it yet, until it is full. Puts that were not sent are kept for the next turn.
    /// Returns `Memory` when memory runs out, which loses nothing.
    pub fn turn<R: Wait>(&mut self, rt: &R, cluster: &Cluster) -> Result<Turn, Memory>
        ensures carries { Carries cluster.now self.old self.new }
        ensures all { OnOk result (CarriesBelow PLACES cluster.now self.old self.new) }
        ensures did { IfOk result (IsTurnOf (frames (lanes self.new) - frames (lanes self.old))) }
        ensures filled { OnOk result (AreClearOrFull (lanes self.new)) }
    {
        let read = self.read(rt, cluster);
        let sent = self.outbox.send()?;
        self.outbox.forget();
        read?;
        Ok(Turn::of(sent))
    }

    /// Makes turns until one is idle and nothing is left to send.
    ///
    /// Errors: `TurnLimit` where none of `turns` turns is such; `Memory` where a turn ran out of memory.
    pub fn drain<R: Wait>(&mut self, rt: &R, cluster: &Cluster, turns: u32) -> Result<(), TurnFault>
        ensures carries { Carries cluster.now self.old self.new }
        ensures all { OnOk result (CarriesBelow PLACES cluster.now self.old self.new) }
        ensures ok { OnOk result (HasSentAll (lanes self.new)) }
        ensures idle { OnOk result (IsSentOut cluster.now self.old self.new) }
        ensures not_held { result ≡ Err TurnFault.Held → ⊥ }
    {
        for _ in 0..turns {
            let turn = self.turn(rt, cluster)?;
            if turn.is_idle() && self.outbox.is_clear() {
                return Ok(());
            }
        }
        Err(TurnFault::TurnLimit)
    }

    /// Closes the sending end of each link.
    pub fn finish(self) {
        let Sender {
            dc: _,
            repeat: _,
            read: _,
            outbox,
        } = self;
        outbox.finish();
    }

    /// Reads the puts that were issued at the nodes since the last reading.
    fn read<R: Wait>(&mut self, rt: &R, cluster: &Cluster) -> Result<(), Memory>
        ensures carries { Carries cluster.now self.old self.new }
        ensures all { OnOk result (CarriesBelow PLACES cluster.now self.old self.new) }
        ensures sent { frames (lanes self.new) ≡ frames (lanes self.old) }
    {
        for place in 0..MAX_NODES {
            let from = self.read[place];
            let Some(more) = cluster.puts_from(rt, self.dc, place as u8, from)? else {
                return Ok(());
            };
            self.outbox.add(more.puts, self.repeat)?;
            self.read[place] = more.entries;
        }
        Ok(())
    }
}
