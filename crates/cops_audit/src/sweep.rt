ghost use Rattle.cops_types.specs.declared.limits.TheConstants.{MAX_CLIENT_OPS, MAX_OPS};
ghost use Rattle.std.specs.Prelude.{◌≡◌, ◌<◌, ◌≤◌, ◌+◌, ℕ, List, IfOk, IfSome, IfNone, IsOk, OnOk, IsTrue, Some, length, map, slice_index, []};
ghost use Rattle.cops_types.specs.declared.op.OpName.{OpName};
ghost use Rattle.cops_audit.specs.Analyses.{IsAnalysis};
ghost use Rattle.cops_audit.specs.Floors.{HasNoNewer, IsNewestFor};
ghost use Rattle.cops_audit.specs.Summaries.{above, StandsAt, summary_at};
ghost use Rattle.cops_audit.specs.Sweeps.{ArePlaces, Covers, Grows, HasRoom, InRange, IsAbout, IsFresh, IsSweeping};
ghost use Rattle.cops_audit.specs.Sweeps.{Learns, next_after, Raises, TakesPut, with_next, work_left};
ghost use Rattle.cops_audit.specs.Windows.{IsSuspect};

use crate::analysis::Analysis;
use crate::epochs::Epochs;
use crate::summaries::{OpPlace, Summary};
use crate::window::Suspect;
use cops_types::{OpName, VersionedPut};
use std::alloc::{AllocError, Global};

/// The operations of one client from the index `from` up to, not including, `to`.
#[derive(Clone, Copy)]
pub struct OpRange {
    pub client: u16,
    pub from: u32,
    pub to: u32,
}

/// A part of the past of an operation: for each client, how many of its first operations are in it; for each key, at
/// the place of its first put, the number just above the place of its newest put in it; and the operations that are
/// still to be visited.
#[derive(Drop)]
pub struct Sweep {
    pub counts: Epochs,
    pub newest: Epochs,
    pub pending: Vec<OpRange>,
}

impl Sweep {
    /// An empty past, for `clients` clients and `puts` puts.
    pub fn new(alloc: Global, clients: usize, puts: usize) -> Result<Self, AllocError>
        ensures { IfOk result (IsFresh clients puts) }
    {
        let counts = Epochs::new(alloc, clients)?;
        let newest = Epochs::new(alloc, puts)?;
        Ok(Sweep {
            counts,
            newest,
            pending: Vec::new(alloc),
        })
    }

    /// Forgets all counts and newest puts.
    pub fn restart(&mut self)
        ensures fresh { self.old.pending.items ≡ [] → IsFresh (length self.old.counts) (length self.old.newest) self.new }
        ensures pending { self.new.pending ≡ self.old.pending }
    {
        self.counts.restart();
        self.newest.restart();
    }

    /// Counts the first `to` operations of a client.
    pub fn raise(&mut self, client: u16, to: u32) -> Result<(), AllocError>
        requires { client < length self.old.counts }
        ensures raises { OnOk result (Raises self.old self.new client to) }
        ensures room { (space : ℕ) (lengths : List ℕ) → to ≤ slice_index lengths client → HasRoom space lengths self.old
            → IsOk result × HasRoom space lengths self.new }
    {
        let from = self.counts.get(client as usize);
        if from < to {
            self.pending.push(OpRange { client, from, to })?;
            self.counts.set(client as usize, to);
        }
        Ok(())
    }

    /// Records the put at a place as the newest on its key, unless a newer one is recorded.
    fn take_put(&mut self, firsts: &[u32], place: u32)
        requires inside { place < length firsts.now }
        requires small { place < MAX_OPS }
        requires first { slice_index firsts.now place < length self.old.newest }
        ensures counts { self.new.counts ≡ self.old.counts }
        ensures pending { self.new.pending ≡ self.old.pending }
        ensures newest { TakesPut firsts.now self.old.newest self.new.newest place }
    {
        let first = firsts[place as usize] as usize;
        if self.newest.get(first) <= place {
            self.newest.set(first, place + 1);
        }
    }

    /// Records what an operation saw: of a put its place, of a get its source, unless that is below the floor. Then no
    /// put in the source's past is at the floor or above.
    fn learn(
        &mut self,
        table: &[VersionedPut],
        firsts: &[u32],
        floor: u32,
        seen: OpPlace,
    ) -> Result<(), AllocError>
        requires few { length table.now ≤ MAX_OPS }
        requires firsts { ArePlaces table.now firsts.now }
        requires places { length table.now ≤ length self.old.newest }
        requires puts { (place : ℕ) (put : OpName) (version : ℕ) → StandsAt table.now place put version → (put.client < length self.old.counts) × (put.index < MAX_CLIENT_OPS) }
        requires seen { above seen ≤ length table.now }
        ensures learns { OnOk result (Learns table.now firsts.now floor self.old self.new seen) }
        ensures room { (space : ℕ) (lengths : List ℕ) → Covers lengths table.now → HasRoom space lengths self.old
            → IsOk result × HasRoom space lengths self.new }
    {
        match seen {
            OpPlace::Put(place) => {
                self.take_put(firsts, place);
                Ok(())
            }
            OpPlace::Got(place) if place >= floor => {
                let put = &table[place as usize];
                self.raise(put.name.client, put.name.index + 1)?;
                Ok(())
            }
            _ => Ok(()),
        }
    }

    /// Visits the operation next after those that are left to visit in its session. Returns whether its mark is above the
    /// floor, so that those must be visited too; true where it has no summary.
    #[inline(always)]
    fn look_at(
        &mut self,
        analysis: &Analysis,
        floor: u32,
        left: OpRange,
        summarized: Option<Summary>,
    ) -> Result<bool, AllocError>
        requires analysis { IsAnalysis analysis.now }
        requires low { left.from ≤ left.to }
        requires summarized { summarized ≡ summary_at analysis.now.summaries.now (next_after left) }
        requires sweeping { IsSweeping analysis.now.table.now analysis.now.summaries.now analysis.now.firsts.now floor self.old (InRange (with_next left)) }
        ensures on { IfOk result (λ on. IsTrue on → IsSweeping analysis.now.table.now analysis.now.summaries.now analysis.now.firsts.now floor self.new (InRange left)) }
        ensures done { IfOk result (λ on. ¬ IsTrue on → IsSweeping analysis.now.table.now analysis.now.summaries.now analysis.now.firsts.now floor self.new (λ _. ⊥)) }
        ensures grows { OnOk result (Grows analysis.now.table.now analysis.now.summaries.now self.old self.new) }
        ensures work { OnOk result (work_left self.new ≤ work_left self.old) }
        ensures room { (space : ℕ) → HasRoom space (map length analysis.now.summaries.now) self.old
            → IsOk result × HasRoom space (map length analysis.now.summaries.now) self.new }
    {
        let Some(summary) = summarized else {
            return Ok(true);
        };
        if summary.mark <= floor {
            return Ok(false);
        }
        self.learn(analysis.table, analysis.firsts, floor, summary.seen)?;
        Ok(true)
    }

    /// Visits the operations of a range, from the last one down, while their marks are above the floor.
    fn look(&mut self, analysis: &Analysis, floor: u32, range: OpRange) -> Result<(), AllocError>
        requires analysis { IsAnalysis analysis.now }
        requires sweeping { IsSweeping analysis.now.table.now analysis.now.summaries.now analysis.now.firsts.now floor self.old (InRange range) }
        ensures sweeping { OnOk result (IsSweeping analysis.now.table.now analysis.now.summaries.now analysis.now.firsts.now floor self.new (λ _. ⊥)) }
        ensures grows { OnOk result (Grows analysis.now.table.now analysis.now.summaries.now self.old self.new) }
        ensures work { OnOk result (work_left self.new ≤ work_left self.old) }
        ensures room { (space : ℕ) → HasRoom space (map length analysis.now.summaries.now) self.old
            → IsOk result × HasRoom space (map length analysis.now.summaries.now) self.new }
    {
        let session = analysis.summaries.session(range.client);
        for index in (range.from..range.to).rev() {
            let summarized = session.get(index as usize).copied();
            let left = OpRange {
                client: range.client,
                from: range.from,
                to: index,
            };
            let on = self.look_at(analysis, floor, left, summarized)?;
            if !on {
                return Ok(());
            }
        }
        Ok(())
    }

    /// Visits all operations that are still to be visited.
    fn drain(&mut self, analysis: &Analysis, floor: u32) -> Result<(), AllocError>
        requires analysis { IsAnalysis analysis.now }
        requires sweeping { IsSweeping analysis.now.table.now analysis.now.summaries.now analysis.now.firsts.now floor self.old (λ _. ⊥) }
        ensures sweeping { OnOk result (IsSweeping analysis.now.table.now analysis.now.summaries.now analysis.now.firsts.now floor self.new (λ _. ⊥)) }
        ensures grows { OnOk result (Grows analysis.now.table.now analysis.now.summaries.now self.old self.new) }
        ensures empty { OnOk result (self.new.pending.items ≡ []) }
        ensures room { (space : ℕ) → HasRoom space (map length analysis.now.summaries.now) self.old
            → IsOk result × HasRoom space (map length analysis.now.summaries.now) self.new }
    {
        while let Some(range) = self.pending.pop() {
            self.look(analysis, floor, range)?;
        }
        Ok(())
    }

    /// The place of the newest put on a suspect's key in its past, if there is one at `suspect.from` or later.
    pub fn newest_in_past(
        &mut self,
        analysis: &Analysis,
        floor: u32,
        suspect: Suspect,
    ) -> Result<Option<u32>, AllocError>
        requires analysis { IsAnalysis analysis.now }
        requires suspect { IsSuspect analysis.now.history.now.sessions analysis.now.table.now suspect }
        requires sweeping { IsSweeping analysis.now.table.now analysis.now.summaries.now analysis.now.firsts.now floor self.old (λ _. ⊥) }
        requires empty { self.old.pending.items ≡ [] }
        requires about { IsAbout analysis.now.table.now analysis.now.summaries.now self.old suspect.op }
        requires low { floor ≤ suspect.from }
        ensures sweeping { OnOk result (IsSweeping analysis.now.table.now analysis.now.summaries.now analysis.now.firsts.now floor self.new (λ _. ⊥)) }
        ensures empty { OnOk result (self.new.pending.items ≡ []) }
        ensures about { OnOk result (IsAbout analysis.now.table.now analysis.now.summaries.now self.new suspect.op) }
        ensures found { IfOk result (λ found. IfSome found (IsNewestFor analysis.now suspect)) }
        ensures none { IfOk result (λ found. IfNone found (HasNoNewer analysis.now suspect)) }
        ensures room { (space : ℕ) → HasRoom space (map length analysis.now.summaries.now) self.old
            → IsOk result × HasRoom space (map length analysis.now.summaries.now) self.new }
    {
        self.raise(suspect.op.client, suspect.op.index)?;
        self.drain(analysis, floor)?;
        let newest = self.newest.get(suspect.first as usize);
        if newest > suspect.from {
            Ok(Some(newest - 1))
        } else {
            Ok(None)
        }
    }
}
