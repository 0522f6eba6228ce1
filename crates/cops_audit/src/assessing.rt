ghost use Rattle.std.specs.Prelude.{◌≡◌, ◌≤◌, Contains, IfOk, IsOk, IsTrue, OnOk, length};
ghost use Rattle.cops_types.specs.declared.op.OpName.{OpName};
ghost use Rattle.cops_types.specs.Counts.{count_of};
ghost use Rattle.cops_types.specs.Faults.{HasNoSource, IsStale};
ghost use Rattle.cops_types.specs.Recorded.{IsWithinLimits};
ghost use Rattle.cops_types.specs.Verdicts.{AllAbove, NoneStale};
ghost use Rattle.cops_audit.specs.Names.{names_left};
ghost use Rattle.cops_audit.specs.Summaries.{IsSummarized};
ghost use Rattle.cops_audit.specs.Placing.{ArePutPlaces};
ghost use Rattle.cops_audit.specs.Rooms.{Fits, IsSummarizedIn, IsReady};
ghost use Rattle.cops_audit.specs.SoFar.{HaveSourcesOrWait, IsMismatched, IsSoFar, IsWaiting};
ghost use Rattle.cops_audit.specs.Tables.{IsVersionTable};

use crate::analysis::{Analysis, PutIndex};
use crate::flat::FlatSummaries;
use crate::floors::set_floors;
use crate::names::Names;
use crate::put_places::set_places;
use crate::room::Scratch;
use crate::stale::has_stale;
use crate::summaries::{Summaries, SummaryPart, count_sourceless, is_sourceless};
use crate::table::{is_rising, place_of, set_puts};
use crate::verdict::SoFar;
use crate::window::set_suspects;
use cops_types::{History, OpName, VersionedPut};
use std::alloc::AllocError;

/// Whether a put has the version of a get that has no source.
fn is_mismatched(history: &History, table: &[VersionedPut], got: OpName) -> bool
    requires table { IsVersionTable history.now.sessions table.now }
    requires sourceless { HasNoSource history.now.sessions got }
    ensures mismatched { IsTrue result → (put : OpName) × IsMismatched history.now.sessions got put }
    ensures waiting { ¬ IsTrue result → IsWaiting history.now.sessions got }
{
    let Some(version) = history.got_version(got) else {
        return false;
    };
    match place_of(table, version) {
        Some(_) => true,
        None => false,
    }
}

/// Whether some put has the version of a get among these names that has no source.
fn has_mismatched(
    history: &History,
    table: &[VersionedPut],
    summaries: &Summaries,
    names: Names<'_>,
) -> bool
    requires table { IsVersionTable history.now.sessions table.now }
    requires summaries { IsSummarized history.now.sessions table.now summaries.now }
    ensures mismatched { IsTrue result → (got : OpName) × (put : OpName) × IsMismatched history.now.sessions got put }
    ensures waiting { ¬ IsTrue result → (got : OpName) → Contains (names_left names.entry) got → HasNoSource history.now.sessions got → IsWaiting history.now.sessions got }
{
    for got in names {
        if is_sourceless(summaries, got) {
            if is_mismatched(history, table, got) {
                return true;
            }
        }
    }
    false
}

impl Scratch {
    /// Whether a get is stale, in a history where each get has its source or no put has its version yet, and each put is
    /// above what its session saw. It allocates nothing and always returns `Ok`.
    fn has_stale(&mut self, history: &History, summaries: &Summaries) -> Result<bool, AllocError>
        requires summarized { IsSummarizedIn history.now.sessions self.old summaries.now }
        requires places { ArePutPlaces history.now.puts self.old.table.items self.old.places.items }
        requires sources { HaveSourcesOrWait history.now.sessions }
        requires above { AllAbove history.now.sessions }
        ensures ok { IsOk result }
        ensures stale { IfOk result (λ found. IsTrue found → (name : OpName) × (newer : OpName) × IsStale history.now.sessions name newer) }
        ensures none { IfOk result (λ found. ¬ IsTrue found → NoneStale history.now.sessions) }
        ensures ready { OnOk result (IsReady history.now.sessions self.new) }
        ensures space { OnOk result (self.new.space ≡ self.old.space) }
    {
        let places = self.places.as_slice();
        self.keys.fill(history, self.table.as_slice(), places)?;
        let analysis = Analysis {
            history,
            table: self.table.as_slice(),
            summaries,
            nexts: self.keys.nexts.as_slice(),
            by_key: self.keys.by_key.as_slice(),
            firsts: self.keys.firsts.as_slice(),
        };
        set_suspects(&mut self.suspects, &analysis, Names::all(history))?;
        let suspects = self.suspects.as_slice();
        set_floors(&mut self.floors, suspects)?;
        self.sweep.restart();
        let floors = self.floors.as_slice();
        let found = has_stale(&mut self.sweep, &analysis, suspects, floors)?;
        Ok(found)
    }

    /// The verdict so far on a history in which no two puts have the same version, each put is above what its session
    /// saw, and all operations have their causal summaries. It always returns `Ok`.
    fn assess_summaries(
        &mut self,
        history: &History,
        summaries: &Summaries,
    ) -> Result<SoFar, AllocError>
        requires above { AllAbove history.now.sessions }
        requires summarized { IsSummarizedIn history.now.sessions self.old summaries.now }
        requires places { ArePutPlaces history.now.puts self.old.table.items self.old.places.items }
        ensures ok { IsOk result }
        ensures so_far { IfOk result (IsSoFar history.now.sessions) }
        ensures ready { OnOk result (IsReady history.now.sessions self.new) }
        ensures space { OnOk result (self.new.space ≡ self.old.space) }
    {
        let table = self.table.as_slice();
        if has_mismatched(history, table, summaries, Names::all(history)) {
            return Ok(SoFar::Refused);
        }
        let stale = self.has_stale(history, summaries)?;
        if stale {
            return Ok(SoFar::Refused);
        }
        let waiting = count_sourceless(summaries, Names::all(history));
        if waiting == 0 {
            return Ok(SoFar::Clean);
        }
        Ok(SoFar::Waiting(waiting))
    }

    /// The verdict so far on a history in which no two puts have the same version and each put is above what its
    /// session saw. It always returns `Ok`.
    fn assess_gets(
        &mut self,
        flat: &mut FlatSummaries,
        history: &History,
    ) -> Result<SoFar, AllocError>
        requires above { AllAbove history.now.sessions }
        requires fits { Fits history.now.sessions self.old flat.old }
        requires limits { IsWithinLimits history.now.sessions }
        requires table { IsVersionTable history.now.sessions self.old.table.items }
        requires few { length self.old.table.items ≤ count_of history.now.sessions }
        ensures ok { IsOk result }
        ensures so_far { IfOk result (IsSoFar history.now.sessions) }
        ensures fits { OnOk result (Fits history.now.sessions self.new flat.new) }
    {
        let table = self.table.as_slice();
        set_places(&mut self.places, history, table)?;
        let index = PutIndex {
            history,
            table,
            places: self.places.as_slice(),
            sources: &[],
        };
        flat.fill(&index, 0, history.clients());
        let summaries = Summaries {
            low: flat.look(),
            high: SummaryPart::none(),
        };
        let so_far = self.assess_summaries(history, &summaries)?;
        Ok(so_far)
    }

    /// The verdict so far on a history that may go on. It allocates nothing and always returns `Ok`.
    pub fn assess(
        &mut self,
        flat: &mut FlatSummaries,
        history: &History,
    ) -> Result<SoFar, AllocError>
        requires { Fits history.now.sessions self.old flat.old }
        ensures ok { IsOk result }
        ensures so_far { IfOk result (IsSoFar history.now.sessions) }
        ensures fits { OnOk result (Fits history.now.sessions self.new flat.new) }
    {
        if !history.are_puts_above() {
            return Ok(SoFar::Refused);
        }
        set_puts(&mut self.table, history)?;
        if !is_rising(self.table.as_slice()) {
            return Ok(SoFar::Refused);
        }
        let so_far = self.assess_gets(flat, history)?;
        Ok(so_far)
    }
}
