ghost use Rattle.std.specs.Prelude.{◌<◌, ℕ, List, IfOk, IsOk, IsTrue, OnOk, length, map, AllPairs, slice_index_or};
ghost use Rattle.cops_types.specs.declared.op.OpName.{OpName};
ghost use Rattle.cops_types.specs.Faults.{IsBefore, IsStale};
ghost use Rattle.cops_audit.specs.declared.window.Suspect.{Suspect};
ghost use Rattle.cops_audit.specs.Analyses.{IsAnalysis};
ghost use Rattle.cops_audit.specs.Names.{ListsStale, names_left};
ghost use Rattle.cops_audit.specs.Sweeps.{HasRoom, IsIdle};
ghost use Rattle.cops_audit.specs.Floors.{AreFloors};
ghost use Rattle.cops_audit.specs.Windows.{AreSuspectsInOrder, NoneNewerAmong};

use crate::analysis::Analysis;
use crate::floors::{judge_next, set_floors};
use crate::names::Names;
use crate::sweep::Sweep;
use crate::verdict::Stale;
use crate::window::{Suspect, set_suspects};
use std::alloc::{AllocError, Global};

/// The stale gets among the suspects, each with the newest put on its key in its past.
fn stale_suspects(
    alloc: Global,
    analysis: &Analysis,
    suspects: &[Suspect],
) -> Result<Vec<Stale>, AllocError>
    requires analysis { IsAnalysis analysis.now }
    requires suspects { AreSuspectsInOrder analysis.now.history.now.sessions analysis.now.table.now suspects.now }
    ensures { IfOk result (λ v. ListsStale analysis.now.history.now.sessions (map (λ s. s.op) suspects.now) v.items) }
{
    let mut floors = Vec::new(alloc);
    set_floors(&mut floors, suspects)?;
    let floors = floors.as_slice();
    let mut sweep = Sweep::new(alloc, analysis.history.clients(), analysis.table.len())?;
    let mut faults = Vec::new(alloc);
    for k in 0..suspects.len() {
        let op = suspects[k].op;
        let found = judge_next(&mut sweep, analysis, suspects, floors, k)?;
        if let Some(place) = found {
            let put = &analysis.table[place as usize];
            faults.push(Stale {
                op,
                newer: put.name,
            })?;
        }
    }
    Ok(faults)
}

/// The stale gets among these names, each with the newest put on its key in its past.
pub fn stale_among(
    alloc: Global,
    analysis: &Analysis,
    names: Names<'_>,
) -> Result<Vec<Stale>, AllocError>
    requires analysis { IsAnalysis analysis.now }
    requires in_order { AllPairs IsBefore (names_left names) }
    ensures { IfOk result (λ v. ListsStale analysis.now.history.now.sessions (names_left names.entry) v.items) }
{
    // Memory that no suspect needs is not touched, and the vector is not copied as it grows.
    let mut found = Vec::with_capacity(alloc, names.most())?;
    set_suspects(&mut found, analysis, names)?;
    let suspects = found.as_slice();
    if suspects.is_empty() {
        return Ok(Vec::new(alloc));
    }
    let faults = stale_suspects(alloc, analysis, suspects)?;
    Ok(faults)
}

/// Whether one of the suspects is stale. The sweep must have nothing pending. It allocates nothing where the sweep has
/// the capacity.
pub fn has_stale(
    sweep: &mut Sweep,
    analysis: &Analysis,
    suspects: &[Suspect],
    floors: &[u32],
) -> Result<bool, AllocError>
    requires analysis { IsAnalysis analysis.now }
    requires suspects { AreSuspectsInOrder analysis.now.history.now.sessions analysis.now.table.now suspects.now }
    requires floors { AreFloors suspects.now floors.now }
    requires idle { IsIdle (length analysis.now.history.now.sessions) (length analysis.now.table.now) sweep.old }
    ensures stale { IfOk result (λ found. IsTrue found → (name : OpName) × (newer : OpName) × IsStale analysis.now.history.now.sessions name newer) }
    ensures none { IfOk result (λ found. ¬ IsTrue found → NoneNewerAmong analysis.now.history.now.sessions suspects.now) }
    ensures idle { OnOk result (IsIdle (length analysis.now.history.now.sessions) (length analysis.now.table.now) sweep.new) }
    ensures room { (space : ℕ) → HasRoom space (map length analysis.now.summaries.now) sweep.old
        → IsOk result × HasRoom space (map length analysis.now.summaries.now) sweep.new }
{
    for k in 0..suspects.len() {
        let found = judge_next(sweep, analysis, suspects, floors, k)?;
        if let Some(_place) = found {
            return Ok(true);
        }
    }
    Ok(false)
}
