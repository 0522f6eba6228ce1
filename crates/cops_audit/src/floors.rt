ghost use Rattle.std.specs.Prelude.{◌≡◌, ◌<◌, ◌≤◌, ◌+◌, ◌-◌, ℕ, IfOk, IfSome, IfNone, IsOk, OnOk, IsTrue, length, map, slice_index_or, vec_capacity};
ghost use Rattle.cops_audit.specs.declared.window.Suspect.{Suspect};
ghost use Rattle.cops_audit.specs.Analyses.{IsAnalysis};
ghost use Rattle.cops_audit.specs.Sweeps.{HasRoom};
ghost use Rattle.cops_audit.specs.Floors.{AreFloors, HasNoNewer, IsAfter, IsNewestFor};
ghost use Rattle.cops_audit.specs.Windows.{AreSuspectsInOrder};

use crate::analysis::Analysis;
use crate::sweep::Sweep;
use crate::window::Suspect;
use std::alloc::{AllocError, Global};

/// Whether the next suspect is of the same client.
fn goes_on(suspects: &[Suspect], k: usize) -> bool
    requires { k < length suspects.now }
    ensures { k + 1 < length suspects.now → ((d : Suspect) → (slice_index_or suspects.now k d).op.client ≡ (slice_index_or suspects.now (k + 1) d).op.client) → IsTrue result }
{
    if k + 1 >= suspects.len() {
        return false;
    }
    suspects[k + 1].op.client == suspects[k].op.client
}

/// Fills `floors` with the least place that matters to each suspect and to its client's later suspects. It allocates
/// nothing where the capacity is at least the number of suspects.
pub fn set_floors(floors: &mut Vec<u32>, suspects: &[Suspect]) -> Result<(), AllocError>
    ensures floors { OnOk result (AreFloors suspects.now floors.new.items) }
    ensures capacity { vec_capacity floors.old ≤ vec_capacity floors.new }
    ensures succeeds { length suspects.now ≤ vec_capacity floors.old → IsOk result }
{
    floors.clear();
    floors.resize(suspects.len(), 0)?;
    let mut floor = 0u32;
    for k in (0..suspects.len()).rev() {
        let from = suspects[k].from;
        if !goes_on(suspects, k) {
            floor = from;
        }
        if from < floor {
            floor = from;
        }
        floors[k] = floor;
    }
    Ok(())
}

/// Whether the previous suspect is of the same client.
fn follows(suspects: &[Suspect], k: usize) -> bool
    requires { k < length suspects.now }
    ensures before { IsTrue result → 0 < k }
    ensures same { IsTrue result → (d : Suspect) → (slice_index_or suspects.now (k - 1) d).op.client ≡ (slice_index_or suspects.now k d).op.client }
{
    if k == 0 {
        return false;
    }
    suspects[k - 1].op.client == suspects[k].op.client
}

/// The place of the newest put on a suspect's key in its past, if there is one at `from` of the suspect or later. The
/// sweep must have come as far as the suspect before.
pub fn judge_next(
    sweep: &mut Sweep,
    analysis: &Analysis,
    suspects: &[Suspect],
    floors: &[u32],
    k: usize,
) -> Result<Option<u32>, AllocError>
    requires analysis { IsAnalysis analysis.now }
    requires floors { AreFloors suspects.now floors.now }
    requires suspects { AreSuspectsInOrder analysis.now.history.now.sessions analysis.now.table.now suspects.now }
    requires inside { k < length suspects.now }
    requires after { IsAfter analysis.now.table.now analysis.now.summaries.now analysis.now.firsts.now suspects.now floors.now k sweep.old }
    ensures after { OnOk result (IsAfter analysis.now.table.now analysis.now.summaries.now analysis.now.firsts.now suspects.now floors.now (k + 1) sweep.new) }
    ensures found { IfOk result (λ found. IfSome found (λ place. (d : Suspect) → IsNewestFor analysis.now (slice_index_or suspects.now k d) place)) }
    ensures none { IfOk result (λ found. IfNone found ((d : Suspect) → HasNoNewer analysis.now (slice_index_or suspects.now k d))) }
    ensures room { (space : ℕ) → HasRoom space (map length analysis.now.summaries.now) sweep.old
        → IsOk result × HasRoom space (map length analysis.now.summaries.now) sweep.new }
{
    if !follows(suspects, k) {
        sweep.restart();
    }
    let found = sweep.newest_in_past(analysis, floors[k], suspects[k])?;
    Ok(found)
}
