ghost use Rattle.std.specs.Prelude.{◌≡◌, ◌≤◌, ℕ, List, IfSome, IfNone, IsOk, OnOk, AllPairs, length, vec_len, vec_capacity};
ghost use Rattle.cops_types.specs.declared.op.OpName.{OpName};
ghost use Rattle.cops_types.specs.Histories.{IsMissed};
ghost use Rattle.cops_types.specs.Faults.{IsBefore};
ghost use Rattle.cops_audit.specs.Analyses.{IsAnalysis};
ghost use Rattle.cops_audit.specs.Names.{names_left};
ghost use Rattle.cops_audit.specs.SoFar.{IsWaiting};
ghost use Rattle.cops_audit.specs.Summaries.{IsSeen};
ghost use Rattle.cops_audit.specs.Windows.{AreSuspects, IsSuspect, NoneNewer, NoneWithin};

use crate::analysis::Analysis;
use crate::keys::first_on;
use crate::names::Names;
use crate::summaries::OpPlace;
use cops_types::OpName;
use std::alloc::AllocError;

/// A get that is stale if its past contains a put at the place `from` or later on its key, whose first put is at
/// `first`.
#[derive(Clone, Copy, Debug, PartialEq, Eq)]
pub struct Suspect {
    pub op: OpName,
    pub first: u32,
    pub from: u32,
}

/// The suspect for a get whose source is at a place: none where no put on the key is between the source and the mark.
fn got_suspect(analysis: &Analysis, op: OpName, place: u32, mark: u32) -> Option<Suspect>
    requires analysis { IsAnalysis analysis.now }
    requires got { IsSeen analysis.now.history.now.sessions analysis.now.table.now op (OpPlace.Got place) }
    ensures suspect { IfSome result (λ s. (s.op ≡ op) × IsSuspect analysis.now.history.now.sessions analysis.now.table.now s) }
    ensures none { IfNone result (NoneWithin analysis.now.history.now.sessions analysis.now.table.now op mark) }
{
    let from = analysis.nexts[place as usize];
    if from >= mark || from as usize >= analysis.table.len() {
        return None;
    }
    let first = analysis.firsts[place as usize];
    Some(Suspect { op, first, from })
}

/// The suspect for a get that found nothing on a key: none where no put on the key is below the mark.
fn missed_suspect(analysis: &Analysis, op: OpName, mark: u32) -> Option<Suspect>
    requires analysis { IsAnalysis analysis.now }
    requires missed { (key : List ℕ) × IsMissed analysis.now.history.now.sessions op key }
    ensures suspect { IfSome result (λ s. (s.op ≡ op) × IsSuspect analysis.now.history.now.sessions analysis.now.table.now s) }
    ensures none { IfNone result (NoneWithin analysis.now.history.now.sessions analysis.now.table.now op mark) }
{
    let Some(first) = first_on(analysis.history, analysis.by_key, op) else {
        return None;
    };
    if first >= mark {
        return None;
    }
    Some(Suspect {
        op,
        first,
        from: first,
    })
}

/// The suspect for a get without a source, where the puts before a place have lower versions: none where the place is
/// not below the mark, or there is no put on the key.
fn waiting_suspect(analysis: &Analysis, op: OpName, place: u32, mark: u32) -> Option<Suspect>
    requires analysis { IsAnalysis analysis.now }
    requires seen { IsSeen analysis.now.history.now.sessions analysis.now.table.now op (OpPlace.Sourceless place) }
    requires waiting { IsWaiting analysis.now.history.now.sessions op }
    ensures suspect { IfSome result (λ s. (s.op ≡ op) × IsSuspect analysis.now.history.now.sessions analysis.now.table.now s) }
    ensures none { IfNone result (NoneWithin analysis.now.history.now.sessions analysis.now.table.now op mark) }
{
    if place >= mark {
        return None;
    }
    let Some(first) = first_on(analysis.history, analysis.by_key, op) else {
        return None;
    };
    Some(Suspect {
        op,
        first,
        from: place,
    })
}

/// The suspect for an operation; where there is none, no put in its past is newer than what it returned.
#[inline(always)]
fn find_suspect(analysis: &Analysis, op: OpName) -> Option<Suspect>
    requires { IsAnalysis analysis.now }
    ensures suspect { IfSome result (λ s. (s.op ≡ op) × IsSuspect analysis.now.history.now.sessions analysis.now.table.now s) }
    ensures none { IfNone result (NoneNewer analysis.now.history.now.sessions op) }
{
    let Some(summary) = analysis.summaries.get(op) else {
        return None;
    };
    match summary.seen {
        OpPlace::Got(place) => got_suspect(analysis, op, place, summary.mark),
        OpPlace::Missed => missed_suspect(analysis, op, summary.mark),
        OpPlace::Sourceless(place) => waiting_suspect(analysis, op, place, summary.mark),
        _ => None,
    }
}

/// Fills `suspects` with the suspects among these names. It allocates nothing where the capacity is at least their
/// number.
pub fn set_suspects(
    suspects: &mut Vec<Suspect>,
    analysis: &Analysis,
    names: Names<'_>,
) -> Result<(), AllocError>
    requires analysis { IsAnalysis analysis.now }
    requires in_order { AllPairs IsBefore (names_left names) }
    ensures suspects { OnOk result (AreSuspects analysis.now.history.now.sessions analysis.now.table.now (names_left names.entry) suspects.new.items) }
    ensures count { OnOk result (vec_len suspects.new ≤ length (names_left names.entry)) }
    ensures capacity { vec_capacity suspects.old ≤ vec_capacity suspects.new }
    ensures succeeds { length (names_left names.entry) ≤ vec_capacity suspects.old → IsOk result }
{
    suspects.clear();
    for name in names {
        if let Some(found) = find_suspect(analysis, name) {
            suspects.push(found)?;
        }
    }
    Ok(())
}
