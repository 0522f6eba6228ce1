//! The backward search from an operation, by the number of steps that lead to it.
ghost use Rattle.cops_types.specs.declared.limits.TheConstants.{MAX_OPS};
ghost use Rattle.std.specs.Prelude.{◌≡◌, ℕ, ◌+◌, ◌<◌, ◌≤◌, OnOk, IfOk, IsTrue, ◌↔◌, [], length, slice_index_or};
ghost use Rattle.std.specs.List.Sorted.{IsNonDecreasingBy};
ghost use Rattle.cops_types.specs.Histories.{Sessions, SessionStep, SourceStep, IsNamed};
ghost use Rattle.cops_types.specs.Past.{Step};
ghost use Rattle.cops_types.specs.declared.op.OpName.{OpName};
ghost use Rattle.cops_types.specs.declared.versioned_put.VersionedPut.{VersionedPut};
ghost use Rattle.cops_audit.specs.Tables.{IsPutTable};
ghost use Rattle.cops_report.specs.Marks.{Gains, HasPlace, IsMarked, IsNearer, open_places, PlacesAll, SessionsMarked};
ghost use Rattle.cops_report.specs.Searches.{HasReached, IsFound};

use crate::marks::{Mark, Marks};
use crate::puts::from_version;
use cops_types::{History, OpName, Version, VersionedPut};
use std::alloc::{AllocError, Global};

/// Marks an operation that has no mark yet, and adds it to the names.
fn mark_new(
    marks: &mut Marks,
    names: &mut Vec<OpName>,
    name: OpName,
    mark: Mark,
) -> Result<(), AllocError>
    requires { HasPlace marks.old name }
    ensures gains { (h : Sessions) → Step h name mark.next →
        OnOk result (Gains h mark marks.old marks.new names.old.items names.new.items) }
    ensures marked { OnOk result (IsMarked marks.new name) }
{
    if marks.get(name).is_none() {
        names.push(name)?;
        marks.set(name, mark);
    }
    Ok(())
}

/// Whether the operation is marked with fewer steps.
fn is_nearer(marks: &Marks, name: OpName, steps: u32) -> bool
    ensures { IsTrue result ↔ IsNearer marks.now name steps }
{
    match marks.get(name) {
        Some(known) => known.steps < steps,
        None => false,
    }
}

/// Marks the operations that are before `mark.next` in its session. It stops at one that is marked with fewer steps,
/// before which all are marked already, so that the search visits each operation once.
fn mark_session(
    history: &History,
    marks: &mut Marks,
    names: &mut Vec<OpName>,
    mark: Mark,
) -> Result<(), AllocError>
    requires named { IsNamed history.now.sessions mark.next }
    requires places { PlacesAll marks.old history.now.sessions }
    requires nearer { SessionsMarked history.now.sessions marks.old mark }
    ensures gains { OnOk result
        (Gains history.now.sessions mark marks.old marks.new names.old.items names.new.items) }
    ensures all { OnOk result ((n : OpName) →
        SessionStep history.now.sessions n mark.next → IsMarked marks.new n) }
{
    let client = mark.next.client;
    for index in (0..mark.next.index).rev() {
        let name = OpName { client, index };
        if is_nearer(marks, name, mark.steps) {
            return Ok(());
        }
        mark_new(marks, names, name, mark)?;
    }
    Ok(())
}

/// Marks the puts that `mark.next` returned.
fn mark_sources(
    history: &History,
    puts: &[VersionedPut],
    marks: &mut Marks,
    names: &mut Vec<OpName>,
    mark: Mark,
) -> Result<(), AllocError>
    requires puts { IsPutTable history.now.sessions puts.now }
    requires places { PlacesAll marks.old history.now.sessions }
    ensures gains { OnOk result
        (Gains history.now.sessions mark marks.old marks.new names.old.items names.new.items) }
    ensures all { OnOk result ((n : OpName) →
        SourceStep history.now.sessions n mark.next → IsMarked marks.new n) }
{
    let Some(version) = history.got_version(mark.next) else {
        return Ok(());
    };
    let holders = from_version(puts, version);
    for put in holders {
        if put.version.as_u64() != version.as_u64() {
            return Ok(());
        }
        if history.is_source(put.name, mark.next) {
            mark_new(marks, names, put.name, mark)?;
        }
    }
    Ok(())
}

/// The names from which `steps` steps lead to the end of the search, and no fewer, in order.
#[derive(Drop)]
struct Level {
    steps: u32,
    names: Vec<OpName>,
}

/// Marks the operations from which one step leads to a name of the level, and gives the next level.
fn mark_level(
    alloc: Global,
    history: &History,
    puts: &[VersionedPut],
    marks: &mut Marks,
    level: &Level,
) -> Result<Level, AllocError>
    requires fits { level.now.steps ≤ MAX_OPS }
    requires puts { IsPutTable history.now.sessions puts.now }
    requires begun { (to : OpName) × HasReached history.now.sessions to marks.old level.now }
    ensures next { IfOk result (λ next. (to : OpName) → HasReached history.now.sessions to marks.old level.now
        → HasReached history.now.sessions to marks.new next) }
    ensures steps { IfOk result (λ next. next.steps ≡ level.now.steps + 1) }
    ensures count { IfOk result (λ next. open_places marks.new + length next.names.items ≡ open_places marks.old) }
{
    let steps = level.steps + 1;
    let reached = level.names.as_slice();
    let mut names = Vec::new(alloc);
    for next in reached {
        let mark = Mark { steps, next: *next };
        mark_session(history, marks, &mut names, mark)?;
        mark_sources(history, puts, marks, &mut names, mark)?;
    }
    names.sort_unstable();
    Ok(Level { steps, names })
}

/// The marks of a backward search from `to`, which ends when it reaches `from` or has marked all operations from which
/// steps lead to `to`.
pub fn search(
    alloc: Global,
    history: &History,
    puts: &[VersionedPut],
    from: OpName,
    to: OpName,
) -> Result<Marks, AllocError>
    requires puts { IsPutTable history.now.sessions puts.now }
    requires named { IsNamed history.now.sessions to }
    ensures { IfOk result (IsFound history.now.sessions from to) }
{
    let mut marks = Marks::new(alloc, history)?;
    marks.set(to, Mark { steps: 0, next: to });
    let names = vec![in alloc; to]?;
    let mut level = Level { steps: 0, names };
    while !level.names.is_empty() && marks.get(from).is_none() {
        level = mark_level(alloc, history, puts, &mut marks, &level)?;
    }
    Ok(marks)
}
