ghost use Rattle.std.specs.Prelude.{◌≡◌, ◌<◌, ◌≤◌, ◌+◌, IfOk, OnOk, length, []};
ghost use Rattle.cops_types.specs.declared.limits.TheConstants.{MAX_CLIENTS};
ghost use Rattle.cops_types.specs.declared.op.OpName.{OpName};
ghost use Rattle.cops_types.specs.Histories.{IsNamed, SourceStep};
ghost use Rattle.cops_types.specs.declared.versioned_put.VersionedPut.{VersionedPut};
ghost use Rattle.cops_audit.specs.Searches.{Finds, IsPast, ListsCounts, IsSearching, TakesSources};
ghost use Rattle.cops_audit.specs.Sweeps.{Counted, InRange, work_left};
ghost use Rattle.cops_audit.specs.Tables.{IsPutTable};

use crate::sweep::{OpRange, Sweep};
use crate::table::{first_from, puts_by_version};
use cops_types::{History, Memory, OpName, VersionedPut};
use std::alloc::{AllocError, Global};

/// If a put is a source of an operation, counts the put and all that is before it in its session.
fn take_source(
    search: &mut Sweep,
    history: &History,
    put: OpName,
    name: OpName,
) -> Result<(), AllocError>
    requires { length search.old.counts ≡ length history.now.sessions }
    ensures takes { OnOk result (TakesSources history.now.sessions name search.old search.new) }
    ensures source { OnOk result (SourceStep history.now.sessions put name → Counted search.new.counts put) }
    ensures work { OnOk result (work_left search.new ≤ work_left search.old) }
{
    if history.is_source(put, name) {
        search.raise(put.client, put.index + 1)?;
    }
    Ok(())
}

/// Counts the puts that are sources of an operation, and all that is before them in their sessions.
fn take_sources(
    search: &mut Sweep,
    history: &History,
    table: &[VersionedPut],
    name: OpName,
) -> Result<(), AllocError>
    requires table { IsPutTable history.now.sessions table.now }
    requires clients { length search.old.counts ≡ length history.now.sessions }
    ensures takes { OnOk result (TakesSources history.now.sessions name search.old search.new) }
    ensures sources { OnOk result ((put : OpName) → SourceStep history.now.sessions put name → Counted search.new.counts put) }
    ensures work { OnOk result (work_left search.new ≤ work_left search.old) }
{
    let Some(version) = history.got_version(name) else {
        return Ok(());
    };
    let first = first_from(table, version);
    for place in first..table.len() {
        let put = &table[place];
        if put.version != version {
            return Ok(());
        }
        take_source(search, history, put.name, name)?;
    }
    Ok(())
}

/// Counts the sources of the operations of a range.
fn look_through(
    search: &mut Sweep,
    history: &History,
    table: &[VersionedPut],
    range: OpRange,
) -> Result<(), AllocError>
    requires table { IsPutTable history.now.sessions table.now }
    requires searching { IsSearching history.now.sessions search.old (InRange range) }
    ensures searching { OnOk result (IsSearching history.now.sessions search.new (λ _. ⊥)) }
    ensures finds { OnOk result (Finds history.now.sessions search.old search.new) }
    ensures work { OnOk result (work_left search.new ≤ work_left search.old) }
{
    for index in range.from..range.to {
        let name = OpName {
            client: range.client,
            index,
        };
        take_sources(search, history, table, name)?;
    }
    Ok(())
}

/// Counts the sources of the operations of all pending ranges, until none is pending.
fn look_at_all(
    search: &mut Sweep,
    history: &History,
    table: &[VersionedPut],
) -> Result<(), AllocError>
    requires table { IsPutTable history.now.sessions table.now }
    requires searching { IsSearching history.now.sessions search.old (λ _. ⊥) }
    ensures searching { OnOk result (IsSearching history.now.sessions search.new (λ _. ⊥)) }
    ensures finds { OnOk result (Finds history.now.sessions search.old search.new) }
    ensures empty { OnOk result (search.new.pending.items ≡ []) }
{
    while let Some(range) = search.pending.pop() {
        look_through(search, history, table, range)?;
    }
    Ok(())
}

/// The counts above 0, in order of clients.
fn counted(alloc: Global, search: &Sweep, clients: usize) -> Result<Vec<(u16, u32)>, AllocError>
    requires few { clients ≤ MAX_CLIENTS }
    requires clients { length search.now.counts ≡ clients }
    ensures { IfOk result (λ v. ListsCounts search.now.counts v.items) }
{
    let mut counts = Vec::new(alloc);
    for client in 0..clients {
        let count = search.counts.get(client);
        if count > 0 {
            counts.push((client as u16, count))?;
        }
    }
    Ok(counts)
}

/// The past of an operation of the history.
fn find_past(alloc: Global, history: &History, op: OpName) -> Result<Vec<(u16, u32)>, AllocError>
    requires { IsNamed history.now.sessions op }
    ensures { IfOk result (λ v. IsPast history.now.sessions op v.items) }
{
    let puts = puts_by_version(alloc, history)?;
    let table = puts.as_slice();
    let mut search = Sweep::new(alloc, history.clients(), 0)?;
    search.raise(op.client, op.index)?;
    take_sources(&mut search, history, table, op)?;
    look_at_all(&mut search, history, table)?;
    let counts = counted(alloc, &search, history.clients())?;
    Ok(counts)
}

/// The past of an operation, in any history: for each client that has operations in it, how many of the client's first
/// operations those are, in order of clients. It is empty for a name that is not in the history. The only error is
/// `Memory`, where memory runs out.
pub fn past(alloc: Global, history: &History, op: OpName) -> Result<Vec<(u16, u32)>, Memory>
    ensures { IfOk result (λ v. IsPast history.now.sessions op v.items) }
{
    match history.op(op) {
        Some(_) => {
            let counts = find_past(alloc, history, op)?;
            Ok(counts)
        }
        None => Ok(Vec::new(alloc)),
    }
}
