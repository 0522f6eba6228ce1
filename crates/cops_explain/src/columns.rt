//! Which operations are shown, one in each column, from left to right.
ghost use Rattle.std.specs.Prelude.{◌≡◌, ◌+◌, ◌<◌, ◌≤◌, IfOk, IfSome, OnOk, length, vec_len};
ghost use Rattle.cops_types.specs.Faults.{IsStale};
ghost use Rattle.cops_types.specs.Histories.{SourceStep};
ghost use Rattle.cops_report.specs.Chains.{IsFirstChain};
ghost use Rattle.cops_audit.specs.Faults.{IsFault};
ghost use Rattle.cops_explain.specs.declared.sizes.TheConstants.{MAX_COLUMNS};

use crate::sizes::{SHOWN_END, SHOWN_START};
use cops_audit::Fault;
use cops_report::chain;
use cops_types::{History, Memory, OpName, Version};
use std::alloc::{AllocError, Global};

/// The role of an operation in the picture.
#[derive(Clone, Copy, Debug, PartialEq, Eq)]
pub enum Role {
    Plain,
    /// The newer put of a stale get.
    Newer,
    /// The put that a stale get returned.
    Returned,
    AtFault,
}

/// What a column shows.
#[derive(Clone, Copy, Debug, PartialEq, Eq)]
pub enum Column {
    Operation { name: OpName, role: Role },
    /// This many operations are left out here.
    LeftOut(usize),
}

/// The role of an operation in the fault's picture, if it is not the returned put.
fn role_of(fault: Fault, name: OpName) -> Role {
    if name == fault.name() {
        return Role::AtFault;
    }
    match fault {
        Fault::Stale(stale) if name == stale.newer => Role::Newer,
        _ => Role::Plain,
    }
}

/// Adds the puts of a client that have the version.
fn push_puts(
    names: &mut Vec<OpName>,
    history: &History,
    client: u16,
    version: Version,
) -> Result<(), AllocError> {
    for index in 0..history.session_len(client) {
        let index = index as u32;
        let name = OpName { client, index };
        if history.put_version(name) == Some(version) {
            names.push(name)?;
        }
    }
    Ok(())
}

/// The puts that have the version, in order of names.
fn puts_of(
    alloc: Global,
    history: &History,
    version: Option<Version>,
) -> Result<Vec<OpName>, AllocError> {
    let mut names = Vec::new(alloc);
    let Some(version) = version else {
        return Ok(names);
    };
    for client in 0..history.clients() {
        push_puts(&mut names, history, client as u16, version)?;
    }
    Ok(names)
}

/// The first put whose key, value and version the get returned.
fn source_of(history: &History, got: OpName) -> Option<OpName>
    ensures { IfSome result (λ put. SourceStep history.now.sessions put got) }
{
    for client in 0..history.clients() {
        let client = client as u16;
        for index in 0..history.session_len(client) {
            let index = index as u32;
            if history.is_source(OpName { client, index }, got) {
                return Some(OpName { client, index });
            }
        }
    }
    None
}

/// The chain from the newer put of a stale get to that get.
fn chain_of(
    alloc: Global,
    history: &History,
    newer: OpName,
    got: OpName,
) -> Result<Vec<OpName>, Memory>
    requires { IsStale history.now.sessions got newer }
    ensures { IfOk result (λ names. IsFirstChain history.now.sessions newer got names.items) }
{
    match chain(alloc, history, newer, got)? {
        Some(names) => Ok(names),
        None => unreachable!(),
    }
}

/// A get, and the puts of the version that it returned, in order of names.
fn around(alloc: Global, history: &History, got: OpName) -> Result<Vec<OpName>, AllocError> {
    let mut names = puts_of(alloc, history, history.got_version(got))?;
    names.push(got)?;
    names.sort_unstable();
    Ok(names)
}

/// The operations that a fault concerns. Those of one client are in its order.
fn concerned(alloc: Global, history: &History, fault: Fault) -> Result<Vec<OpName>, Memory>
    requires { IsFault history.now.sessions fault }
{
    match fault {
        Fault::Doubled(name) => Ok(puts_of(alloc, history, history.put_version(name))?),
        Fault::NoSource(name) => Ok(around(alloc, history, name)?),
        Fault::NotAbove(fault) => Ok(vec![in alloc; fault.earlier, fault.op]?),
        Fault::Stale(fault) => chain_of(alloc, history, fault.newer, fault.op),
    }
}

/// Adds a column for each name.
fn push_all(columns: &mut Vec<Column>, fault: Fault, names: &[OpName]) -> Result<(), AllocError>
    ensures { OnOk result (vec_len columns.new ≡ vec_len columns.old + length names.now) }
{
    for name in names {
        let name = *name;
        let role = role_of(fault, name);
        columns.push(Column::Operation { name, role })?;
    }
    Ok(())
}

/// Adds a column for `count` operations that are left out, if there are any.
fn push_left_out(columns: &mut Vec<Column>, count: usize) -> Result<(), AllocError>
    ensures { OnOk result (vec_len columns.new ≤ vec_len columns.old + 1) }
{
    if count > 0 {
        columns.push(Column::LeftOut(count))?;
    }
    Ok(())
}

/// Adds the operation at fault, if it is among the names, and columns for those left out before and after it.
fn push_middle(columns: &mut Vec<Column>, fault: Fault, names: &[OpName]) -> Result<(), AllocError>
    ensures { OnOk result (vec_len columns.new ≤ vec_len columns.old + 3) }
{
    let own = fault.name();
    match names.iter().position(|name| *name == own) {
        Some(at) => {
            push_left_out(columns, at)?;
            push_all(columns, fault, &names[at..at + 1])?;
            push_left_out(columns, names.len() - at - 1)
        }
        None => push_left_out(columns, names.len()),
    }
}

/// Adds columns for the names: for all of them where they are few, otherwise for the first, the last, and the one at
/// fault.
fn push_folded(columns: &mut Vec<Column>, fault: Fault, names: &[OpName]) -> Result<(), AllocError>
    ensures { OnOk result (vec_len columns.new + 1 ≤ vec_len columns.old + MAX_COLUMNS) }
{
    if names.len() <= SHOWN_START + 1 + SHOWN_END {
        return push_all(columns, fault, names);
    }
    let end = names.len() - SHOWN_END;
    push_all(columns, fault, &names[..SHOWN_START])?;
    push_middle(columns, fault, &names[SHOWN_START..end])?;
    push_all(columns, fault, &names[end..])
}

/// Adds the put that a stale get returned, if there is one.
fn push_returned(
    columns: &mut Vec<Column>,
    history: &History,
    fault: Fault,
) -> Result<(), AllocError>
    ensures { OnOk result (vec_len columns.new ≤ vec_len columns.old + 1) }
{
    let Fault::Stale(stale) = fault else {
        return Ok(());
    };
    if let Some(name) = source_of(history, stale.op) {
        let role = Role::Returned;
        columns.push(Column::Operation { name, role })?;
    }
    Ok(())
}

/// The columns of the picture of a fault.
pub fn columns_of(alloc: Global, history: &History, fault: Fault) -> Result<Vec<Column>, Memory>
    requires { IsFault history.now.sessions fault }
    ensures { IfOk result (λ v. vec_len v ≤ MAX_COLUMNS) }
{
    let names = concerned(alloc, history, fault)?;
    let mut columns = Vec::new(alloc);
    push_returned(&mut columns, history, fault)?;
    push_folded(&mut columns, fault, &names)?;
    Ok(columns)
}
