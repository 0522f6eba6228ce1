ghost use Rattle.std.specs.Prelude.{◌↔◌, IfOk, IsTrue, MatchOption};
ghost use Rattle.cops_types.specs.Histories.{IsNamed};
ghost use Rattle.cops_audit.specs.Tables.{IsPutTable};
ghost use Rattle.cops_report.specs.Chains.{HasNoChain, IsFirstChain};
ghost use Rattle.cops_report.specs.Marks.{IsMarked};
ghost use Rattle.cops_report.specs.Searches.{IsWalk, LeadsBack};

use crate::marks::Marks;
use crate::search::search;
use cops_audit::puts_by_version;
use cops_types::{History, Memory, OpName, VersionedPut};
use std::alloc::{AllocError, Global};

/// Whether the history has an operation with this name.
fn is_named(history: &History, name: OpName) -> bool
    ensures { IsTrue result ↔ IsNamed history.now.sessions name }
{
    history.op(name).is_some()
}

/// The names from a marked one to `to`, along the marks.
fn walk(alloc: Global, marks: &Marks, from: OpName, to: OpName) -> Result<Vec<OpName>, AllocError>
    requires marked { IsMarked marks.now from }
    requires back { LeadsBack marks.now to }
    ensures { IfOk result (λ names. IsWalk marks.now to from names.items) }
{
    let mut names = vec![in alloc; from]?;
    let mut mark = marks.get(from).unwrap();
    while mark.steps > 0 {
        names.push(mark.next)?;
        mark = marks.get(mark.next).unwrap();
    }
    Ok(names)
}

/// Like `chain`, with the puts of the history given, in order of versions.
pub fn chain_by(
    alloc: Global,
    history: &History,
    puts: &[VersionedPut],
    from: OpName,
    to: OpName,
) -> Result<Option<Vec<OpName>>, Memory>
    requires { IsPutTable history.now.sessions puts.now }
    ensures { IfOk result (λ found. MatchOption found
        (HasNoChain history.now.sessions from to)
        (λ names. IsFirstChain history.now.sessions from to names.items)) }
{
    if !is_named(history, from) || !is_named(history, to) {
        return Ok(None);
    }
    let marks = search(alloc, history, puts, from, to)?;
    let Some(_) = marks.get(from) else {
        return Ok(None);
    };
    let names = walk(alloc, &marks, from, to)?;
    Ok(Some(names))
}

/// A chain from one operation to the other, in which each next name is one session step or one source step after the
/// name before it: a shortest one, and of the shortest the first by the order of names, compared one by one. From a
/// name of the history to itself it is that name alone. It is `None` where no steps lead from the one to the other. The
/// only error is `Memory`, where memory runs out.
///
/// The search goes backward from `to` by levels and visits each operation once, so it takes time in proportion to the
/// operations times a logarithm, as long as few puts have one version.
pub fn chain(
    alloc: Global,
    history: &History,
    from: OpName,
    to: OpName,
) -> Result<Option<Vec<OpName>>, Memory>
    ensures { IfOk result (λ found. MatchOption found
        (HasNoChain history.now.sessions from to)
        (λ names. IsFirstChain history.now.sessions from to names.items)) }
{
    let puts = puts_by_version(alloc, history)?;
    chain_by(alloc, history, &puts, from, to)
}
