ghost use Rattle.std.specs.Prelude.{IfOk, ◌↔◌};
ghost use Rattle.cops_types.specs.Convergence.{IsCausallyConvergent};
ghost use Rattle.cops_types.specs.Verdicts.{AllAbove, AllHaveSources};
ghost use Rattle.cops_audit.specs.Ordered.{IsOrderedVerdict};
ghost use Rattle.cops_audit.specs.Tables.{Rises};
ghost use Rattle.cops_audit.specs.Verdicts.{Accepts, ConvergesByVersions, IsVerdict};

use crate::puts::Puts;
use crate::tables::Tables;
use crate::verdict::{OrderedVerdict, Verdict};
use cops_types::{History, Memory};
use std::alloc::Global;

/// The verdict on a history. It is accepted exactly where no two puts have the same version and the history converges
/// by the order of its versions; then it is causally convergent. The only error is `Memory`, where memory runs out.
pub fn judge(alloc: Global, history: &History) -> Result<Verdict, Memory>
    ensures verdict { IfOk result (IsVerdict history.now.sessions) }
    ensures convergent { IfOk result (λ v. Accepts v → IsCausallyConvergent history.now.sessions) }
    ensures exactly { IfOk result (λ v. Accepts v ↔ ConvergesByVersions history.now.sessions) }
{
    let ordered = judge_in_order(alloc, history)?;
    Ok(ordered.verdict)
}

/// The verdict that `judge` gives, and all puts in order of versions, in which reports look up the sources of gets. The
/// only error is `Memory`, where memory runs out.
pub fn judge_in_order(alloc: Global, history: &History) -> Result<OrderedVerdict, Memory>
    ensures { IfOk result (IsOrderedVerdict history.now.sessions) }
{
    let puts = Puts::new(alloc, history)?;
    if !puts.is_rising() {
        let faults = puts.doubled(alloc, 0, puts.count())?;
        let verdict = puts.refused_doubled(faults);
        return Ok(puts.with_verdict(verdict));
    }
    classify_gets(alloc, puts)
}

/// The first class of faults that is not empty, or the puts in order of versions, for a history in which no two puts
/// have the same version.
fn classify_gets(alloc: Global, puts: Puts) -> Result<OrderedVerdict, Memory>
    requires { Rises puts.table }
    ensures { IfOk result (IsOrderedVerdict puts.entry.sessions) }
{
    let count = puts.count();
    let sourceless = puts.without_source(alloc, 0, count)?;
    let not_above = puts.not_above(alloc, 0, count)?;
    if let Some(verdict) = puts.verdict_before_stale(sourceless, not_above) {
        return Ok(puts.with_verdict(verdict));
    }
    let tables = Tables::new(alloc, puts)?;
    classify_stale(alloc, tables)
}

/// The stale gets, or the puts in order of versions, for a history in which the classes before the stale gets are
/// empty.
fn classify_stale(alloc: Global, tables: Tables) -> Result<OrderedVerdict, Memory>
    requires sources { AllHaveSources tables.sessions }
    requires above { AllAbove tables.sessions }
    ensures { IfOk result (IsOrderedVerdict tables.entry.sessions) }
{
    let count = tables.count();
    let stale = tables.stale(alloc, 0, count)?;
    tables.verdict(alloc, stale)
}
