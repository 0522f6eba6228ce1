ghost use Rattle.std.specs.Prelude.{IfOk};
ghost use Rattle.cops_audit.specs.Placing.{AreSources};
ghost use Rattle.cops_audit.specs.Tables.{IsPutTable};

use crate::climbing::not_above;
use crate::names::Names;
use crate::sources::{Sources, find_sources, without_source};
use crate::table::{doubled, is_rising, puts_by_version};
use crate::verdict::{Faults, NotAbove, OrderedVerdict, Verdict};
use cops_types::{History, OpName, VersionedPut};
use std::alloc::{AllocError, Global};
use std::marker::Model;

/// A history, its puts in order of versions, and the places of the sources of its pending reads.
#[derive(Drop)]
pub struct Puts<'a> {
    pub(crate) history: &'a History,
    pub(crate) table: Vec<VersionedPut>,
    pub(crate) sources: Sources,
}

/// The places of the sources of pending reads where no two puts have the same version; otherwise none.
fn sources_where_rising(
    alloc: Global,
    history: &History,
    table: &[VersionedPut],
) -> Result<Sources, AllocError>
    requires { IsPutTable history.now.sessions table.now }
    ensures { IfOk result (AreSources history.now table.now) }
{
    if !is_rising(table) {
        return Ok(Sources::none(alloc));
    }
    find_sources(alloc, history, table)
}

impl<'a> Model for Puts<'a> {
    ghost use Rattle.cops_audit.specs.Names.{names_of};
    ghost use Rattle.cops_audit.specs.Placing.{AreSources};
    ghost use Rattle.cops_audit.specs.Sorted.{IsSorted, Sorted};

    ghost Value = { Sorted };

    ghost view = { λ p. record { sessions = p.history.now.sessions; names = names_of p.history.now.sessions; table = p.table.items } };

    ghost invariant = { λ p. IsSorted (record { sessions = p.history.now.sessions; names = names_of p.history.now.sessions; table = p.table.items })
        × AreSources p.history.now p.table.items p.sources };
}

impl<'a> Puts<'a> {
    ghost use Rattle.std.specs.Prelude.{◌≡◌, ◌≤◌, ◌+◌, IfOk, IfSome, IfNone, IsTrue, length, slice_range, AllPairs};
    ghost use Rattle.cops_types.specs.Faults.{HasNoSource, IsBefore};
    ghost use Rattle.cops_types.specs.Verdicts.{AllAbove, AllHaveSources};
    ghost use Rattle.cops_types.specs.VersionOrder.{IsDoubled};
    ghost use Rattle.cops_audit.specs.Names.{ListsAmong, ListsNotAbove};
    ghost use Rattle.cops_audit.specs.Ordered.{IsOrderedVerdict};
    ghost use Rattle.cops_audit.specs.Tables.{Repeats, Rises};
    ghost use Rattle.cops_audit.specs.Verdicts.{IsVerdict};

    /// The puts of a history. The only error is `AllocError`, where memory runs out.
    pub fn new(alloc: Global, history: &'a History) -> Result<Self, AllocError>
        ensures { IfOk result (λ puts. puts.sessions ≡ history.entry.now.sessions) }
    {
        let table = puts_by_version(alloc, history)?;
        let sources = sources_where_rising(alloc, history, table.as_slice())?;
        Ok(Puts {
            history,
            table,
            sources,
        })
    }

    /// How many operations there are.
    pub fn count(&self) -> usize
        ensures count { result ≡ length self.now.names }
        ensures in_order { AllPairs IsBefore self.now.names }
    {
        self.history.len()
    }

    /// Whether no two puts have the same version.
    pub fn is_rising(&self) -> bool
        ensures rising { IsTrue result → Rises self.now.table }
        ensures equal { ¬ IsTrue result → Repeats self.now.table }
    {
        is_rising(self.table.as_slice())
    }

    /// The puts among the `len` names from `start` on that have the version of another put. The only error is
    /// `AllocError`, where memory runs out.
    pub fn doubled(
        &self,
        alloc: Global,
        start: usize,
        len: usize,
    ) -> Result<Vec<OpName>, AllocError>
        requires { start + len ≤ length self.now.names }
        ensures { IfOk result (λ v. ListsAmong (λ n. n) (IsDoubled self.now.sessions) (slice_range self.now.names start (start + len)) v.items) }
    {
        let names = Names::range(self.history, start, len);
        doubled(alloc, self.history, names, self.table.as_slice())
    }

    /// The verdict where two puts have the same version. `faults` are the puts at fault among all names.
    pub fn refused_doubled(&self, faults: Vec<OpName>) -> Verdict
        requires repeats { Repeats self.now.table }
        requires faults { ListsAmong (λ n. n) (IsDoubled self.now.sessions) self.now.names faults.items }
        ensures { IsVerdict self.now.sessions result }
    {
        let _ = &self.history;
        Verdict::Refused(Faults::Doubled(faults))
    }

    /// The gets without a source among the `len` names from `start` on, where no two puts have the same version. The
    /// only error is `AllocError`, where memory runs out.
    pub fn without_source(
        &self,
        alloc: Global,
        start: usize,
        len: usize,
    ) -> Result<Vec<OpName>, AllocError>
        requires rising { Rises self.now.table }
        requires inside { start + len ≤ length self.now.names }
        ensures { IfOk result (λ v. ListsAmong (λ n. n) (HasNoSource self.now.sessions) (slice_range self.now.names start (start + len)) v.items) }
    {
        if self.sources.are_all {
            return Ok(Vec::new(alloc));
        }
        let names = Names::range(self.history, start, len);
        without_source(alloc, self.history, self.table.as_slice(), names)
    }

    /// The puts among the `len` names from `start` on that are not above what their sessions saw, each with the first
    /// earlier operation whose version is not below its own. The only error is `AllocError`, where memory runs out.
    pub fn not_above(
        &self,
        alloc: Global,
        start: usize,
        len: usize,
    ) -> Result<Vec<NotAbove>, AllocError>
        requires { start + len ≤ length self.now.names }
        ensures { IfOk result (λ v. ListsNotAbove self.now.sessions (slice_range self.now.names start (start + len)) v.items) }
    {
        if self.history.are_puts_above() {
            return Ok(Vec::new(alloc));
        }
        let names = Names::range(self.history, start, len);
        not_above(alloc, self.history, names)
    }

    /// The verdict by the classes before the stale gets, where no two puts have the same version, from the faults of
    /// these classes among all names; `None` where the classes are empty.
    pub fn verdict_before_stale(
        &self,
        sourceless: Vec<OpName>,
        not_above: Vec<NotAbove>,
    ) -> Option<Verdict>
        requires rising { Rises self.now.table }
        requires sourceless { ListsAmong (λ n. n) (HasNoSource self.now.sessions) self.now.names sourceless.items }
        requires not_above { ListsNotAbove self.now.sessions self.now.names not_above.items }
        ensures refused { IfSome result (IsVerdict self.now.sessions) }
        ensures sources { IfNone result (AllHaveSources self.now.sessions) }
        ensures above { IfNone result (AllAbove self.now.sessions) }
    {
        let _ = &self.history;
        if !sourceless.is_empty() {
            return Some(Verdict::Refused(Faults::NoSource(sourceless)));
        }
        if !not_above.is_empty() {
            return Some(Verdict::Refused(Faults::NotAbove(not_above)));
        }
        None
    }

    /// A verdict on the history, with the puts.
    pub fn with_verdict(self, verdict: Verdict) -> OrderedVerdict
        requires { IsVerdict self.sessions verdict }
        ensures { IsOrderedVerdict self.entry.sessions result }
    {
        OrderedVerdict {
            verdict,
            puts: self.table,
        }
    }
}
