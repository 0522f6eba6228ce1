use crate::analysis::{Analysis, PutIndex};
use crate::flat::Halves;
use crate::key_index::KeyIndex;
use crate::names::Names;
use crate::parallel::summaries_and_keys;
use crate::put_places::put_places;
use crate::puts::Puts;
use crate::stale::stale_among;
use crate::table::put_names;
use crate::verdict::{Faults, OrderedVerdict, Stale, Verdict};
use cops_types::{History, Memory, OpName, VersionedPut};
use std::alloc::{AllocError, Global};
use std::marker::Model;
use std::thread::Threads;

/// The tables in which stale gets are looked up, of a history in which no two puts have the same version: its puts, the
/// causal summaries of its operations, and the puts by their keys.
#[derive(Drop)]
pub struct Tables<'a> {
    history: &'a History,
    table: Vec<VersionedPut>,
    summaries: Halves,
    keys: KeyIndex,
}

impl<'a> Model for Tables<'a> {
    ghost use Rattle.cops_audit.specs.KeyIndexes.{IsKeyIndex};
    ghost use Rattle.cops_audit.specs.Names.{names_of};
    ghost use Rattle.cops_audit.specs.Summarized.{AreTables, Summarized};

    ghost Value = { Summarized };

    ghost view = { λ t. record { sessions = t.history.now.sessions; names = names_of t.history.now.sessions; summaries = t.summaries } };

    ghost invariant = { λ t. AreTables t.table.items (record { sessions = t.history.now.sessions; names = names_of t.history.now.sessions; summaries = t.summaries })
        × IsKeyIndex t.history.now t.table.items t.keys };
}

impl<'a> Tables<'a> {
    ghost use Rattle.std.specs.Prelude.{◌≡◌, ◌≤◌, ◌+◌, IfOk, length, slice_range, AllPairs};
    ghost use Rattle.cops_types.specs.Faults.{IsBefore};
    ghost use Rattle.cops_types.specs.Verdicts.{AllAbove, AllHaveSources};
    ghost use Rattle.cops_audit.specs.Tables.{Rises};
    ghost use Rattle.cops_audit.specs.Ordered.{IsOrderedVerdict};
    ghost use Rattle.cops_audit.specs.Names.{ListsStale};

    /// The tables of puts. The only error is `AllocError`, where memory runs out.
    pub fn new(alloc: Global, puts: Puts<'a>) -> Result<Self, AllocError>
        requires { Rises puts.table }
        ensures sessions { IfOk result (λ tables. tables.sessions ≡ puts.entry.sessions) }
        ensures names { IfOk result (λ tables. tables.names ≡ puts.entry.names) }
    {
        let places = put_places(alloc, puts.history, puts.table.as_slice())?;
        let index = PutIndex {
            history: puts.history,
            table: puts.table.as_slice(),
            places: places.as_slice(),
            sources: puts.sources.places.as_slice(),
        };
        let summaries = Halves::by_one(alloc, &index)?;
        let keys = KeyIndex::new(alloc, index.history, index.table, index.places)?;
        Ok(Tables {
            history: puts.history,
            table: puts.table,
            summaries,
            keys,
        })
    }

    /// Like `new`, but with at most `threads` threads. The only error is `AllocError`, where memory runs out.
    pub fn parallel<R: Threads + Sync>(
        rt: &R,
        alloc: Global,
        puts: Puts<'a>,
        threads: u8,
    ) -> Result<Self, AllocError>
        requires { Rises puts.table }
        ensures sessions { IfOk result (λ tables. tables.sessions ≡ puts.entry.sessions) }
        ensures names { IfOk result (λ tables. tables.names ≡ puts.entry.names) }
    {
        let places = put_places(alloc, puts.history, puts.table.as_slice())?;
        let index = PutIndex {
            history: puts.history,
            table: puts.table.as_slice(),
            places: places.as_slice(),
            sources: puts.sources.places.as_slice(),
        };
        let (summaries, keys) = summaries_and_keys(rt, alloc, &index, threads)?;
        Ok(Tables {
            history: puts.history,
            table: puts.table,
            summaries,
            keys,
        })
    }

    /// How many operations there are.
    pub fn count(&self) -> usize
        ensures count { result ≡ length self.now.names }
        ensures in_order { AllPairs IsBefore self.now.names }
    {
        self.history.len()
    }

    /// The stale gets among the `len` names from `start` on, each with the newest put on its key in its past, where the
    /// classes before them are empty. The only error is `AllocError`, where memory runs out.
    pub fn stale(&self, alloc: Global, start: usize, len: usize) -> Result<Vec<Stale>, AllocError>
        requires inside { start + len ≤ length self.now.names }
        requires sources { AllHaveSources self.now.sessions }
        requires above { AllAbove self.now.sessions }
        ensures { IfOk result (λ v. ListsStale self.now.sessions (slice_range self.now.names start (start + len)) v.items) }
    {
        let summaries = self.summaries.look();
        let analysis = Analysis {
            history: self.history,
            table: self.table.as_slice(),
            summaries: &summaries,
            nexts: self.keys.nexts.as_slice(),
            by_key: self.keys.by_key.as_slice(),
            firsts: self.keys.firsts.as_slice(),
        };
        stale_among(alloc, &analysis, Names::range(self.history, start, len))
    }

    /// The verdict where the classes before the stale gets are empty, with the puts in order of versions: the stale gets
    /// among all names, or the puts' names. The only error is `Memory`, where memory runs out.
    pub fn verdict(self, alloc: Global, stale: Vec<Stale>) -> Result<OrderedVerdict, Memory>
        requires sources { AllHaveSources self.sessions }
        requires above { AllAbove self.sessions }
        requires stale { ListsStale self.sessions self.names stale.items }
        ensures { IfOk result (IsOrderedVerdict self.entry.sessions) }
    {
        // What only the search needs is freed before the puts are listed.
        let Tables {
            table: puts,
            summaries,
            keys,
            ..
        } = self;
        drop(summaries);
        drop(keys);
        if !stale.is_empty() {
            let verdict = Verdict::Refused(Faults::Stale(stale));
            return Ok(OrderedVerdict { verdict, puts });
        }
        let names = put_names(alloc, puts.as_slice())?;
        let verdict = Verdict::Accepted(names);
        Ok(OrderedVerdict { verdict, puts })
    }
}
