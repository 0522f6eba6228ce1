ghost use Rattle.std.specs.Prelude.{◌≡◌, ◌≤◌, ◌+◌, length, slice_index_or, [], vec_len, vec_capacity};
ghost use Rattle.cops_audit.specs.Analyses.{IsPutIndex};
ghost use Rattle.cops_audit.specs.Summaries.{AddsSession};

use crate::analysis::PutIndex;
use crate::summaries::{Summaries, Summary, SummaryPart, see_op};
use cops_types::OpName;
use std::alloc::{AllocError, Global};
use std::marker::Model;

/// The range in which the causal summaries of a session are: from one place up to, not including, another.
#[derive(Clone, Copy)]
pub struct Span {
    pub from: usize,
    pub to: usize,
}

/// The causal summaries of the operations of clients that follow one another, session by session in one vector. Its
/// capacity is reserved in advance and not touched until the summaries are built.
#[derive(Drop)]
pub struct FlatSummaries {
    summaries: Vec<Summary>,
    spans: Vec<Span>,
}

impl Model for FlatSummaries {
    ghost use Rattle.std.specs.Prelude.{map, All, vec_capacity};
    ghost use Rattle.cops_audit.specs.Summaries.{Flat, IsWithin, span_of};

    ghost Value = { Flat };

    ghost view = { λ f. record { sessions = map (span_of f.summaries.items) f.spans.items; summary_room = vec_capacity f.summaries; session_room = vec_capacity f.spans } };

    ghost invariant = { λ f. All (IsWithin f.summaries.items) f.spans.items };
}

/// Adds the causal summaries of the operations of a session. The vector must have the capacity for them.
fn push_session(summaries: &mut Vec<Summary>, index: &PutIndex, client: u16)
    requires index { IsPutIndex index.now }
    requires room { vec_len summaries.old + length (slice_index_or index.now.history.now.sessions client []) ≤ vec_capacity summaries.old }
    ensures summaries { AddsSession index.now.history.now.sessions index.now.table.now client summaries.old.items summaries.new.items }
    ensures capacity { vec_capacity summaries.new ≡ vec_capacity summaries.old }
{
    let mut mark = 0;
    for number in 0..index.history.session_len(client) {
        let name = OpName {
            client,
            index: number as u32,
        };
        let seen = see_op(index, name, mark);
        mark = mark.max(seen.above());
        summaries.push_reserved(Summary { seen, mark });
    }
}

impl FlatSummaries {
    ghost use Rattle.std.specs.Prelude.{◌≡◌, ◌≤◌, IfOk, OnOk, length};
    ghost use Rattle.cops_types.specs.Counts.{count_of};
    ghost use Rattle.cops_audit.specs.Analyses.{IsPutIndex};
    ghost use Rattle.cops_audit.specs.Summaries.{AreSummarized};

    /// No summaries, with capacity for the spans of `clients` clients.
    pub fn new(alloc: Global, clients: usize) -> Result<Self, AllocError>
        ensures { IfOk result (λ flat. clients ≤ flat.session_room) }
    {
        let spans = Vec::with_capacity(alloc, clients)?;
        Ok(FlatSummaries {
            summaries: Vec::new(alloc),
            spans,
        })
    }

    /// The summaries of the operations of the clients from `first` up to `end`.
    pub fn on_clients(
        alloc: Global,
        index: &PutIndex,
        first: usize,
        end: usize,
    ) -> Result<Self, AllocError>
        requires index { IsPutIndex index.now }
        requires first { first ≤ end }
        requires end { end ≤ length index.now.history.now.sessions }
        ensures { IfOk result (λ flat. AreSummarized index.now.history.now.sessions index.now.table.now first end flat.sessions) }
    {
        let mut flat = FlatSummaries::new(alloc, index.history.clients())?;
        flat.reserve(index.history.len())?;
        flat.fill(index, first, end);
        Ok(flat)
    }

    /// Reserves capacity for `count` summaries. Those that are there are dropped.
    pub fn reserve(&mut self, count: usize) -> Result<(), AllocError>
        ensures ok { OnOk result (count ≤ self.new.summary_room) }
        ensures kept { self.old.summary_room ≤ self.new.summary_room }
        ensures sessions { self.new.session_room ≡ self.old.session_room }
    {
        self.spans.clear();
        self.summaries.clear();
        self.summaries.reserve(count)
    }

    /// Builds the summaries of the operations of the clients from `first` up to `end`, in place of those that are
    /// there. The capacity for all operations must be reserved, and it allocates nothing.
    pub fn fill(&mut self, index: &PutIndex, first: usize, end: usize)
        requires index { IsPutIndex index.now }
        requires first { first ≤ end }
        requires end { end ≤ length index.now.history.now.sessions }
        requires sessions { length index.now.history.now.sessions ≤ self.old.session_room }
        requires summaries { count_of index.now.history.now.sessions ≤ self.old.summary_room }
        ensures summarized { AreSummarized index.now.history.now.sessions index.now.table.now first end self.new.sessions }
        ensures summary_room { self.new.summary_room ≡ self.old.summary_room }
        ensures session_room { self.new.session_room ≡ self.old.session_room }
    {
        self.spans.clear();
        self.summaries.clear();
        let end = end.min(index.history.clients());
        for client in first..end {
            let from = self.summaries.len();
            push_session(&mut self.summaries, index, client as u16);
            let to = self.summaries.len();
            self.spans.push_reserved(Span { from, to });
        }
    }

    /// A view of the summaries for reading.
    pub fn look(&self) -> SummaryPart<'_>
        ensures { result ≡ self.now.sessions }
    {
        SummaryPart {
            summaries: self.summaries.as_slice(),
            spans: self.spans.as_slice(),
        }
    }
}

/// The causal summaries of the operations of a history: those of the first clients, and those of the others.
#[derive(Drop)]
pub struct Halves {
    low: FlatSummaries,
    high: FlatSummaries,
}

impl Model for Halves {
    ghost use Rattle.std.specs.Prelude.{List, ◌++◌};
    ghost use Rattle.cops_audit.specs.declared.summaries.Summary.{Summary};

    ghost Value = { List (List Summary) };

    ghost view = { λ a. a.low.sessions ++ a.high.sessions };
}

impl Halves {
    ghost use Rattle.std.specs.Prelude.{◌≡◌, ◌++◌, IfOk};
    ghost use Rattle.cops_audit.specs.Analyses.{IsPutIndex};
    ghost use Rattle.cops_audit.specs.Summaries.{IsSummarized};

    /// The summaries of the first clients and of the others.
    pub fn of(low: FlatSummaries, high: FlatSummaries) -> Self
        ensures { result ≡ low.sessions ++ high.sessions }
    {
        Halves { low, high }
    }

    /// The summaries of all operations, built by one thread.
    pub fn by_one(alloc: Global, index: &PutIndex) -> Result<Self, AllocError>
        requires { IsPutIndex index.now }
        ensures { IfOk result (IsSummarized index.now.history.now.sessions index.now.table.now) }
    {
        let clients = index.history.clients();
        let low = FlatSummaries::on_clients(alloc, index, 0, clients)?;
        let high = FlatSummaries::on_clients(alloc, index, clients, clients)?;
        Ok(Halves::of(low, high))
    }

    /// A view of the summaries for reading.
    pub fn look(&self) -> Summaries<'_>
        ensures { result ≡ self.now }
    {
        Summaries {
            low: self.low.look(),
            high: self.high.look(),
        }
    }
}
