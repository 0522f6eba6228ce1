ghost use Rattle.std.specs.Prelude.{◌≡◌, ◌<◌, ◌≤◌, ◌+◌, ◌^◌, ◌↔◌, List, IfSome, IsTrue, length, AllPairs, slice_index_or};
ghost use Rattle.cops_types.specs.declared.limits.TheConstants.{MAX_OPS};
ghost use Rattle.cops_types.specs.declared.op.OpName.{OpName};
ghost use Rattle.cops_types.specs.Histories.{IsNamed};
ghost use Rattle.cops_types.specs.Operations.{GetsVersion};
ghost use Rattle.cops_types.specs.Faults.{IsBefore};
ghost use Rattle.cops_audit.specs.Analyses.{IsPutIndex};
ghost use Rattle.cops_audit.specs.Names.{ListsAmong, names_left};
ghost use Rattle.cops_audit.specs.Summaries.{above as above_of, HasDone, IsSeen, IsSourceless};
ghost use Rattle.cops_audit.specs.Tables.{IsVersionTable};
ghost use Rattle.cops_types.specs.declared.versioned_put.VersionedPut.{VersionedPut};

use crate::analysis::PutIndex;
use crate::flat::Span;
use crate::hints::place_near;
use crate::names::Names;
use crate::op_version::OpVersion;
use crate::put_places::place_at;
use crate::table::first_from;
use cops_types::{History, OpName, VersionedPut};
use std::marker::Model;

/// What an operation did, by places in the table of puts in order of versions.
#[derive(Clone, Copy, Debug, PartialEq, Eq)]
pub enum OpPlace {
    /// A put, which is at this place.
    Put(u32),
    /// A get, whose source is at this place.
    Got(u32),
    /// A get that found nothing.
    Missed,
    /// A get that has no put as its source. The puts before this place have lower versions.
    Sourceless(u32),
}

/// The causal summary of an operation: what it did, and the least number above the places of all that its session saw
/// up to it.
#[derive(Clone, Copy, Debug, PartialEq, Eq)]
pub struct Summary {
    pub seen: OpPlace,
    pub mark: u32,
}

/// What an operation did, by the table. It is found faster where its version is near the place `near`.
pub fn see(
    history: &History,
    table: &[VersionedPut],
    near: u32,
    name: OpName,
    op_version: &OpVersion,
) -> OpPlace
    requires table { IsVersionTable history.now.sessions table.now }
    requires op_version { HasDone history.now.sessions name op_version.now }
    ensures { IsSeen history.now.sessions table.now name result }
{
    match op_version {
        OpVersion::Put(version) => match place_near(table, *version, near) {
            Some(place) => OpPlace::Put(place as u32),
            None => unreachable!(),
        },
        OpVersion::Got(version) => match place_near(table, *version, near) {
            Some(place) => see_source(history, table, name, place),
            None => OpPlace::Sourceless(first_from(table, *version) as u32),
        },
        OpVersion::Missed => OpPlace::Missed,
    }
}

/// What a get saw whose version is at this place.
fn see_source(history: &History, table: &[VersionedPut], got: OpName, place: usize) -> OpPlace
    requires table { IsVersionTable history.now.sessions table.now }
    requires inside { place < length table.now }
    requires version { (d : VersionedPut) → GetsVersion history.now.sessions got (slice_index_or table.now place d).version }
    ensures { IsSeen history.now.sessions table.now got result }
{
    let put = &table[place];
    if history.is_source(put.name, got) {
        OpPlace::Got(place as u32)
    } else {
        OpPlace::Sourceless(place as u32)
    }
}

/// What an operation did, where it is a put or a get whose put is known to the history or is in `sources`; otherwise
/// `None`.
fn see_named(index: &PutIndex, name: OpName) -> Option<OpPlace>
    requires { IsPutIndex index.now }
    ensures { IfSome result (IsSeen index.now.history.now.sessions index.now.table.now name) }
{
    if let Some(number) = index.history.source_number(name) {
        let place = place_at(index.places, number)?;
        return Some(OpPlace::Got(place));
    }
    if let Some(number) = index.history.put_number(name) {
        let place = place_at(index.places, number)?;
        return Some(OpPlace::Put(place));
    }
    let number = index.history.pending_number(name)?;
    let place = place_at(index.sources, number)?;
    Some(OpPlace::Got(place))
}

/// What an operation did, by a search in the table where its put is not known. It is found faster where its version is
/// near the place `near`.
pub fn see_op(index: &PutIndex, name: OpName, near: u32) -> OpPlace
    requires index { IsPutIndex index.now }
    requires named { IsNamed index.now.history.now.sessions name }
    ensures { IsSeen index.now.history.now.sessions index.now.table.now name result }
{
    if let Some(seen) = see_named(index, name) {
        return seen;
    }
    let op_version = OpVersion::of(index.history, name);
    see(index.history, index.table, near, name, &op_version)
}

impl OpPlace {
    /// The number just above the place of what was seen; 0 where nothing was found.
    pub fn above(self) -> u32
        requires { above_of self < 2 ^ 32 }
        ensures { result ≡ above_of self }
    {
        match self {
            OpPlace::Put(place) | OpPlace::Got(place) => place + 1,
            OpPlace::Sourceless(place) => place,
            OpPlace::Missed => 0,
        }
    }
}

/// A view of the causal summaries of clients that follow one another: those of all in one slice, and the range of each
/// session in `spans`.
#[derive(Drop)]
pub struct SummaryPart<'a> {
    pub summaries: &'a [Summary],
    pub spans: &'a [Span],
}

impl<'a> Model for SummaryPart<'a> {
    ghost use Rattle.std.specs.Prelude.{List, map, All};
    ghost use Rattle.cops_audit.specs.declared.summaries.Summary.{Summary};
    ghost use Rattle.cops_audit.specs.Summaries.{IsWithin, span_of};

    ghost Value = { List (List Summary) };

    ghost view = { λ a. map (span_of a.summaries.now) a.spans.now };

    ghost invariant = { λ a. All (IsWithin a.summaries.now) a.spans.now };
}

impl<'a> SummaryPart<'a> {
    ghost use Rattle.std.specs.Prelude.{◌≡◌, slice_index_or, []};

    /// No summaries.
    pub fn none() -> Self
        ensures { result ≡ [] }
    {
        SummaryPart {
            summaries: &[],
            spans: &[],
        }
    }

    /// The causal summaries of the session with this number.
    #[inline(always)]
    fn session(&self, number: usize) -> &[Summary]
        ensures { result.now ≡ slice_index_or self.now number [] }
    {
        match self.spans.get(number) {
            Some(span) => &self.summaries[span.from..span.to],
            None => &[],
        }
    }
}

/// A view of the causal summaries of a history, by client and index: those of the first clients in one part, and those
/// of the others in another.
#[derive(Drop)]
pub struct Summaries<'a> {
    pub low: SummaryPart<'a>,
    pub high: SummaryPart<'a>,
}

impl<'a> Model for Summaries<'a> {
    ghost use Rattle.std.specs.Prelude.{List, ◌++◌};
    ghost use Rattle.cops_audit.specs.declared.summaries.Summary.{Summary};

    ghost Value = { List (List Summary) };

    ghost view = { λ a. a.low ++ a.high };
}

impl<'a> Summaries<'a> {
    ghost use Rattle.std.specs.Prelude.{◌≡◌, slice_index_or, []};
    ghost use Rattle.cops_audit.specs.Summaries.{summary_at};

    /// The causal summaries of a client's operations, in their order.
    #[inline(always)]
    pub fn session(&self, client: u16) -> &[Summary]
        ensures { result.now ≡ slice_index_or self.now client [] }
    {
        let client = client as usize;
        let first = self.low.spans.len();
        if client < first {
            self.low.session(client)
        } else {
            self.high.session(client - first)
        }
    }

    /// The causal summary of an operation.
    #[inline(always)]
    pub fn get(&self, name: OpName) -> Option<Summary>
        ensures { result ≡ summary_at self.now name }
    {
        self.session(name.client).get(name.index as usize).copied()
    }
}

/// Whether its summary says that it is a get without a source.
pub fn is_sourceless(summaries: &Summaries, name: OpName) -> bool
    ensures { IsTrue result ↔ IsSourceless summaries.now name }
{
    let Some(summary) = summaries.get(name) else {
        return false;
    };
    match summary.seen {
        OpPlace::Sourceless(_) => true,
        _ => false,
    }
}

/// How many of the gets among these names have no source.
pub fn count_sourceless(summaries: &Summaries, names: Names<'_>) -> usize
    requires in_order { AllPairs IsBefore (names_left names) }
    requires few { length (names_left names) ≤ MAX_OPS }
    ensures { (gets : List OpName) × ListsAmong (λ n. n) (IsSourceless summaries.now) (names_left names.entry) gets × (length gets ≡ result) }
{
    let mut count = 0;
    for name in names {
        if is_sourceless(summaries, name) {
            count += 1;
        }
    }
    count
}
