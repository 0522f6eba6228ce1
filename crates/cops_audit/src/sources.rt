ghost use Rattle.std.specs.Prelude.{◌≡◌, ◌↔◌, [], false, Some, IfOk, IfSome, IsTrue, AllPairs, slice_get};
ghost use Rattle.cops_types.specs.Histories.{Operation};
ghost use Rattle.cops_types.specs.declared.op.OpName.{OpName};
ghost use Rattle.cops_types.specs.Faults.{HasNoSource, IsBefore};
ghost use Rattle.cops_audit.specs.Names.{ListsAmong, names_left};
ghost use Rattle.cops_audit.specs.Placing.{AreSources, IsSourcePlace};
ghost use Rattle.cops_audit.specs.Tables.{IsVersionTable};

use crate::hints::Buckets;
use crate::names::Names;
use crate::op_version::OpVersion;
use crate::put_places::NO_PLACE;
use crate::summaries::{OpPlace, see};
use cops_types::{History, OpName, OpRef, VersionedPut};
use std::alloc::{AllocError, Global};

/// The places of the sources of pending reads in a table of puts, each at the get's number, and whether it is known
/// that each get of the history has its source.
#[derive(Drop)]
pub struct Sources {
    pub places: Vec<u32>,
    pub are_all: bool,
}

impl Sources {
    /// No places: it is not known that every get has its source.
    pub fn none(alloc: Global) -> Self
        ensures unknown { result.are_all ≡ false }
        ensures empty { result.places.items ≡ [] }
    {
        Sources {
            places: Vec::new(alloc),
            are_all: false,
        }
    }
}

/// The place of the source of the pending read with this number, if it has one.
fn source_place(
    history: &History,
    table: &[VersionedPut],
    buckets: &Buckets,
    number: u32,
) -> Option<u32>
    requires { IsVersionTable history.now.sessions table.now }
    ensures { IfSome result (λ place. (op : Operation) → slice_get history.now.gets number ≡ Some op → IsSourcePlace history.now.sessions table.now op place) }
{
    let got = history.pending_read(number)?;
    let OpRef::Got { version, .. } = got else {
        return None;
    };
    let place = buckets.place_of(table, *version)?;
    let put = history.op(table[place].name)?;
    if put.is_source_of(&got) {
        return Some(place as u32);
    }
    None
}

/// The places of the sources of the pending reads, up to the first that has none.
pub fn find_sources(
    alloc: Global,
    history: &History,
    table: &[VersionedPut],
) -> Result<Sources, AllocError>
    requires { IsVersionTable history.now.sessions table.now }
    ensures { IfOk result (AreSources history.now table.now) }
{
    let count = history.pending_reads();
    let mut places = Vec::with_capacity(alloc, count)?;
    let buckets = Buckets::new(alloc, table, count);
    for number in 0..count {
        let Some(place) = source_place(history, table, &buckets, number as u32) else {
            return Ok(Sources {
                places,
                are_all: false,
            });
        };
        places.push(place)?;
    }
    Ok(Sources {
        places,
        are_all: true,
    })
}

/// Whether the operation is a get without a source.
fn is_sourceless(history: &History, table: &[VersionedPut], name: OpName) -> bool
    requires { IsVersionTable history.now.sessions table.now }
    ensures { IsTrue result ↔ HasNoSource history.now.sessions name }
{
    let Some(_open) = history.pending_number(name) else {
        return false;
    };
    let Some(version) = history.got_version(name) else {
        return false;
    };
    match see(history, table, NO_PLACE, name, &OpVersion::Got(version)) {
        OpPlace::Sourceless(_) => true,
        _ => false,
    }
}

/// The gets among these names that have no source.
pub fn without_source(
    alloc: Global,
    history: &History,
    table: &[VersionedPut],
    names: Names<'_>,
) -> Result<Vec<OpName>, AllocError>
    requires table { IsVersionTable history.now.sessions table.now }
    requires in_order { AllPairs IsBefore (names_left names) }
    ensures { IfOk result (λ v. ListsAmong (λ n. n) (HasNoSource history.now.sessions) (names_left names.entry) v.items) }
{
    let mut faults = Vec::new(alloc);
    for name in names {
        if is_sourceless(history, table, name) {
            faults.push(name)?;
        }
    }
    Ok(faults)
}
