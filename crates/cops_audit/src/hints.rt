//! Where versions are in a table of puts, faster than by a binary search of the table. Every answer is verified in the
//! table, so the module can be replaced by `table::place_of` alone.
ghost use Rattle.cops_types.specs.declared.limits.TheConstants.{MAX_OPS};
ghost use Rattle.std.specs.Prelude.{◌<◌, ◌≤◌, IfSome, IfNone, IsTrue, length};
ghost use Rattle.cops_audit.specs.Tables.{HasNone, IsPlaceOf, VersionsNeverFall};

use crate::put_places::NO_PLACE;
use crate::table::place_of;
use cops_types::{Version, VersionedPut};
use std::alloc::{AllocError, Global};

/// Whether the put at a place has this version.
fn stands_at(table: &[VersionedPut], place: u32, version: Version) -> bool
    ensures inside { IsTrue result → place < length table.now }
    ensures version { IsTrue result → IsPlaceOf table.now version place }
{
    match table.get(place as usize) {
        Some(put) => put.version == version,
        None => false,
    }
}

/// The least number of lookups for which the buckets are built. For fewer, a binary search in the whole table for each
/// is faster.
const MANY: usize = 16_384;

/// An index of a table of puts in order of versions, which says where a version may be. The range of versions is
/// divided into buckets of one width, about as many as there are puts, and for each bucket the place of its first put
/// is kept. That gives only hints, which are verified: where a version is not at its hint, the whole table is searched.
#[derive(Drop)]
pub struct Buckets {
    lowest: u64,
    shift: u32,
    starts: Vec<u32>,
}

impl Buckets {
    /// The buckets of a table for `count` lookups: none where these are few or memory runs out.
    pub fn new(alloc: Global, table: &[VersionedPut], count: usize) -> Self
        requires { length table.now ≤ MAX_OPS }
    {
        let mut buckets = Buckets {
            lowest: 0,
            shift: 0,
            starts: Vec::new(alloc),
        };
        if count >= MANY && buckets.make(table).is_err() {
            buckets.starts.clear();
        }
        buckets
    }

    /// Builds the buckets of a table.
    fn make(&mut self, table: &[VersionedPut]) -> Result<(), AllocError>
        requires { length table.now ≤ MAX_OPS }
    {
        if let (Some(first), Some(last)) = (table.first(), table.last()) {
            self.lowest = first.version.as_u64();
            self.shift = shift_for(self.offset(last.version), table.len() as u64);
        }
        for place in 0..table.len() {
            let bucket = self.bucket(table[place].version);
            if self.starts.len() <= bucket {
                self.starts.resize(bucket.saturating_add(1), place as u32)?;
            }
        }
        self.starts.push(table.len() as u32)?;
        Ok(())
    }

    /// How far above the lowest version this one is.
    fn offset(&self, version: Version) -> u64 {
        version.as_u64().wrapping_sub(self.lowest)
    }

    /// The bucket that a version is in.
    fn bucket(&self, version: Version) -> usize {
        self.offset(version).wrapping_shr(self.shift) as usize
    }

    /// The place where a version may be, or `NO_PLACE` where the buckets do not cover it.
    fn hint(&self, table: &[VersionedPut], version: Version) -> u32
        requires { length table.now ≤ MAX_OPS }
    {
        let bucket = self.bucket(version);
        let Some(start) = self.starts.get(bucket) else {
            return NO_PLACE;
        };
        let Some(end) = self.starts.get(bucket.saturating_add(1)) else {
            return NO_PLACE;
        };
        first_within(table, *start, *end, version)
    }

    /// The place of a put that has this version, if there is one.
    pub fn place_of(&self, table: &[VersionedPut], version: Version) -> Option<usize>
        requires few { length table.now ≤ MAX_OPS }
        requires in_order { VersionsNeverFall table.now }
        ensures inside { IfSome result (λ place. place < length table.now) }
        ensures found { IfSome result (IsPlaceOf table.now version) }
        ensures none { IfNone result (HasNone table.now version) }
    {
        hinted_place(table, self.hint(table, version), version)
    }
}

/// How many low bits of the versions the buckets ignore, where the highest of `count` versions is `span` above the
/// lowest.
fn shift_for(span: u64, count: u64) -> u32 {
    count.leading_zeros().saturating_sub(span.leading_zeros())
}

/// The first place from `start` to `end` whose put has this version or a later one; `end` where there is none.
fn first_within(table: &[VersionedPut], start: u32, end: u32, version: Version) -> u32 {
    let to = (end as usize).min(table.len());
    let from = (start as usize).min(to);
    let version = version.as_u64();
    let before = table[from..to].partition_point(|put| put.version.as_u64() < version);
    from.saturating_add(before).min(NO_PLACE as usize) as u32
}

/// The place of a put that has this version, looked for first at the hint and then in the whole table.
fn hinted_place(table: &[VersionedPut], hint: u32, version: Version) -> Option<usize>
    requires { VersionsNeverFall table.now }
    ensures inside { IfSome result (λ place. place < length table.now) }
    ensures found { IfSome result (IsPlaceOf table.now version) }
    ensures none { IfNone result (HasNone table.now version) }
{
    if stands_at(table, hint, version) {
        return Some(hint as usize);
    }
    place_of(table, version)
}

/// How far from a place `place_near` looks for a version first, narrowest first.
const WIDTHS: [usize; 3] = [16, 256, 4096];

/// The place where a version may be among the puts near a place, or `NO_PLACE`.
fn hint_near(table: &[VersionedPut], version: Version, near: u32) -> u32 {
    let version = version.as_u64();
    for width in WIDTHS {
        let from = (near as usize).saturating_sub(width).min(table.len());
        let to = (near as usize).saturating_add(width).min(table.len());
        let puts = &table[from..to];
        if let (Some(first), Some(last)) = (puts.first(), puts.last()) {
            if first.version.as_u64() <= version && version <= last.version.as_u64() {
                let before = puts.partition_point(|put| put.version.as_u64() < version);
                return from.saturating_add(before).min(NO_PLACE as usize) as u32;
            }
        }
    }
    NO_PLACE
}

/// The place of a put that has this version, if there is one. It is found faster where it is near the place `near`.
pub fn place_near(table: &[VersionedPut], version: Version, near: u32) -> Option<usize>
    requires { VersionsNeverFall table.now }
    ensures inside { IfSome result (λ place. place < length table.now) }
    ensures found { IfSome result (IsPlaceOf table.now version) }
    ensures none { IfNone result (HasNone table.now version) }
{
    hinted_place(table, hint_near(table, version, near), version)
}
