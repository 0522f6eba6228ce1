ghost use Rattle.std.specs.Prelude.{◌≡◌, ◌<◌, ◌≤◌, ◌+◌, ◌↔◌, ℕ, IfOk, IfSome, IfNone, IsOk, IsTrue, OnOk, length, map, AllPairs, vec_len, vec_capacity, slice_index_or};
ghost use Rattle.cops_types.specs.declared.op.OpName.{OpName};
ghost use Rattle.cops_types.specs.Counts.{count_of};
ghost use Rattle.cops_types.specs.Histories.{Sessions};
ghost use Rattle.cops_types.specs.Recorded.{IsWithinLimits};
ghost use Rattle.cops_types.specs.Faults.{IsBefore};
ghost use Rattle.cops_types.specs.VersionOrder.{IsDoubled};
ghost use Rattle.cops_audit.specs.Names.{ListsAmong, names_left};
ghost use Rattle.cops_types.specs.declared.versioned_put.VersionedPut.{VersionedPut};
ghost use Rattle.cops_audit.specs.Tables.{AreDoubledPuts, HasEqualNeighbour, HasNone, IsPlaceOf, IsPutTable, Repeats, Rises, ReportDoubled, VersionsNeverFall};

use crate::names::Names;
use cops_types::{History, OpName, Version, VersionedPut};
use std::alloc::{AllocError, Global};

/// Fills `puts` with the puts and their versions, in order of versions. It allocates nothing where the capacity is at
/// least the number of operations.
pub fn set_puts(puts: &mut Vec<VersionedPut>, history: &History) -> Result<(), AllocError>
    ensures puts { OnOk result (IsPutTable history.now.sessions puts.new.items) }
    ensures count { OnOk result (vec_len puts.new ≤ count_of history.now.sessions) }
    ensures limits { IsWithinLimits history.now.sessions }
    ensures capacity { vec_capacity puts.old ≤ vec_capacity puts.new }
    ensures succeeds { count_of history.now.sessions ≤ vec_capacity puts.old → IsOk result }
{
    history.list_puts(puts)?;
    puts.sort_unstable_by_key(|put| put.version.as_u64());
    Ok(())
}

/// The puts with their versions, in order of versions.
pub fn puts_by_version(alloc: Global, history: &History) -> Result<Vec<VersionedPut>, AllocError>
    ensures puts { IfOk result (λ v. IsPutTable history.now.sessions v.items) }
    ensures limits { IfOk result (λ _. IsWithinLimits history.now.sessions) }
{
    let mut puts = Vec::with_capacity(alloc, history.puts())?;
    set_puts(&mut puts, history)?;
    Ok(puts)
}

/// Whether no version occurs twice in a table of puts in order of versions.
pub fn is_rising(table: &[VersionedPut]) -> bool
    ensures rising { IsTrue result → Rises table.now }
    ensures equal { ¬ IsTrue result → Repeats table.now }
{
    for k in 1..table.len() {
        let before = &table[k - 1];
        let put = &table[k];
        if before.version.as_u64() >= put.version.as_u64() {
            return false;
        }
    }
    true
}

/// The place of a put that has this version, if there is one.
pub fn place_of(table: &[VersionedPut], version: Version) -> Option<usize>
    requires { VersionsNeverFall table.now }
    ensures inside { IfSome result (λ place. place < length table.now) }
    ensures found { IfSome result (IsPlaceOf table.now version) }
    ensures none { IfNone result (HasNone table.now version) }
{
    match table.binary_search_by_key(&version.as_u64(), |put| put.version.as_u64()) {
        Ok(place) => Some(place),
        Err(_) => None,
    }
}

/// The first place of a put with this version or a later one.
pub fn first_from(table: &[VersionedPut], version: Version) -> usize
    requires { VersionsNeverFall table.now }
    ensures inside { result ≤ length table.now }
    ensures before { (k : ℕ) (d : VersionedPut) → k < result → (slice_index_or table.now k d).version < version }
    ensures from { (k : ℕ) (d : VersionedPut) → result ≤ k → k < length table.now → version ≤ (slice_index_or table.now k d).version }
{
    let version = version.as_u64();
    table.partition_point(|put| put.version.as_u64() < version)
}

/// Whether the put at the place before or after has the same version.
fn has_equal_neighbour(table: &[VersionedPut], place: usize) -> bool
    requires { place < length table.now }
    ensures { IsTrue result ↔ HasEqualNeighbour table.now place }
{
    let put = &table[place];
    if place > 0 {
        let before = &table[place - 1];
        if before.version == put.version {
            return true;
        }
    }
    if place + 1 < table.len() {
        let after = &table[place + 1];
        if after.version == put.version {
            return true;
        }
    }
    false
}

/// The puts that have the version of another put, in order of versions: those next to a put with their version.
fn doubled_puts(alloc: Global, table: &[VersionedPut]) -> Result<Vec<VersionedPut>, AllocError>
    requires { (h : Sessions) × IsPutTable h table.now }
    ensures { (h : Sessions) → IsPutTable h table.now → IfOk result (λ v. AreDoubledPuts h v.items) }
{
    let mut puts = Vec::new(alloc);
    for place in 0..table.len() {
        if has_equal_neighbour(table, place) {
            puts.push(table[place])?;
        }
    }
    Ok(puts)
}

/// For each put, at its number, whether another put has its version.
fn doubled_numbers(
    alloc: Global,
    history: &History,
    table: &[VersionedPut],
) -> Result<Vec<bool>, AllocError>
    requires { IsPutTable history.now.sessions table.now }
    ensures { IfOk result (λ v. ReportDoubled history.now v.items) }
{
    let puts = doubled_puts(alloc, table)?;
    let mut are_doubled = vec![in alloc; false; history.puts()]?;
    for k in 0..puts.len() {
        let put = puts[k];
        match history.put_number(put.name) {
            Some(number) => are_doubled[number as usize] = true,
            None => unreachable!(),
        }
    }
    Ok(are_doubled)
}

/// Whether another put has the version of this put.
fn is_doubled(history: &History, are_doubled: &[bool], name: OpName) -> bool
    requires { ReportDoubled history.now are_doubled.now }
    ensures { IsTrue result ↔ IsDoubled history.now.sessions name }
{
    let Some(number) = history.put_number(name) else {
        return false;
    };
    are_doubled[number as usize]
}

/// The puts among these names that have the version of another put.
pub fn doubled(
    alloc: Global,
    history: &History,
    names: Names<'_>,
    table: &[VersionedPut],
) -> Result<Vec<OpName>, AllocError>
    requires in_order { AllPairs IsBefore (names_left names) }
    requires table { IsPutTable history.now.sessions table.now }
    ensures { IfOk result (λ v. ListsAmong (λ n. n) (IsDoubled history.now.sessions) (names_left names.entry) v.items) }
{
    let doubled = doubled_numbers(alloc, history, table)?;
    let are_doubled = doubled.as_slice();
    let mut faults = Vec::new(alloc);
    for name in names {
        if is_doubled(history, are_doubled, name) {
            faults.push(name)?;
        }
    }
    Ok(faults)
}

/// The names of the puts in order of versions.
pub fn put_names(alloc: Global, table: &[VersionedPut]) -> Result<Vec<OpName>, AllocError>
    ensures { IfOk result (λ v. v.items ≡ map (λ p. p.name) table.now) }
{
    table.iter().map(|put| put.name).collect(alloc)
}
