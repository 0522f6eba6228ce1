ghost use Rattle.cops_types.specs.declared.limits.TheConstants.{MAX_OPS};
ghost use Rattle.std.specs.Prelude.{◌≡◌, ◌<◌, ◌≤◌, ℕ, List, None, IfOk, IsOk, OnOk, length, slice_get, slice_index_or, vec_capacity, Some};
ghost use Rattle.cops_types.specs.Counts.{count_of};
ghost use Rattle.cops_types.specs.Histories.{IsNamed, Sessions};
ghost use Rattle.cops_audit.specs.Keys.{AreFirsts, AreKeys, AreNexts, IsFirstOnItsKey, IsOnKey, KnowsFirsts};
ghost use Rattle.cops_audit.specs.Placing.{ArePutPlaces};
ghost use Rattle.cops_audit.specs.Tables.{IsVersionTable};

use crate::put_places::NO_PLACE;
use cops_types::{History, OpName, VersionedPut};
use std::alloc::{AllocError, Global};

/// The number of the key of an operation.
fn number_of(history: &History, name: OpName) -> u32
    requires { IsNamed history.now.sessions name }
    ensures key { (key : List ℕ) → IsOnKey history.now.sessions name key → slice_get history.now.keys result ≡ Some key }
    ensures within { result < length history.now.keys }
{
    match history.key_number(name) {
        Some(number) => number,
        None => unreachable!(),
    }
}

/// The place of the first put on the key of an operation, if there is one. `firsts` has the first put on each key, by
/// the key's number.
pub fn first_on(history: &History, firsts: &[Option<u32>], name: OpName) -> Option<u32>
    requires { IsNamed history.now.sessions name }
    ensures { IsFirstOnItsKey history.now firsts.now name result }
{
    match firsts.get(number_of(history, name) as usize) {
        Some(first) => *first,
        None => None,
    }
}

/// Fills `places` with `count` times `None`. It allocates nothing where the capacity is at least `count`.
fn set_none(places: &mut Vec<Option<u32>>, count: usize) -> Result<(), AllocError>
    ensures count { OnOk result (length places.new.items ≡ count) }
    ensures none { OnOk result ((k : ℕ) → slice_index_or places.new.items k None ≡ None) }
    ensures capacity { vec_capacity places.old ≤ vec_capacity places.new }
    ensures succeeds { count ≤ vec_capacity places.old → IsOk result }
{
    places.clear();
    places.resize(count, None)
}

/// Fills `keys` with the number of the key of each put. The puts are looked up in the order of their numbers, in which
/// a history stores them: memory is then read in sequence, which processors prefetch. It allocates nothing where the
/// capacity is at least the number of puts.
pub fn set_keys(
    keys: &mut Vec<u32>,
    history: &History,
    table: &[VersionedPut],
    places: &[u32],
) -> Result<(), AllocError>
    requires table { IsVersionTable history.now.sessions table.now }
    requires places { ArePutPlaces history.now.puts table.now places.now }
    ensures keys { OnOk result (AreKeys history.now table.now keys.new.items) }
    ensures capacity { vec_capacity keys.old ≤ vec_capacity keys.new }
    ensures succeeds { length table.now ≤ vec_capacity keys.old → IsOk result }
{
    keys.clear();
    keys.resize(table.len(), 0)?;
    for reported in places {
        let place = *reported as usize;
        if place < table.len() {
            let put = &table[place];
            keys[place] = number_of(history, put.name);
        }
    }
    Ok(())
}

/// Fills `nexts` with `count` links that point past the end. It allocates nothing where the capacity is at least
/// `count`.
fn set_past_end(nexts: &mut Vec<u32>, count: usize) -> Result<(), AllocError>
    ensures count { OnOk result (length nexts.new.items ≡ count) }
    ensures capacity { vec_capacity nexts.old ≤ vec_capacity nexts.new }
    ensures succeeds { count ≤ vec_capacity nexts.old → IsOk result }
{
    nexts.clear();
    nexts.resize(count, NO_PLACE)
}

/// Links each put to the next one on its key, or past the end where there is none, and fills `firsts` with the first
/// put on each key, by the key's number. It allocates nothing where the capacity of `nexts` is at least the number of
/// puts and that of `firsts` at least the number of operations.
pub fn link(
    nexts: &mut Vec<u32>,
    firsts: &mut Vec<Option<u32>>,
    history: &History,
    table: &[VersionedPut],
    keys: &[u32],
) -> Result<(), AllocError>
    requires table { IsVersionTable history.now.sessions table.now }
    requires keys { AreKeys history.now table.now keys.now }
    ensures nexts { OnOk result (AreNexts history.now.sessions table.now nexts.new.items) }
    ensures firsts { OnOk result (KnowsFirsts history.now table.now firsts.new.items) }
    ensures nexts_capacity { vec_capacity nexts.old ≤ vec_capacity nexts.new }
    ensures firsts_capacity { vec_capacity firsts.old ≤ vec_capacity firsts.new }
    ensures succeeds { length table.now ≤ vec_capacity nexts.old → count_of history.now.sessions ≤ vec_capacity firsts.old → IsOk result }
{
    let end = table.len() as u32;
    set_past_end(nexts, table.len())?;
    set_none(firsts, history.keys())?;
    for place in (0..table.len()).rev() {
        let number = keys[place];
        nexts[place] = firsts[number as usize].unwrap_or(end);
        firsts[number as usize] = Some(place as u32);
    }
    Ok(())
}

/// Fills `places` with the numbers from 0 to `count - 1`. It allocates nothing where the capacity is at least `count`.
fn set_own_places(places: &mut Vec<u32>, count: usize) -> Result<(), AllocError>
    requires { count ≤ MAX_OPS }
    ensures count { OnOk result (length places.new.items ≡ count) }
    ensures own { OnOk result ((k : ℕ) → k < count → slice_get places.new.items k ≡ Some k) }
    ensures capacity { vec_capacity places.old ≤ vec_capacity places.new }
    ensures succeeds { count ≤ vec_capacity places.old → IsOk result }
{
    places.clear();
    places.reserve(count)?;
    for place in 0..count {
        places.push_reserved(place as u32);
    }
    Ok(())
}

/// Fills `places` with the place of the first put on each put's key: each put hands that place on to the next put on
/// its key. It allocates nothing where the capacity is at least the number of puts.
pub fn set_firsts(
    places: &mut Vec<u32>,
    table: &[VersionedPut],
    nexts: &[u32],
) -> Result<(), AllocError>
    requires { (h : Sessions) × IsVersionTable h table.now × AreNexts h table.now nexts.now }
    ensures firsts { (h : Sessions) → IsVersionTable h table.now → AreNexts h table.now nexts.now → OnOk result (AreFirsts h table.now places.new.items) }
    ensures capacity { vec_capacity places.old ≤ vec_capacity places.new }
    ensures succeeds { length table.now ≤ vec_capacity places.old → IsOk result }
{
    set_own_places(places, table.len())?;
    for place in 0..table.len() {
        let next = nexts[place] as usize;
        if next < table.len() {
            places[next] = places[place];
        }
    }
    Ok(())
}
