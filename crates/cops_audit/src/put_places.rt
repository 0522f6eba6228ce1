ghost use Rattle.std.specs.Prelude.{◌≡◌, ◌≤◌, IfOk, IsOk, OnOk, slice_get, vec_capacity};
ghost use Rattle.cops_types.specs.Counts.{count_of};
ghost use Rattle.cops_audit.specs.Placing.{ArePutPlaces};
ghost use Rattle.cops_audit.specs.Tables.{IsVersionTable};

use cops_types::{History, VersionedPut};
use std::alloc::{AllocError, Global};

/// No place of a table.
pub const NO_PLACE: u32 = u32::MAX;

/// Fills `places` with the place of each put in the table of puts in order of versions, at the number of the put. It
/// allocates nothing where the capacity is at least the number of operations.
pub fn set_places(
    places: &mut Vec<u32>,
    history: &History,
    table: &[VersionedPut],
) -> Result<(), AllocError>
    requires { IsVersionTable history.now.sessions table.now }
    ensures places { OnOk result (ArePutPlaces history.now.puts table.now places.new.items) }
    ensures capacity { vec_capacity places.old ≤ vec_capacity places.new }
    ensures succeeds { count_of history.now.sessions ≤ vec_capacity places.old → IsOk result }
{
    places.clear();
    places.resize(history.puts(), NO_PLACE)?;
    for place in 0..table.len() {
        match history.put_number(table[place].name) {
            Some(number) => places[number as usize] = place as u32,
            None => unreachable!(),
        }
    }
    Ok(())
}

/// The places of the puts of a history, at their numbers, in a new vector.
pub fn put_places(
    alloc: Global,
    history: &History,
    table: &[VersionedPut],
) -> Result<Vec<u32>, AllocError>
    requires { IsVersionTable history.now.sessions table.now }
    ensures { IfOk result (λ v. ArePutPlaces history.now.puts table.now v.items) }
{
    let mut places = Vec::new(alloc);
    set_places(&mut places, history, table)?;
    Ok(places)
}

/// The place of the put with this number, if there is one.
#[inline(always)]
pub fn place_at(places: &[u32], number: u32) -> Option<u32>
    ensures { result ≡ slice_get places.now number }
{
    places.get(number as usize).copied()
}
