//! Helpers of the tests of clusters.
use cops_cluster::{Cluster, Opened};
use cops_place::Place;
use cops_types::{Format, Key, TypeFault, Value};
use std::alloc::Global;
use std::test::Fail;

pub fn key(alloc: Global, byte: u8) -> Result<Key, TypeFault> {
    Key::new(alloc, &[byte])
}

/// A key of one byte and the value 1.
pub fn pair(alloc: Global, byte: u8) -> Result<(Key, Value), TypeFault> {
    cops_testing::pair(alloc, &[byte], b"1")
}

/// A place of `dcs` data centres, each with one node or with two whose ranges meet at `m`.
fn place(alloc: Global, dcs: u8, is_split: bool) -> Result<Place, Fail> {
    let mut splits = Vec::new(alloc);
    if is_split {
        splits.push(key(alloc, b'm')?)?;
    }
    Ok(Place::new(dcs, splits)?)
}

/// A cluster at such a place, with one client in each of these data centres.
pub fn opened(alloc: Global, dcs: u8, is_split: bool, homes: &[u8]) -> Result<Opened, Fail> {
    let homes = Vec::from_slice(alloc, homes)?;
    let place = place(alloc, dcs, is_split)?;
    Ok(Cluster::open(alloc, place, homes)?)
}

/// A cluster of a format with one node in each of `dcs` data centres, and one client in each of these.
pub fn opened_in(format: Format, alloc: Global, dcs: u8, homes: &[u8]) -> Result<Opened, Fail> {
    let homes = Vec::from_slice(alloc, homes)?;
    let place = place(alloc, dcs, false)?;
    Ok(Cluster::open_in(format, alloc, place, homes)?)
}
