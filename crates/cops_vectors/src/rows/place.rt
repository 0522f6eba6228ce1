//! Test cases of the placement of keys.

use crate::words::Part::{Number, Word};
use crate::words::{key, keys, no_row, text, u8_of};
use anyhow::{Error, bail};
use cops_place::Place;
use std::alloc::Global;

/// How many data centres there are, and how many nodes each has.
fn counts(alloc: Global, place: &Place) -> Result<String, Error> {
    let (dcs, nodes) = (u64::from(place.dcs()), u64::from(place.nodes()));
    text(
        alloc,
        &[
            Number(dcs),
            Word(" data centres, "),
            Number(nodes),
            Word(" nodes"),
        ],
    )
}

/// The place with this number of data centres and these split keys.
pub fn open(alloc: Global, dcs: &str, splits: &str) -> Result<Place, Error> {
    let dcs = u8_of(dcs)?;
    let splits = keys(alloc, splits)?;
    Ok(Place::new(dcs, splits)?)
}

fn primary(alloc: Global, place: &Place, name: &str) -> Result<String, Error> {
    let key = key(alloc, name)?;
    let primary = place.primary(&key);
    drop(key);
    text(alloc, &[Number(u64::from(primary))])
}

fn node(alloc: Global, place: &Place, dc: &str, name: &str) -> Result<String, Error> {
    let dc = u8_of(dc)?;
    let key = key(alloc, name)?;
    if dc >= place.dcs() {
        drop(key);
        bail!("no such data centre");
    }
    let node = place.node(dc, &key);
    drop(key);
    text(alloc, &[Number(u64::from(node))])
}

/// The node of a key in a copy of the place.
fn copy_node(alloc: Global, place: &Place, dc: &str, name: &str) -> Result<String, Error> {
    let copy = place.clone()?;
    let reported = node(alloc, &copy, dc, name);
    drop(copy);
    reported
}

/// The answer to a call on the current place.
fn ask_any(alloc: Global, place: &Place, words: &[&str]) -> Result<String, Error> {
    match words {
        ["primary", name] => primary(alloc, place, name),
        ["node", dc, name] => node(alloc, place, dc, name),
        ["copy", "node", dc, name] => copy_node(alloc, place, dc, name),
        _ => Err(no_row()),
    }
}

/// The answer to a call.
pub fn answer(alloc: Global, place: &mut Option<Place>, words: &[&str]) -> Result<String, Error> {
    if let ["new", dcs, splits] = words {
        return counts(alloc, place.insert(open(alloc, dcs, splits)?));
    }
    match place {
        Some(place) => ask_any(alloc, place, words),
        None => bail!("there is no place"),
    }
}
