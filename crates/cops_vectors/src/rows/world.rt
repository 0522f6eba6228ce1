//! Test cases of the world.

use crate::rows::place;
use crate::words::Part::{Count, Word};
use crate::words::{
    format_of, joined, outcome_text, parts, reported_outcome, session_text, text, u8_of, u32_of,
    world_event,
};
use anyhow::{Error, bail};
use cops_core::{Event, World};
use cops_node::Outcome;
use cops_types::Format;
use std::alloc::Global;

/// Adds the clients of a word: `DATA_CENTRE` for one, or `DATA_CENTRE*COUNT` for `COUNT` of them.
fn add_clients(homes: &mut Vec<u8>, word: &str) -> Result<(), Error> {
    let (dc, count) = match word.split_once('*') {
        Some(halves) => halves,
        None => (word, "1"),
    };
    let dc = u8_of(dc)?;
    for _ in 0..u32_of(count)? {
        homes.push(dc)?;
    }
    Ok(())
}

/// Where the clients live.
fn homes(alloc: Global, word: &str) -> Result<Vec<u8>, Error> {
    let mut homes = Vec::new(alloc);
    for one in word.split(',') {
        add_clients(&mut homes, one)?;
    }
    Ok(homes)
}

fn open(alloc: Global, format: Format, words: &[&str; 3]) -> Result<World, Error> {
    let [dcs, splits, clients] = words;
    let place = place::open(alloc, dcs, splits)?;
    let homes = homes(alloc, clients)?;
    Ok(World::open_in(format, alloc, place, homes)?)
}

/// Replaces the world by a new one of a format.
fn begin(
    alloc: Global,
    world: &mut Option<World>,
    format: Format,
    words: &[&str; 3],
) -> Result<String, Error> {
    let opened = open(alloc, format, words)?;
    let count = opened.history().clients();
    drop(world.replace(opened));
    text(alloc, &[Count(count), Word(" clients")])
}

fn apply(alloc: Global, world: &mut World, words: &[&str]) -> Result<String, Error> {
    let event = world_event(alloc, words)?;
    reported_outcome(alloc, world.apply(event))
}

/// Applies an event `count` times, and returns the last outcome.
fn last(world: &mut World, count: u32, event: &Event) -> Outcome {
    let mut last = Outcome::Missed;
    for _ in 0..count {
        drop(std::mem::replace(&mut last, world.answer(event)));
    }
    last
}

/// Applies one event a number of times, and returns the words of the last outcome.
fn again(alloc: Global, world: &mut World, count: &str, event: &[&str]) -> Result<String, Error> {
    let count = u32_of(count)?;
    let event = world_event(alloc, event)?;
    let last = last(world, count, &event);
    drop(event);
    reported_outcome(alloc, last)
}

/// The events of words, separated by `/`.
fn events(alloc: Global, words: &[&str]) -> Result<Vec<Event>, Error> {
    let mut events = Vec::new(alloc);
    let parts = parts(alloc, words, "/")?;
    for part in &parts {
        events.push(world_event(alloc, part)?)?;
    }
    Ok(events)
}

/// Applies events, and returns the words of their outcomes, separated by `/`.
fn run(alloc: Global, world: &mut World, words: &[&str]) -> Result<String, Error> {
    let events = events(alloc, words)?;
    let outcomes = world.run(&events);
    drop(events);
    let outcomes = outcomes?;
    let reported = joined(alloc, &outcomes, " / ", outcome_text);
    drop(outcomes);
    reported
}

/// The answer to a call on the current world.
fn ask_any(alloc: Global, world: &mut World, words: &[&str]) -> Result<String, Error> {
    match words {
        ["counts"] => text(alloc, &[Count(world.history().len()), Word(" operations")]),
        ["session", client] => session_text(alloc, world.history(), client),
        ["again", count, event @ ..] => again(alloc, world, count, event),
        ["run", events @ ..] => run(alloc, world, events),
        _ => apply(alloc, world, words),
    }
}

/// The answer to a call.
pub fn answer(alloc: Global, world: &mut Option<World>, words: &[&str]) -> Result<String, Error> {
    if let ["open", dcs, splits, clients] = words {
        return begin(alloc, world, Format::One, &[*dcs, *splits, *clients]);
    }
    if let ["open", dcs, splits, clients, format] = words {
        let format = format_of(format)?;
        return begin(alloc, world, format, &[*dcs, *splits, *clients]);
    }
    match world {
        Some(world) => ask_any(alloc, world, words),
        None => bail!("there is no world"),
    }
}
