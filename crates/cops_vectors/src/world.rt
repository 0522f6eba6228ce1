//! The events of a world, read from a file with a line for each.

use crate::words::world_event;
use anyhow::Error;
use cops_core::{Event, World};
use cops_place::Place;
use std::alloc::Global;
use std::fs;
use std::rt::Files;

/// The event of a line.
fn event(alloc: Global, line: &str) -> Result<Event, Error> {
    let words: Vec<&str> = line.split(' ').collect(alloc)?;
    world_event(alloc, &words)
}

/// The events of a text, one a line.
fn events_of(alloc: Global, text: &str) -> Result<Vec<Event>, Error> {
    let mut events = Vec::new(alloc);
    for line in text.lines() {
        events.push(event(alloc, line)?)?;
    }
    Ok(events)
}

/// A world of `dcs` data centres and `clients` clients, which are distributed over the data centres in turn.
fn open(alloc: Global, dcs: u8, clients: u16) -> Result<World, Error> {
    let mut homes = Vec::new(alloc);
    for client in 0..clients {
        homes.push((client % u16::from(dcs.max(1))) as u8)?;
    }
    Ok(World::open(alloc, Place::new(dcs, Vec::new(alloc))?, homes)?)
}

/// Applies the events to a world, and counts the operations that it records.
fn run(world: &mut World, events: &[Event]) -> Result<usize, Error> {
    let outcomes = world.run(events)?;
    drop(outcomes);
    Ok(world.history().len())
}

/// Applies the events to a new world of the given numbers of data centres and clients, and counts the operations that
/// it records.
fn count(alloc: Global, events: &[Event], of: (u8, u16)) -> Result<usize, Error> {
    let (dcs, clients) = of;
    let mut world = open(alloc, dcs, clients)?;
    let counted = run(&mut world, events);
    drop(world);
    counted
}

fn say<R: Print + AllocGlobal>(rt: &R, events: &[Event], of: (u8, u16)) -> Result<(), Error> {
    let operations = count(rt.alloc(), events, of)?;
    println!(rt; "{} operations of {} events", operations, events.len())?;
    Ok(())
}

/// Reads the events of a file and, if the mode is `run`, applies them to a new world of the given numbers of data
/// centres and clients.
pub fn happen<R: Files + Print + AllocGlobal>(
    rt: &R,
    path: &str,
    mode: &str,
    of: (u8, u16),
) -> Result<(), Error> {
    let text = fs::read_to_string(rt, path)?;
    let events = events_of(rt.alloc(), &text)?;
    if mode == "run" {
        say(rt, &events, of)
    } else {
        Ok(())
    }
}
