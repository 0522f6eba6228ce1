use cops_core::*;
use cops_node::Outcome;
use cops_place::Place;
use cops_testing::pair;
use cops_types::{Format, Key, Refusal, TypeFault, Value, Version};
use std::alloc::Global;
use std::test::Fail;

fn put(alloc: Global) -> Result<Event, TypeFault> {
    let (key, value) = pair(alloc, b"k", b"1")?;
    Ok(Event::Put {
        client: 0,
        key,
        value,
    })
}

fn del(alloc: Global) -> Result<Event, TypeFault> {
    Ok(Event::Del {
        client: 0,
        key: Key::new(alloc, b"k")?,
    })
}

/// The ith event: a put and a second one that depends on it, in format 2 a deletion, which are then delivered to
/// another data centre, where a client gets the second.
fn nth(alloc: Global, format: Format, i: u32) -> Result<Event, TypeFault> {
    let (dc, first, second) = (1, Version::new(1, 0)?, Version::new(2, 0)?);
    match i {
        1 if format == Format::Two => del(alloc),
        0 | 1 => put(alloc),
        2 => Ok(Event::Deliver { dc, version: first }),
        3 => Ok(Event::Settle { dc, version: first }),
        4 => Ok(Event::Deliver {
            dc,
            version: second,
        }),
        5 => Ok(Event::Ask {
            dc,
            key: Key::new(alloc, b"k")?,
            version: first,
        }),
        6 => Ok(Event::Mark {
            dc,
            version: second,
            dep: 0,
        }),
        7 => Ok(Event::Settle {
            dc,
            version: second,
        }),
        _ => Ok(Event::Get {
            client: 1,
            key: Key::new(alloc, b"k")?,
        }),
    }
}

/// The event, even if one allocation fails.
fn surely(alloc: Global, format: Format, i: u32) -> Result<Event, TypeFault> {
    match nth(alloc, format, i) {
        Err(TypeFault::Memory) => nth(alloc, format, i),
        answer => answer,
    }
}

fn is_wanted(format: Format, i: u32, outcome: &Outcome) -> bool {
    let deletes = format == Format::Two;
    match outcome {
        Outcome::PutDone(version) if i == 0 => version.clock() == 1,
        Outcome::PutDone(version) => !deletes && i == 1 && version.clock() == 2,
        Outcome::Deleted(version) => deletes && i == 1 && version.clock() == 2,
        Outcome::Gone(version) => deletes && i == 8 && version.clock() == 2,
        Outcome::Held => i == 2 || i == 4,
        Outcome::Settled => i == 3 || i == 7,
        Outcome::Yes => i == 5,
        Outcome::Marked => i == 6,
        Outcome::Got(_, version) => !deletes && i == 8 && version.clock() == 2,
        _ => false,
    }
}

/// Whether the outcome is as wanted; `None` where an allocation failed. Drops the outcome.
fn reported(format: Format, i: u32, outcome: Outcome) -> Option<bool> {
    let reported = match &outcome {
        Outcome::Refused(Refusal::Memory) => None,
        outcome => Some(is_wanted(format, i, outcome)),
    };
    drop(outcome);
    reported
}

/// A world of two data centres with a client each; `None` where an allocation fails.
fn open(alloc: Global, format: Format) -> Option<World> {
    let homes = Vec::from_slice(alloc, &[0, 1]).ok()?;
    let place = Place::new(2, Vec::new(alloc)).ok()?;
    World::open_in(format, alloc, place, homes).ok()
}

/// The world, even if one allocation fails.
fn surely_open(alloc: Global, format: Format) -> Option<World> {
    match open(alloc, format) {
        None => open(alloc, format),
        opened => opened,
    }
}

/// What can be seen of a world: the number of operations and puts, the lengths of both clients' contexts, and which of
/// the two puts are settled in which of the two data centres.
#[derive(Clone, Copy, PartialEq, Eq)]
struct View {
    operations: usize,
    puts: usize,
    contexts: [usize; 2],
    settled: [bool; 4],
}

/// The number of pairs in a client's context.
fn context_len(world: &World, client: u16) -> Option<usize> {
    let deps = world.deps(client).ok()?;
    let len = deps.as_slice().len();
    drop(deps);
    Some(len)
}

/// Which of the two puts are settled in which of the two data centres.
fn settled(alloc: Global, world: &World) -> Option<[bool; 4]> {
    let (first, second) = (Version::new(1, 0).ok()?, Version::new(2, 0).ok()?);
    let key = Key::new(alloc, b"k").ok()?;
    let settled = [
        world.has_settled(0, &key, first),
        world.has_settled(0, &key, second),
        world.has_settled(1, &key, first),
        world.has_settled(1, &key, second),
    ];
    drop(key);
    Some(settled)
}

/// The view of the world; `None` where an allocation fails.
fn shown(alloc: Global, world: &World) -> Option<View> {
    Some(View {
        operations: world.history().len(),
        puts: world.puts(),
        contexts: [context_len(world, 0)?, context_len(world, 1)?],
        settled: settled(alloc, world)?,
    })
}

/// The view of the world, even if one allocation fails.
fn surely_shown(alloc: Global, world: &World) -> Option<View> {
    match shown(alloc, world) {
        None => shown(alloc, world),
        shown => shown,
    }
}

/// Whether an event is answered as wanted. Where an allocation fails nothing changes, and the event is tried again.
fn happens(alloc: Global, world: &mut World, i: u32) -> Result<bool, TypeFault> {
    let (format, before) = (world.setting().format(), surely_shown(alloc, world));
    let event = surely(alloc, format, i)?;
    if let Some(is_wanted) = reported(format, i, world.apply(event)) {
        return Ok(is_wanted);
    }
    let is_same = before.is_some() && surely_shown(alloc, world) == before;
    let event = surely(alloc, format, i)?;
    Ok(is_same && reported(format, i, world.apply(event)) == Some(true))
}

/// Whether all nine events are answered as wanted.
fn all_happen(alloc: Global, world: &mut World) -> Result<bool, TypeFault> {
    for i in 0..9 {
        if !happens(alloc, world, i)? {
            return Ok(false);
        }
    }
    Ok(world.history().len() == 3)
}

/// Holds whichever single allocation fails, of the world, its nodes, stores, held puts, contexts and history.
#[test]
fn a_refused_allocation_changes_nothing(rt: HostRuntime) -> Result<(), Fail> {
    for format in [Format::One, Format::Two] {
        let mut world = surely_open(rt.alloc(), format).ok_or("no world")?;
        let all_happen = all_happen(rt.alloc(), &mut world);
        drop(world);
        assert!(rt; all_happen?);
    }
    Ok(())
}

/// A put of a value of `bytes` bytes.
fn put_long(alloc: Global, bytes: usize) -> Result<Event, Fail> {
    let letters = vec![in alloc; b'v'; bytes]?;
    let value = Value::new_in(Format::Two, alloc, &letters)?;
    let key = Key::new(alloc, b"x")?;
    Ok(Event::Put {
        client: 0,
        key,
        value,
    })
}

/// Whether a client's write is refused because the world's format does not have it. Drops the outcome.
fn is_not_in_format(world: &mut World, event: Event) -> bool {
    let outcome = world.apply(event);
    let is_refused = matches!(&outcome, Outcome::Refused(Refusal::NotInFormat));
    drop(outcome);
    is_refused && world.puts() == 0 && world.history().len() == 0
}

/// Whether a world of this format refuses a client's write because the format does not have it.
fn refuses(alloc: Global, format: Format, event: Event) -> Result<bool, Fail> {
    let Some(mut world) = surely_open(alloc, format) else {
        drop(event);
        return Err(Fail::new("no world"));
    };
    let is_refused = is_not_in_format(&mut world, event);
    drop(world);
    Ok(is_refused)
}

#[test]
fn format_1_has_no_deletions(rt: HostRuntime) -> Result<(), Fail> {
    assert!(rt; refuses(rt.alloc(), Format::One, del(rt.alloc())?)?);
    Ok(())
}

#[test]
fn a_value_is_put_that_fits_the_format(rt: HostRuntime) -> Result<(), Fail> {
    for (format, bytes, is_refused) in [
        (Format::One, 4_096, false),
        (Format::One, 4_097, true),
        (Format::Two, 4_097, false),
        (Format::Two, 16_384, false),
    ] {
        let event = put_long(rt.alloc(), bytes)?;
        assert!(rt;
            refuses(rt.alloc(), format, event)? == is_refused,
            "{bytes}"
        );
    }
    Ok(())
}
