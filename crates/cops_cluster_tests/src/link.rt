ghost use Rattle.cops_link.specs.Link.{IsFinishedOf, SameIn, SameOut};

use cops_link::*;
use cops_testing::pair;
use cops_types::{Dep, Deps, Format, Key, Memory, PutRecord, TypeFault, Value, Version};
use cops_wire::Message;
use std::alloc::Global;
use std::sync::Wait;
use std::test::Fail;
use std::thread;
use std::thread::Threads;

/// The pair of the clock before, or nothing for the first clock.
fn deps(alloc: Global, clock: u64) -> Result<Deps, TypeFault> {
    let mut deps = Vec::new(alloc);
    if clock > 1 {
        let version = Version::new(clock - 1, 64)?;
        let key = Key::new(alloc, b"k")?;
        deps.push(Dep { key, version })?;
    }
    Deps::new(deps)
}

fn put(alloc: Global, clock: u64) -> Result<PutRecord, TypeFault> {
    let version = Version::new(clock, 0)?;
    let deps = deps(alloc, clock)?;
    let (key, value) = pair(alloc, b"p", b"6")?;
    Ok(PutRecord {
        key,
        value: Some(value),
        version,
        deps,
    })
}

/// A put, or with `deletes` a deletion, of the same key, version and dependencies.
fn put_or_deletion(alloc: Global, clock: u64, deletes: bool) -> Result<PutRecord, TypeFault> {
    let put = put(alloc, clock)?;
    if !deletes {
        return Ok(put);
    }
    let PutRecord {
        key,
        value,
        version,
        deps,
    } = put;
    drop(value);
    Ok(PutRecord {
        key,
        value: None,
        version,
        deps,
    })
}

/// The clock of a frame's version, or 0.
fn clock_of(message: &Message) -> u64 {
    match message {
        Message::PutAfter { version, .. } | Message::DelAfter { version, .. } => version.clock(),
        _ => 0,
    }
}

/// The clock of a frame's version, or 0. Drops the frame.
fn spent_clock(message: Message) -> u64 {
    let clock = clock_of(&message);
    drop(message);
    clock
}

/// The frame of a put, or with `deletes` of a deletion, of that clock.
fn frame(alloc: Global, clock: u64, deletes: bool) -> Result<Frame, Fail> {
    let put = put_or_deletion(alloc, clock, deletes)?;
    let frame = Frame::of(alloc, &put);
    drop(put);
    Ok(frame?)
}

/// Whether the link accepts a put, or with `deletes` a deletion, of that clock.
fn offer(alloc: Global, sender: &mut LinkIn, clock: u64, deletes: bool) -> Result<bool, Fail>
    ensures { SameIn sender.old sender.new }
{
    let frame = frame(alloc, clock, deletes)?;
    Ok(sender.send(frame).is_ok())
}

/// The clock of the put that is taken next, or 0.
fn next_clock(taker: &mut LinkOut) -> Result<u64, Memory>
    ensures { SameOut taker.old taker.new }
{
    match taker.take()? {
        Some(message) => Ok(spent_clock(message)),
        None => Ok(0),
    }
}

/// Whether a full link gives a deletion of that clock back, and accepts it once there is room.
fn is_given_back(
    alloc: Global,
    sender: &mut LinkIn,
    taker: &mut LinkOut,
    clock: u64,
) -> Result<bool, Fail>
    ensures sender { SameIn sender.old sender.new }
    ensures taker { SameOut taker.old taker.new }
{
    let frame = frame(alloc, clock, true)?;
    let Err(SendFault::Full(back)) = sender.send(frame) else {
        return Ok(false);
    };
    let first = next_clock(taker)?;
    Ok(first == 1 && sender.send(back).is_ok())
}

/// Whether a link of one frame accepts a put, and a deletion once there is room.
fn takes_two(alloc: Global, sender: &mut LinkIn, taker: &mut LinkOut) -> Result<bool, Fail>
    ensures sender { SameIn sender.old sender.new }
    ensures taker { SameOut taker.old taker.new }
{
    Ok(offer(alloc, sender, 1, false)? && is_given_back(alloc, sender, taker, 2)?)
}

/// How many frames are left, and the clock of the put that is taken next, or 0.
fn left(taker: &mut LinkOut, finished: &mut Finished) -> Result<(usize, u64), Memory>
    requires { IsFinishedOf finished.old taker.old }
    ensures { IsFinishedOf finished.new taker.new }
{
    let left = taker.after(finished);
    Ok((left, next_clock(taker)?))
}

#[test]
fn a_link_of_one_frame(rt: HostRuntime) -> Result<(), Fail> {
    let (mut sender, mut taker) = link(rt.alloc(), 1)?;
    assert!(rt; takes_two(rt.alloc(), &mut sender, &mut taker)?);
    let Some(mut finished) = sender.finish() else {
        return Err(Fail::new("nothing is reported"));
    };
    assert!(rt; left(&mut taker, &mut finished)? == (1, 2));
    assert!(rt; left(&mut taker, &mut finished)? == (0, 0));
    Ok(())
}

/// Whether these are the dependencies of the put of clock 3.
fn are_of_third(deps: &Deps) -> bool {
    deps.as_slice().len() == 1
        && deps.as_slice()[0].key.as_bytes() == b"k".as_slice()
        && deps.as_slice()[0].version.clock() == 2
}

/// Whether the message replicates the put, or with `deletes` the deletion, of clock 3.
fn is_third(message: &Message, deletes: bool) -> bool {
    match message {
        Message::PutAfter {
            key,
            value,
            deps,
            version,
        } => {
            !deletes
                && key.as_bytes() == b"p".as_slice()
                && value.as_bytes() == b"6".as_slice()
                && version.clock() == 3
                && are_of_third(deps)
        }
        Message::DelAfter { key, version, deps } => {
            deletes
                && key.as_bytes() == b"p".as_slice()
                && version.clock() == 3
                && are_of_third(deps)
        }
        _ => false,
    }
}

/// Whether the next message that is taken replicates the put, or with `deletes` the deletion, of clock 3.
fn takes_third(taker: &mut LinkOut, deletes: bool) -> Result<bool, Memory> {
    match taker.take()? {
        Some(message) => {
            let is = is_third(&message, deletes);
            drop(message);
            Ok(is)
        }
        None => Ok(false),
    }
}

#[test]
fn puts_and_deletions_come_out_as_they_went_in(rt: HostRuntime) -> Result<(), Fail> {
    let (mut sender, mut taker) = link(rt.alloc(), MAX_CAPACITY)?;
    for deletes in [false, true] {
        assert!(rt; offer(rt.alloc(), &mut sender, 3, deletes)?);
        assert!(rt; takes_third(&mut taker, deletes)?);
    }
    Ok(())
}

/// A put of a value of `bytes` bytes with `pairs` dependencies.
fn large_put(alloc: Global, bytes: usize, pairs: u64) -> Result<PutRecord, Fail> {
    let mut deps = Vec::new(alloc);
    for clock in 1..=pairs {
        let version = Version::new(clock, 64)?;
        let key = Key::new(alloc, b"k")?;
        deps.push(Dep { key, version })?;
    }
    let deps = Deps::new(deps)?;
    let letters = vec![in alloc; b'v'; bytes]?;
    let value = Value::new_in(Format::Two, alloc, &letters)?;
    let key = Key::new(alloc, b"p")?;
    let version = Version::new(pairs + 1, 0)?;
    Ok(PutRecord {
        key,
        value: Some(value),
        version,
        deps,
    })
}

/// The number of bytes of the value, and of dependencies, of the put that is taken next, or 0 of both.
fn next_sizes(taker: &mut LinkOut) -> Result<(usize, usize), Memory> {
    let Some(message) = taker.take()? else {
        return Ok((0, 0));
    };
    let sizes = match &message {
        Message::PutAfter { value, deps, .. } => (value.as_bytes().len(), deps.as_slice().len()),
        _ => (0, 0),
    };
    drop(message);
    Ok(sizes)
}

/// Whether such a put comes out of a link unchanged.
fn goes_through(alloc: Global, bytes: usize, pairs: u64) -> Result<bool, Fail> {
    let put = large_put(alloc, bytes, pairs)?;
    let frame = Frame::of(alloc, &put);
    drop(put);
    let (mut sender, mut taker) = link(alloc, 1)?;
    let is_sent = sender.send(frame?).is_ok();
    Ok(is_sent && next_sizes(&mut taker)? == (bytes, pairs as usize))
}

#[test]
fn the_largest_puts_go_through(rt: HostRuntime) -> Result<(), Fail> {
    for (bytes, pairs) in [
        (4_096, 256),
        (4_097, 257),
        (16_383, 1_023),
        (16_384, 1_024),
        (0, 1_024),
    ] {
        assert!(rt; goes_through(rt.alloc(), bytes, pairs)?, "{bytes} {pairs}");
    }
    Ok(())
}

/// Why a link of this capacity cannot be made; `None` where it can.
fn fault_of(alloc: Global, capacity: usize) -> Option<LinkFault> {
    match link(alloc, capacity) {
        Ok(ends) => {
            drop(ends);
            None
        }
        Err(fault) => Some(fault),
    }
}

#[test]
fn a_capacity_is_1_to_1024(rt: HostRuntime) {
    let bad = Some(LinkFault::BadCapacity);
    for (capacity, fault) in [
        (0, bad),
        (1025, bad),
        (usize::MAX, bad),
        (1, None),
        (1024, None),
    ] {
        assert!(rt; fault_of(rt.alloc(), capacity) == fault, "{capacity}");
    }
}

/// Sends a frame, and waits while the link is full.
fn send_surely<R: Wait>(rt: &R, sender: &mut LinkIn, mut frame: Frame) {
    for _ in rt.forever() {
        match sender.send(frame) {
            Ok(()) => return,
            Err(SendFault::Full(back)) => frame = back,
        }
        thread::yield_now();
    }
}

/// Sends a thousand puts and deletions.
fn send_all<R: Wait>(rt: &R, alloc: Global, mut sender: LinkIn) -> Result<bool, Fail> {
    for clock in 1..1001 {
        let frame = frame(alloc, clock, clock % 3 == 0)?;
        send_surely(rt, &mut sender, frame);
    }
    Ok(sender.finish().is_some())
}

/// The clock of the put that is taken next. Waits until there is one.
fn awaited_clock<R: Wait>(rt: &R, taker: &mut LinkOut) -> Result<u64, Memory> {
    for _ in rt.forever() {
        let clock = next_clock(taker)?;
        if clock > 0 {
            return Ok(clock);
        }
        thread::yield_now();
    }
    Ok(0)
}

/// Takes a thousand puts and deletions, and returns whether they came in order.
fn take_all<R: Wait>(rt: &R, mut taker: LinkOut) -> Result<bool, Memory> {
    let mut in_turn = true;
    for clock in 1..1001 {
        in_turn = in_turn && awaited_clock(rt, &mut taker)? == clock;
    }
    Ok(in_turn)
}

#[test]
fn a_thousand_frames_between_threads(rt: HostRuntime) -> Result<(), Fail> {
    let alloc = rt.alloc();
    let (sender, taker) = link(alloc, 16)?;
    let (finished, in_turn) = thread::join(
        &rt,
        || send_all(&rt, alloc, sender),
        || take_all(&rt, taker),
    );
    assert!(rt; finished?);
    assert!(rt; in_turn?);
    Ok(())
}
