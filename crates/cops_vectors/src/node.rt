//! The answers of a node with many settled pairs.

use anyhow::Error;
use cops_node::{Node, Outcome};
use cops_types::{Deps, Key, Value, Version};
use std::alloc::Global;

/// The key of a pair's number.
fn key(alloc: Global, number: u64) -> Result<Key, Error> {
    Ok(Key::new(alloc, &number.to_le_bytes())?)
}

/// Settles a put on the key of a number.
fn put(alloc: Global, node: &mut Node, number: u64) -> Result<(), Error> {
    let deps = Deps::new(Vec::new(alloc))?;
    let key = key(alloc, number)?;
    let value = Value::new(alloc, b"12345678")?;
    drop(node.put(0, key, value, deps));
    Ok(())
}

/// How many of two calls find the pair of a number: an ask for its version, and a get of its key.
fn found(alloc: Global, node: &mut Node, number: u64) -> Result<u64, Error> {
    let version = Version::new(number.wrapping_add(1), 0)?;
    let key = key(alloc, number)?;
    let asked = node.ask(&key, version) == Outcome::Yes;
    let shown = node.get(0, &key) != Outcome::Missed;
    drop(key);
    Ok(u64::from(asked).wrapping_add(u64::from(shown)))
}

/// Makes `turns` turns of an ask and a get, among the first `among` pairs, and counts what is found.
fn ask(alloc: Global, node: &mut Node, turns: u64, among: u64) -> Result<u64, Error> {
    let mut answered = 0u64;
    for turn in 0..turns {
        let number = turn.wrapping_mul(7_919) % among.max(1);
        answered = answered.wrapping_add(found(alloc, node, number)?);
    }
    Ok(answered)
}

/// Settles `pairs` puts, each on a key of its own, and then asks.
fn fill_and_ask(
    alloc: Global,
    node: &mut Node,
    pairs: u64,
    turns: u64,
    among: u64,
) -> Result<u64, Error> {
    for number in 0..pairs {
        put(alloc, node, number)?;
    }
    ask(alloc, node, turns, among)
}

/// Fills a node with `pairs` settled pairs, and then makes `turns` turns of an ask and a get, among the first `among`
/// pairs.
pub fn answer<R: Print + AllocGlobal>(
    rt: &R,
    pairs: u64,
    turns: u64,
    among: u64,
) -> Result<(), Error> {
    let mut node = Node::open(rt.alloc(), 0);
    let answered = fill_and_ask(rt.alloc(), &mut node, pairs, turns, among);
    drop(node);
    let answered = answered?;
    println!(rt; "{answered}")?;
    Ok(())
}
