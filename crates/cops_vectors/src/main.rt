//! The program that scripts and tests run. Its first word selects the task:
//!
//! `rows FILE..` makes the calls of test cases and compares their answers with the expected ones.
//! `node PAIRS TURNS AMONG`, `world FILE MODE DATA_CENTRES CLIENTS` and `online TRACE MODE` are for scripts in
//! `bench/`, which time a node, a world and the online auditor. `allocations SCENARIO LINES TRACE LINES` is for
//! `tests/allocations.py`, which makes allocations fail one after the other. Without words it does nothing.
#![tactic(auto)]

mod allocations;
mod auditing;
mod clustering;
mod happening;
mod node;
mod online;
mod rows;
mod words;
mod world;

use crate::words::{u8_of, u16_of, u64_of};
use anyhow::Error;
use std::env;
use std::rt::Files;
use std::sync::Wait;
use std::thread::Threads;

fn time_node<R: Print + AllocGlobal>(rt: &R, words: &[String]) -> Result<(), Error> {
    let [pairs, turns, among] = words else {
        return Ok(());
    };
    node::answer(rt, u64_of(pairs)?, u64_of(turns)?, u64_of(among)?)
}

fn time_world<R: Files + Print + AllocGlobal>(rt: &R, words: &[String]) -> Result<(), Error> {
    let [path, mode, dcs, clients] = words else {
        return Ok(());
    };
    world::happen(rt, path, mode, (u8_of(dcs)?, u16_of(clients)?))
}

/// Runs the task that the first word names.
fn perform<R: Files + Threads + Wait + Sync + Print + AllocGlobal>(
    rt: &R,
    words: &[String],
) -> Result<(), Error> {
    let [what, rest @ ..] = words else {
        return Ok(());
    };
    match what.as_str() {
        "rows" => rows::say_files(rt, rest),
        "node" => time_node(rt, rest),
        "world" => time_world(rt, rest),
        "online" => online::say(rt, rest),
        "allocations" => allocations::say(rt, rest),
        _ => Ok(()),
    }
}

fn main(rt: HostRuntime) -> Result<(), Error> {
    let words: Vec<String> = env::args(&rt)?.skip(1).collect(rt.alloc())?;
    perform(&rt, &words)
}
