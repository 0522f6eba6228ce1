//! The online auditor on a trace that it is fed operation by operation, and the judge on the same history.

use anyhow::Error;
use cops_audit::{Online, judge};
use cops_trace::read_trace;
use cops_types::{Counted, History, OpName};
use std::alloc::Global;
use std::fs::File;
use std::rt::Files;

/// How many operations the longest session has.
fn longest(history: &History) -> u32 {
    let mut longest = 0;
    for client in 0..history.clients() {
        longest = longest.max(history.session_len(client as u16) as u32);
    }
    longest
}

/// Feeds the operation of a name, if there is one.
fn feed(online: &mut Online, history: &History, name: OpName) -> Result<(), Error> {
    if let Some(op) = history.op(name) {
        online.feed(name.client, op.to_op()?)?;
    }
    Ok(())
}

/// Feeds an operation of each client in turn.
fn feed_in_turns(online: &mut Online, history: &History) -> Result<(), Error> {
    for index in 0..longest(history) {
        for client in 0..history.clients() {
            let client = client as u16;
            feed(online, history, OpName { client, index })?;
        }
    }
    Ok(())
}

/// Feeds one client's operations after the other's, so that many gets come long before their puts.
fn feed_by_sessions(online: &mut Online, history: &History) -> Result<(), Error> {
    for client in 0..history.clients() {
        let client = client as u16;
        for index in 0..history.session_len(client) {
            let index = index as u32;
            feed(online, history, OpName { client, index })?;
        }
    }
    Ok(())
}

fn ask<R: Print>(rt: &R, online: &mut Online) -> Result<(), Error> {
    let so_far = online.so_far();
    println!(rt; "{so_far:?}")?;
    Ok(())
}

/// Feeds a history by sessions or in turns, and asks for the verdict `questions` times.
fn feed_and_ask<R: Print>(
    rt: &R,
    online: &mut Online,
    history: &History,
    by_sessions: bool,
    questions: u32,
) -> Result<(), Error> {
    if by_sessions {
        feed_by_sessions(online, history)?;
    } else {
        feed_in_turns(online, history)?;
    }
    for _ in 0..questions {
        ask(rt, online)?;
    }
    Ok(())
}

fn fed<R: Print>(
    rt: &R,
    alloc: Global,
    history: &History,
    by_sessions: bool,
    questions: u32,
) -> Result<(), Error> {
    let mut online = Online::new(alloc, history.clients() as u16)?;
    let fed = feed_and_ask(rt, &mut online, history, by_sessions, questions);
    drop(online);
    fed
}

fn judge_only(alloc: Global, history: &History) -> Result<(), Error> {
    drop(judge(alloc, history)?);
    Ok(())
}

/// Judges a history, or feeds it, according to the mode.
fn heard<R: Print + AllocGlobal>(rt: &R, history: &History, mode: &str) -> Result<(), Error> {
    match mode {
        "judge" => judge_only(rt.alloc(), history),
        "feed" => fed(rt, rt.alloc(), history, false, 0),
        "turns" => fed(rt, rt.alloc(), history, false, 1),
        "sessions" => fed(rt, rt.alloc(), history, true, 1),
        "twice" => fed(rt, rt.alloc(), history, false, 2),
        _ => Ok(()),
    }
}

/// Reads a trace and, according to the mode, judges it, or feeds it in turns or by sessions and asks for the verdict
/// not at all, once or twice at the end.
pub fn say<R: Files + Print + AllocGlobal>(rt: &R, words: &[String]) -> Result<(), Error> {
    let [path, mode] = words else {
        return Ok(());
    };
    let file = File::open(rt, path)?;
    let trace = read_trace(rt.alloc(), &mut Counted::new(file))?;
    let heard = heard(rt, trace.history(), mode);
    drop(trace);
    heard
}
