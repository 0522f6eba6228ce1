//! Runs of a world, a cluster and an auditor, one after the other, each compared with its expected output.

use crate::{auditing, clustering, happening};
use anyhow::{Error, bail};
use cops_types::Memory;
use std::fs;
use std::rt::Files;
use std::sync::Wait;
use std::thread::Threads;

/// The inputs of the runs, and the expected outputs.
#[derive(Drop)]
struct Inputs {
    events: Vec<u8>,
    happened: Vec<u8>,
    trace: Vec<u8>,
    report: Vec<u8>,
}

fn read<R: Files + AllocGlobal>(rt: &R, paths: &[&String; 4]) -> Result<Inputs, Error> {
    let [events, happened, trace, report] = paths;
    Ok(Inputs {
        events: fs::read(rt, events)?,
        happened: fs::read(rt, happened)?,
        trace: fs::read(rt, trace)?,
        report: fs::read(rt, report)?,
    })
}

/// Whether all runs give the expected output.
fn go<R: Threads + Wait + Sync + AllocGlobal>(rt: &R, inputs: &Inputs) -> Result<bool, Memory> {
    let alloc = rt.alloc();
    Ok(
        happening::happens(alloc, &inputs.events, &inputs.happened)?
            && clustering::answers(rt, alloc)?
            && auditing::says(rt, alloc, &inputs.trace, &inputs.report)?,
    )
}

/// Prints whether all runs give the output that the files expect: a scenario with events and its lines, a trace and its
/// report. Fails if an allocation fails in a run that reports it.
pub fn say<R: Files + Threads + Wait + Sync + Print + AllocGlobal>(
    rt: &R,
    words: &[String],
) -> Result<(), Error> {
    let [events, happened, trace, report] = words else {
        return Ok(());
    };
    let inputs = read(rt, &[events, happened, trace, report])?;
    let went = go(rt, &inputs);
    drop(inputs);
    let said = match went {
        Ok(true) => "as wanted",
        Ok(false) => "not as wanted",
        Err(Memory) => bail!("out of memory"),
    };
    println!(rt; "{said}")?;
    Ok(())
}
