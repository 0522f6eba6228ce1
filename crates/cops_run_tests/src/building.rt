//! Helpers of the tests of runs.
use cops_clients::{ClientOutcome, Run, RunFault, run};
use cops_scenario::{Scenario, ScenarioFault};
use cops_types::Gate;
use std::alloc::Global;
use std::sync::Wait;
use std::test::Fail;
use std::thread::Threads;

/// Two data centres, in each of which a client puts a key and gets it.
pub const TWO: &str =
    "{\"data_centres\":2,\"clients\":[{\"at\":0,\"script\":[{\"put\":[\"a\",\"1\"]},{\"get\":\"a\"}]},{\"at\":1,\"script\":[{\"put\":[\"b\",\"1\"]},{\"get\":\"b\"}]}]}";

/// Two data centres in format 2: a client puts a key, deletes it and gets it, and the other deletes a key and gets it.
pub const DELETING: &str =
    "{\"format\":2,\"data_centres\":2,\"clients\":[{\"at\":0,\"script\":[{\"put\":[\"x\",\"1\"]},{\"del\":\"x\"},{\"get\":\"x\"}]},{\"at\":1,\"script\":[{\"del\":\"y\"},{\"get\":\"y\"}]}]}";

/// The head of a trace of two clients, in format 1.
pub const HEAD: [u8; 9] = [0, 0, 0, 5, 0x11, 0, 1, 0, 2];

/// The head of a trace of two clients, in format 2.
pub const HEAD_OF_TWO: [u8; 9] = [0, 0, 0, 5, 0x11, 0, 2, 0, 2];

pub const DONE: ClientOutcome = ClientOutcome::Done;

pub fn scenario(alloc: Global, text: &str) -> Result<Scenario, ScenarioFault> {
    Scenario::from_json(alloc, text.as_bytes())
}

/// Runs a scenario's text, and returns the run's result.
pub fn ran<R: Threads + Wait + Sync, G: Gate>(
    rt: &R,
    alloc: Global,
    text: &str,
    gate: &G,
) -> Result<Result<Run, RunFault>, Fail> {
    let scenario = scenario(alloc, text)?;
    Ok(run(rt, alloc, scenario, gate))
}

/// The fault of a run, or none. Drops what the run left.
pub fn fault_of(ran: Result<Run, RunFault>) -> Option<RunFault> {
    let fault = match &ran {
        Ok(_) => None,
        Err(fault) => Some(*fault),
    };
    drop(ran);
    fault
}

/// The number of operations in the trace of a run with these outcomes, or none where it has others. Drops what the run
/// left.
pub fn operations_of(ran: Result<Run, RunFault>, outcomes: &[ClientOutcome]) -> Option<usize> {
    let operations = match &ran {
        Ok(run) if run.outcomes.as_slice() == outcomes => Some(run.trace.len()),
        _ => None,
    };
    drop(ran);
    operations
}
