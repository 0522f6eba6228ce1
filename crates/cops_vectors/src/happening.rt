//! The events of a world.

use cops_core::{Event, Setting, World};
use cops_node::Outcome;
use cops_report::report_of;
use cops_scenario::{Scenario, ScenarioFault, outcome_line};
use cops_types::{Memory, Refusal};
use std::alloc::Global;

/// Whether an event was refused because memory ran out.
fn lacked_memory(outcome: &Outcome) -> bool {
    match outcome {
        Outcome::Refused(Refusal::Memory) => true,
        _ => false,
    }
}

/// The answer to an event. One that is refused because memory ran out, and has changed nothing, is tried again.
fn answered(world: &mut World, event: &Event) -> Outcome {
    let before = (world.history().len(), world.puts());
    let outcome = world.answer(event);
    if !lacked_memory(&outcome) || before != (world.history().len(), world.puts()) {
        return outcome;
    }
    drop(outcome);
    world.answer(event)
}

/// A line for the answer to each event, and then the report on what the clients saw.
fn reported(alloc: Global, world: &mut World, events: &[Event]) -> Result<Vec<u8>, Memory> {
    let mut text = Vec::new(alloc);
    for n in 0..events.len() {
        let outcome = answered(world, &events[n]);
        let line = outcome_line(alloc, n, &outcome, &mut text);
        drop(outcome);
        line?;
    }
    text.extend_from_slice(&report_of(alloc, world.history())?)?;
    Ok(text)
}

/// Like `reported`, in a new world of a setting.
fn reported_in(alloc: Global, setting: Setting, events: &[Event]) -> Result<Vec<u8>, Memory> {
    let mut world = World::of(alloc, setting)?;
    let reported = reported(alloc, &mut world, events);
    drop(world);
    reported
}

/// Whether the events of a scenario give the expected lines.
fn reports(alloc: Global, scenario: &Scenario, wanted: &[u8]) -> Result<bool, Memory> {
    let Some(events) = scenario.events() else {
        return Ok(false);
    };
    let text = reported_in(alloc, scenario.setting(alloc)?, events)?;
    Ok(text.as_slice() == wanted)
}

/// Whether the events of the scenario in these bytes give the expected lines.
pub fn happens(alloc: Global, bytes: &[u8], wanted: &[u8]) -> Result<bool, Memory> {
    match Scenario::from_json(alloc, bytes) {
        Ok(scenario) => {
            let reports = reports(alloc, &scenario, wanted);
            drop(scenario);
            reports
        }
        Err(ScenarioFault::Memory) => Err(Memory),
        Err(_) => Ok(false),
    }
}
