//! Running an event list, in a world on one thread.
ghost use Rattle.std.specs.Prelude.{◌≡◌, [], ◌∷◌, Some, length, map, IfNone, IfOk, IfSome};
ghost use Rattle.cops_scenario.specs.Scenario.{setting_of};
ghost use Rattle.cops_run_command.specs.Lines.{outcome_lines};
ghost use Rattle.cops_run_command.specs.Parts.{AreAnswers, IsRunLeft};
ghost use Rattle.cops_run_command.specs.Running.{all_seen, saw};
ghost use Rattle.cops_core.specs.Acts.{act_of};

use crate::leaving::{Left, reported_left};
use cops_core::{Event, World};
use cops_node::Outcome;
use cops_scenario::{Scenario, outcome_line};
use cops_trace::Trace;
use cops_types::{History, Memory};
use std::alloc::Global;

/// Runs the events in a world of the scenario. Prints one line for each event. Returns `Memory` when memory runs out.
pub(crate) fn run_events(
    alloc: Global,
    scenario: &Scenario,
    events: &[Event],
) -> Result<Left, Memory>
    requires { scenario.now.events ≡ Some events.now }
    ensures { IfOk result (IsRunLeft scenario.now) }
{
    let (outcomes, history) = answers(alloc, scenario, events)?;
    let lines = lines(alloc, &outcomes)?;
    let arrivals = arrivals(alloc, events, &outcomes)?;
    match Trace::of(scenario.format(), history, arrivals)? {
        Some(trace) => Ok(reported_left(alloc, lines, trace)?),
        None => unreachable!(),
    }
}

/// The outcomes of the events in a world of the scenario, and what its clients saw.
fn answers(
    alloc: Global,
    scenario: &Scenario,
    events: &[Event],
) -> Result<(Vec<Outcome>, History), Memory>
    ensures { IfOk result (λ (outcomes, history). AreAnswers (setting_of scenario.now) events.now outcomes.items history.sessions) }
{
    let mut world = World::of(alloc, scenario.setting(alloc)?)?;
    let outcomes = world.run(events)?;
    Ok((outcomes, world.into_history()))
}

/// One line for each event.
fn lines(alloc: Global, outcomes: &[Outcome]) -> Result<Vec<u8>, Memory>
    ensures { IfOk result (λ text. text.items ≡ outcome_lines outcomes.now) }
{
    let mut text = Vec::new(alloc);
    for n in 0..outcomes.len() {
        outcome_line(alloc, n, &outcomes[n], &mut text)?;
    }
    Ok(text)
}

/// The clients of the operations that clients saw, in the order of the events.
fn arrivals(alloc: Global, events: &[Event], outcomes: &[Outcome]) -> Result<Vec<u16>, Memory>
    requires { length outcomes.now ≡ length events.now }
    ensures { IfOk result (λ clients. clients.items ≡ map (λ r. r.client) (all_seen events.now outcomes.now)) }
{
    let mut clients = Vec::new(alloc);
    for n in 0..events.len() {
        if let Some(client) = seen_by(&events[n], &outcomes[n]) {
            clients.push(client)?;
        }
    }
    Ok(clients)
}

/// The client that saw an operation of an event with this outcome, if one did.
fn seen_by(event: &Event, outcome: &Outcome) -> Option<u16>
    ensures some { IfSome result (λ client. map (λ r. r.client) (saw (act_of event.now) outcome.now) ≡ client ∷ []) }
    ensures none { IfNone result (saw (act_of event.now) outcome.now ≡ []) }
{
    match (event, outcome) {
        (
            Event::Put { client, .. } | Event::Del { client, .. },
            Outcome::PutDone(_) | Outcome::Deleted(_),
        )
        | (Event::Get { client, .. }, Outcome::Got(..) | Outcome::Gone(_) | Outcome::Missed) =>
            Some(*client),
        _ => None,
    }
}
