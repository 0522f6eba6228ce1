//! Test cases of scenario files.

use crate::words::Part::{At, Bytes, Count, Number, Word};
use crate::words::{line_of, no_row, outcome, text, usize_of, word};
use anyhow::{Error, bail};
use cops_core::Event;
use cops_node::Outcome;
use cops_scenario::{Scenario, ScriptOp, outcome_line};
use cops_types::{Key, Value, Version};
use std::alloc::Global;

/// What a scenario is made of.
fn counts(alloc: Global, scenario: &Scenario) -> Result<String, Error> {
    let place = scenario.place();
    let parts = [
        Number(u64::from(place.dcs())),
        Word(" data centres, "),
        Number(u64::from(place.nodes())),
        Word(" nodes, link "),
        Number(u64::from(scenario.link())),
        Word(", turns "),
        Number(u64::from(scenario.turns())),
        Word(", "),
        Count(scenario.clients().len()),
        Word(" clients"),
    ];
    text(alloc, &parts)
}

/// The scenario in a text.
fn read(alloc: Global, text: &str) -> Result<Scenario, Error> {
    Ok(Scenario::from_json(alloc, text.as_bytes())?)
}

/// Where a client lives, and how long its script is.
fn client(alloc: Global, scenario: &Scenario, number: &str) -> Result<String, Error> {
    match scenario.clients().get(usize_of(number)?) {
        Some(client) => {
            let (at, length) = (Number(u64::from(client.at)), Count(client.script.len()));
            text(
                alloc,
                &[Word("at "), at, Word(", "), length, Word(" operations")],
            )
        }
        None => word(alloc, "nothing"),
    }
}

/// What a client does to a key: `WHAT KEY`, and `=VALUE` if there is a value.
fn done_text<'a>(
    alloc: Global,
    what: &'a str,
    key: &'a Key,
    value: Option<&'a Value>,
) -> Result<String, Error> {
    let key = Bytes(key.as_bytes());
    match value {
        Some(value) => text(
            alloc,
            &[Word(what), key, Word("="), Bytes(value.as_bytes())],
        ),
        None => text(alloc, &[Word(what), key]),
    }
}

/// The text of an operation of a script.
fn op_text(alloc: Global, op: &ScriptOp) -> Result<String, Error> {
    match op {
        ScriptOp::Put { key, value } => done_text(alloc, "put ", key, Some(value)),
        ScriptOp::Del { key } => done_text(alloc, "del ", key, None),
        ScriptOp::Get { key } => done_text(alloc, "get ", key, None),
    }
}

/// An operation of a script, by its client and its index.
fn script(alloc: Global, scenario: &Scenario, number: &str, index: &str) -> Result<String, Error> {
    let Some(client) = scenario.clients().get(usize_of(number)?) else {
        bail!("there is no such client");
    };
    match client.script.get(usize_of(index)?) {
        Some(op) => op_text(alloc, op),
        None => word(alloc, "nothing"),
    }
}

/// How many events are listed.
fn events(alloc: Global, scenario: &Scenario) -> Result<String, Error> {
    match scenario.events() {
        Some(events) => text(alloc, &[Count(events.len()), Word(" events")]),
        None => word(alloc, "no list"),
    }
}

/// An event of a client: what it does to a key.
fn of_client(alloc: Global, client: u16, done: Result<String, Error>) -> Result<String, Error> {
    let (client, done) = (u64::from(client), done?);
    text(
        alloc,
        &[Word("client "), Number(client), Word(": "), Word(&done)],
    )
}

/// An event about a version at a data centre.
fn about(alloc: Global, event: &str, dc: u8, version: Version) -> Result<String, Error> {
    text(
        alloc,
        &[Word(event), Number(u64::from(dc)), Word(" "), At(version)],
    )
}

fn mark_text(alloc: Global, dc: u8, version: Version, dep: u16) -> Result<String, Error> {
    let (dc, dep) = (u64::from(dc), u64::from(dep));
    text(
        alloc,
        &[
            Word("mark "),
            Number(dc),
            Word(" "),
            At(version),
            Word(" "),
            Number(dep),
        ],
    )
}

/// The text of a world's event.
fn event_text(alloc: Global, event: &Event) -> Result<String, Error> {
    match event {
        Event::Put { client, key, value } => {
            of_client(alloc, *client, done_text(alloc, "put ", key, Some(value)))
        }
        Event::Del { client, key } => of_client(
            alloc,
            *client,
            done_text(alloc, "del ", key, None),
        ),
        Event::Get { client, key } => of_client(
            alloc,
            *client,
            done_text(alloc, "get ", key, None),
        ),
        Event::Deliver { dc, version } => about(alloc, "deliver ", *dc, *version),
        Event::Ask { dc, version, .. } => about(alloc, "ask ", *dc, *version),
        Event::Mark { dc, version, dep } => mark_text(alloc, *dc, *version, *dep),
        Event::Settle { dc, version } => about(alloc, "settle ", *dc, *version),
    }
}

/// The event at an index of the list.
fn event(alloc: Global, scenario: &Scenario, index: &str) -> Result<String, Error> {
    let Some(events) = scenario.events() else {
        bail!("no list");
    };
    match events.get(usize_of(index)?) {
        Some(event) => event_text(alloc, event),
        None => word(alloc, "nothing"),
    }
}

/// The line of an outcome, without its line feed.
fn reported(alloc: Global, number: usize, outcome: &Outcome) -> Result<String, Error> {
    let mut bytes = Vec::new(alloc);
    outcome_line(alloc, number, outcome, &mut bytes)?;
    line_of(alloc, &bytes)
}

fn line(alloc: Global, number: &str, words: &[&str]) -> Result<String, Error> {
    let number = usize_of(number)?;
    let outcome = outcome(alloc, words)?;
    let reported = reported(alloc, number, &outcome);
    drop(outcome);
    reported
}

/// The answer to a call on the current scenario.
fn ask(alloc: Global, scenario: &Scenario, words: &[&str]) -> Result<String, Error> {
    let number = match words {
        ["client", number] => return client(alloc, scenario, number),
        ["script", number, index] => return script(alloc, scenario, number, index),
        ["event", index] => return event(alloc, scenario, index),
        ["events"] => return events(alloc, scenario),
        ["format"] => u64::from(scenario.format().number()),
        ["retries"] => u64::from(scenario.retries()),
        ["repeat"] => u64::from(scenario.repeat()),
        ["hold"] => u64::from(scenario.hold()),
        _ => return Err(no_row()),
    };
    text(alloc, &[Number(number)])
}

/// The answer to a call on the current scenario, or the error that there is none.
fn ask_any(alloc: Global, scenario: &Option<Scenario>, words: &[&str]) -> Result<String, Error> {
    match scenario {
        Some(scenario) => ask(alloc, scenario, words),
        None => bail!("there is no scenario"),
    }
}

/// The answer to a call.
pub fn answer(
    alloc: Global,
    scenario: &mut Option<Scenario>,
    words: &[&str],
) -> Result<String, Error> {
    match words {
        ["new", text] => counts(alloc, scenario.insert(read(alloc, text)?)),
        ["line", number, outcome @ ..] => line(alloc, number, outcome),
        _ => ask_any(alloc, scenario, words),
    }
}
