use crate::building::{DONE, TWO, ran, scenario};
use cops_clients::*;
use cops_core::Setting;
use cops_node::Outcome;
use cops_scenario::Scenario;
use cops_tie::*;
use cops_types::{OpenGate, Refusal};
use std::alloc::Global;
use std::process::Abort;
use std::sync::Wait;
use std::test::Fail;
use std::thread::Threads;

/// Whether what a run left passes the check in this setting, with these outcomes in place of its own.
fn passes_in(
    alloc: Global,
    scenario: &Scenario,
    setting: &Setting,
    run: &Run,
    outcomes: &[ClientOutcome],
) -> bool {
    if run.entries.len() != setting.dcs() as usize * setting.nodes() as usize {
        return false;
    }
    let (clients, entries) = (scenario.clients(), &run.entries);
    let checked = checked(alloc, setting, clients, entries, &run.trace, outcomes);
    let passes = checked.is_ok();
    drop(checked);
    passes
}

/// Like `passes_in`, in the scenario's setting.
fn passes(alloc: Global, scenario: &Scenario, run: &Run, outcomes: &[ClientOutcome]) -> bool {
    match scenario.setting(alloc) {
        Ok(setting) => {
            let passes = passes_in(alloc, scenario, &setting, run, outcomes);
            drop(setting);
            passes
        }
        Err(_) => false,
    }
}

const NO_MEMORY: ClientOutcome = ClientOutcome::Stopped(Refusal::Memory);

const CONTEXT_FULL: ClientOutcome = ClientOutcome::Stopped(Refusal::ContextFull);

const SESSION_FULL: ClientOutcome = ClientOutcome::Stopped(Refusal::SessionFull);

/// A run passes with the outcomes that follow from its sessions, and with one that says that memory ran out, but with
/// no others.
fn ends_as_said<R: Abort>(rt: &R, alloc: Global, scenario: &Scenario, run: &Run) {
    assert!(*rt; passes(alloc, scenario, run, &[DONE, DONE]));
    assert!(*rt; passes(alloc, scenario, run, &[DONE, NO_MEMORY]));
    assert!(*rt; !passes(alloc, scenario, run, &[DONE, CONTEXT_FULL]));
    assert!(*rt; !passes(alloc, scenario, run, &[SESSION_FULL, DONE]));
    assert!(*rt; !passes(alloc, scenario, run, &[DONE]));
}

/// A run of the scenario `TWO`.
fn run_of_two<R: Threads + Wait + Sync>(rt: &R, alloc: Global) -> Result<Run, Fail> {
    Ok(ran(rt, alloc, TWO, &OpenGate)??)
}

#[test]
fn a_client_ends_as_its_session_says(rt: HostRuntime) -> Result<(), Fail> {
    let scenario = scenario(rt.alloc(), TWO)?;
    let run = match run_of_two(&rt, rt.alloc()) {
        Ok(run) => run,
        Err(fault) => {
            drop(scenario);
            return Err(fault);
        }
    };
    ends_as_said(&rt, rt.alloc(), &scenario, &run);
    drop(run);
    drop(scenario);
    Ok(())
}

/// Drops the last entry of each book.
fn cut(books: &mut [Vec<Entry>]) {
    for book in books {
        drop(book.pop());
    }
}

/// Changes each outcome `Settled` to `Marked`.
fn alter(books: &mut [Vec<Entry>]) {
    for book in books {
        for entry in book.iter_mut() {
            if matches!(&entry.outcome, Outcome::Settled) {
                entry.outcome = Outcome::Marked;
            }
        }
    }
}

/// Whether a run passes whose books are cut or, if `is_cut` is false, altered.
fn passes_altered<R: Threads + Wait + Sync>(
    rt: &R,
    alloc: Global,
    scenario: &Scenario,
    is_cut: bool,
) -> Result<bool, Fail> {
    let mut run = run_of_two(rt, alloc)?;
    if is_cut {
        cut(&mut run.entries);
    } else {
        alter(&mut run.entries);
    }
    let passes = passes(alloc, scenario, &run, &[DONE, DONE]);
    drop(run);
    Ok(passes)
}

/// Whether a run passes with cut books, and with altered ones.
fn pass_altered<R: Threads + Wait + Sync>(
    rt: &R,
    alloc: Global,
    scenario: &Scenario,
) -> Result<(bool, bool), Fail> {
    let cut = passes_altered(rt, alloc, scenario, true)?;
    Ok((cut, passes_altered(rt, alloc, scenario, false)?))
}

#[test]
fn altered_books_do_not_pass(rt: HostRuntime) -> Result<(), Fail> {
    let scenario = scenario(rt.alloc(), TWO)?;
    let passed = pass_altered(&rt, rt.alloc(), &scenario);
    drop(scenario);
    assert!(rt; passed? == (false, false));
    Ok(())
}

/// A client puts a key and deletes it, at tickets 0 and 1.
const DELETED: &str =
    "{\"format\":2,\"data_centres\":1,\"clients\":[{\"at\":0,\"script\":[{\"put\":[\"x\",\"1\"]},{\"del\":\"x\"}]}]}";

/// The data centre and the client of `DELETED`, in format 1.
const WITHOUT: &str = "{\"data_centres\":1,\"clients\":[{\"at\":0}]}";

/// The ticket at which what a run left is not tied in this setting, or none. Drops what was tied.
fn untied_in(alloc: Global, setting: &Setting, run: &Run) -> Option<u64> {
    if run.entries.len() != setting.dcs() as usize * setting.nodes() as usize {
        return Some(0);
    }
    let tied = tie(alloc, setting, &run.entries, &run.trace);
    let ticket = match &tied {
        Ok(_) => None,
        Err(TieFault::Untied { ticket }) => Some(*ticket),
        Err(TieFault::Memory) => Some(0),
    };
    drop(tied);
    ticket
}

/// Like `untied_in`, in the setting of a scenario's text.
fn untied(alloc: Global, text: &str, run: &Run) -> Result<Option<u64>, Fail> {
    let scenario = scenario(alloc, text)?;
    let setting = scenario.setting(alloc);
    drop(scenario);
    let setting = setting?;
    let ticket = untied_in(alloc, &setting, run);
    drop(setting);
    Ok(ticket)
}

/// Like `untied`, in the setting of each format.
fn untied_in_each(alloc: Global, run: &Run) -> Result<(Option<u64>, Option<u64>), Fail> {
    let with = untied(alloc, DELETED, run)?;
    Ok((with, untied(alloc, WITHOUT, run)?))
}

/// The put alone belongs to both worlds.
#[test]
fn a_deletion_is_untied_in_format_1(rt: HostRuntime) -> Result<(), Fail> {
    let run = ran(&rt, rt.alloc(), DELETED, &OpenGate)??;
    let untied = untied_in_each(rt.alloc(), &run);
    drop(run);
    assert!(rt; untied? == (None, Some(1)));
    Ok(())
}
