use crate::building::{DELETING, DONE, TWO, fault_of, operations_of, ran, scenario};
use cops_clients::*;
use cops_core::{Event, World};
use cops_node::Outcome;
use cops_testing::{HoldsAt, Meeting, TURNS, waits_for};
use cops_types::{Gate, GateHeld, OpenGate, Point, Refusal};
use std::alloc::Global;
use std::fmt::Write;
use std::sync::Wait;
use std::sync::atomic::{AtomicBool, AtomicU64, Ordering};
use std::test::Fail;
use std::thread;
use std::thread::Threads;

/// Two nodes, at each of which a client puts a key, and a client without a script.
const SPLIT: &str =
    "{\"data_centres\":1,\"splits\":[\"m\"],\"clients\":[{\"at\":0},{\"at\":0,\"script\":[{\"put\":[\"a\",\"1\"]}]},{\"at\":0,\"script\":[{\"put\":[\"z\",\"1\"]}]}]}";

/// A client puts three keys, which pass through a link for one frame, and a loop may make one turn.
const LIMITED: &str =
    "{\"data_centres\":2,\"link\":1,\"turns\":1,\"clients\":[{\"at\":0,\"script\":[{\"put\":[\"a\",\"1\"]},{\"put\":[\"b\",\"1\"]},{\"put\":[\"c\",\"1\"]}]}]}";

/// A client puts two keys, whose messages pass through a link for one frame, each three times, to a receiver with late
/// turns.
const LATE: &str =
    "{\"data_centres\":2,\"link\":1,\"repeat\":2,\"hold\":5,\"clients\":[{\"at\":0,\"script\":[{\"put\":[\"x\",\"1\"]},{\"put\":[\"y\",\"2\"]}]}]}";

/// Like `LATE` in format 2, where the second message is of a deletion.
const LATE_DELETION: &str =
    "{\"format\":2,\"data_centres\":2,\"link\":1,\"repeat\":2,\"hold\":5,\"clients\":[{\"at\":0,\"script\":[{\"put\":[\"x\",\"1\"]},{\"del\":\"x\"}]}]}";

/// The numbers of outcomes and of operations that a run left. Drops what the run left.
fn sizes(ran: Result<Run, RunFault>) -> Option<(usize, usize)> {
    let sizes = match &ran {
        Ok(run) => Some((run.outcomes.len(), run.trace.len())),
        Err(_) => None,
    };
    drop(ran);
    sizes
}

/// A single thread for both clients, or a single lock around both nodes, would be held here.
#[test]
fn steps_of_two_nodes_stand_side_by_side(rt: HostRuntime) -> Result<(), Fail> {
    let gate = Meeting::new(
        Point::InStep { node: 0, client: 1 },
        Point::InStep { node: 1, client: 2 },
    );
    let ran = ran(&rt, rt.alloc(), SPLIT, &gate)?;
    assert!(rt; sizes(ran) == Some((3, 2)));
    Ok(())
}

#[test]
fn a_gate_holds_a_run(rt: HostRuntime) -> Result<(), Fail> {
    for point in [
        Point::InStep { node: 0, client: 0 },
        Point::Answered {
            node: 64,
            client: 1,
        },
        Point::InStep {
            node: 64,
            client: 65_535,
        },
    ] {
        let ran = ran(&rt, rt.alloc(), TWO, &HoldsAt { point })?;
        assert!(rt; fault_of(ran) == Some(RunFault::Held), "{point:?}");
    }
    Ok(())
}

/// A gate that delays a receiver at its first step, while the clients finish.
#[derive(Drop)]
struct Slow {
    passed: AtomicU64,
}

impl Gate for Slow {
    ghost may_hold = { λ _ _. ⊥ };

    fn pass<R: Wait>(&self, _rt: &R, point: Point) -> Result<(), GateHeld> {
        if let Point::InStep { client: 65_535, .. } = point {
            if self.passed.fetch_add(1, Ordering::SeqCst) == 0 {
                for _ in 0..TURNS / 10 {
                    thread::yield_now();
                }
            }
        }
        Ok(())
    }
}

#[test]
fn a_sender_makes_its_turns(rt: HostRuntime) -> Result<(), Fail> {
    let gate = Slow {
        passed: AtomicU64::new(0),
    };
    let ran = ran(&rt, rt.alloc(), LIMITED, &gate)?;
    assert!(rt; fault_of(ran) == Some(RunFault::TurnLimit));
    Ok(())
}

/// A gate that lets client 1 continue from its first answer once client 0 has `wanted` answers.
#[derive(Drop)]
struct Turns {
    answered: AtomicU64,
    wanted: u64,
    reached: AtomicBool,
}

impl Gate for Turns {
    ghost may_hold = { λ _ _. Unit {0} };

    fn pass<R: Wait>(&self, _rt: &R, point: Point) -> Result<(), GateHeld> {
        match point {
            Point::Answered { client: 0, .. } => {
                let before = self.answered.fetch_add(1, Ordering::SeqCst);
                if before >= self.wanted {
                    self.reached.store(true, Ordering::SeqCst);
                }
                Ok(())
            }
            Point::Answered { client: 1, .. } => waits_for(&self.reached),
            _ => Ok(()),
        }
    }
}

/// Writes a scenario in which client 0 puts `keys` keys and gets the first of them, and client 1 gets a key that nobody
/// puts, and then those keys and the first of them again.
fn write_many(text: &mut String, keys: u32) -> Result<(), Fail> {
    text.push_str("{\"data_centres\":1,\"clients\":[{\"at\":0,\"script\":[")?;
    for n in 0..keys {
        write!(text, "{{\"put\":[\"k{n}\",\"1\"]}},")?;
    }
    text.push_str("{\"get\":\"k0\"}]},{\"at\":0,\"script\":[{\"get\":\"none\"},")?;
    for n in 0..keys {
        write!(text, "{{\"get\":\"k{n}\"}},")?;
    }
    text.push_str("{\"get\":\"k0\"}]}]}")?;
    Ok(())
}

/// Runs such a scenario, and returns the run's result.
fn ran_many<R: Threads + Wait + Sync, G: Gate>(
    rt: &R,
    alloc: Global,
    keys: u32,
    gate: &G,
) -> Result<Result<Run, RunFault>, Fail> {
    let mut text = String::new(alloc);
    let ran = match write_many(&mut text, keys) {
        Ok(()) => ran(rt, alloc, &text, gate),
        Err(fault) => Err(fault),
    };
    drop(text);
    ran
}

#[test]
fn a_client_with_a_full_context_stops(rt: HostRuntime) -> Result<(), Fail> {
    let gate = Turns {
        answered: AtomicU64::new(0),
        wanted: 256,
        reached: AtomicBool::new(false),
    };
    let ran = ran_many(&rt, rt.alloc(), 256, &gate)?;
    let outcomes = [DONE, ClientOutcome::Stopped(Refusal::ContextFull)];
    assert!(rt; operations_of(ran, &outcomes) == Some(514));
    Ok(())
}

/// A world in the setting of a scenario's text.
fn world_of(alloc: Global, text: &str) -> Result<World, Fail> {
    let scenario = scenario(alloc, text)?;
    let setting = scenario.setting(alloc);
    drop(scenario);
    Ok(World::of(alloc, setting?)?)
}

/// The number of outcomes that are equal to `like`.
fn count(outcomes: &[Outcome], like: &Outcome) -> usize {
    outcomes.iter().filter(|outcome| *outcome == like).count()
}

/// How many deliveries of these events such a world answers with held, how many with repeat, and how many puts it
/// settles.
fn counts(alloc: Global, text: &str, events: &[Event]) -> Result<[usize; 3], Fail> {
    let mut world = world_of(alloc, text)?;
    let outcomes = world.run(events);
    drop(world);
    let outcomes = outcomes?;
    let held = count(&outcomes, &Outcome::Held);
    let repeated = count(&outcomes, &Outcome::Repeat);
    let settled = count(&outcomes, &Outcome::Settled);
    drop(outcomes);
    Ok([held, repeated, settled])
}

#[test]
fn each_message_comes_three_times(rt: HostRuntime) -> Result<(), Fail> {
    let run = ran(&rt, rt.alloc(), LATE, &OpenGate)??;
    let counts = counts(rt.alloc(), LATE, &run.events);
    drop(run);
    assert_eq!(rt; counts?, [2, 4, 2]);
    Ok(())
}

#[test]
fn a_deletion_comes_three_times(rt: HostRuntime) -> Result<(), Fail> {
    let run = ran(&rt, rt.alloc(), LATE_DELETION, &OpenGate)??;
    let counts = counts(rt.alloc(), LATE_DELETION, &run.events);
    drop(run);
    assert_eq!(rt; counts?, [2, 4, 2]);
    Ok(())
}

/// Each of the two puts is delivered once to the other data centre and settled there.
#[test]
fn each_put_is_settled_in_the_other_data_centre(rt: HostRuntime) -> Result<(), Fail> {
    let run = ran(&rt, rt.alloc(), TWO, &OpenGate)??;
    let counts = counts(rt.alloc(), TWO, &run.events);
    drop(run);
    assert_eq!(rt; counts?, [2, 0, 2]);
    Ok(())
}

/// A put and two deletions, and what each client then finds.
#[test]
fn clients_delete(rt: HostRuntime) -> Result<(), Fail> {
    let ran = ran(&rt, rt.alloc(), DELETING, &OpenGate)?;
    assert!(rt; operations_of(ran, &[DONE, DONE]) == Some(5));
    Ok(())
}

/// Each put and each deletion is delivered once to the other data centre and settled there.
#[test]
fn each_deletion_is_settled_in_the_other_data_centre(rt: HostRuntime) -> Result<(), Fail> {
    let run = ran(&rt, rt.alloc(), DELETING, &OpenGate)??;
    let counts = counts(rt.alloc(), DELETING, &run.events);
    drop(run);
    assert_eq!(rt; counts?, [3, 0, 3]);
    Ok(())
}
