//! Whether the clients' outcomes fit their sessions and the world in which a run ends.
ghost use Rattle.std.specs.Prelude.{◌≡◌, ◌≢◌, ◌↔◌, IfOk, IsTrue, slice_index_or, [], option_copied};
ghost use Rattle.cops_types.specs.declared.refusal.Refusal.TheVariants.{Memory as OutOfMemory};
ghost use Rattle.cops_types.specs.OpRefs.{seen as seen_op};
ghost use Rattle.cops_node.specs.declared.outcome.Outcome.TheVariants.{Refused};
ghost use Rattle.cops_core.specs.World.{act_of, happens};
ghost use Rattle.cops_tie.specs.Outcomes.{AreOutcomes, IsPrefixOf, IsOutcome, IsSeenAs, IsStop, event_for};

use crate::outcome::ClientOutcome;
use cops_core::{Event, World, every_interleaving_is_accepted};
use cops_node::Outcome;
use cops_scenario::{ScriptOp, ScriptedClient};
use cops_types::{History, Memory, OpName, OpRef, Refusal};
use std::alloc::AllocError;

/// Whether there are a session and an outcome for each client, and each outcome fits its session. Returns `Memory` when
/// memory runs out.
pub fn are_outcomes(
    world: &mut World,
    clients: &[ScriptedClient],
    history: &History,
    outcomes: &[ClientOutcome],
) -> Result<bool, Memory>
    ensures { IfOk result (λ are. IsTrue are ↔ AreOutcomes world.old.setting world.old.world clients.now history.now.sessions outcomes.now) }
{
    if outcomes.len() != clients.len() || history.clients() != clients.len() {
        return Ok(false);
    }
    for i in 0..clients.len() {
        if !is_outcome(world, i as u16, &clients[i].script, history, outcomes[i])? {
            return Ok(false);
        }
    }
    Ok(true)
}

/// Whether a client's outcome fits its session. If it does, the world is unchanged.
fn is_outcome(
    world: &mut World,
    client: u16,
    script: &[ScriptOp],
    history: &History,
    outcome: ClientOutcome,
) -> Result<bool, Memory>
    ensures is { IfOk result (λ is. IsTrue is ↔ IsOutcome world.old.setting world.old.world client script.now (slice_index_or history.now.sessions client []) outcome) }
    ensures stays { IfOk result (λ is. IsTrue is → world.new ≡ world.old) }
{
    if !is_prefix_of(script, history, client) {
        return Ok(false);
    }
    let operations = history.session_len(client);
    match outcome {
        ClientOutcome::Done => Ok(operations == script.len()),
        ClientOutcome::Stopped(refused) => is_stop(world, client, script.get(operations), refused),
    }
}

/// Whether the client's session matches a prefix of its script: its nth operation is one that the client may have seen
/// for the nth of the script.
fn is_prefix_of(script: &[ScriptOp], history: &History, client: u16) -> bool
    ensures { IsTrue result ↔ IsPrefixOf script.now (slice_index_or history.now.sessions client []) }
{
    let operations = history.session_len(client);
    if operations > script.len() {
        return false;
    }
    for n in 0..operations {
        let index = n as u32;
        let is_so = match history.op(OpName { client, index }) {
            Some(op) => is_seen_as(&script[n], &op),
            None => unreachable!(),
        };
        if !is_so {
            return false;
        }
    }
    true
}

/// Whether `seen` is an operation that a client may have seen for `op` of its script.
fn is_seen_as(op: &ScriptOp, seen: &OpRef<'_>) -> bool
    ensures { IsTrue result ↔ IsSeenAs op.now (seen_op seen.now) }
{
    match (op, seen) {
        (
            ScriptOp::Put { key, value },
            OpRef::Put {
                key: k,
                value: Some(v),
                ..
            },
        ) => k.is(key) && v.is(value),
        (
            ScriptOp::Del { key },
            OpRef::Put {
                key: k,
                value: None,
                ..
            },
        ) => k.is(key),
        (ScriptOp::Get { key }, OpRef::Got { key: k, .. }) => k.is(key),
        (ScriptOp::Get { key }, OpRef::Missed { key: k }) => k.is(key),
        _ => false,
    }
}

/// Whether a client may have stopped for this reason before the next operation of its script. If it may, the world is
/// unchanged.
fn is_stop(
    world: &mut World,
    client: u16,
    next: Option<&ScriptOp>,
    refused: Refusal,
) -> Result<bool, Memory>
    ensures is { IfOk result (λ is. IsTrue is ↔ IsStop world.old.setting world.old.world client (option_copied next.entry) refused) }
    ensures stays { IfOk result (λ is. IsTrue is → world.new ≡ world.old) }
{
    if refused == Refusal::Memory {
        return Ok(true);
    }
    if refused != Refusal::ClockExhausted && refused != Refusal::ContextFull {
        return Ok(false);
    }
    match next {
        Some(op) => is_refused(world, client, op, refused),
        None => Ok(false),
    }
}

/// Whether the world refuses a client's operation for this reason. If it does, it is unchanged.
fn is_refused(
    world: &mut World,
    client: u16,
    op: &ScriptOp,
    refused: Refusal,
) -> Result<bool, Memory>
    requires { refused ≢ OutOfMemory }
    ensures is { IfOk result (λ is. IsTrue is ↔ ((happens world.old.setting world.old.world (act_of (event_for client op.now))).0 ≡ Refused refused)) }
    ensures stays { IfOk result (λ is. IsTrue is → world.new ≡ world.old) }
{
    let event = event_for(client, op)?;
    is_event_refused(world, &event, refused)
}

/// Whether the world refuses an event for this reason. If it does, it is unchanged.
fn is_event_refused(world: &mut World, event: &Event, refused: Refusal) -> Result<bool, Memory>
    requires { refused ≢ OutOfMemory }
    ensures is { IfOk result (λ is. IsTrue is ↔ ((happens world.old.setting world.old.world (act_of event.now)).0 ≡ Refused refused)) }
    ensures stays { IfOk result (λ is. IsTrue is → world.new ≡ world.old) }
{
    every_interleaving_is_accepted();
    let outcome = world.answer(event);
    if outcome.is_memory() {
        return Err(Memory);
    }
    match &outcome {
        Outcome::Refused(answered) => Ok(*answered == refused),
        _ => Ok(false),
    }
}

/// The world's event for a client's operation.
fn event_for(client: u16, op: &ScriptOp) -> Result<Event, AllocError>
    ensures { IfOk result (λ event. event ≡ event_for client op.now) }
{
    Ok(match op {
        ScriptOp::Put { key, value } => Event::Put {
            client,
            key: key.clone()?,
            value: value.clone()?,
        },
        ScriptOp::Del { key } => Event::Del {
            client,
            key: key.clone()?,
        },
        ScriptOp::Get { key } => Event::Get {
            client,
            key: key.clone()?,
        },
    })
}
