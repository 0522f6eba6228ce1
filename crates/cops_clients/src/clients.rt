//! A scripted client's thread.
ghost use Rattle.std.specs.Prelude.{◌≡◌, ◌+◌, IfOk, OnErr, length};
ghost use Rattle.cops_cluster.specs.Cluster.{IsSameClient};
ghost use Rattle.cops_clients.specs.Gates.{MayHoldIn};
ghost use Rattle.cops_clients.specs.Trying.{AreAllTries};

use crate::ends::{End, Returned};
use crate::state::RunState;
use crate::tries::Tries;
use cops_cluster::Client;
use cops_scenario::ScriptOp;
use cops_tie::ClientOutcome;
use cops_types::{Gate, GateHeld, Refusal};
use std::sync::Wait;

/// A client with its script.
#[derive(Drop)]
pub(crate) struct ClientTask<'a> {
    pub(crate) client: Client,
    pub(crate) script: &'a [ScriptOp],
}

/// The body of a client's thread: runs the script's operations in order, and stops at the first that is finally
/// refused.
pub(crate) fn work<R: Wait, G: Gate>(
    rt: &R,
    state: &RunState,
    gate: &G,
    mut client: Client,
    script: &[ScriptOp],
) -> Returned
    ensures share { result.share.holder ≡ client.share.holder }
    ensures held { result.end ≡ End.Held → MayHoldIn (G.may_hold gate.now) (length state.now.cluster.place.splits + 1) client.dc client.number }
{
    let end = match follow(rt, state, gate, &mut client, script) {
        Ok(end) => end,
        Err(GateHeld) => {
            state.break_off();
            End::Held
        }
    };
    Returned {
        share: client.into_share(),
        end,
    }
}

/// Runs the operations of a script in order.
fn follow<R: Wait, G: Gate>(
    rt: &R,
    state: &RunState,
    gate: &G,
    client: &mut Client,
    script: &[ScriptOp],
) -> Result<End, GateHeld>
    ensures same { IsSameClient client.old client.new }
    ensures ended { IfOk result (λ end. end ≡ End.Held → ⊥) }
    ensures held { OnErr result (MayHoldIn (G.may_hold gate.now) (length state.now.cluster.place.splits + 1) client.old.dc client.old.number) }
{
    for op in script {
        if state.is_broken() {
            return Ok(End::Broken);
        }
        let tries = perform(rt, state, gate, client, op)?;
        if let Some(refusal) = tries.last() {
            return Ok(End::Client(ClientOutcome::Stopped(refusal)));
        }
    }
    Ok(End::Client(ClientOutcome::Done))
}

/// Runs one operation of a script, and returns its tries, the last of which says whether and why it is refused. An
/// operation that is refused because memory ran out is tried again, as often as the scenario allows.
fn perform<R: Wait, G: Gate>(
    rt: &R,
    state: &RunState,
    gate: &G,
    client: &mut Client,
    op: &ScriptOp,
) -> Result<Tries, GateHeld>
    ensures same { IsSameClient client.old client.new }
    ensures held { OnErr result (MayHoldIn (G.may_hold gate.now) (length state.now.cluster.place.splits + 1) client.old.dc client.old.number) }
    ensures tried { IfOk result (AreAllTries state.now.retries) }
{
    let mut tries = Tries::none();
    for _ in 0..state.retries() {
        let refused = tries.attempt(rt, state, gate, client, op)?;
        if refused != Some(Refusal::Memory) {
            return Ok(tries);
        }
    }
    tries.attempt(rt, state, gate, client, op)?;
    Ok(tries)
}
