//! Trying an operation of a script.
ghost use Rattle.std.specs.Prelude.{◌≡◌, ◌+◌, OnErr, length};
ghost use Rattle.cops_cluster.specs.Cluster.{IsSameClient};
ghost use Rattle.cops_clients.specs.Gates.{MayHoldIn};
ghost use Rattle.cops_clients.specs.Trying.{refusal_in};

use crate::state::RunState;
use cops_cluster::Client;
use cops_node::Outcome;
use cops_scenario::ScriptOp;
use cops_types::{Gate, GateHeld, Refusal};
use std::sync::Wait;

/// How many times an operation was tried, for how many of the tries memory ran out, and why the last one was refused,
/// if it was. Only `attempt` adds a try.
#[derive(Clone, Copy)]
pub(crate) struct Tries {
    made: u16,
    wanting: u16,
    last: Option<Refusal>,
}

impl Tries {
    ghost use Rattle.std.specs.Prelude.{◌≡◌, ◌<◌, ◌≤◌, ◌+◌, IfOk, None, OnErr, length};
    ghost use Rattle.cops_cluster.specs.Cluster.{IsSameClient};
    ghost use Rattle.cops_clients.specs.Gates.{MayHoldIn};
    ghost use Rattle.cops_clients.specs.Trying.{IsTry};

    /// No tries yet.
    pub(crate) fn none() -> Tries
        ensures { result ≡ record { made = 0; wanting = 0; last = None } }
    {
        Tries {
            made: 0,
            wanting: 0,
            last: None,
        }
    }

    /// Why the last try was refused, if it was.
    pub(crate) fn last(&self) -> Option<Refusal>
        ensures { result ≡ self.now.last }
    {
        self.last
    }

    /// Tries an operation once. Returns why it was refused, if it was; `GateHeld` where the gate held the step.
    pub(crate) fn attempt<R: Wait, G: Gate>(
        &mut self,
        rt: &R,
        state: &RunState,
        gate: &G,
        client: &mut Client,
        op: &ScriptOp,
    ) -> Result<Option<Refusal>, GateHeld>
        requires few { self.old.made < 65535 }
        requires fewer { self.old.wanting ≤ self.old.made }
        ensures same { IsSameClient client.old client.new }
        ensures held { OnErr result (MayHoldIn (G.may_hold gate.now) (length state.now.cluster.place.splits + 1) client.old.dc client.old.number) }
        ensures tried { IfOk result (λ refused. IsTry self.old refused self.new) }
    {
        let outcome = outcome_of(rt, state, gate, client, op)?;
        let refused = refusal(&outcome);
        self.made += 1;
        if refused == Some(Refusal::Memory) {
            self.wanting += 1;
        }
        self.last = refused;
        Ok(refused)
    }
}

/// Runs an operation of a script once, and returns its outcome. A copy for which memory runs out is a refusal with
/// `Memory`.
fn outcome_of<R: Wait, G: Gate>(
    rt: &R,
    state: &RunState,
    gate: &G,
    client: &mut Client,
    op: &ScriptOp,
) -> Result<Outcome, GateHeld>
    ensures same { IsSameClient client.old client.new }
    ensures held { OnErr result (MayHoldIn (G.may_hold gate.now) (length state.now.cluster.place.splits + 1) client.old.dc client.old.number) }
{
    match op {
        ScriptOp::Put { key, value } => {
            let Ok(key) = key.clone() else {
                return Ok(Outcome::Refused(Refusal::Memory));
            };
            let Ok(value) = value.clone() else {
                return Ok(Outcome::Refused(Refusal::Memory));
            };
            state.cluster().put(rt, client, gate, key, value)
        }
        ScriptOp::Del { key } => {
            let Ok(key) = key.clone() else {
                return Ok(Outcome::Refused(Refusal::Memory));
            };
            state.cluster().del(rt, client, gate, key)
        }
        ScriptOp::Get { key } => {
            let Ok(key) = key.clone() else {
                return Ok(Outcome::Refused(Refusal::Memory));
            };
            state.cluster().get(rt, client, gate, key)
        }
    }
}

/// Why an operation with this outcome was refused, if it was.
fn refusal(outcome: &Outcome) -> Option<Refusal>
    ensures { result ≡ refusal_in outcome.now }
{
    match outcome {
        Outcome::Refused(refusal) => Some(*refusal),
        _ => None,
    }
}
