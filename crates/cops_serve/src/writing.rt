//! Writes of a client at a cluster.
ghost use Rattle.std.specs.Prelude.{None, Some, option_copied};
ghost use Rattle.cops_cluster.specs.Outcomes.{IsDelOutcome, IsPutOutcome, IsWriteOutcome};
ghost use Rattle.cops_serve.specs.FrontEnd.{HasWritten};
ghost use Rattle.cops_serve.specs.Replying.{IsOutcomeIn};

use cops_cluster::{Client, Cluster};
use cops_node::Outcome;
use cops_types::{GateHeld, Key, OpenGate, Refusal, Value};
use std::sync::Wait;

/// Writes a content for a client: a put, or a deletion where there is no value. Returns the outcome of the cluster's
/// call, which the client's share and context show. Refused with `Memory` also where the key or the value cannot be
/// copied.
pub(crate) fn written<R: Wait>(
    rt: &R,
    cluster: &Cluster,
    client: &mut Client,
    key: &Key,
    content: Option<&Value>,
) -> Outcome
    ensures outcome { IsWriteOutcome (option_copied content.entry) result }
    ensures in_format { IsOutcomeIn cluster.now.format result }
    ensures done { HasWritten cluster.now key.now (option_copied content.entry) result client.old client.new }
{
    match content {
        Some(value) => put(rt, cluster, client, key, value),
        None => deleted(rt, cluster, client, key),
    }
}

/// Puts copies of the key and the value.
fn put<R: Wait>(rt: &R, cluster: &Cluster, client: &mut Client, key: &Key, value: &Value) -> Outcome
    ensures outcome { IsPutOutcome result }
    ensures in_format { IsOutcomeIn cluster.now.format result }
    ensures done { HasWritten cluster.now key.now (Some value.now) result client.old client.new }
{
    let Ok(key) = key.clone() else {
        return Outcome::Refused(Refusal::Memory);
    };
    let Ok(value) = value.clone() else {
        return Outcome::Refused(Refusal::Memory);
    };
    match cluster.put(rt, client, &OpenGate, key, value) {
        Ok(outcome) => outcome,
        Err(GateHeld) => unreachable!(),
    }
}

/// Deletes a copy of the key.
fn deleted<R: Wait>(rt: &R, cluster: &Cluster, client: &mut Client, key: &Key) -> Outcome
    ensures outcome { IsDelOutcome result }
    ensures in_format { IsOutcomeIn cluster.now.format result }
    ensures done { HasWritten cluster.now key.now None result client.old client.new }
{
    let Ok(key) = key.clone() else {
        return Outcome::Refused(Refusal::Memory);
    };
    match cluster.del(rt, client, &OpenGate, key) {
        Ok(outcome) => outcome,
        Err(GateHeld) => unreachable!(),
    }
}
