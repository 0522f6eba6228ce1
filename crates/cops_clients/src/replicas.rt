//! The threads of a data centre that send its puts to the others, and receive theirs.
ghost use Rattle.std.specs.Prelude.{◌≡◌, ◌<◌, ◌-◌, IsTrue, Some};
ghost use Rattle.cops_replication.specs.Receiving.{EachTakesUpTo, KeepsNothing, ends};
ghost use Rattle.cops_clients.specs.Gates.{MayHoldReceiving};

use crate::ends::{End, Returned};
use crate::state::RunState;
use cops_replication::{Receiver, Sender, Turn, TurnFault};
use cops_types::Gate;
use std::sync::Wait;

/// The body of a sender's thread: makes turns until the clients are joined, and then at most the state's number of
/// turns, until nothing is left to send. Returns whether it got there, or the run was broken off.
pub(crate) fn send<R: Wait>(rt: &R, state: &RunState, mut sender: Sender) -> bool {
    for _ in rt.forever() {
        if state.are_clients_joined() {
            break;
        }
        if !matches!(sender.turn(rt, state.cluster()), Ok(Turn::Did(_))) {
            state.rest(rt);
        }
    }
    let drained = drain(rt, state, &mut sender);
    sender.finish();
    drained
}

/// The counted turns of a sender, until nothing is left to send. If memory runs out in a turn, the next turn tries
/// again.
fn drain<R: Wait>(rt: &R, state: &RunState, sender: &mut Sender) -> bool {
    for _ in 0..state.turns() {
        if state.is_broken() || sender.drain(rt, state.cluster(), 1).is_ok() {
            return true;
        }
        state.rest(rt);
    }
    false
}

/// The body of a receiver's thread: makes turns until the clients are joined, and then at most the state's number of
/// turns, until the senders are joined and nothing is pending. Where the state has late turns, it makes none until the
/// clients are joined, and then spends that number of turns without taking a frame.
pub(crate) fn receive<R: Wait, G: Gate>(
    rt: &R,
    state: &RunState,
    gate: &G,
    mut receiver: Receiver,
) -> Returned
    ensures share { result.share.holder ≡ receiver.share.holder }
    ensures held { result.end ≡ End.Held → MayHoldReceiving state.now.cluster (G.may_hold gate.now) }
{
    let end = if take_in(rt, state, gate, &mut receiver) {
        End::Held
    } else {
        settle(rt, state, gate, &mut receiver)
    };
    if end == End::Held {
        state.break_off();
    }
    Returned {
        share: receiver.into_share(),
        end,
    }
}

/// A receiver's turns until the clients are joined; none where the state has late turns. Returns whether the gate held
/// a step.
fn take_in<R: Wait, G: Gate>(rt: &R, state: &RunState, gate: &G, receiver: &mut Receiver) -> bool
    ensures share { receiver.new.share.holder ≡ receiver.old.share.holder }
    ensures late { 0 < state.now.hold → receiver.new ≡ receiver.old }
    ensures held { IsTrue result → MayHoldReceiving state.now.cluster (G.may_hold gate.now) }
{
    for _ in rt.forever() {
        if state.are_clients_joined() {
            break;
        }
        if state.hold() > 0 {
            state.rest(rt);
        } else if turn(rt, state, gate, receiver) {
            return true;
        }
    }
    false
}

/// A receiver's counted turns, until the senders are joined and nothing is pending. The late turns take no frame.
fn settle<R: Wait, G: Gate>(rt: &R, state: &RunState, gate: &G, receiver: &mut Receiver) -> End
    ensures share { receiver.new.share.holder ≡ receiver.old.share.holder }
    ensures late { EachTakesUpTo (state.now.turns - state.now.hold) (ends receiver.old) (ends receiver.new) }
    ensures drained { result ≡ End.Drained → KeepsNothing receiver.new }
    ensures held { result ≡ End.Held → MayHoldReceiving state.now.cluster (G.may_hold gate.now) }
{
    for n in 0..state.turns() {
        if state.is_broken() {
            return End::Broken;
        }
        if n < u32::from(state.hold()) {
            state.rest(rt);
        } else if let Some(end) = counted(rt, state, gate, receiver) {
            return end;
        }
    }
    End::TurnLimit
}

/// One counted turn of a receiver. Returns how its thread ends, if it does. Once the senders are joined, everything
/// that will arrive is on the links, so only a turn from then on can be the last.
fn counted<R: Wait, G: Gate>(
    rt: &R,
    state: &RunState,
    gate: &G,
    receiver: &mut Receiver,
) -> Option<End>
    ensures share { receiver.new.share.holder ≡ receiver.old.share.holder }
    ensures links { EachTakesUpTo 1 (ends receiver.old) (ends receiver.new) }
    ensures drained { result ≡ Some End.Drained → KeepsNothing receiver.new }
    ensures held { result ≡ Some End.Held → MayHoldReceiving state.now.cluster (G.may_hold gate.now) }
{
    if !state.are_senders_joined() {
        if turn(rt, state, gate, receiver) {
            return Some(End::Held);
        }
        return None;
    }
    match receiver.drain(rt, state.cluster(), gate, 1) {
        Ok(()) => Some(End::Drained),
        Err(TurnFault::Held) => Some(End::Held),
        Err(TurnFault::Memory | TurnFault::TurnLimit) => {
            state.rest(rt);
            None
        }
    }
}

/// One turn of a receiver, and a rest where it did nothing. If memory runs out, the next turn tries again. Returns
/// whether the gate held a step.
fn turn<R: Wait, G: Gate>(rt: &R, state: &RunState, gate: &G, receiver: &mut Receiver) -> bool
    ensures share { receiver.new.share.holder ≡ receiver.old.share.holder }
    ensures links { EachTakesUpTo 1 (ends receiver.old) (ends receiver.new) }
    ensures held { IsTrue result → MayHoldReceiving state.now.cluster (G.may_hold gate.now) }
{
    match receiver.turn(rt, state.cluster(), gate) {
        Ok(Turn::Did(_)) => {}
        Err(TurnFault::Held) => return true,
        Ok(Turn::Idle) | Err(TurnFault::Memory | TurnFault::TurnLimit) => state.rest(rt),
    }
    false
}
