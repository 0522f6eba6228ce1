//! The turns that replicate, on the front end's own thread.
ghost use Rattle.std.specs.Prelude.{◌≡◌};
ghost use Rattle.cops_serve.specs.Seats.{holders_of};

use cops_cluster::Cluster;
use cops_replication::{Receiver, Sender, Turn};
use cops_types::OpenGate;
use std::sync::Wait;

/// Makes one turn of each sender. Returns whether any of them did something, or ran out of memory.
pub(crate) fn send_each<R: Wait>(rt: &R, cluster: &Cluster, senders: &mut [Sender]) -> bool {
    let mut is_busy = false;
    for sender in senders.iter_mut() {
        is_busy = is_busy | !matches!(sender.turn(rt, cluster), Ok(Turn::Idle));
    }
    is_busy
}

/// Makes one turn of each receiver, which keeps its share. Returns whether any of them did something, or ran out of
/// memory.
pub(crate) fn receive_each<R: Wait>(rt: &R, cluster: &Cluster, receivers: &mut [Receiver]) -> bool
    ensures { holders_of receivers.new ≡ holders_of receivers.old }
{
    let mut is_busy = false;
    for receiver in receivers.iter_mut() {
        let turn = receiver.turn(rt, cluster, &OpenGate);
        is_busy = is_busy | !matches!(turn, Ok(Turn::Idle));
    }
    is_busy
}
