//! The thread that writes the records of a run while its clients run.
ghost use Rattle.std.specs.Prelude.{◌≡◌, ◌↔◌, IfErr, IfOk, IsTrue};
ghost use Rattle.cops_types.specs.Counted.{failures, inner};
ghost use Rattle.cops_trace.specs.Live.{IsCutBy, IsHeardBy, IsLive};
ghost use Rattle.cops_clients.specs.Live.{Follows, MayCome};

use crate::state::RunState;
use cops_cluster::Tail;
use cops_trace::{LiveTrace, Record, Unwritten};
use std::io::Write;
use std::sync::Wait;

/// Writes the records of what clients see as they arrive, until the clients are joined, for at most the state's number
/// of turns. A turn writes the records that arrived since the last one, and rests if there are none. If memory for the
/// copies runs out, the next turn tries again.
pub(crate) fn follow<R: Wait, W: Write>(
    rt: &R,
    state: &RunState,
    live: LiveTrace<W>,
) -> Result<LiveTrace<W>, Unwritten<W>>
    requires { IsLive W.contents live }
    ensures begun { IfOk result (λ l. l.begun ≡ live.begun) }
    ensures live { IfOk result (IsLive W.contents) }
    ensures cut { IfErr result (λ u. IsCutBy u.fault (W.contents (inner live.begun.value)) (W.contents (inner u.writer))) }
    ensures heard { IfErr result (λ u. IsHeardBy u.fault (failures live.begun.value) (failures u.writer)) }
{
    let mut live = live;
    for _ in 0..state.turns() {
        if state.are_clients_joined() {
            break;
        }
        let tail = match state.cluster().records_from(rt, live.len()) {
            Ok(tail) => tail,
            Err(_) => {
                state.rest(rt);
                continue;
            }
        };
        if tail.records().is_empty() {
            state.rest(rt);
        }
        live = match add(live, &tail) {
            Ok(live) => live,
            Err(unwritten) => return Err(unwritten),
        };
    }
    Ok(live)
}

/// Writes the next records, each once and in order. Stops before the first that may not come next, because its client
/// already has as many as it may have, or its operation is not in the format.
fn add<W: Write>(live: LiveTrace<W>, tail: &Tail) -> Result<LiveTrace<W>, Unwritten<W>>
    requires live { IsLive W.contents live }
    requires place { tail.now.place ≡ live.writer.counts.total }
    ensures begun { IfOk result (λ l. l.begun ≡ live.begun) }
    ensures live { IfOk result (IsLive W.contents) }
    ensures follows { IfOk result (Follows tail.now.records.items live) }
    ensures cut { IfErr result (λ u. IsCutBy u.fault (W.contents (inner live.begun.value)) (W.contents (inner u.writer))) }
    ensures heard { IfErr result (λ u. IsHeardBy u.fault (failures live.begun.value) (failures u.writer)) }
{
    let mut live = live;
    let records = tail.records();
    for record in records {
        if !may_come(&live, record) {
            return Ok(live);
        }
        live = match live.add(record) {
            Ok(live) => live,
            Err(unwritten) => return Err(unwritten),
        };
    }
    Ok(live)
}

/// Whether a record may come next: its client may have one more record, and its operation is in the format.
fn may_come<W: Write>(live: &LiveTrace<W>, next: &Record) -> bool
    ensures { IsTrue result ↔ MayCome next.now live.now }
{
    live.has_turn(next.client) && next.op.in_format(live.format())
}
