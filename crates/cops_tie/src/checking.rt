ghost use Rattle.std.specs.Prelude.{◌≡◌, ◌↔◌, ◌+◌, ◌*◌, length, map, IfOk, IfErr, OnOk, IsTrue};
ghost use Rattle.cops_types.specs.Verdicts.{HasAcceptedVerdict};
ghost use Rattle.cops_trace.specs.Text.{sessions_of};
ghost use Rattle.cops_tie.specs.Runs.{EndsWell, IsRun};
ghost use Rattle.cops_tie.specs.NoRun.{IsNoRun};
ghost use Rattle.cops_tie.specs.Ticketed.{WhereUntied};

use crate::ending::are_outcomes;
use crate::fault::TieFault;
use crate::outcome::ClientOutcome;
use crate::settling::is_converged;
use crate::tying::{TiedRun, tied_run};
use cops_core::{Event, Setting, World};
use cops_node::Entry;
use cops_scenario::ScriptedClient;
use cops_trace::Trace;
use cops_types::{History, Memory};
use std::alloc::Global;

/// The world's events of a run of these clients whose log entries are `entries`, one list for each node in order of
/// node numbers, which is required. The verdict on what the clients of a run saw is accepted.
///
/// Errors: `Untied` where the entries are not a run of the world in which the clients saw what the trace says, where a
/// client's outcome does not fit its session, or where a data centre has not settled each put; `Memory` when memory
/// runs out.
pub fn checked(
    alloc: Global,
    setting: &Setting,
    clients: &[ScriptedClient],
    entries: &[Vec<Entry>],
    trace: &Trace,
    outcomes: &[ClientOutcome],
) -> Result<Vec<Event>, TieFault>
    requires { length entries.now ≡ setting.now.place.dcs * (length setting.now.place.splits + 1) }
    ensures ok { IfOk result (λ events. IsRun setting.now clients.now (map (λ b. b.items) entries.now) (sessions_of trace.now) events.items outcomes.now) }
    ensures accepted { OnOk result (HasAcceptedVerdict (sessions_of trace.now)) }
    ensures untied { IfErr result (WhereUntied (IsNoRun setting.now clients.now (map (λ b. b.items) entries.now) (sessions_of trace.now) outcomes.now)) }
{
    let tied = match tied_run(alloc, setting, entries, trace) {
        Ok(tied) => tied,
        Err(fault) => return Err(fault),
    };
    let TiedRun {
        events,
        mut world,
        next,
    } = tied;
    let well = ends_well(clients, &mut world, trace.history(), outcomes);
    drop(world);
    match well {
        Ok(true) => Ok(events),
        Ok(false) => {
            drop(events);
            Err(TieFault::Untied { ticket: next })
        }
        Err(Memory) => {
            drop(events);
            Err(TieFault::Memory)
        }
    }
}

/// Whether a run that ends in this world ends well: the data centres have converged, and the outcomes fit the sessions.
/// The world may have changed afterwards. Returns `Memory` when memory runs out.
fn ends_well(
    clients: &[ScriptedClient],
    world: &mut World,
    history: &History,
    outcomes: &[ClientOutcome],
) -> Result<bool, Memory>
    ensures { IfOk result (λ well. IsTrue well ↔ EndsWell world.old.setting clients.now world.old.world history.now.sessions outcomes.now) }
{
    if !is_converged(world) {
        return Ok(false);
    }
    are_outcomes(world, clients, history, outcomes)
}
