ghost use Rattle.std.specs.Prelude.{◌≡◌, ◌<◌, ◌≤◌, ◌+◌, ◌*◌, ◌⊎◌, ℕ, Err, IfErr, IfOk, IsErrOf, OnErr, OnOk, length, map};
ghost use Rattle.std.specs.List.Sorted.{IsPermutation};
ghost use Rattle.cops_types.specs.declared.limits.TheConstants.{NODES, PLACES};
ghost use Rattle.cops_types.specs.Verdicts.{HasAcceptedVerdict};
ghost use Rattle.cops_trace.specs.Text.{sessions_of};
ghost use Rattle.cops_scenario.specs.Scenario.{setting_of};
ghost use Rattle.cops_cluster.specs.Close.{AreAll, made_in, reported};
ghost use Rattle.cops_cluster.specs.Differences.{IsLeastDifference};
ghost use Rattle.cops_tie.specs.NoRun.{IsNoRun};
ghost use Rattle.cops_tie.specs.Runs.{IsRun};
ghost use Rattle.cops_tie.specs.Ticketed.{WhereUntied};
ghost use Rattle.cops_clients.specs.Gates.{MayHold};

use crate::driving::drive;
use crate::fault::{RunFault, ThreadFault};
use crate::gathering::Gathered;
use crate::opening::{Opening, opened};
use crate::ran::Run;
use crate::state::RunState;
use cops_cluster::{CloseFault, Closed, Cluster, Share, Uncompared, difference_of_lists};
use cops_core::{Event, Setting};
use cops_node::Entry;
use cops_scenario::{Scenario, ScriptedClient};
use cops_tie::{ClientOutcome, TieFault, checked};
use cops_trace::Trace;
use cops_types::Gate;
use std::alloc::Global;
use std::sync::Wait;
use std::thread;
use std::thread::Threads;

/// Runs the scripts of the scenario's clients, each on its own thread, in a cluster with a sender and a receiver for
/// each data centre, each on its own thread too, and a link for each ordered pair of data centres.
///
/// The run that it returns is a run of the world in which each client ended as its outcome says and each data centre
/// has settled each put (COPS, section 3: replicas converge); the verdict on what its clients saw is accepted.
///
/// A client stops at its first operation that is refused. An operation that is refused because memory ran out is tried
/// again as often as the scenario allows, and the refused tries leave no record. Turns of senders and receivers before
/// the clients are joined do not count against the scenario's number of turns, and if memory runs out in a turn, the
/// next turn tries again. A scenario with events has clients without scripts, so nothing happens to them.
///
/// Errors: `NoThread` where the system refuses to create a thread, `Held` where the gate held a step, `TurnLimit` where
/// a sender or a receiver did not finish within its turns, `Untied` where what the threads left is not such a run, and
/// `Memory` when memory runs out.
pub fn run<R: Threads + Wait + Sync, G: Gate>(
    rt: &R,
    alloc: Global,
    scenario: Scenario,
    gate: &G,
) -> Result<Run, RunFault>
    ensures ok { IfOk result (λ r. IsRun (setting_of scenario) scenario.clients (map (λ b. b.items) r.entries.items) (sessions_of r.trace) r.events.items r.outcomes.items) }
    ensures accepted { IfOk result (λ r. HasAcceptedVerdict (sessions_of r.trace)) }
    ensures held { IsErrOf result RunFault.Held → MayHold (setting_of scenario) (G.may_hold gate.now) }
{
    let ran = ran(rt, alloc, &scenario, gate);
    drop(scenario);
    ran
}

/// Like `run`, but borrows the scenario.
fn ran<R: Threads + Wait + Sync, G: Gate>(
    rt: &R,
    alloc: Global,
    scenario: &Scenario,
    gate: &G,
) -> Result<Run, RunFault>
    ensures ok { IfOk result (λ r. IsRun (setting_of scenario.now) scenario.now.clients (map (λ b. b.items) r.entries.items) (sessions_of r.trace) r.events.items r.outcomes.items) }
    ensures accepted { IfOk result (λ r. HasAcceptedVerdict (sessions_of r.trace)) }
    ensures held { IsErrOf result RunFault.Held → MayHold (setting_of scenario.now) (G.may_hold gate.now) }
{
    let setting = scenario.setting(alloc).or(Err(RunFault::Memory))?;
    let ran = ran_in(rt, alloc, &setting, scenario, gate);
    drop(setting);
    ran
}

/// Like `ran`, but takes the scenario's setting.
fn ran_in<R: Threads + Wait + Sync, G: Gate>(
    rt: &R,
    alloc: Global,
    setting: &Setting,
    scenario: &Scenario,
    gate: &G,
) -> Result<Run, RunFault>
    requires { setting.now ≡ setting_of scenario.now }
    ensures ok { IfOk result (λ r. IsRun setting.now scenario.now.clients (map (λ b. b.items) r.entries.items) (sessions_of r.trace) r.events.items r.outcomes.items) }
    ensures accepted { IfOk result (λ r. HasAcceptedVerdict (sessions_of r.trace)) }
    ensures held { IsErrOf result RunFault.Held → MayHold setting.now (G.may_hold gate.now) }
{
    let opening = match opened(alloc, setting, scenario) {
        Ok(opening) => opening,
        Err(_) => return Err(RunFault::Memory),
    };
    let Opening {
        state,
        tasks,
        replicas,
    } = opening;
    let driven = drive(rt, alloc, setting, &state, gate, tasks, replicas);
    ended(rt, alloc, setting, scenario.clients(), state, driven)
}

/// The run that has ended in this state, from what the threads left.
pub(crate) fn ended<R: Threads + Sync>(
    rt: &R,
    alloc: Global,
    setting: &Setting,
    clients: &[ScriptedClient],
    state: RunState,
    driven: Result<Gathered, ThreadFault>,
) -> Result<Run, RunFault>
    requires place { state.cluster.place ≡ setting.now.place }
    requires all { IfOk driven (λ g. AreAll state.cluster.clients state.cluster.place.dcs g.shares.items) }
    ensures ok { IfOk result (λ r. IsRun setting.now clients.now (map (λ b. b.items) r.entries.items) (sessions_of r.trace) r.events.items r.outcomes.items) }
    ensures accepted { IfOk result (λ r. HasAcceptedVerdict (sessions_of r.trace)) }
    ensures fault { IsErrOf result RunFault.Held → IsErrOf driven ThreadFault.Held }
    ensures unwritten { (n : ℕ) → result ≡ Err (RunFault.WriteFailed n) → ⊥ }
{
    match driven {
        Ok(gathered) => match tied(rt, alloc, setting, clients, state.into_cluster(), gathered) {
            Ok(run) => Ok(run),
            Err(TieFault::Memory) => Err(RunFault::Memory),
            Err(TieFault::Untied { ticket }) => Err(RunFault::Untied { ticket }),
        },
        Err(fault) => {
            drop(state);
            Err(match fault {
                ThreadFault::Memory => RunFault::Memory,
                ThreadFault::Held => RunFault::Held,
                ThreadFault::TurnLimit => RunFault::TurnLimit,
                ThreadFault::NoThread => RunFault::NoThread,
            })
        }
    }
}

/// The run, from what the threads left. The logs are compared with the shares in parallel with the check that the logs
/// are a run.
fn tied<R: Threads + Sync>(
    rt: &R,
    alloc: Global,
    setting: &Setting,
    clients: &[ScriptedClient],
    cluster: Cluster,
    gathered: Gathered,
) -> Result<Run, TieFault>
    requires place { cluster.place ≡ setting.now.place }
    requires all { AreAll cluster.clients cluster.place.dcs gathered.shares.items }
    ensures ok { IfOk result (λ r. IsRun setting.now clients.now (map (λ b. b.items) r.entries.items) (sessions_of r.trace) r.events.items r.outcomes.items) }
    ensures accepted { IfOk result (λ r. HasAcceptedVerdict (sessions_of r.trace)) }
    ensures reported { IfOk result (λ r. IsPermutation (made_in (length setting.now.place.splits + 1) 0 r.entries.items) (reported gathered.shares.items)) }
{
    let Gathered {
        shares,
        outcomes,
        ..
    } = gathered;
    let Uncompared { closed, shares } = match closed(cluster, shares) {
        Ok(uncompared) => uncompared,
        Err(fault) => {
            drop(outcomes);
            return Err(fault);
        }
    };
    let Closed { books, trace } = closed;
    match examined(
        rt, alloc, setting, clients, &books, &trace, shares, &outcomes,
    ) {
        Ok(events) => Ok(Run {
            entries: books,
            events,
            trace,
            outcomes,
        }),
        Err(fault) => Err(fault),
    }
}

/// The world's events of the run that these logs record. The logs are compared with the shares in parallel with the
/// check that the logs are a run. `Untied` has the least ticket at which the logs differ from the shares, or that of
/// the check.
fn examined<R: Threads + Sync>(
    rt: &R,
    alloc: Global,
    setting: &Setting,
    clients: &[ScriptedClient],
    books: &[Vec<Entry>],
    trace: &Trace,
    shares: Vec<Share>,
    outcomes: &[ClientOutcome],
) -> Result<Vec<Event>, TieFault>
    requires { length books.now ≡ setting.now.place.dcs * (length setting.now.place.splits + 1) }
    ensures ok { IfOk result (λ events. IsRun setting.now clients.now (map (λ b. b.items) books.now) (sessions_of trace.now) events.items outcomes.now) }
    ensures accepted { OnOk result (HasAcceptedVerdict (sessions_of trace.now)) }
    ensures reported { OnOk result (IsPermutation (made_in (length setting.now.place.splits + 1) 0 books.now) (reported shares.items)) }
    ensures untied { IfErr result (WhereUntied (λ ticket.
        IsLeastDifference (made_in (length setting.now.place.splits + 1) 0 books.now) (reported shares.items) ticket
        ⊎ IsNoRun setting.now clients.now (map (λ b. b.items) books.now) (sessions_of trace.now) outcomes.now ticket)) }
{
    let places = setting.nodes();
    let (compared, checked) = thread::join(
        rt,
        || -> Result<(), TieFault>
            requires places { (0 < places) × (places ≤ PLACES) }
            requires few { length books.now ≤ NODES }
            ensures reported { OnOk result (IsPermutation (made_in places 0 books.entry.now) (reported shares.items)) }
            ensures untied { IfErr result (WhereUntied (IsLeastDifference (made_in places 0 books.entry.now) (reported shares.items))) }
        { compare(alloc, places, books, shares) },
        || -> Result<Vec<Event>, TieFault>
            requires { length books.now ≡ setting.now.place.dcs * (length setting.now.place.splits + 1) }
            ensures ok { IfOk result (λ events. IsRun setting.entry.now clients.entry.now (map (λ b. b.items) books.entry.now) (sessions_of trace.entry.now) events.items outcomes.entry.now) }
            ensures accepted { OnOk result (HasAcceptedVerdict (sessions_of trace.entry.now)) }
            ensures untied { IfErr result (WhereUntied (IsNoRun setting.entry.now clients.entry.now (map (λ b. b.items) books.entry.now) (sessions_of trace.entry.now) outcomes.entry.now)) }
        { checked(alloc, setting, clients, books, trace, outcomes) },
    );
    match compared {
        Ok(()) => {}
        Err(fault) => return Err(fault),
    }
    checked
}

/// Returns `Untied` unless the logs and the shares have the same entries, as multisets. Consumes the shares.
fn compare(
    alloc: Global,
    places: u8,
    books: &[Vec<Entry>],
    shares: Vec<Share>,
) -> Result<(), TieFault>
    requires places { (0 < places) × (places ≤ PLACES) }
    requires few { length books.now ≤ NODES }
    ensures reported { OnOk result (IsPermutation (made_in places 0 books.now) (reported shares.items)) }
    ensures untied { IfErr result (WhereUntied (IsLeastDifference (made_in places 0 books.now) (reported shares.items))) }
{
    match difference_of_lists(alloc, places, books, &shares) {
        Ok(None) => Ok(()),
        Ok(Some(ticket)) => Err(TieFault::Untied { ticket }),
        Err(_) => Err(TieFault::Memory),
    }
}

/// Closes a cluster whose threads are joined. Returns `Memory` when memory runs out.
fn closed(cluster: Cluster, shares: Vec<Share>) -> Result<Uncompared, TieFault>
    requires all { AreAll cluster.clients cluster.place.dcs shares.items }
    ensures len { IfOk result (λ u. length u.closed.books.items ≡ cluster.place.dcs * (length cluster.place.splits + 1)) }
    ensures shares { IfOk result (λ u. u.shares ≡ shares) }
    ensures fault { OnErr result (result ≡ Err TieFault.Memory) }
{
    match cluster.close_uncompared(shares) {
        Ok(uncompared) => Ok(uncompared),
        Err(CloseFault::Memory(_, _)) => Err(TieFault::Memory),
        Err(CloseFault::SharesMissing(_, _)) | Err(CloseFault::NotKept { .. }) => unreachable!(),
    }
}
