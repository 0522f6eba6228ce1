//! A run whose trace is written while its clients run.
ghost use Rattle.std.specs.Prelude.{◌≡◌, ℕ, List, Option, Ok, Err, IfErr, IfOk, IsErr, IsErrOf, length, map};
ghost use Rattle.std.specs.Io.KnownBytes.{Appends};
ghost use Rattle.cops_types.specs.Counted.{failures, inner};
ghost use Rattle.cops_types.specs.Verdicts.{HasAcceptedVerdict};
ghost use Rattle.cops_trace.specs.Live.{IsCutBy, IsPrefixOf, IsHeardBy, IsLive};
ghost use Rattle.cops_trace.specs.Text.{sessions_of, text};
ghost use Rattle.cops_scenario.specs.Scenario.{setting_of};
ghost use Rattle.cops_tie.specs.Runs.{IsRun};
ghost use Rattle.cops_clients.specs.Callers.{AreTasksOf, AreReceiversOf, callers};
ghost use Rattle.cops_cluster.specs.Close.{holders};
ghost use Rattle.cops_clients.specs.Faults.{WhereUntied};
ghost use Rattle.cops_clients.specs.Gates.{MayHold};
ghost use Rattle.cops_clients.specs.Live.{IsCutFor, IsHeardFor, above_entries, ticket_above};

use crate::driving::drive;
use crate::fault::{RunFault, ThreadFault};
use crate::following::follow;
use crate::gathering::Gathered;
use crate::opening::{Opening, opened};
use crate::ran::Run;
use crate::running::ended;
use cops_core::Setting;
use cops_node::Entry;
use cops_scenario::{Scenario, ScriptedClient};
use cops_trace::{FinishFault, LiveTrace, Unfinished, Unwritten, WriteFault};
use cops_types::{Counted, Gate};
use std::alloc::Global;
use std::io::Write;
use std::sync::Wait;
use std::thread;
use std::thread::Threads;

/// The result of a run whose trace was written while its clients ran, and the writer, which is returned in any case.
#[derive(Drop)]
pub struct Live<W: Write> {
    pub ran: Result<Run, RunFault>,
    pub writer: Counted<W>,
}

/// Runs the scenario's scripts like `run`, and writes the trace's text: the head first, then the records on one more
/// thread, and the rest with the end once the run was found to be tied. The writing thread copies records until it sees
/// that the clients were joined, or for the scenario's number of turns. Where the system refuses to create that thread,
/// everything is written once the clients are joined.
///
/// If a run is returned, what was written is the text of its trace. At each error, what was written is a proper prefix
/// of some trace's text.
///
/// Errors: those of `run`; `WriteFailed` where a write failed, which is not tried again: unless that was the write of
/// the head, the clients still run to their ends. `Untied`, with one more than the greatest ticket, also where the
/// records that were written are not the first of the run's trace.
pub fn run_live<R: Threads + Wait + Sync, G: Gate, W: Write + Send + Drop>(
    rt: &R,
    alloc: Global,
    scenario: Scenario,
    gate: &G,
    writer: Counted<W>,
) -> Live<W>
    ensures ok { IfOk result.ran (λ r. IsRun (setting_of scenario) scenario.clients (map (λ b. b.items) r.entries.items) (sessions_of r.trace) r.events.items r.outcomes.items) }
    ensures accepted { IfOk result.ran (λ r. HasAcceptedVerdict (sessions_of r.trace)) }
    ensures held { IsErrOf result.ran RunFault.Held → MayHold (setting_of scenario) (G.may_hold gate.now) }

    // What was written is the text of the run's trace, and no write failed.
    ensures written { IfOk result.ran (λ r. Appends (W.contents (inner writer)) (W.contents (inner result.writer)) (text r.trace)) }
    ensures heard { IfOk result.ran (λ _. failures result.writer ≡ failures writer) }

    // What was written is a proper prefix of some trace's text.
    ensures cut { IfErr result.ran (λ e. IsCutFor e (W.contents (inner writer)) (W.contents (inner result.writer))) }
    ensures failed { IfErr result.ran (λ e. IsHeardFor e (failures writer) (failures result.writer)) }
{
    let setting = match scenario.setting(alloc) {
        Ok(setting) => setting,
        Err(_) => {
            drop(scenario);
            return without_memory(writer);
        }
    };
    let live = live_in(rt, alloc, &setting, &scenario, gate, writer);
    drop(setting);
    drop(scenario);
    live
}

/// No run, since memory ran out before anything was written.
fn without_memory<W: Write>(writer: Counted<W>) -> Live<W>
    ensures ran { result.ran ≡ Err RunFault.Memory }
    ensures cut { IfErr result.ran (λ e. IsCutFor e (W.contents (inner writer)) (W.contents (inner result.writer))) }
    ensures failed { IfErr result.ran (λ e. IsHeardFor e (failures writer) (failures result.writer)) }
{
    let ran = Err(RunFault::Memory);
    Live { ran, writer }
}

/// Like `run_live`, but borrows the scenario, and takes its setting.
fn live_in<R: Threads + Wait + Sync, G: Gate, W: Write + Send + Drop>(
    rt: &R,
    alloc: Global,
    setting: &Setting,
    scenario: &Scenario,
    gate: &G,
    writer: Counted<W>,
) -> Live<W>
    requires { setting.now ≡ setting_of scenario.now }
    ensures ok { IfOk result.ran (λ r. IsRun setting.now scenario.now.clients (map (λ b. b.items) r.entries.items) (sessions_of r.trace) r.events.items r.outcomes.items) }
    ensures accepted { IfOk result.ran (λ r. HasAcceptedVerdict (sessions_of r.trace)) }
    ensures held { IsErrOf result.ran RunFault.Held → MayHold setting.now (G.may_hold gate.now) }
    ensures written { IfOk result.ran (λ r. Appends (W.contents (inner writer)) (W.contents (inner result.writer)) (text r.trace)) }
    ensures heard { IfOk result.ran (λ _. failures result.writer ≡ failures writer) }
    ensures cut { IfErr result.ran (λ e. IsCutFor e (W.contents (inner writer)) (W.contents (inner result.writer))) }
    ensures failed { IfErr result.ran (λ e. IsHeardFor e (failures writer) (failures result.writer)) }
{
    let opening = match opened(alloc, setting, scenario) {
        Ok(opening) => opening,
        Err(_) => return without_memory(writer),
    };
    match LiveTrace::new(setting.format(), alloc, writer, setting.clients() as u16) {
        Ok(live) => driven(rt, alloc, setting, scenario.clients(), gate, opening, live),
        Err(unwritten) => {
            drop(opening);
            broken(Err(RunFault::Memory), unwritten)
        }
    }
}

/// The run from this opening. The head of its trace is already written.
fn driven<R: Threads + Wait + Sync, G: Gate, W: Write + Send + Drop>(
    rt: &R,
    alloc: Global,
    setting: &Setting,
    clients: &[ScriptedClient],
    gate: &G,
    opening: Opening<'_>,
    live: LiveTrace<W>,
) -> Live<W>
    requires place { opening.state.cluster.place ≡ setting.now.place }
    requires clients { opening.state.cluster.clients ≡ length setting.now.homes }
    requires tasks { AreTasksOf setting.now opening.tasks.items }
    requires receivers { AreReceiversOf setting.now opening.replicas.receivers.items }
    requires live { IsLive W.contents live }
    ensures ok { IfOk result.ran (λ r. IsRun setting.now clients.now (map (λ b. b.items) r.entries.items) (sessions_of r.trace) r.events.items r.outcomes.items) }
    ensures accepted { IfOk result.ran (λ r. HasAcceptedVerdict (sessions_of r.trace)) }
    ensures held { IsErrOf result.ran RunFault.Held → MayHold setting.now (G.may_hold gate.now) }
    ensures written { IfOk result.ran (λ r. Appends (W.contents (inner live.begun.value)) (W.contents (inner result.writer)) (text r.trace)) }
    ensures heard { IfOk result.ran (λ _. failures result.writer ≡ failures live.begun.value) }
    ensures cut { IfErr result.ran (λ e. IsCutFor e (W.contents (inner live.begun.value)) (W.contents (inner result.writer))) }
    ensures failed { IfErr result.ran (λ e. IsHeardFor e (failures live.begun.value) (failures result.writer)) }
{
    let Opening {
        state,
        tasks,
        replicas,
    } = opening;
    let (followed, gathered) = thread::join(
        rt,
        || -> Result<LiveTrace<W>, Unwritten<W>>
            requires { IsLive W.contents live }
            ensures begun { IfOk result (λ l. l.begun ≡ live.begun) }
            ensures live { IfOk result (IsLive W.contents) }
            ensures cut { IfErr result (λ u. IsCutBy u.fault (W.contents (inner live.begun.value)) (W.contents (inner u.writer))) }
            ensures heard { IfErr result (λ u. IsHeardBy u.fault (failures live.begun.value) (failures u.writer)) }
        { follow(rt, &state, live) },
        || -> Result<Gathered, ThreadFault>
            requires place { state.cluster.place ≡ setting.now.place }
            requires tasks { AreTasksOf setting.now tasks.items }
            requires receivers { AreReceiversOf setting.now replicas.receivers.items }
            ensures shares { IfOk result (λ g. holders g.shares.items ≡ callers tasks.entry.items replicas.receivers.items) }
            ensures held { IsErrOf result ThreadFault.Held → MayHold setting.entry.now (G.may_hold gate.entry.now) }
        { drive(rt, alloc, setting, &state, gate, tasks, replicas) },
    );
    let ran = ended(rt, alloc, setting, clients, state, gathered);
    match followed {
        Ok(live) => finished(alloc, ran, live),
        Err(unwritten) => broken(ran, unwritten),
    }
}

/// The run, with the rest of its trace written, if it is a run and the records written so far are the first of its
/// trace.
fn finished<W: Write>(alloc: Global, ran: Result<Run, RunFault>, live: LiveTrace<W>) -> Live<W>
    requires live { IsLive W.contents live }
    requires unwritten { (n : ℕ) → ran ≡ Err (RunFault.WriteFailed n) → ⊥ }
    ensures ok { IfOk result.ran (λ r. ran ≡ Ok r) }
    ensures held { IsErrOf result.ran RunFault.Held → IsErrOf ran RunFault.Held }
    ensures written { IfOk result.ran (λ r. Appends (W.contents (inner live.begun.value)) (W.contents (inner result.writer)) (text r.trace)) }
    ensures heard { IfOk result.ran (λ _. failures result.writer ≡ failures live.begun.value) }
    ensures cut { IfErr result.ran (λ e. IsCutFor e (W.contents (inner live.begun.value)) (W.contents (inner result.writer))) }
    ensures failed { IfErr result.ran (λ e. IsHeardFor e (failures live.begun.value) (failures result.writer)) }
    ensures another { IfOk ran (λ r. IfErr result.ran (WhereUntied (λ ticket. (ticket ≡ ticket_above 0 r.entries.items) × (IsPrefixOf live.text.items r.trace → ⊥)))) }
{
    let run = match ran {
        Ok(run) => run,
        Err(fault) => {
            let writer = live.into_writer();
            return Live {
                ran: Err(fault),
                writer,
            };
        }
    };
    match live.finish(alloc, &run.trace) {
        Ok(writer) => Live {
            ran: Ok(run),
            writer,
        },
        Err(Unfinished { writer, fault }) => {
            let fault = match fault {
                FinishFault::Memory => RunFault::Memory,
                FinishFault::WriteFailed { written } => RunFault::WriteFailed { written },
                FinishFault::OfAnother => RunFault::Untied {
                    ticket: ticket_above(&run.entries),
                },
            };
            drop(run);
            Live {
                ran: Err(fault),
                writer,
            }
        }
    }
}

/// The result where the trace was not written: the run's own fault if that takes precedence, and otherwise the
/// writer's.
fn broken<W: Write>(ran: Result<Run, RunFault>, unwritten: Unwritten<W>) -> Live<W>
    ensures writer { result.writer ≡ unwritten.writer }
    ensures held { IsErrOf result.ran RunFault.Held → IsErrOf ran RunFault.Held }
    ensures cut { (old new : Option (List ℕ)) → IsCutBy unwritten.fault old new → IfErr result.ran (λ e. IsCutFor e old new) }
    ensures failed { (old new : ℕ) → IsHeardBy unwritten.fault old new → IfErr result.ran (λ e. IsHeardFor e old new) }
    ensures err { IsErr result.ran }
{
    let Unwritten { writer, fault } = unwritten;
    let ran = match ran {
        Err(RunFault::NoThread) => Err(RunFault::NoThread),
        Err(RunFault::Held) => Err(RunFault::Held),
        Err(RunFault::TurnLimit) => Err(RunFault::TurnLimit),
        _ => Err(match fault {
            WriteFault::Memory => RunFault::Memory,
            WriteFault::WriteFailed { written } => RunFault::WriteFailed { written },
        }),
    };
    Live { ran, writer }
}

/// One more than the greatest ticket: 0 where there is no entry, and the greatest `u64` where that is a ticket.
fn ticket_above(books: &[Vec<Entry>]) -> u64
    ensures { result ≡ ticket_above 0 books.now }
{
    let mut above = 0;
    for book in books {
        above = above_entries(above, book);
    }
    above
}

/// The greater of `ticket` and one more than the greatest ticket of these entries.
fn above_entries(ticket: u64, entries: &[Entry]) -> u64
    ensures { result ≡ above_entries ticket entries.now }
{
    let mut above = ticket;
    for entry in entries {
        above = above.max(entry.ticket.saturating_add(1));
    }
    above
}
