//! Starting the threads of a run, and joining them: clients, then senders, then receivers.
ghost use Rattle.std.specs.Prelude.{◌≡◌, ◌⊎◌, ◌+◌, [], ◌++◌, All, IfOk, IsErrOf, IsTrue, OnOk, length, map};
ghost use Rattle.cops_cluster.specs.declared.share.Holder.TheVariants.{Client as OfClient, Receiver as OfReceiver};
ghost use Rattle.cops_clients.specs.Gates.{MayHold, MayHoldIn, MayHoldReceiving};
ghost use Rattle.cops_cluster.specs.Close.{holders};
ghost use Rattle.cops_clients.specs.Callers.{AreTasksOf, AreReceiversOf, callers};

use crate::clients::{ClientTask, work};
use crate::ends::{End, Owed, Returned};
use crate::fault::{StartFault, ThreadFault};
use crate::gathering::Gathered;
use crate::replicas::{receive, send};
use crate::state::RunState;
use cops_cluster::Holder;
use cops_core::Setting;
use cops_replication::{Receiver, Replicas, Sender};
use cops_types::Gate;
use std::alloc::Global;
use std::sync::Wait;
use std::thread;
use std::thread::{JoinHandle, PromisedHandle, Scope, Threads};

/// The threads that were started.
#[derive(Drop)]
struct Started<G: Gate> {
    clients: Vec<PromisedHandle<Returned, Owed<G>>>,
    senders: Vec<JoinHandle<bool>>,
    receivers: Vec<PromisedHandle<Returned, Owed<G>>>,
}

/// Runs every client, sender and receiver on its own thread, and joins the threads.
pub(crate) fn drive<R: Threads + Wait + Sync, G: Gate>(
    rt: &R,
    alloc: Global,
    setting: &Setting,
    state: &RunState,
    gate: &G,
    tasks: Vec<ClientTask<'_>>,
    replicas: Replicas,
) -> Result<Gathered, ThreadFault>
    requires place { state.now.cluster.place ≡ setting.now.place }
    requires tasks { AreTasksOf setting.now tasks.items }
    requires receivers { AreReceiversOf setting.now replicas.receivers.items }
    ensures shares { IfOk result (λ g. holders g.shares.items ≡ callers tasks.entry.items replicas.receivers.items) }
    ensures held { IsErrOf result ThreadFault.Held → MayHold setting.now (G.may_hold gate.now) }
{
    thread::scope(
        thread::scope_env(),
        rt,
        |scope| -> Result<Gathered, ThreadFault>
            requires place { state.now.cluster.place ≡ setting.now.place }
            requires tasks { AreTasksOf setting.now tasks.items }
            requires receivers { AreReceiversOf setting.now replicas.receivers.items }
            ensures shares { IfOk result (λ g. holders g.shares.items ≡ callers tasks.entry.items replicas.receivers.items) }
            ensures held { IsErrOf result ThreadFault.Held → MayHold setting.entry.now (G.may_hold gate.entry.now) }
        {
            let mut started = Started {
                clients: Vec::new(alloc),
                senders: Vec::new(alloc),
                receivers: Vec::new(alloc),
            };
            let all = start(
                scope,
                rt,
                setting,
                state,
                gate,
                tasks,
                replicas,
                &mut started,
            );
            if all.is_err() {
                state.break_off();
            }
            let gathered = joined(rt, alloc, setting, state, gate, started);
            match all {
                Ok(()) => gathered.whole(),
                Err(StartFault::Memory) => Err(ThreadFault::Memory),
                Err(StartFault::NoThread) => Err(ThreadFault::NoThread),
            }
        },
    )
}

/// Starts all threads. Stops at the first that cannot be started.
fn start<'s, E, R: Threads + Wait + Sync, G: Gate>(
    scope: &'s Scope<'s, E>,
    rt: &'s R,
    setting: &'s Setting,
    state: &'s RunState,
    gate: &'s G,
    tasks: Vec<ClientTask<'s>>,
    replicas: Replicas,
    started: &mut Started<G>,
) -> Result<(), StartFault>
    requires place { state.now.cluster.place ≡ setting.now.place }
    requires tasks { AreTasksOf setting.now tasks.items }
    requires brought { AreReceiversOf setting.now replicas.receivers.items }
    requires clients { started.old.clients.items ≡ [] }
    requires receivers { started.old.receivers.items ≡ [] }
    ensures clients { All (λ (h : _). (h.promise.gate.value ≡ gate.now) × (h.promise.setting.value ≡ setting.now)) started.new.clients.items }
    ensures receivers { All (λ (h : _). (h.promise.gate.value ≡ gate.now) × (h.promise.setting.value ≡ setting.now)) started.new.receivers.items }
    ensures all { OnOk result (map (λ (h : _). h.promise.owner) started.new.clients.items ++ map (λ (h : _). h.promise.owner) started.new.receivers.items ≡ callers tasks.entry.items replicas.receivers.items) }
{
    let Replicas { senders, receivers } = replicas;
    match start_receivers(
        scope,
        rt,
        setting,
        state,
        gate,
        receivers,
        &mut started.receivers,
    ) {
        Ok(()) => {}
        Err(fault) => return Err(fault),
    }
    match start_senders(scope, rt, state, senders, &mut started.senders) {
        Ok(()) => {}
        Err(fault) => return Err(fault),
    }
    start_clients(scope, rt, setting, state, gate, tasks, &mut started.clients)
}

/// Joins the clients, then the senders, and then the receivers. After each of the first two steps it sets the state's
/// flag that those threads were joined.
fn joined<R: Threads, G: Gate>(
    rt: &R,
    alloc: Global,
    setting: &Setting,
    state: &RunState,
    gate: &G,
    started: Started<G>,
) -> Gathered
    requires clients { All (λ (h : _). (h.promise.gate.value ≡ gate.now) × (h.promise.setting.value ≡ setting.now)) started.clients.items }
    requires receivers { All (λ (h : _). (h.promise.gate.value ≡ gate.now) × (h.promise.setting.value ≡ setting.now)) started.receivers.items }
    ensures shares { IsTrue result.lost ⊎ (holders result.shares.items ≡ map (λ (h : _). h.promise.owner) started.clients.items ++ map (λ (h : _). h.promise.owner) started.receivers.items) }
    ensures held { IsTrue result.held → MayHold setting.now (G.may_hold gate.now) }
{
    let Started {
        clients,
        senders,
        receivers,
    } = started;
    let mut gathered = Gathered::new(alloc);
    gathered.join(rt, setting, gate, clients);
    state.join_clients();
    gathered.join_senders(rt, senders);
    state.join_senders();
    gathered.join(rt, setting, gate, receivers);
    gathered
}

/// Starts the clients' threads.
fn start_clients<'s, E, R: Threads + Wait + Sync, G: Gate>(
    scope: &'s Scope<'s, E>,
    rt: &'s R,
    setting: &'s Setting,
    state: &'s RunState,
    gate: &'s G,
    tasks: Vec<ClientTask<'s>>,
    handles: &mut Vec<PromisedHandle<Returned, Owed<G>>>,
) -> Result<(), StartFault>
    requires place { state.now.cluster.place ≡ setting.now.place }
    requires tasks { AreTasksOf setting.now tasks.items }
    requires none { handles.old.items ≡ [] }
    ensures all { OnOk result (map (λ (h : _). h.promise.owner) handles.new.items ≡ map (λ j. OfClient j.client.number) tasks.entry.items) }
    ensures promised { All (λ (h : _). (h.promise.gate.value ≡ gate.now) × (h.promise.setting.value ≡ setting.now)) handles.new.items }
{
    for task in tasks {
        let ClientTask { client, script } = task;
        let started = scope.spawn_with(
            Owed::of(Holder::Client(client.number()), setting, gate),
            move || -> Returned
                ensures share { result.share.holder ≡ client.share.holder }
                ensures held { result.end ≡ End.Held → MayHoldIn (G.may_hold gate.entry.now) (length state.entry.now.cluster.place.splits + 1) client.dc client.number }
            { work(rt, state, gate, client, script) },
        );
        let Ok(handle) = started else {
            return Err(StartFault::NoThread);
        };
        match handles.push(handle) {
            Ok(()) => {}
            Err(_) => return Err(StartFault::Memory),
        }
    }
    Ok(())
}

/// Starts the senders' threads.
fn start_senders<'s, E, R: Threads + Wait + Sync>(
    scope: &'s Scope<'s, E>,
    rt: &'s R,
    state: &'s RunState,
    senders: Vec<Sender>,
    handles: &mut Vec<JoinHandle<bool>>,
) -> Result<(), StartFault> {
    for sender in senders {
        let Ok(handle) = scope.spawn(move || send(rt, state, sender)) else {
            return Err(StartFault::NoThread);
        };
        match handles.push(handle) {
            Ok(()) => {}
            Err(_) => return Err(StartFault::Memory),
        }
    }
    Ok(())
}

/// Starts the receivers' threads.
fn start_receivers<'s, E, R: Threads + Wait + Sync, G: Gate>(
    scope: &'s Scope<'s, E>,
    rt: &'s R,
    setting: &'s Setting,
    state: &'s RunState,
    gate: &'s G,
    receivers: Vec<Receiver>,
    handles: &mut Vec<PromisedHandle<Returned, Owed<G>>>,
) -> Result<(), StartFault>
    requires place { state.now.cluster.place ≡ setting.now.place }
    requires receivers { AreReceiversOf setting.now receivers.items }
    requires none { handles.old.items ≡ [] }
    ensures all { OnOk result (map (λ (h : _). h.promise.owner) handles.new.items ≡ map (λ r. OfReceiver r.dc) receivers.items) }
    ensures promised { All (λ (h : _). (h.promise.gate.value ≡ gate.now) × (h.promise.setting.value ≡ setting.now)) handles.new.items }
{
    for receiver in receivers {
        let started = scope.spawn_with(
            Owed::of(Holder::Receiver(receiver.dc()), setting, gate),
            move || -> Returned
                ensures share { result.share.holder ≡ receiver.share.holder }
                ensures held { result.end ≡ End.Held → MayHoldReceiving state.entry.now.cluster (G.may_hold gate.entry.now) }
            { receive(rt, state, gate, receiver) },
        );
        let Ok(handle) = started else {
            return Err(StartFault::NoThread);
        };
        match handles.push(handle) {
            Ok(()) => {}
            Err(_) => return Err(StartFault::Memory),
        }
    }
    Ok(())
}
