//! Whether the entries of all books are one run of the world in which the clients saw what a trace says.
ghost use Rattle.std.specs.Prelude.{◌≡◌, ◌<◌, ◌≤◌, ◌*◌, ◌+◌, ◌∷◌, ◌↔◌, [], List, drop, slice_index_or, AllPairs, length, map, IfOk, IfErr, IfSome, IfNone, IsTrue, OnOk, Some};
ghost use Rattle.cops_core.specs.World.{Happens, World as AWorld, act_of, context_in, opening, sent};
ghost use Rattle.cops_types.specs.Histories.{op_at};
ghost use Rattle.cops_types.specs.Verdicts.{HasAcceptedVerdict};
ghost use Rattle.cops_trace.specs.Text.{sessions_of};
ghost use Rattle.cops_tie.specs.Tie.{Placed, IsBelow, Continues, Follows, IsFrom, IsHomeOf, event_at, event_of, place_asked, ticket};
ghost use Rattle.cops_tie.specs.Untied.{IsTied, IsTiedBefore, IsUntied, StopsAt, ticket_after};
ghost use Rattle.cops_tie.specs.Ticketed.{StandsRight, WhereUntied, shown};

use crate::fault::TieFault;
use crate::order::{Ticketed, in_order};
use cops_core::{Event, Setting, World};
use cops_node::{Entry, NodeEvent, Outcome, is_same_put};
use cops_trace::Trace;
use cops_types::{Deps, History, Memory, OpName, PutRecord};
use std::alloc::{AllocError, Global};

/// The run of the world that books are: its events, the world in which it ends, and one more than the greatest ticket:
/// 0 where there is no entry, and the greatest `u64` where that is a ticket.
#[derive(Drop)]
pub struct TiedRun {
    pub events: Vec<Event>,
    pub world: World,
    pub next: u64,
}

/// The world's events of the run that these books are. There must be one book for each node, in order of node numbers.
/// Each entry of a put or a deletion has to have its client's context, each delivered put has to be the issued one, and
/// each entry has to be in the book of the node that the world asks.
///
/// Errors: `Untied` where the entries of all books, in order of their tickets, are not a run of a world of this
/// setting, or the clients of that run saw something else than the trace says; `Memory` when memory runs out.
pub fn tie(
    alloc: Global,
    setting: &Setting,
    books: &[Vec<Entry>],
    trace: &Trace,
) -> Result<Vec<Event>, TieFault>
    requires { length books.now ≡ setting.now.place.dcs * (length setting.now.place.splits + 1) }
    ensures tied { IfOk result (λ events. IsTied setting.now (map (λ b. b.items) books.now) (sessions_of trace.now) events.items) }
    ensures untied { IfErr result (WhereUntied (IsUntied setting.now (map (λ b. b.items) books.now) (sessions_of trace.now))) }
{
    match tied_run(alloc, setting, books, trace) {
        Ok(run) => Ok(events_of(run)),
        Err(fault) => Err(fault),
    }
}

/// The events of a run. Drops its world.
fn events_of(run: TiedRun) -> Vec<Event>
    ensures { result.items ≡ run.events.items }
{
    let TiedRun {
        events,
        world,
        next: _,
    } = run;
    drop(world);
    events
}

/// Like `tie`, but also returns the world in which the run ends. The verdict on what the clients of a tied run saw is
/// accepted. The errors are those of `tie`.
pub fn tied_run(
    alloc: Global,
    setting: &Setting,
    books: &[Vec<Entry>],
    trace: &Trace,
) -> Result<TiedRun, TieFault>
    requires { length books.now ≡ setting.now.place.dcs * (length setting.now.place.splits + 1) }
    ensures setting { IfOk result (λ run. run.world.setting ≡ setting.now) }
    ensures tied { IfOk result (λ run. IsTiedBefore setting.now (map (λ b. b.items) books.now) (sessions_of trace.now) run.events.items run.world.world run.next) }
    ensures accepted { OnOk result (HasAcceptedVerdict (sessions_of trace.now)) }
    ensures untied { IfErr result (WhereUntied (IsUntied setting.now (map (λ b. b.items) books.now) (sessions_of trace.now))) }
{
    let order = in_order(alloc, setting.dcs(), setting.nodes(), books)?;
    let run = run_of(alloc, setting, &order)?;
    if is_same(run.world.history(), trace.history()) {
        return Ok(run);
    }
    let ticket = run.next;
    drop(run);
    Err(TieFault::Untied { ticket })
}

/// The run that the entries are, without looking at what the clients saw.
fn run_of(alloc: Global, setting: &Setting, order: &[Ticketed<'_>]) -> Result<TiedRun, TieFault>
    requires { AllPairs (λ p q. ticket p ≤ ticket q) (map shown order.now) }
    ensures setting { IfOk result (λ run. run.world.setting ≡ setting.now) }
    ensures follows { IfOk result (λ run. Follows setting.now (opening setting.now) (map shown order.now) run.world.world) }
    ensures events { IfOk result (λ run. run.events.items ≡ map event_of (map shown order.now)) }
    ensures next { IfOk result (λ run. run.next ≡ ticket_after (map shown order.now)) }
    ensures stops { IfErr result (WhereUntied (StopsAt setting.now (opening setting.now) (map shown order.now))) }
{
    let mut world = opened(alloc, setting)?;
    match followed(alloc, setting, &mut world, order) {
        Ok(events) => Ok(TiedRun {
            events,
            world,
            next: next_ticket(order),
        }),
        Err(fault) => {
            drop(world);
            Err(fault)
        }
    }
}

/// A new world of a setting.
fn opened(alloc: Global, setting: &Setting) -> Result<World, Memory>
    ensures { IfOk result (λ world. world ≡ record { setting = setting.now; world = opening setting.now }) }
{
    World::of(alloc, setting.clone()?)
}

/// Applies the entries to the world in order, and returns the world's events. `Untied` at the first entry that does not
/// continue the run.
fn followed(
    alloc: Global,
    setting: &Setting,
    world: &mut World,
    order: &[Ticketed<'_>],
) -> Result<Vec<Event>, TieFault>
    requires setting { world.old.setting ≡ setting.now }
    requires never_falls { AllPairs (λ p q. ticket p ≤ ticket q) (map shown order.now) }
    ensures setting { world.new.setting ≡ world.old.setting }
    ensures ok { IfOk result (λ events. Follows setting.now world.old.world (map shown order.now) world.new.world × (events.items ≡ map event_of (map shown order.now))) }
    ensures stops { IfErr result (WhereUntied (StopsAt setting.now world.old.world (map shown order.now))) }
{
    let mut events = Vec::with_capacity(alloc, order.len())?;
    for i in 0..order.len() {
        let ticketed = &order[i];
        let ticket = ticketed.entry.ticket;
        if comes_again(order, i) {
            return Err(TieFault::Untied { ticket });
        }
        match continued(setting, world, ticketed)? {
            Some(event) => events.push(event)?,
            None => return Err(TieFault::Untied { ticket }),
        }
    }
    Ok(events)
}

/// Whether the next entry has the same ticket as the ith.
fn comes_again(order: &[Ticketed<'_>], i: usize) -> bool
    requires inside { i < length order.now }
    ensures again { IsTrue result → (p : Placed) (rest : List Placed) → drop i (map shown order.now) ≡ p ∷ rest → IsBelow p rest → ⊥ }
    ensures below { ¬ IsTrue result → AllPairs (λ p q. ticket p ≤ ticket q) (map shown order.now) → (p : Placed) (rest : List Placed) → drop i (map shown order.now) ≡ p ∷ rest → IsBelow p rest }
{
    if i + 1 >= order.len() {
        return false;
    }
    order[i + 1].entry.ticket == order[i].entry.ticket
}

/// Applies an entry to the world, and returns the world's event for it; `None` where the entry does not continue the
/// run.
fn continued(
    setting: &Setting,
    world: &mut World,
    ticketed: &Ticketed<'_>,
) -> Result<Option<Event>, Memory>
    requires { world.old.setting ≡ setting.now }
    ensures setting { world.new.setting ≡ world.old.setting }
    ensures some { IfOk result (λ o. IfSome o (λ event. (event ≡ event_of (shown ticketed.now)) × Continues setting.now world.old.world (shown ticketed.now) world.new.world)) }
    ensures none { IfOk result (λ o. IfNone o ((mid : AWorld) → Continues setting.now world.old.world (shown ticketed.now) mid → ⊥)) }
{
    if !is_from(setting, world, ticketed)? {
        return Ok(None);
    }
    let event = world_event(ticketed.dc, &ticketed.entry.event)?;
    match is_answered(world, &event, &ticketed.entry.outcome) {
        Ok(true) => Ok(Some(event)),
        Ok(false) => {
            drop(event);
            Ok(None)
        }
        Err(memory) => {
            drop(event);
            Err(memory)
        }
    }
}

/// Whether the world answers the event with this outcome. The event is applied to the world.
fn is_answered(world: &mut World, event: &Event, answer: &Outcome) -> Result<bool, Memory>
    ensures setting { world.new.setting ≡ world.old.setting }
    ensures yes { IfOk result (λ is. IsTrue is → Happens world.old.setting world.old.world (act_of event.now) answer.now world.new.world) }
    ensures no { IfOk result (λ is. ¬ IsTrue is → (mid : AWorld) → Happens world.old.setting world.old.world (act_of event.now) answer.now mid → ⊥) }
{
    if answer.is_memory() {
        return Ok(true);
    }
    let outcome = world.answer(event);
    if outcome.is_memory() {
        return Err(Memory);
    }
    Ok(outcome == *answer)
}

/// Whether the entry is in the book of the node that its event belongs to, and its arguments are those that the world
/// has.
fn is_from(setting: &Setting, world: &World, ticketed: &Ticketed<'_>) -> Result<bool, Memory>
    ensures { IfOk result (λ is. IsTrue is ↔ StandsRight setting.now world.now.world (shown ticketed.now)) }
{
    if place_of_event(setting, &ticketed.entry.event) != ticketed.place {
        return Ok(false);
    }
    is_reported(setting, world, ticketed.dc, &ticketed.entry.event)
}

/// The place of the key's node, or of the node that gave the version.
fn place_of_event(setting: &Setting, event: &NodeEvent) -> u8
    ensures { result ≡ place_asked setting.now event.now }
{
    match event {
        NodeEvent::Put { key, .. } => setting.primary(key),
        NodeEvent::Del { key, .. } => setting.primary(key),
        NodeEvent::Get { key, .. } => setting.primary(key),
        NodeEvent::Deliver(put) => setting.primary(&put.key),
        NodeEvent::Ask { key, .. } => setting.primary(key),
        NodeEvent::Mark { version, .. } => version.place(),
        NodeEvent::Settle { version } => version.place(),
    }
}

/// Whether the event's arguments are those that the world has.
fn is_reported(setting: &Setting, world: &World, dc: u8, event: &NodeEvent) -> Result<bool, Memory>
    ensures { IfOk result (λ is. IsTrue is ↔ IsFrom setting.now world.now.world dc event.now) }
{
    match event {
        NodeEvent::Put { client, deps, .. } => is_own(setting, world, dc, *client, deps),
        NodeEvent::Del { client, deps, .. } => is_own(setting, world, dc, *client, deps),
        NodeEvent::Get { client, .. } => Ok(is_home(setting, dc, *client)),
        NodeEvent::Deliver(put) => Ok(is_sent(world, put)),
        NodeEvent::Ask { .. } | NodeEvent::Mark { .. } | NodeEvent::Settle { .. } => Ok(true),
    }
}

/// Whether `dc` is the client's data centre, and these are the pairs of the client's context.
fn is_own(
    setting: &Setting,
    world: &World,
    dc: u8,
    client: u16,
    deps: &Deps,
) -> Result<bool, Memory>
    ensures { IfOk result (λ is. IsTrue is ↔ (IsHomeOf setting.now dc client × (deps.now ≡ context_in world.now.world client))) }
{
    if !is_home(setting, dc, client) {
        return Ok(false);
    }
    has_context(world, client, deps)
}

/// Whether `dc` is the client's data centre.
fn is_home(setting: &Setting, dc: u8, client: u16) -> bool
    ensures { IsTrue result ↔ IsHomeOf setting.now dc client }
{
    match setting.homes().get(client as usize) {
        Some(home) => *home == dc,
        None => false,
    }
}

/// Whether these are the pairs of the client's context.
fn has_context(world: &World, client: u16, deps: &Deps) -> Result<bool, Memory>
    ensures { IfOk result (λ is. IsTrue is ↔ (deps.now ≡ context_in world.now.world client)) }
{
    let context = world.deps(client)?;
    Ok(context.as_slice() == deps.as_slice())
}

/// Whether the put is equal to the one that was issued at its version.
fn is_sent(world: &World, put: &PutRecord) -> bool
    ensures { IsTrue result ↔ (sent world.now.world.issued put.now.version ≡ Some put.now) }
{
    match world.sent(put.version) {
        Some(sent) => is_same_put(sent, put),
        None => false,
    }
}

/// The world's event for a node's event.
fn world_event(dc: u8, event: &NodeEvent) -> Result<Event, AllocError>
    ensures { IfOk result (λ e. e ≡ event_at dc event.now) }
{
    Ok(match event {
        NodeEvent::Put {
            client,
            key,
            value,
            ..
        } => Event::Put {
            client: *client,
            key: key.clone()?,
            value: value.clone()?,
        },
        NodeEvent::Del { client, key, .. } => Event::Del {
            client: *client,
            key: key.clone()?,
        },
        NodeEvent::Get { client, key } => Event::Get {
            client: *client,
            key: key.clone()?,
        },
        NodeEvent::Deliver(put) => Event::Deliver {
            dc,
            version: put.version,
        },
        NodeEvent::Ask { key, version } => Event::Ask {
            dc,
            key: key.clone()?,
            version: *version,
        },
        NodeEvent::Mark { version, dep } => Event::Mark {
            dc,
            version: *version,
            dep: *dep,
        },
        NodeEvent::Settle { version } => Event::Settle {
            dc,
            version: *version,
        },
    })
}

/// Whether the clients saw the same operations in both histories.
fn is_same(one: &History, other: &History) -> bool
    ensures { IsTrue result ↔ (one.now.sessions ≡ other.now.sessions) }
{
    if one.clients() != other.clients() {
        return false;
    }
    for client in 0..one.clients() {
        if !is_same_session(one, other, client as u16) {
            return false;
        }
    }
    true
}

/// Whether a client saw the same operations in both histories.
fn is_same_session(one: &History, other: &History, client: u16) -> bool
    ensures { IsTrue result ↔ (slice_index_or one.now.sessions client [] ≡ slice_index_or other.now.sessions client []) }
{
    let operations = one.session_len(client);
    if operations != other.session_len(client) {
        return false;
    }
    for index in 0..operations {
        let index = index as u32;
        if !is_same_op(one, other, OpName { client, index }) {
            return false;
        }
    }
    true
}

/// Whether both histories have the same operation of that name, or neither has one.
fn is_same_op(one: &History, other: &History, name: OpName) -> bool
    ensures { IsTrue result ↔ (op_at one.now.sessions name ≡ op_at other.now.sessions name) }
{
    match (one.op(name), other.op(name)) {
        (Some(op), Some(other_op)) => op.is(&other_op),
        (None, None) => true,
        _ => false,
    }
}

/// One more than the greatest ticket: 0 where there is no entry, and the greatest `u64` where that is a ticket.
fn next_ticket(order: &[Ticketed<'_>]) -> u64
    ensures { result ≡ ticket_after (map shown order.now) }
{
    match order.last() {
        Some(ticketed) => ticketed.entry.ticket.saturating_add(1),
        None => 0,
    }
}
