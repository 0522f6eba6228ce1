ghost use Rattle.std.specs.Prelude.{◌≡◌};

use crate::event::Event;
use crate::fault::WorldFault;
use crate::state::State;
use cops_context::Context;
use cops_node::Outcome;
use cops_place::{Place, Setting};
use cops_types::{Deps, Format, History, Key, Memory, PutRecord, Version};
use std::alloc::Global;
use std::marker::Model;

/// A COPS cluster on one thread: the nodes of each data centre, the issued puts, the Yes answers, and each client's
/// context and session. Only events change it, in whatever order they come.
#[derive(Drop)]
pub struct World {
    alloc: Global,
    setting: Setting,
    state: State,
}

impl Model for World {
    ghost use Rattle.cops_core.specs.Opened.{AWorld, IsReachedWorld};

    ghost Value = { AWorld };

    ghost view = { λ w. record { setting = w.setting; world = w.state } };

    ghost invariant = { λ w. IsReachedWorld (record { setting = w.setting; world = w.state }) };
}

impl World {
    ghost use Rattle.std.specs.Prelude.{◌≡◌, ◌≢◌, ◌↔◌, [], IfOk, OnErr, IsErrOf, length, option_copied, slice_get};
    ghost use Rattle.cops_store.specs.Store.{has_pair};
    ghost use Rattle.cops_types.specs.declared.refusal.Refusal.TheVariants.{Memory as OutOfMemory};
    ghost use Rattle.cops_node.specs.declared.outcome.Outcome.TheVariants.{Refused as RefusedWith};
    ghost use Rattle.cops_core.specs.Machine.{Step, view};
    ghost use Rattle.cops_core.specs.World.{Happens, act_of, context_in, happens, home, sent, settled_in, Run};
    ghost use Rattle.cops_core.specs.Memory.{AnswersEach, TakesMemory};
    ghost use Rattle.cops_types.specs.Verdicts.{HasAcceptedVerdict};
    ghost use Rattle.cops_types.specs.declared.format.Format.TheVariants.{One};
    ghost use Rattle.cops_core.specs.Opened.{opened_world};
    ghost use Rattle.cops_place.specs.Clients.{AreClients};
    ghost use Rattle.cops_core.specs.Invariants.{Invariants};
    ghost use Rattle.cops_types.specs.Format.{AreInFormat};

    /// A new world of format 1 with these data centres and nodes, and a client at each data centre of `client_dcs`.
    /// Errors: `BadClient` if one of those does not exist, or there are more than 65,535 clients; `Memory` if memory
    /// runs out.
    pub fn open(alloc: Global, place: Place, client_dcs: Vec<u8>) -> Result<Self, WorldFault>
        ensures ok { IfOk result (λ world. world ≡ opened_world (record { format = One; place = place; homes = client_dcs.items })) }
        ensures bad { IsErrOf result WorldFault.BadClient ↔ (AreClients place client_dcs.items → ⊥) }
    {
        World::open_in(Format::One, alloc, place, client_dcs)
    }

    /// Like `open`, for any format. Format 2 has deletions.
    pub fn open_in(
        format: Format,
        alloc: Global,
        place: Place,
        client_dcs: Vec<u8>,
    ) -> Result<Self, WorldFault>
        ensures ok { IfOk result (λ world. world ≡ opened_world (record { format = format; place = place; homes = client_dcs.items })) }
        ensures bad { IsErrOf result WorldFault.BadClient ↔ (AreClients place client_dcs.items → ⊥) }
    {
        match Setting::new_in(format, place, client_dcs) {
            Some(setting) => World::of(alloc, setting).or(Err(WorldFault::Memory)),
            None => Err(WorldFault::BadClient),
        }
    }

    /// A new world of this setting. Fails if memory runs out.
    pub fn of(alloc: Global, setting: Setting) -> Result<Self, Memory>
        ensures { IfOk result (λ world. world ≡ opened_world setting) }
    {
        let state = State::open(alloc, &setting)?;
        Ok(World {
            alloc,
            setting,
            state,
        })
    }

    /// The world's data centres and its clients, which never change.
    pub fn setting(&self) -> &Setting
        ensures { result.now ≡ self.now.setting }
    {
        &self.setting
    }

    /// Applies an event and returns its outcome. The checks of the refusals are made in the order of this table:
    ///
    /// | Event | Outcome | Refused |
    /// |---|---|---|
    /// | Put | PutDone | 3 unknown client, 11 session full, 1 clock exhausted |
    /// | Del | Deleted | 3 unknown client, 12 not in the format, 11 session full, 1 clock exhausted |
    /// | Get | Got, Missed, or Gone if the key shows a deletion | 3 unknown client, 11 session full, 2 context full |
    /// | Deliver | Held; Repeat if it is held or settled there | 10 unknown data centre, 4 never sent |
    /// | Ask | Yes if the pair is settled there, else Wait | 10 unknown data centre |
    /// | Mark | Marked | 10 unknown data centre, 5 not held, 6 no such dependency, 7 no Yes answer |
    /// | Settle | Settled | 10 unknown data centre, 5 not held, 8 open dependencies |
    ///
    /// An event is refused with 9 if memory runs out: only in place of an outcome that is no refusal, of the refusal 1
    /// of a put or a deletion, or of the refusal 7 of a mark, since the other refusals allocate nothing. A refused
    /// event changes nothing.
    pub fn apply(&mut self, event: Event) -> Outcome
        ensures setting { self.new.setting ≡ self.old.setting }
        ensures event { Happens self.old.setting self.old.world (act_of event) result self.new.world }
        ensures memory { result ≡ RefusedWith OutOfMemory → TakesMemory (act_of event) (happens self.old.setting self.old.world (act_of event)).0 }
        ensures step { Step (home self.old.setting) (view self.old.world) (view self.new.world) }
    {
        self.answer(&event)
    }

    /// Like `apply`, for a borrowed event.
    pub fn answer(&mut self, event: &Event) -> Outcome
        ensures setting { self.new.setting ≡ self.old.setting }
        ensures event { Happens self.old.setting self.old.world (act_of event.now) result self.new.world }
        ensures memory { result ≡ RefusedWith OutOfMemory → TakesMemory (act_of event.now) (happens self.old.setting self.old.world (act_of event.now)).0 }
        ensures step { Step (home self.old.setting) (view self.old.world) (view self.new.world) }
    {
        self.state.step(&self.setting, event)
    }

    /// Applies events one after the other, each as `apply` does. Fails with `Memory` if there is no memory for the list
    /// of outcomes, and then no event has happened.
    pub fn run(&mut self, events: &[Event]) -> Result<Vec<Outcome>, Memory>
        ensures setting { self.new.setting ≡ self.old.setting }
        ensures ok { IfOk result (λ outcomes. Run self.old.setting self.old.world events.now outcomes.items self.new.world) }
        ensures memory { IfOk result (λ outcomes. AnswersEach self.old.setting self.old.world events.now outcomes.items self.new.world) }
        ensures err { OnErr result (self.new ≡ self.old) }
    {
        let mut outcomes = Vec::with_capacity(self.alloc, events.len())?;
        for event in events {
            outcomes.push(self.answer(event)).unwrap();
        }
        Ok(outcomes)
    }

    /// Copies of the pairs on which a client's next put will depend, in the order in which the client found them. They
    /// are none if there is no such client. Fails if memory runs out, but not if there are none.
    pub fn deps(&self, client: u16) -> Result<Deps, Memory>
        ensures ok { IfOk result (λ deps. deps ≡ context_in self.now.world client) }
        ensures err { OnErr result (context_in self.now.world client ≢ []) }
    {
        let state = &self.state;
        let contexts = &state.contexts;
        if (client as usize) < contexts.len() {
            contexts.deps(client)
        } else {
            Context::new(self.alloc).deps()
        }
    }

    /// The put of this version, if a client has issued one.
    pub fn sent(&self, version: Version) -> Option<&PutRecord>
        ensures { option_copied result ≡ sent self.now.world.issued version }
    {
        let state = &self.state;
        state.issued.find(version)
    }

    /// The number of puts that clients have issued.
    pub fn puts(&self) -> usize
        ensures { result ≡ length self.now.world.issued }
    {
        let state = &self.state;
        state.issued.len()
    }

    /// The put at an index in the order of issue, if there is one.
    pub fn put_at(&self, place: usize) -> Option<&PutRecord>
        ensures { option_copied result ≡ slice_get self.now.world.issued place }
    {
        let state = &self.state;
        state.issued.at(place)
    }

    /// Whether exactly this pair is settled in a data centre. False if there is no such data centre.
    pub fn has_settled(&self, dc: u8, key: &Key, version: Version) -> bool
        ensures { result ≡ has_pair (settled_in self.now.world dc) (record { key = key.now; version = version }) }
    {
        if dc >= self.setting.dcs() {
            return false;
        }
        let state = &self.state;
        state
            .centres
            .at(dc, self.setting.primary(key))
            .has(key, version)
    }

    /// The operations of the clients. Whatever events came, the verdict on them is Accepted, and each operation is in
    /// the format of the setting.
    pub fn history(&self) -> &History
        ensures sessions { result.now.sessions ≡ self.now.world.sessions }
        ensures accepted { HasAcceptedVerdict result.now.sessions }
        ensures in_format { AreInFormat self.now.setting.format result.now.sessions }
        ensures invariants { Invariants self.now.setting self.now.world }
    {
        let state = &self.state;
        &state.history
    }

    /// The operations of the clients, as `history` returns them, without the rest of the world.
    pub fn into_history(self) -> History
        ensures sessions { result.sessions ≡ self.world.sessions }
        ensures accepted { HasAcceptedVerdict result.sessions }
        ensures in_format { AreInFormat self.setting.format result.sessions }
    {
        let World { state, .. } = self;
        let State { history, .. } = state;
        history
    }
}
