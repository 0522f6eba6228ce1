ghost use Rattle.std.specs.Prelude.{◌≡◌, ◌<◌, true, is_some, IfOk, OnErr, option_copied};
ghost use Rattle.cops_core.specs.World.{is_answered};

use crate::answers::Answers;
use crate::client_contexts::ClientContexts;
use crate::data_centres::DataCentres;
use crate::event::{Event, Said};
use crate::issued::Issued;
use crate::recording::{admit_get, admit_write, copies_of, drafted, keep_put, record, write_at};
use crate::table::{answer, events};
use cops_node::Outcome;
use cops_place::Setting;
use cops_types::{Dep, History, Key, Memory, Op, Refusal, Value, Version};
use std::alloc::Global;
use std::marker::Model;

/// The part of a world that changes: its nodes, the issued puts, the Yes answers, and each client's context and
/// session.
#[derive(Drop)]
pub struct State {
    pub centres: DataCentres,
    pub issued: Issued,
    said: Answers,
    pub contexts: ClientContexts,
    pub history: History,
}

impl Model for State {
    ghost use Rattle.cops_core.specs.World.{World as AWorld};

    ghost Value = { AWorld };

    ghost view = { λ s. record {
      nodes = s.centres;
      issued = s.issued.puts;
      said = s.said.said;
      contexts = s.contexts.pairs;
      sessions = s.history.sessions;
    } };
}

impl State {
    ghost use Rattle.std.specs.Prelude.{◌≡◌, IfOk, OnErr, Some, None, option_copied};
    ghost use Rattle.cops_types.specs.declared.refusal.Refusal.TheVariants.{Memory as OutOfMemory};
    ghost use Rattle.cops_node.specs.declared.outcome.Outcome.TheVariants.{Refused as RefusedWith};
    ghost use Rattle.cops_core.specs.World.{Happens, act_of, happens, opening, WriteBy, GetBy, DeliverTo, AskAt, MarkAt, SettleAt, IsReached};
    ghost use Rattle.cops_core.specs.Memory.{TakesMemory};

    /// The state of a world before the first event. Fails if memory runs out.
    pub fn open(alloc: Global, setting: &Setting) -> Result<Self, Memory>
        ensures { IfOk result (λ state. state ≡ opening setting.now) }
    {
        let clients = setting.clients() as u16;
        Ok(State {
            contexts: ClientContexts::new(alloc, clients)?,
            history: History::new(alloc, clients)?,
            centres: DataCentres::open(alloc, setting.dcs(), setting.nodes())?,
            issued: Issued::new(alloc),
            said: Answers::new(alloc),
        })
    }

    /// Applies an event. `Memory` is the outcome only in place of one before which the event allocates.
    pub fn step(&mut self, setting: &Setting, event: &Event) -> Outcome
        requires { IsReached setting.now self.old }
        ensures happens { Happens setting.now self.old (act_of event.now) result self.new }
        ensures memory { result ≡ RefusedWith OutOfMemory → TakesMemory (act_of event.now) (happens setting.now self.old (act_of event.now)).0 }
    {
        events!(answer self, setting, event)
    }

    /// A client puts a value at a key, in its own data centre.
    fn put(&mut self, setting: &Setting, client: u16, key: &Key, value: &Value) -> Outcome
        requires { IsReached setting.now self.old }
        ensures happens { Happens setting.now self.old (WriteBy client key.now (Some value.now)) result self.new }
        ensures memory { result ≡ RefusedWith OutOfMemory → TakesMemory (WriteBy client key.now (Some value.now)) (happens setting.now self.old (WriteBy client key.now (Some value.now))).0 }
    {
        self.write(setting, client, key, Some(value))
    }

    /// A client deletes a key, in its own data centre.
    fn del(&mut self, setting: &Setting, client: u16, key: &Key) -> Outcome
        requires { IsReached setting.now self.old }
        ensures happens { Happens setting.now self.old (WriteBy client key.now None) result self.new }
        ensures memory { result ≡ RefusedWith OutOfMemory → TakesMemory (WriteBy client key.now None) (happens setting.now self.old (WriteBy client key.now None)).0 }
    {
        self.write(setting, client, key, None)
    }

    /// A client writes a content at a key, in its own data centre: without a value it deletes the key. The put depends
    /// on the client's context, which then has only the new pair.
    fn write(
        &mut self,
        setting: &Setting,
        client: u16,
        key: &Key,
        content: Option<&Value>,
    ) -> Outcome
        requires { IsReached setting.now self.old }
        ensures happens { Happens setting.now self.old (WriteBy client key.now (option_copied content.entry)) result self.new }
        ensures memory { result ≡ RefusedWith OutOfMemory → TakesMemory (WriteBy client key.now (option_copied content.entry)) (happens setting.now self.old (WriteBy client key.now (option_copied content.entry))).0 }
    {
        match self.try_write(setting, client, key, content) {
            Ok(outcome) => outcome,
            Err(Memory) => Outcome::Refused(Refusal::Memory),
        }
    }

    /// Like `write`, but fails if memory runs out. All allocations come before the first change, so a failed one
    /// changes nothing.
    fn try_write(
        &mut self,
        setting: &Setting,
        client: u16,
        key: &Key,
        content: Option<&Value>,
    ) -> Result<Outcome, Memory>
        requires { IsReached setting.now self.old }
        ensures ok { IfOk result (λ outcome. Happens setting.now self.old (WriteBy client key.now (option_copied content.entry)) outcome self.new) }
        ensures err { OnErr result (self.new ≡ self.old) }
        ensures memory { IfOk result (λ outcome. outcome ≡ RefusedWith OutOfMemory → TakesMemory (WriteBy client key.now (option_copied content.entry)) (happens setting.now self.old (WriteBy client key.now (option_copied content.entry))).0) }
        ensures takes { OnErr result (TakesMemory (WriteBy client key.now (option_copied content.entry)) (happens setting.now self.old (WriteBy client key.now (option_copied content.entry))).0) }
    {
        let place = setting.primary(key);
        if let Err(refused) = admit_write(&mut self.history, setting.format(), client, content) {
            return Ok(Outcome::Refused(refused));
        }
        self.issued.reserve()?;
        let own = drafted(&self.contexts, client, key, content)?;
        let copies = copies_of(&own)?;
        let node = self.centres.node(setting.home(client), place);
        let outcome = write_at(node, client, own);
        match outcome.version_given() {
            Some(version) => {
                let (issued, contexts) = (&mut self.issued, &mut self.contexts);
                keep_put(issued, contexts, &mut self.history, client, version, copies);
                Ok(outcome)
            }
            None => {
                drop(copies);
                Ok(outcome)
            }
        }
    }

    /// A client gets a key, from its own data centre. The pair that it found is added to the client's context.
    fn get(&mut self, setting: &Setting, client: u16, key: &Key) -> Outcome
        requires { IsReached setting.now self.old }
        ensures happens { Happens setting.now self.old (GetBy client key.now) result self.new }
        ensures memory { result ≡ RefusedWith OutOfMemory → TakesMemory (GetBy client key.now) (happens setting.now self.old (GetBy client key.now)).0 }
    {
        match self.try_get(setting, client, key) {
            Ok(outcome) => outcome,
            Err(Memory) => Outcome::Refused(Refusal::Memory),
        }
    }

    /// Like `get`, but fails if memory runs out. All allocations come before the first change, so a failed one
    /// changes nothing.
    fn try_get(&mut self, setting: &Setting, client: u16, key: &Key) -> Result<Outcome, Memory>
        requires { IsReached setting.now self.old }
        ensures ok { IfOk result (λ outcome. Happens setting.now self.old (GetBy client key.now) outcome self.new) }
        ensures err { OnErr result (self.new ≡ self.old) }
        ensures memory { IfOk result (λ outcome. outcome ≡ RefusedWith OutOfMemory → TakesMemory (GetBy client key.now) (happens setting.now self.old (GetBy client key.now)).0) }
        ensures takes { OnErr result (TakesMemory (GetBy client key.now) (happens setting.now self.old (GetBy client key.now)).0) }
    {
        let format = setting.format();
        let place = setting.primary(key);
        if let Err(refused) = admit_get(&mut self.history, &self.contexts, format, client) {
            return Ok(Outcome::Refused(refused));
        }
        self.contexts.reserve(client)?;
        let (op_key, copy) = (key.clone()?, key.clone()?);
        let node = self.centres.node(setting.home(client), place);
        match node.get(client, key) {
            Outcome::Got(value, version) => {
                let op = Op::Got {
                    key: op_key,
                    value: value.clone()?,
                    version,
                };
                let pair = Dep { key: copy, version };
                self.contexts.add(format, client, pair);
                record(&mut self.history, client, op);
                Ok(Outcome::Got(value, version))
            }
            Outcome::Gone(version) => {
                let op = Op::Gone {
                    key: op_key,
                    version,
                };
                let pair = Dep { key: copy, version };
                self.contexts.add(format, client, pair);
                record(&mut self.history, client, op);
                Ok(Outcome::Gone(version))
            }
            Outcome::Missed => {
                drop(copy);
                record(&mut self.history, client, Op::Missed { key: op_key });
                Ok(Outcome::Missed)
            }
            other => {
                drop((op_key, copy));
                Ok(other)
            }
        }
    }

    /// The put of that version arrives at a data centre.
    fn deliver(&mut self, setting: &Setting, dc: u8, version: Version) -> Outcome
        requires { IsReached setting.now self.old }
        ensures happens { Happens setting.now self.old (DeliverTo dc version) result self.new }
        ensures memory { result ≡ RefusedWith OutOfMemory → TakesMemory (DeliverTo dc version) (happens setting.now self.old (DeliverTo dc version)).0 }
    {
        if dc >= setting.dcs() {
            return Outcome::Refused(Refusal::UnknownDc);
        }
        let Some(put) = self.issued.find(version) else {
            return Outcome::Refused(Refusal::NeverSent);
        };
        let place = setting.primary(&put.key);
        let Ok(copy) = put.clone() else {
            return Outcome::Refused(Refusal::Memory);
        };
        let node = self.centres.node(dc, place);
        node.deliver(copy)
    }

    /// A data centre's node is asked whether exactly this pair is settled there. A Yes answer is stored.
    fn ask(&mut self, setting: &Setting, dc: u8, key: &Key, version: Version) -> Outcome
        requires { IsReached setting.now self.old }
        ensures happens { Happens setting.now self.old (AskAt dc key.now version) result self.new }
        ensures memory { result ≡ RefusedWith OutOfMemory → TakesMemory (AskAt dc key.now version) (happens setting.now self.old (AskAt dc key.now version)).0 }
    {
        if dc >= setting.dcs() {
            return Outcome::Refused(Refusal::UnknownDc);
        }
        if self.said.reserve().is_err() {
            return Outcome::Refused(Refusal::Memory);
        }
        let Ok(copy) = key.clone() else {
            return Outcome::Refused(Refusal::Memory);
        };
        let node = self.centres.node(dc, setting.primary(key));
        match node.ask(key, version) {
            Outcome::Yes => {
                let pair = Dep { key: copy, version };
                self.said.add(Said { dc, pair });
                Outcome::Yes
            }
            other => {
                drop(copy);
                other
            }
        }
    }

    /// The held put of that version gets a mark for a dependency for which Yes was answered.
    fn mark(&mut self, setting: &Setting, dc: u8, version: Version, dep: u16) -> Outcome
        requires { IsReached setting.now self.old }
        ensures happens { Happens setting.now self.old (MarkAt dc version dep) result self.new }
        ensures memory { result ≡ RefusedWith OutOfMemory → TakesMemory (MarkAt dc version dep) (happens setting.now self.old (MarkAt dc version dep)).0 }
    {
        let place = version.place();
        if dc >= setting.dcs() {
            return Outcome::Refused(Refusal::UnknownDc);
        }
        if place >= setting.nodes() {
            return Outcome::Refused(Refusal::NotHeld);
        }
        let pair = self.centres.at(dc, place).dep_of(version, dep);
        let Ok(answered) = is_answered(&self.said, dc, pair) else {
            return Outcome::Refused(Refusal::Memory);
        };
        if !answered {
            return Outcome::Refused(Refusal::NoYes);
        }
        let node = self.centres.node(dc, place);
        node.mark(version, dep)
    }

    /// The held put of that version is settled, if all its dependencies are marked.
    fn settle(&mut self, setting: &Setting, dc: u8, version: Version) -> Outcome
        requires { IsReached setting.now self.old }
        ensures happens { Happens setting.now self.old (SettleAt dc version) result self.new }
        ensures memory { result ≡ RefusedWith OutOfMemory → TakesMemory (SettleAt dc version) (happens setting.now self.old (SettleAt dc version)).0 }
    {
        let place = version.place();
        if dc >= setting.dcs() {
            return Outcome::Refused(Refusal::UnknownDc);
        }
        if place >= setting.nodes() {
            return Outcome::Refused(Refusal::NotHeld);
        }
        let node = self.centres.node(dc, place);
        node.settle(version)
    }
}

/// Whether there is no dependency, or the data centre has answered Yes for it. Allocates only if there is a dependency,
/// and fails if memory runs out.
fn is_answered(said: &Answers, dc: u8, pair: Option<&Dep>) -> Result<bool, Memory>
    ensures ok { IfOk result (λ answered. answered ≡ is_answered said.now.said dc (option_copied pair.entry)) }
    ensures err { OnErr result (is_some (option_copied pair.entry) ≡ true) }
{
    match pair {
        Some(pair) => Ok(said.contains(&Said {
            dc,
            pair: pair.clone()?,
        })),
        None => Ok(true),
    }
}
