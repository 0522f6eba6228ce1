use crate::event::NodeEvent;
use crate::outcome::Outcome;
use crate::raising::raised_clock;
use crate::refusal::refusal;
use crate::table::{events, row};
use cops_held::{Held, Taken};
use cops_store::Store;
use cops_types::{Clock, Dep, Deps, Key, Memory, NodeStatus, PutRecord, Refusal, Value, Version};
use std::alloc::Global;
use std::marker::Model;

/// One node of a data centre: a Lamport clock, the settled pairs, and the puts of other data centres that wait. A
/// node's number is below 1,024; its data centre is that number divided by 64.
#[derive(Drop)]
pub struct Node {
    number: u16,
    clock: Clock,
    store: Store,
    held: Held,
}

impl Model for Node {
    ghost use Rattle.std.specs.Prelude.{◌≡◌, ◌<◌};
    ghost use Rattle.cops_types.specs.declared.limits.TheConstants.{NODES};
    ghost use Rattle.cops_node.specs.Node.{Node as State};

    ghost Value = { State };

    ghost view = { λ n. record { number = n.number; clock = n.clock.clock; settled = n.store.settled; held = n.held } };

    ghost invariant = { λ n. n.number < NODES };
}

impl Node {
    ghost use Rattle.std.specs.Prelude.{◌≡◌, ◌<◌, ◌≤◌, ◌⊎◌, length, option_copied, IfOk, IfErr, OnOk, OnErr};
    ghost use Rattle.std.specs.Option.{option_map};
    ghost use Rattle.cops_store.specs.Store.{has_pair, shown};
    ghost use Rattle.cops_store.specs.Settling.{shown_keys};
    ghost use Rattle.cops_held.specs.Held.{waiting};
    ghost use Rattle.cops_node.specs.declared.event.NodeEvent.TheVariants.{Put, Del, Get, Deliver, Ask, Mark, Settle};
    ghost use Rattle.cops_node.specs.declared.outcome.Outcome.TheVariants.{Refused as RefusedWith};
    ghost use Rattle.cops_types.specs.declared.limits.TheConstants.{MAX_CLOCK, NODES};
    ghost use Rattle.cops_types.specs.declared.refusal.Refusal.TheVariants.{Memory as OutOfMemory};
    ghost use Rattle.cops_node.specs.Outcomes.{TakesMemory, settled_at};
    ghost use Rattle.cops_node.specs.Acts.{written};
    ghost use Rattle.cops_node.specs.Node.{NodeHappens, answer, node_step, opened, dep_at, writes};

    /// A node to which nothing has happened. It allocates no memory.
    pub fn open(alloc: Global, node: u16) -> Self
        requires { node < NODES }
        ensures { result ≡ opened node }
    {
        Node {
            number: node,
            clock: Clock::new(node),
            store: Store::new(alloc),
            held: Held::new(alloc),
        }
    }

    /// The node's number.
    pub fn number(&self) -> u16
        ensures value { result ≡ self.now.number }
        ensures range { result < NODES }
    {
        self.number
    }

    /// A client's put, with its context `deps`. It is settled at once, at a version above those of its dependencies.
    /// Refused with `ClockExhausted` where the clock can rise no further, and with `Memory` when memory runs out.
    pub fn put(&mut self, client: u16, key: Key, value: Value, deps: Deps) -> Outcome
        ensures happens { NodeHappens self.old (Put client key value deps) result self.new }
        ensures memory { result ≡ RefusedWith OutOfMemory → TakesMemory (node_step self.old (Put client key value deps)).0 }
    {
        events!(row Put self.write(key, Some(value), &deps))
    }

    /// A client's deletion of a key, with its context `deps`. It is settled like a put. Refused with `ClockExhausted`
    /// where the clock can rise no further, and with `Memory` when memory runs out.
    pub fn del(&mut self, client: u16, key: Key, deps: Deps) -> Outcome
        ensures happens { NodeHappens self.old (Del client key deps) result self.new }
        ensures memory { result ≡ RefusedWith OutOfMemory → TakesMemory (node_step self.old (Del client key deps)).0 }
    {
        events!(row Del self.write(key, None, &deps))
    }

    /// Settles a client's write, which is a deletion where there is no value, at a version above those of its
    /// dependencies.
    fn write(&mut self, key: Key, content: Option<Value>, deps: &Deps) -> Result<Version, Refusal>
        ensures ok { IfOk result (λ version. writes self.old key content deps.now ≡ (written content version, self.new)) }
        ensures err { IfErr result (λ refused. (writes self.old key content deps.now ≡ (RefusedWith refused, self.new)) ⊎ ((refused ≡ OutOfMemory) × (self.new ≡ self.old))) }
        ensures memory { IfErr result (λ refused. refused ≡ OutOfMemory → TakesMemory (writes self.old key content deps.now).0) }
    {
        let clock = raised_clock(self.clock.clock(), deps.as_slice());
        match Version::new(clock + 1, self.number) {
            Ok(version) => self.settle_own(key, content, version),
            Err(_) => Err(Refusal::ClockExhausted),
        }
    }

    /// Settles a client's write at a version above the clock, which rises to it. Returns `Memory` when memory runs out.
    fn settle_own(
        &mut self,
        key: Key,
        content: Option<Value>,
        version: Version,
    ) -> Result<Version, Refusal>
        ensures ok { IfOk result (λ v. v ≡ version) }
        ensures after { OnOk result (self.new ≡ settled_at self.old key content version) }
        ensures err { OnErr result (self.new ≡ self.old) }
        ensures memory { IfErr result (λ refusal. refusal ≡ OutOfMemory) }
    {
        if self.store.settle(key, content, version).is_err() {
            return Err(Refusal::Memory);
        }
        self.clock.raise(version);
        Ok(version)
    }

    /// A client's get: what the key shows. Refused with `Memory` when memory runs out; only a value needs memory.
    pub fn get(&mut self, client: u16, key: &Key) -> Outcome
        ensures happens { NodeHappens self.old (Get client key.now) result self.new }
        ensures memory { result ≡ RefusedWith OutOfMemory → TakesMemory (node_step self.old (Get client key.now)).0 }
    {
        events!(row Get self.copy_of_shown(key))
    }

    /// A copy of what the key shows. Returns `Memory` when memory runs out.
    fn copy_of_shown(&self, key: &Key) -> Result<Option<(Option<Value>, Version)>, Memory>
        ensures ok { IfOk result (λ copy. option_map (λ r. record { key = key.now; value = r.0; version = r.1 }) copy ≡ shown self.now.settled key.now) }
        ensures err { OnErr result (TakesMemory (answer (shown self.now.settled key.now))) }
    {
        match self.shown(key) {
            Some((Some(value), version)) => Ok(Some((Some(value.clone()?), version))),
            Some((None, version)) => Ok(Some((None, version))),
            None => Ok(None),
        }
    }

    /// A put of another data centre arrives. It waits from now on; where it waits already or is settled, nothing
    /// changes. Refused with `Memory` when memory runs out.
    pub fn deliver(&mut self, put: PutRecord) -> Outcome
        ensures happens { NodeHappens self.old (Deliver put) result self.new }
        ensures memory { result ≡ RefusedWith OutOfMemory → TakesMemory (node_step self.old (Deliver put)).0 }
    {
        if self.store.has(&put.key, put.version) {
            return Outcome::Repeat;
        }
        events!(row Deliver self.held.hold(put))
    }

    /// Whether exactly this pair is settled here. It allocates no memory.
    pub fn ask(&mut self, key: &Key, version: Version) -> Outcome
        ensures happens { NodeHappens self.old (Ask key.now version) result self.new }
        ensures answered { node_step self.old (Ask key.now version) ≡ (result, self.new) }
    {
        events!(row Ask self.store.has(key, version))
    }

    /// Marks a dependency of a waiting put, given by its index, as settled in this data centre. Refused with `NotHeld`
    /// where no put waits at the version, and with `NoSuchDep` where it has no such dependency. It allocates no memory.
    pub fn mark(&mut self, version: Version, dep: u16) -> Outcome
        ensures happens { NodeHappens self.old (Mark version dep) result self.new }
        ensures answered { node_step self.old (Mark version dep) ≡ (result, self.new) }
    {
        events!(row Mark self.held.mark(version, dep))
    }

    /// Settles a waiting put; the clock rises to that of its version. Refused with `NotHeld` where no put waits at the
    /// version, with `DepsOpen` where not all its dependencies are marked, and with `Memory` when memory runs out.
    pub fn settle(&mut self, version: Version) -> Outcome
        ensures happens { NodeHappens self.old (Settle version) result self.new }
        ensures memory { result ≡ RefusedWith OutOfMemory → TakesMemory (node_step self.old (Settle version)).0 }
    {
        if self.store.reserve().is_err() {
            return match self.held.ready(version) {
                Ok(()) => Outcome::Refused(Refusal::Memory),
                Err(fault) => events!(row Settle Err(fault)),
            };
        }
        let put = match self.held.take_ready(version) {
            Ok(put) => put,
            Err(fault) => return events!(row Settle Err(fault)),
        };
        self.clock.raise(put.version);
        let _shown = self.store.settle(put.key, put.value, version).unwrap();
        events!(row Settle Ok(()))
    }

    /// Applies one event, like the event's own call.
    pub fn step(&mut self, event: NodeEvent) -> Outcome
        ensures happens { NodeHappens self.old event result self.new }
        ensures memory { result ≡ RefusedWith OutOfMemory → TakesMemory (node_step self.old event).0 }
    {
        macro_rules! dispatch {
            ($node:ident, $event:ident; $($name:ident $fields:tt => $call:ident $arguments:tt $outcomes:tt)*) => {
                match $event {
                    $(NodeEvent::$name $fields => $node.$call $arguments,)*
                }
            };
        }
        events!(dispatch self, event)
    }

    /// What the key shows: the greatest version that was settled on it, with its value, or without a value where that
    /// is a deletion. `None` where nothing was settled on it.
    pub fn shown(&self, key: &Key) -> Option<(Option<&Value>, Version)>
        ensures { option_map (λ r. record { key = key.now; value = option_copied r.0; version = r.1 }) result ≡ shown self.now.settled key.now }
    {
        self.store.get(key)
    }

    /// Whether exactly this pair is settled here, as `ask` would answer.
    pub fn has(&self, key: &Key, version: Version) -> bool
        ensures { result ≡ has_pair self.now.settled (record { key = key.now; version = version }) }
    {
        self.store.has(key, version)
    }

    /// A dependency of the put that waits at a version, by its index. `None` where there is no such put or dependency.
    pub fn dep_of(&self, version: Version, dep: u16) -> Option<&Dep>
        ensures { option_copied result ≡ dep_at (waiting self.now.held version) dep }
    {
        let put = self.held.record(version)?;
        put.deps.as_slice().get(usize::from(dep))
    }

    /// The clock, and the numbers of keys that show a value or a deletion, of settled pairs, and of waiting puts.
    pub fn status(&self) -> NodeStatus
        ensures status { result ≡ record { clock = self.now.clock; keys = length (shown_keys self.now.settled); settled = length self.now.settled; held = length self.now.held } }
        ensures clock { result.clock ≤ MAX_CLOCK }
    {
        NodeStatus {
            clock: self.clock.clock(),
            keys: self.store.keys() as u64,
            settled: self.store.settled() as u64,
            held: self.held.len() as u64,
        }
    }
}
