ghost use Rattle.std.specs.Prelude.{◌≡◌};

use crate::blocks::Blocks;
use crate::fault::Memory;
use crate::op::OpName;
use crate::slot::OpSlot;
use std::alloc::Global;
use std::marker::Model;

/// The slots of each client, in their order.
#[derive(Debug, Drop)]
pub(crate) struct Slots {
    sessions: Vec<Blocks>,
}

impl Model for Slots {
    ghost use Rattle.std.specs.Prelude.{map};
    ghost use Rattle.cops_types.specs.Slots.{KeptSlots};

    ghost Value = { KeptSlots };

    ghost view = { λ a. record { all = map (λ s. s.items) a.sessions.items; room = map (λ s. s.room) a.sessions.items } };
}

impl Slots {
    ghost use Rattle.std.specs.Prelude.{◌≡◌, ◌<◌, ◌↔◌, ℕ, [], Some, false, true, length, option_copied, replicate, slice_index_or, IfOk, IfSome, OnOk};
    ghost use Rattle.cops_types.specs.Lists.{item_at, with_item};
    ghost use Rattle.cops_types.specs.Entries.{KeepsOthersRoom};
    ghost use Rattle.cops_types.specs.declared.slot.OpSlot.TheVariants.{Put, Got, Sourced};
    ghost use Rattle.cops_types.specs.declared.limits.TheConstants.{MAX_CLIENT_OPS};

    /// No slots, for `clients` clients. Fails if memory runs out.
    pub(crate) fn new(alloc: Global, clients: u16) -> Result<Self, Memory>
        ensures { IfOk result (λ slots. slots.all ≡ replicate clients []) }
    {
        let mut sessions = Vec::new(alloc);
        for _ in 0..clients {
            sessions.push(Blocks::new(alloc))?;
        }
        Ok(Slots { sessions })
    }

    /// How many clients there are.
    pub(crate) fn clients(&self) -> usize
        ensures { result ≡ length self.now.all }
    {
        self.sessions.len()
    }

    /// The number of a client's slots, 0 if there is no such client.
    #[inline(always)]
    pub(crate) fn count(&self, client: u16) -> usize
        ensures { result ≡ length (slice_index_or self.now.all client []) }
    {
        match self.sessions.get(client as usize) {
            Some(session) => session.len(),
            None => 0,
        }
    }

    /// Makes room for a client's next slot. Changes no slot if memory runs out.
    #[inline(always)]
    pub(crate) fn reserve(&mut self, client: u16) -> Result<(), Memory>
        requires { client < length self.old.all }
        ensures same { self.new.all ≡ self.old.all }
        ensures room { OnOk result (slice_index_or self.new.room client false ≡ true) }
        ensures others { (c : ℕ) → slice_index_or self.old.room c false ≡ true → slice_index_or self.new.room c false ≡ true }
    {
        let session = &mut self.sessions[client as usize];
        session.reserve()
    }

    /// Adds a client's next slot. Allocates nothing: room has to be reserved.
    #[inline(always)]
    pub(crate) fn push(&mut self, client: u16, slot: OpSlot)
        requires inside { client < length self.old.all }
        requires room { slice_index_or self.old.room client false ≡ true }
        requires few { length (slice_index_or self.old.all client []) < MAX_CLIENT_OPS }
        ensures slots { self.new.all ≡ with_item self.old.all client slot }
        ensures others { KeepsOthersRoom client self.old.room self.new.room }
    {
        let session = &mut self.sessions[client as usize];
        session.push(slot);
    }

    /// The slot of that name, if there is one.
    #[inline(always)]
    pub(crate) fn get(&self, name: OpName) -> Option<&OpSlot>
        ensures { option_copied result ≡ item_at self.now.all name }
    {
        self.sessions
            .get(name.client as usize)?
            .get(name.index as usize)
    }

    /// The number of the put of that name, if there is one.
    #[inline(always)]
    pub(crate) fn put_number(&self, name: OpName) -> Option<u32>
        ensures { (n : ℕ) → (result ≡ Some n) ↔ (item_at self.now.all name ≡ Some (Put n)) }
    {
        match self.get(name)? {
            OpSlot::Put(number) => Some(*number),
            _ => None,
        }
    }

    /// The number of the put to which the get of that name refers, if it refers to one.
    #[inline(always)]
    pub(crate) fn source_number(&self, name: OpName) -> Option<u32>
        ensures { IfSome result (λ n. item_at self.now.all name ≡ Some (Sourced n)) }
    {
        match self.get(name)? {
            OpSlot::Sourced(number) => Some(*number),
            _ => None,
        }
    }

    /// The number of the get of that name, if it is stored with what it returned.
    #[inline(always)]
    pub(crate) fn get_number(&self, name: OpName) -> Option<u32>
        ensures { (n : ℕ) → (result ≡ Some n) ↔ (item_at self.now.all name ≡ Some (Got n)) }
    {
        match self.get(name)? {
            OpSlot::Got(number) => Some(*number),
            _ => None,
        }
    }
}
