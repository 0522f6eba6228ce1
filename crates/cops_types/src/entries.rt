ghost use Rattle.std.specs.Prelude.{◌≡◌, ◌<◌, ◌≤◌, [], length, map, slice_index_or, vec_len, vec_capacity};
ghost use Rattle.cops_types.specs.Entries.{referred};
ghost use Rattle.cops_types.specs.Slots.{IsFrom, IsStored, IsThere, got_shown, next_name, shown, versioned};
ghost use Rattle.cops_types.specs.declared.limits.TheConstants.{MAX_CLIENT_OPS, MAX_OPS};

use crate::entry::{NumberedPut, Returned, StoredOp, StoredOpRef};
use crate::fault::Memory;
use crate::op::OpName;
use crate::op_ref::is_same_content;
use crate::slot::{KeptGot, KeptPut, OpSlot, flagged};
use crate::slots::Slots;
use crate::value::Value;
use crate::version::Version;
use crate::versioned_put::VersionedPut;
use std::alloc::{AllocError, Global};
use std::marker::Model;

/// The entries of each client, in their order. All clients' puts are in one list, in the order in which they were
/// added, and so are the gets whose puts are not known, with what they returned. The sessions refer to these lists by
/// numbers.
#[derive(Debug, Drop)]
pub(crate) struct Entries {
    slots: Slots,
    puts: Vec<KeptPut>,
    gets: Vec<KeptGot>,
}

impl Model for Entries {
    ghost use Rattle.std.specs.Prelude.{◌-◌, Some, map, vec_len, vec_capacity};
    ghost use Rattle.cops_types.specs.Entries.{KeptEntries};
    ghost use Rattle.cops_types.specs.Slots.{AreKept, get_numbers_in, got_shown, shown_by};

    ghost Value = { KeptEntries };

    ghost view = { λ a. record {
      all = shown_by a.puts.items a.gets.items a.slots.all;
      room = a.slots.room;
      names = map (λ p. p.name) a.puts.items;
      gets = map (λ g. got_shown (Some g)) a.gets.items;
      get_numbers = get_numbers_in a.slots.all;
      more_puts = vec_capacity a.puts - vec_len a.puts;
      more_gets = vec_capacity a.gets - vec_len a.gets;
    } };

    ghost invariant = { λ a. AreKept a.puts.items a.gets.items a.slots.all };
}

impl Entries {
    ghost use Rattle.cops_types.specs.declared.op.OpName.{OpName};
    ghost use Rattle.std.specs.Prelude.{◌≡◌, ◌≢◌, ◌<◌, ◌≤◌, ◌↔◌, ℕ, List, length, map, slice_get, slice_index_or, [], Option, Some, OnOk, IfOk, IfSome, IfNone, IsOk, IsTrue, replicate, true, false, vec_capacity, option_copied};
    ghost use Rattle.std.specs.Option.{option_map};
    ghost use Rattle.cops_types.specs.Lists.{item_at, number_at, with_item};
    ghost use Rattle.cops_types.specs.Entries.{GainsEntry, HasGets, HasSource, HasValue, IsGetAt, IsNumbered, IsReturned, KeepsEntries, KeepsNumbers, KeepsOthersRoom, ListsEntries, NamesPut, value_put};
    ghost use Rattle.cops_types.specs.Recorded.{AreNumbered};
    ghost use Rattle.cops_types.specs.declared.entry.StoredOp.TheVariants.{Put, Got};
    ghost use Rattle.cops_types.specs.declared.limits.TheConstants.{MAX_CLIENT_OPS, MAX_OPS};

    /// No entries, for `clients` clients. Fails if memory runs out.
    pub(crate) fn new(alloc: Global, clients: u16) -> Result<Self, Memory>
        ensures entries { IfOk result (λ entries. entries.all ≡ replicate clients []) }
        ensures names { IfOk result (λ entries. entries.names ≡ []) }
        ensures gets { IfOk result (λ entries. entries.gets ≡ []) }
    {
        let slots = Slots::new(alloc, clients)?;
        Ok(Entries {
            slots,
            puts: Vec::new(alloc),
            gets: Vec::new(alloc),
        })
    }

    /// How many clients there are.
    pub(crate) fn clients(&self) -> usize
        ensures { result ≡ length self.now.all }
    {
        self.slots.clients()
    }

    /// The number of a client's entries, 0 if there is no such client.
    #[tactic(auto, using(crate::proofs::Showing::length_shown))]
    pub(crate) fn session_len(&self, client: u16) -> usize
        ensures { result ≡ length (slice_index_or self.now.all client []) }
    {
        self.slots.count(client)
    }

    /// The number of puts, which is the number of the next one.
    pub(crate) fn puts(&self) -> usize
        ensures { result ≡ length self.now.names }
    {
        self.puts.len()
    }

    /// The number of gets stored with what they returned, which is the number of the next one.
    #[tactic(auto, using(crate::proofs::Showing::are_numbered))]
    pub(crate) fn gets(&self) -> usize
        ensures count { result ≡ length self.now.gets }
        ensures kept { HasGets self.now }
        ensures numbered { AreNumbered self.now.get_numbers (length self.now.gets) }
    {
        self.gets.len()
    }

    /// The get of that number among those stored with what they returned, if there is one.
    pub(crate) fn kept_get(&self, number: u32) -> Option<&KeptGot>
        ensures { option_map (λ g. got_shown (Some g.now)) result ≡ slice_get self.now.gets number }
    {
        self.gets.get(number as usize)
    }

    /// The number of the get of that name, if it is stored with what it returned.
    #[inline(always)]
    pub(crate) fn get_number(&self, name: OpName) -> Option<u32>
        ensures number { IfSome result (IsGetAt self.now name) }
        ensures none { IfNone result ((key version : ℕ) (value : Option (List ℕ)) → item_at self.now.all name ≢ Some (Got key value version)) }
        ensures numbered { result ≡ number_at self.now.get_numbers name }
    {
        self.slots.get_number(name)
    }

    /// The entry of that name, if there is one.
    pub(crate) fn get(&self, name: OpName) -> Option<StoredOpRef<'_>>
        ensures entry { option_map referred result ≡ item_at self.now.all name }
        ensures value { IfSome result (HasValue self.now.all) }
    {
        let slot = self.slots.get(name)?;
        Some(refer(&self.puts, &self.gets, *slot))
    }

    /// The number of the put of that name, if there is one.
    #[inline(always)]
    pub(crate) fn put_number(&self, name: OpName) -> Option<u32>
        ensures number { (n : ℕ) → (result ≡ Some n) ↔ (slice_get self.now.names n ≡ Some name) }
        ensures put { IfSome result (λ _. (key version : ℕ) × (value : Option (List ℕ)) × (item_at self.now.all name ≡ Some (Put key value version))) }
        ensures none { IfNone result ((key version : ℕ) (value : Option (List ℕ)) → item_at self.now.all name ≢ Some (Put key value version)) }
    {
        self.slots.put_number(name)
    }

    /// The number of the put to which the get of that name refers, if it refers to one.
    #[inline(always)]
    pub(crate) fn source_number(&self, name: OpName) -> Option<u32>
        ensures { IfSome result (NamesPut self.now name) }
    {
        self.slots.source_number(name)
    }

    /// What the put of that name wrote, if there is one.
    fn put_value(&self, name: OpName) -> Option<Option<&Value>>
        ensures value { IfSome result (λ value. option_copied value ≡ value_put self.now.all name) }
        ensures none { IfNone result ((key version : ℕ) (value : Option (List ℕ)) → item_at self.now.all name ≢ Some (Put key value version)) }
    {
        match self.get(name)? {
            StoredOpRef::Put { value, .. } => Some(value),
            _ => None,
        }
    }

    /// Whether the entry of that name is a put of this key, value and version.
    pub(crate) fn is_put(
        &self,
        name: OpName,
        key: u32,
        value: Option<&Value>,
        version: Version,
    ) -> bool
        ensures { IsTrue result ↔ (item_at self.now.all name ≡ Some (Put key (option_copied value.entry) version)) }
    {
        match self.get(name) {
            Some(
                StoredOpRef::Put {
                    key: put_key,
                    value: put_value,
                    version: put_version,
                },
            ) => put_key == key && *put_version == version && is_same_content(put_value, value),
            _ => false,
        }
    }

    /// Whether the one put equals the other, which has this key and version.
    pub(crate) fn is_same_put(&self, put: OpName, other: OpName, key: u32, version: Version) -> bool
        requires { item_at self.now.all other ≡ Some (Put key (value_put self.now.all other) version) }
        ensures { IsTrue result ↔ (item_at self.now.all put ≡ Some (Put key (value_put self.now.all other) version)) }
    {
        if put == other {
            return true;
        }
        match self.put_value(other) {
            Some(value) => self.is_put(put, key, value, version),
            None => false,
        }
    }

    /// The put of that number, if it is the one that a get returned: a put of this key, value and version.
    #[inline(always)]
    pub(crate) fn source(&self, number: u32, got: &Returned<'_>) -> Option<NumberedPut>
        ensures put { IfSome result (λ put. IsReturned self.now.all got.now put.name) }
        ensures number { IfSome result (λ put. slice_get self.now.names put.number ≡ Some put.name) }
    {
        let put = self.puts.get(number as usize)?;
        if put.version == got.version && put.key == got.key && put.has_content(got.value) {
            let name = put.name;
            return Some(NumberedPut { name, number });
        }
        None
    }

    /// Whether there is a put of that number, with this version and a value of `bytes` bytes. It reads both ends of the
    /// stored put, which may lie in two cache lines.
    pub(crate) fn may_be_put(&self, number: u32, bytes: usize, version: Version) -> bool {
        match self.puts.get(number as usize) {
            Some(put) => put.version == version && put.value.as_bytes().len() == bytes,
            None => false,
        }
    }

    /// Fills `to` with all puts and their versions, in the order in which they were added. Allocates nothing if there
    /// is room for them. Fails if memory runs out.
    pub(crate) fn list_puts(&self, to: &mut Vec<VersionedPut>) -> Result<(), AllocError>
        ensures puts { OnOk result (ListsEntries self.now.all to.new.items) }
        ensures names { OnOk result (map (λ p. p.name) to.new.items ≡ self.now.names) }
        ensures few { OnOk result (length to.new.items ≡ length self.now.names) }
        ensures capacity { vec_capacity to.old ≤ vec_capacity to.new }
        ensures succeeds { length self.now.names ≤ vec_capacity to.old → IsOk result }
    {
        to.clear();
        to.reserve(self.puts.len())?;
        add_puts(to, &self.puts);
        Ok(())
    }

    /// Makes room for a client's next entry, and for `more` more puts and gets of all clients. Changes no entry if
    /// memory runs out.
    #[inline(always)]
    pub(crate) fn reserve(&mut self, client: u16, more: usize) -> Result<(), Memory>
        requires { client < length self.old.all }
        ensures keeps { KeepsEntries self.old self.new }
        ensures room { OnOk result (slice_index_or self.new.room client false ≡ true) }
        ensures more_puts { OnOk result (more ≤ self.new.more_puts) }
        ensures more_gets { OnOk result (more ≤ self.new.more_gets) }
    {
        self.puts.reserve(more)?;
        self.gets.reserve(more)?;
        self.slots.reserve(client)
    }

    /// Adds a client's next entry. Allocates nothing: room has to be reserved.
    #[inline(always)]
    #[tactic(auto, using(crate::proofs::Showing::length_shown))]
    pub(crate) fn push(&mut self, client: u16, entry: StoredOp)
        requires inside { client < length self.old.all }
        requires room { slice_index_or self.old.room client false ≡ true }
        requires few { length (slice_index_or self.old.all client []) < MAX_CLIENT_OPS }
        requires more_puts { 0 < self.old.more_puts }
        requires more_gets { 0 < self.old.more_gets }
        requires few_names { length self.old.names < MAX_OPS }
        requires few_gets { length self.old.gets < MAX_OPS }
        requires numbered { IsNumbered self.old.names entry }
        requires source { HasSource self.old.all entry }
        ensures all { self.new.all ≡ with_item self.old.all client entry }
        ensures gains { GainsEntry entry self.old self.new }
        ensures numbers { KeepsNumbers self.old self.new }
        ensures others { KeepsOthersRoom client self.old.room self.new.room }
    {
        let slot = store(&mut self.puts, &mut self.gets, &self.slots, client, entry);
        self.slots.push(client, slot);
    }
}

/// Stores a put, or a get with what it returned, in room that was reserved. Returns the slot of the entry, which comes
/// after those in `slots`.
#[inline(always)]
fn store(
    puts: &mut Vec<KeptPut>,
    gets: &mut Vec<KeptGot>,
    slots: &Slots,
    client: u16,
    entry: StoredOp,
) -> OpSlot
    requires few { length (slice_index_or slots.now.all client []) < MAX_CLIENT_OPS }
    requires more_puts { vec_len puts.old < vec_capacity puts.old }
    requires more_gets { vec_len gets.old < vec_capacity gets.old }
    requires few_puts { length puts.old.items < MAX_OPS }
    requires few_gets { length gets.old.items < MAX_OPS }
    ensures stored { IsStored entry (next_name slots.now.all client) puts.old.items gets.old.items puts.new.items gets.new.items result }
    ensures puts { vec_capacity puts.new ≡ vec_capacity puts.old }
    ensures gets { vec_capacity gets.new ≡ vec_capacity gets.old }
{
    match entry {
        StoredOp::Put {
            key,
            value,
            version,
        } => {
            let number = puts.len() as u32;
            let index = slots.count(client) as u32;
            let (has_value, value) = flagged(*puts.allocator(), value);
            puts.push_reserved(KeptPut {
                name: OpName { client, index },
                key,
                has_value,
                version,
                value,
            });
            OpSlot::Put(number)
        }
        StoredOp::Got {
            key,
            value,
            version,
        } => {
            let number = gets.len() as u32;
            let (has_value, value) = flagged(*gets.allocator(), value);
            gets.push_reserved(KeptGot {
                key,
                has_value,
                version,
                value,
            });
            OpSlot::Got(number)
        }
        StoredOp::Sourced { put, .. } => OpSlot::Sourced(put.number),
        StoredOp::Missed { key } => OpSlot::Missed(key),
    }
}

/// The entry of a slot that refers to these puts and gets.
#[inline(always)]
fn refer<'a>(puts: &'a [KeptPut], gets: &'a [KeptGot], slot: OpSlot) -> StoredOpRef<'a>
    requires { IsThere (length puts.now) (length gets.now) slot }
    ensures entry { referred result ≡ shown puts.now gets.now slot }
    ensures put { IsFrom puts.now result }
{
    match slot {
        OpSlot::Put(number) => {
            let put = &puts[number as usize];
            StoredOpRef::Put {
                key: put.key,
                value: put.content(),
                version: &put.version,
            }
        }
        OpSlot::Sourced(number) => {
            let put = &puts[number as usize];
            StoredOpRef::Sourced {
                key: put.key,
                put: NumberedPut {
                    name: put.name,
                    number,
                },
                value: put.content(),
                version: &put.version,
            }
        }
        OpSlot::Got(number) => {
            let got = &gets[number as usize];
            StoredOpRef::Got {
                key: got.key,
                value: got.content(),
                version: &got.version,
            }
        }
        OpSlot::Missed(key) => StoredOpRef::Missed { key },
    }
}

/// Adds puts with their versions, for which there is room.
fn add_puts(to: &mut Vec<VersionedPut>, puts: &[KeptPut])
    requires empty { to.old.items ≡ [] }
    requires room { length puts.now ≤ vec_capacity to.old }
    ensures puts { to.new.items ≡ map versioned puts.now }
    ensures capacity { vec_capacity to.new ≡ vec_capacity to.old }
{
    for put in puts {
        to.push_reserved(VersionedPut {
            version: put.version,
            name: put.name,
        });
    }
}
