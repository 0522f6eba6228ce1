ghost use Rattle.cops_types.specs.declared.limits.TheConstants.{MAX_CLIENT_OPS, MAX_OPS};
ghost use Rattle.cops_types.specs.KeySets.{AreDistinct};

use crate::adding::{borrowed_entry, entry_of};
use crate::entries::Entries;
use crate::entry::StoredOpRef;
use crate::fault::{Memory, TypeFault};
use crate::key_set::KeySet;
use crate::limits::{MAX_CLIENT_OPS, MAX_OPS};
use crate::lookup::Lookup;
use crate::maxima::Maxima;
use crate::op::{Op, OpName};
use crate::op_ref::OpRef;
use crate::op_view::OpView;
use crate::session_ref::SessionRef;
use crate::version::Version;
use crate::versioned_put::VersionedPut;
use std::alloc::{AllocError, Global};
use std::marker::Model;

/// A history (POPL 2017, section 3): a session for each client, each the list of its operations. There are at most
/// 65,535 clients, 1,000,000 operations of one client and 16,000,000 in all. Each key is stored once. A get that refers
/// to its put does not store the value again.
#[derive(Debug, Drop)]
pub struct History {
    keys: KeySet,
    entries: Entries,
    reserved: Vec<bool>,
    reservations: usize,
    len: usize,
    maxima: Maxima,
    lookup: Lookup,
}

impl Model for History {
    ghost use Rattle.cops_types.specs.Recorded.{Recorded};
    ghost use Rattle.std.specs.Prelude.{map};
    ghost use Rattle.cops_types.specs.Entries.{reported, reported_by};
    ghost use Rattle.cops_types.specs.Keeping.{IsKept};

    ghost Value = { Recorded };

    ghost view = { λ a. record {
      sessions = reported_by a.keys.keys a.entries.all;
      room = a.reserved.items;
      keys = a.keys.keys;
      puts = a.entries.names;
      gets = map (reported a.keys.keys a.entries.all) a.entries.gets;
      get_numbers = a.entries.get_numbers;
    } };

    ghost invariant = { λ a. IsKept a.keys a.entries a.maxima a.reserved.items a.reservations a.len };
}

impl History {
    ghost use Rattle.std.specs.Prelude.{◌≡◌, ◌≢◌, ◌≤◌, ◌<◌, ◌↔◌, ◌⊎◌, ℕ, length, map, slice_index_or, slice_get, [], Some, OnOk, OnErr, OnSome, IfOk, IfErr, IfSome, IfNone, IsOk, IsErrOf, IsTrue, replicate, false, vec_capacity, ◌==◌};
    ghost use Rattle.std.specs.Option.{option_map, option_and_then};
    ghost use Rattle.cops_types.specs.Histories.{Puts, PutsVersion, SourceStep, op_at, with_op};
    ghost use Rattle.cops_types.specs.declared.op.OpName.{OpName};
    ghost use Rattle.cops_types.specs.Operations.{GetsVersion, key_of, operation_of};
    ghost use Rattle.cops_types.specs.OpRefs.{seen};
    ghost use Rattle.cops_types.specs.OpViews.{viewed};
    ghost use Rattle.cops_types.specs.Counts.{count_of, put_count};
    ghost use Rattle.cops_types.specs.PutLists.{AreAllPuts};
    ghost use Rattle.cops_types.specs.Recorded.{AreNumbered, ArePendingOrSourced, IsFull, IsPendingAt, IsWithinLimits, HasRoom, KeepsPending};
    ghost use Rattle.cops_types.specs.TypeFaults.{IsHistoryFault};
    ghost use Rattle.cops_types.specs.Faults.{IsNotAbove};
    ghost use Rattle.cops_types.specs.Lists.{number_at};
    ghost use Rattle.cops_types.specs.Maxima.{HasNotAbove, IsSessionAbove};
    ghost use Rattle.cops_types.specs.Verdicts.{AllAbove};

    /// A history of `clients` clients, each with an empty session. Fails if memory runs out.
    pub fn new(alloc: Global, clients: u16) -> Result<Self, Memory>
        ensures { IfOk result (λ history. history.sessions ≡ replicate clients []) }
    {
        let entries = Entries::new(alloc, clients)?;
        let maxima = Maxima::new(alloc, clients)?;
        let reserved = vec![in alloc; false; clients as usize]?;
        Ok(History {
            keys: KeySet::new(alloc),
            entries,
            reserved,
            reservations: 0,
            len: 0,
            maxima,
            lookup: Lookup::new(alloc),
        })
    }

    /// Makes room for the client's next operation, so that its `push` allocates nothing. Errors: `UnknownClient` if
    /// there is no such client, then `TooManyOps` if the client has 1,000,000 operations or there are 16,000,000, then
    /// `Memory` if memory runs out.
    #[inline(always)]
    pub fn reserve(&mut self, client: u16) -> Result<(), TypeFault>
        ensures same { self.new.sessions ≡ self.old.sessions }
        ensures pending { KeepsPending self.old self.new }
        ensures room { OnOk result (HasRoom self.new client) }
        ensures admitted { OnOk result (client < length self.old.sessions
            × length (slice_index_or self.old.sessions client []) < MAX_CLIENT_OPS × count_of self.old.sessions < MAX_OPS) }
        ensures others { (c : ℕ) → HasRoom self.old c → HasRoom self.new c }
        ensures unknown { IsErrOf result TypeFault.UnknownClient ↔ (length self.old.sessions ≤ client) }
        ensures too_many { IsErrOf result TypeFault.TooManyOps ↔ (client < length self.old.sessions × IsFull self.old.sessions client) }
        ensures only { IfErr result IsHistoryFault }
    {
        self.admit(client)?;
        self.hold(client).or(Err(TypeFault::Memory))?;
        Ok(())
    }

    /// Adds a client's next operation. Errors: `UnknownClient` if there is no such client, then `TooManyOps` if the
    /// client has 1,000,000 operations or there are 16,000,000, then `Memory` if memory runs out. An error changes
    /// nothing.
    #[inline(always)]
    pub fn push(&mut self, client: u16, op: Op) -> Result<(), TypeFault>
        ensures ok { OnOk result (self.new.sessions ≡ with_op self.old.sessions client (operation_of op)) }
        ensures err { OnErr result (self.new.sessions ≡ self.old.sessions) }
        ensures others { (c : ℕ) → c ≢ client → HasRoom self.old c → HasRoom self.new c }
        ensures unknown { IsErrOf result TypeFault.UnknownClient ↔ (length self.old.sessions ≤ client) }
        ensures too_many { IsErrOf result TypeFault.TooManyOps ↔ (client < length self.old.sessions × IsFull self.old.sessions client) }
        ensures reserved { HasRoom self.old client → ¬ IsErrOf result TypeFault.Memory }
        ensures pending { KeepsPending self.old self.new }
        ensures only { IfErr result IsHistoryFault }
    {
        self.admit(client)?;
        self.hold(client).or(Err(TypeFault::Memory))?;
        self.put_in(client, op);
        Ok(())
    }

    /// Whether prefetching is useful. If not, the memory that later operations need is in the caches anyway.
    pub fn looks_ahead(&self) -> bool {
        self.lookup.looks_ahead(&self.keys)
    }

    /// Prefetches the memory that these operations need, on the assumption that they are added next and in this order.
    /// The history does not change.
    pub fn prefetch(&mut self, coming: &[OpView<'_>])
        ensures { self.new ≡ self.old }
    {
        self.lookup.prefetch(&self.keys, &self.entries, coming);
    }

    /// Drops the candidates that only speed up adding operations. The history does not change.
    pub fn forget_candidates(&mut self)
        ensures { self.new ≡ self.old }
    {
        self.lookup.forget();
    }

    /// Whether the client may have one more operation.
    fn admit(&self, client: u16) -> Result<(), TypeFault>
        ensures ok { OnOk result (client < length self.now.sessions
            × length (slice_index_or self.now.sessions client []) < MAX_CLIENT_OPS × count_of self.now.sessions < MAX_OPS) }
        ensures unknown { IsErrOf result TypeFault.UnknownClient ↔ (length self.now.sessions ≤ client) }
        ensures too_many { IsErrOf result TypeFault.TooManyOps ↔ (client < length self.now.sessions × IsFull self.now.sessions client) }
        ensures only { IfErr result IsHistoryFault }
        ensures no_memory { ¬ IsErrOf result TypeFault.Memory }
    {
        if client as usize >= self.clients() {
            return Err(TypeFault::UnknownClient);
        }
        if self.session_len(client) >= MAX_CLIENT_OPS || self.len >= MAX_OPS {
            return Err(TypeFault::TooManyOps);
        }
        Ok(())
    }

    /// Reserves room for the client's next operation, among its entries and among the keys, unless it is reserved.
    #[inline(always)]
    fn hold(&mut self, client: u16) -> Result<(), Memory>
        requires { client < length self.old.sessions }
        ensures same { self.new.sessions ≡ self.old.sessions }
        ensures room { OnOk result (HasRoom self.new client) }
        ensures others { (c : ℕ) → HasRoom self.old c → HasRoom self.new c }
        ensures held { HasRoom self.old client → IsOk result }
        ensures pending { KeepsPending self.old self.new }
    {
        if self.reserved[client as usize] {
            return Ok(());
        }
        self.hold_again(client)
    }

    /// Like `hold`, where no room is reserved yet.
    #[inline(always)]
    fn hold_again(&mut self, client: u16) -> Result<(), Memory>
        requires inside { client < length self.old.sessions }
        requires none { slice_index_or self.old.room client false ≡ false }
        ensures same { self.new.sessions ≡ self.old.sessions }
        ensures pending { KeepsPending self.old self.new }
        ensures room { OnOk result (HasRoom self.new client) }
        ensures others { (c : ℕ) → HasRoom self.old c → HasRoom self.new c }
    {
        let more = self.reservations + 1;
        self.entries.reserve(client, more)?;
        self.keys.reserve(more)?;
        self.lookup.grow(&self.keys, self.len);
        self.reserved[client as usize] = true;
        self.reservations = more;
        Ok(())
    }

    /// Adds the operation, in the room that is reserved for it.
    #[inline(always)]
    fn put_in(&mut self, client: u16, op: Op)
        requires inside { client < length self.old.sessions }
        requires session { length (slice_index_or self.old.sessions client []) < MAX_CLIENT_OPS }
        requires all { count_of self.old.sessions < MAX_OPS }
        requires room { HasRoom self.old client }
        ensures ok { self.new.sessions ≡ with_op self.old.sessions client (operation_of op) }
        ensures pending { KeepsPending self.old self.new }
        ensures others { (c : ℕ) → c ≢ client → HasRoom self.old c → HasRoom self.new c }
    {
        let entry = entry_of(&mut self.keys, &mut self.lookup, &self.entries, op);
        self.maxima.take_in(client, &entry);
        self.entries.push(client, entry);
        self.reserved[client as usize] = false;
        self.reservations -= 1;
        self.len += 1;
    }

    /// Adds the client's next operation from borrowed bytes, in the room that `reserve` made. Copies what is new of it.
    /// Changes nothing if memory runs out.
    #[inline(always)]
    pub fn push_borrowed(&mut self, client: u16, op: &OpView<'_>) -> Result<(), Memory>
        requires inside { client < length self.old.sessions }
        requires session { length (slice_index_or self.old.sessions client []) < MAX_CLIENT_OPS }
        requires all { count_of self.old.sessions < MAX_OPS }
        requires room { HasRoom self.old client }
        ensures ok { OnOk result (self.new.sessions ≡ with_op self.old.sessions client (viewed op.now)) }
        ensures err { OnErr result (self.new.sessions ≡ self.old.sessions) }
        ensures pending { KeepsPending self.old self.new }
        ensures others { (c : ℕ) → c ≢ client → HasRoom self.old c → HasRoom self.new c }
    {
        let alloc = *self.reserved.allocator();
        let place = client as usize;
        let entry = borrowed_entry(alloc, &mut self.keys, &mut self.lookup, &self.entries, op)?;
        self.maxima.take_in(client, &entry);
        self.entries.push(client, entry);
        self.reserved[place] = false;
        self.reservations -= 1;
        self.len += 1;
        Ok(())
    }

    /// How many clients there are, at most 65,535.
    pub fn clients(&self) -> usize
        ensures count { result ≡ length self.now.sessions }
        ensures limits { IsWithinLimits self.now.sessions }
    {
        self.entries.clients()
    }

    /// How many operations there are, at most 16,000,000.
    pub fn len(&self) -> usize
        ensures count { result ≡ count_of self.now.sessions }
        ensures limits { IsWithinLimits self.now.sessions }
    {
        self.len
    }

    /// The number of puts. Their numbers are those below it.
    pub fn puts(&self) -> usize
        ensures count { result ≡ put_count self.now.sessions }
        ensures numbers { result ≡ length self.now.puts }
    {
        self.entries.puts()
    }

    /// Fills `to` with all puts and their versions, in the order of their numbers. Allocates nothing if there is room
    /// for as many as there are operations. Fails if memory runs out.
    pub fn list_puts(&self, to: &mut Vec<VersionedPut>) -> Result<(), AllocError>
        ensures puts { OnOk result (AreAllPuts self.now.sessions to.new.items) }
        ensures numbers { OnOk result (map (λ p. p.name) to.new.items ≡ self.now.puts) }
        ensures few { OnOk result (length to.new.items ≤ count_of self.now.sessions) }
        ensures limits { IsWithinLimits self.now.sessions }
        ensures capacity { vec_capacity to.old ≤ vec_capacity to.new }
        ensures succeeds { count_of self.now.sessions ≤ vec_capacity to.old → IsOk result }
    {
        self.entries.list_puts(to)?;
        Ok(())
    }

    /// The number of pending reads: gets whose puts the history had not found when the gets were added. They are
    /// numbered from 0 in that order, and each keeps its number. Each other get that returned something has its source
    /// in the history.
    pub fn pending_reads(&self) -> usize
        ensures count { result ≡ length self.now.gets }
        ensures few { result ≤ count_of self.now.sessions }
        ensures limits { IsWithinLimits self.now.sessions }
        ensures others { ArePendingOrSourced self.now }
        ensures numbered { AreNumbered self.now.get_numbers result }
    {
        self.entries.gets()
    }

    /// The pending read of that number, if there is one.
    pub fn pending_read(&self, number: u32) -> Option<OpRef<'_>>
        ensures { option_map seen result ≡ slice_get self.now.gets number }
    {
        let got = self.entries.kept_get(number)?;
        Some(OpRef::Got {
            key: self.keys.key(got.key),
            value: got.content(),
            version: &got.version,
        })
    }

    /// The number of the get of that name among the pending reads, if it is one. If it is none and the get returned
    /// something, its source is in the history.
    #[inline(always)]
    pub fn pending_number(&self, got: OpName) -> Option<u32>
        ensures pending { IfSome result (λ number. IsPendingAt self.now number got) }
        ensures none { IfNone result ((version : ℕ) → GetsVersion self.now.sessions got version → (put : OpName) × SourceStep self.now.sessions put got) }
        ensures numbered { result ≡ number_at self.now.get_numbers got }
    {
        self.entries.get_number(got)
    }

    /// Whether the version of each put is greater than those of all that its session put or got before it.
    pub fn are_puts_above(&self) -> bool
        ensures above { IsTrue result → AllAbove self.now.sessions }
        ensures not_above { ¬ IsTrue result → (name : OpName) × (earlier : OpName) × IsNotAbove self.now.sessions name earlier }
    {
        self.maxima.are_above()
    }

    /// Like `are_puts_above`, for the puts of one client. False if there is no such client.
    pub fn is_session_above(&self, client: u16) -> bool
        ensures there { IsTrue result → client < length self.now.sessions }
        ensures above { IsTrue result → IsSessionAbove self.now.sessions client }
        ensures not_above { ¬ IsTrue result → client < length self.now.sessions → HasNotAbove self.now.sessions client }
    {
        self.maxima.is_above(client)
    }

    /// Whether there is no operation.
    pub fn is_empty(&self) -> bool
        ensures { result ≡ (count_of self.now.sessions == 0) }
    {
        self.len == 0
    }

    /// The number of a client's operations, at most 1,000,000, and 0 if there is no such client.
    pub fn session_len(&self, client: u16) -> usize
        ensures count { result ≡ length (slice_index_or self.now.sessions client []) }
        ensures limit { result ≤ MAX_CLIENT_OPS }
    {
        self.entries.session_len(client)
    }

    /// A client's session, which is empty if there is no such client.
    pub fn session(&self, client: u16) -> SessionRef<'_>
        ensures { result ≡ slice_index_or self.now.sessions client [] }
    {
        SessionRef::new(self, client)
    }

    /// The number of different keys of all operations: at most the number of operations.
    pub fn keys(&self) -> usize
        ensures count { result ≡ length self.now.keys }
        ensures few { result ≤ count_of self.now.sessions }
        ensures distinct { AreDistinct self.now.keys }
    {
        self.keys.len()
    }

    /// The operation of that name, if there is one.
    pub fn op(&self, name: OpName) -> Option<OpRef<'_>>
        ensures operation { option_map seen result ≡ op_at self.now.sessions name }
        ensures limit { OnSome result (name.index < MAX_CLIENT_OPS) }
    {
        let entry = self.entries.get(name)?;
        Some(entry.with_key(self.keys.key(entry.key())))
    }

    /// The number of the key of that name's operation, if there is one: below `keys`.
    pub fn key_number(&self, name: OpName) -> Option<u32>
        ensures key { option_and_then (slice_get self.now.keys) result ≡ option_map key_of (op_at self.now.sessions name) }
        ensures within { IfSome result (λ number. number < length self.now.keys) }
    {
        Some(self.entries.get(name)?.key())
    }

    /// The version of the put of that name, or nothing if there is no put of that name. It reads neither key nor value.
    pub fn put_version(&self, name: OpName) -> Option<Version>
        ensures put { IfSome result (λ v. PutsVersion self.now.sessions name v) }
        ensures none { IfNone result ((v : ℕ) → ¬ PutsVersion self.now.sessions name v) }
    {
        match self.entries.get(name)? {
            StoredOpRef::Put { version, .. } => Some(*version),
            _ => None,
        }
    }

    /// The version that the get of that name returned, or nothing if there is no get of that name or it missed. It
    /// reads neither key nor value.
    pub fn got_version(&self, name: OpName) -> Option<Version>
        ensures got { IfSome result (λ v. GetsVersion self.now.sessions name v) }
        ensures none { IfNone result ((v : ℕ) → ¬ GetsVersion self.now.sessions name v) }
    {
        match self.entries.get(name)? {
            StoredOpRef::Got { version, .. } => Some(*version),
            StoredOpRef::Sourced { version, .. } => Some(*version),
            _ => None,
        }
    }

    /// The number of the put of that name, if there is one: puts are numbered from 0 in the order in which they came.
    #[inline(always)]
    pub fn put_number(&self, name: OpName) -> Option<u32>
        ensures number { (n : ℕ) → (result ≡ Some n) ↔ (slice_get self.now.puts n ≡ Some name) }
        ensures put { IfSome result (λ _. Puts self.now.sessions name) }
        ensures none { IfNone result (¬ Puts self.now.sessions name) }
    {
        self.entries.put_number(name)
    }

    /// The number of the put that the get of that name returned: its key, its value and its version. Nothing if the
    /// history had not found the put when the get was added, which says nothing about the get.
    #[inline(always)]
    pub fn source_number(&self, got: OpName) -> Option<u32>
        ensures { IfSome result (λ n. (put : OpName) × (slice_get self.now.puts n ≡ Some put) × SourceStep self.now.sessions put got) }
    {
        self.entries.source_number(got)
    }

    /// Whether `put` is a put, and `got` a get that returned it: its key, its value and its version.
    pub fn is_source(&self, put: OpName, got: OpName) -> bool
        ensures source { IsTrue result ↔ SourceStep self.now.sessions put got }
        ensures limit { IsTrue result → put.index < MAX_CLIENT_OPS }
    {
        let Some(entry) = self.entries.get(got) else {
            return false;
        };
        match entry {
            StoredOpRef::Sourced {
                key,
                put: source,
                version,
                ..
            } => self.entries.is_same_put(put, source.name, key, *version),
            StoredOpRef::Got {
                key,
                value,
                version,
            } => self.entries.is_put(put, key, value, *version),
            StoredOpRef::Put { .. } | StoredOpRef::Missed { .. } => false,
        }
    }
}
