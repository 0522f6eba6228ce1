ghost use Rattle.std.specs.Prelude.{◌≡◌, slice_get};
ghost use Rattle.cops_store.specs.Places.{is_above, chosen};

use crate::place::KeyPlace;
use crate::settled::Settled;
use cops_types::{Key, Memory, Value, Version};
use indexmap::IndexMap;
use std::alloc::Global;
use std::marker::Model;

/// The settled pairs of a node with their contents, in the order in which they were settled. A pair without a value is
/// a deletion. Each call costs look-ups in hash maps, whatever the number of pairs.
#[derive(Drop)]
pub struct Store {
    /// Each key with the place of the pair that it shows.
    keys: IndexMap<Key, usize>,
    pairs: IndexMap<KeyPlace, Option<Value>>,
}

impl Model for Store {
    ghost use Rattle.std.specs.Prelude.{◌&&◌, nat_lt};
    ghost use Rattle.indexmap.specs.IndexMap.{spare};
    ghost use Rattle.cops_store.specs.Settling.{AStore};
    ghost use Rattle.cops_store.specs.Index.{IsIndex, settled_in};

    ghost Value = { AStore };

    ghost view = { λ s. record { settled = settled_in s.keys.entries s.pairs.entries; room = nat_lt 0 (spare s.keys) && nat_lt 0 (spare s.pairs) } };

    ghost invariant = { λ s. IsIndex s.keys.entries s.pairs.entries };
}

impl Store {
    ghost use Rattle.std.specs.Prelude.{◌≡◌, length, [], true, false, IsOk, IfOk, OnOk, OnErr, option_copied};
    ghost use Rattle.std.specs.Option.{option_map};
    ghost use Rattle.cops_store.specs.Store.{has_pair, with_settled, shown};
    ghost use Rattle.cops_store.specs.Settling.{shown_keys, settling};

    /// An empty store. It allocates no memory.
    pub fn new(alloc: Global) -> Self
        ensures { result.settled ≡ [] }
    {
        Store {
            keys: IndexMap::new(alloc),
            pairs: IndexMap::new(alloc),
        }
    }

    /// Whether exactly this pair was settled.
    pub fn has(&self, key: &Key, version: Version) -> bool
        ensures { result ≡ has_pair self.now.settled (record { key = key.now; version = version }) }
    {
        match self.keys.get_index_of(key) {
            Some(at) => self.pairs.contains_key(&KeyPlace { key: at, version }),
            None => false,
        }
    }

    /// What the key shows: the greatest version that was settled on it, with its value, or without a value where that
    /// is a deletion. `None` where nothing was settled on it.
    pub fn get(&self, key: &Key) -> Option<(Option<&Value>, Version)>
        ensures { option_map (λ r. record { key = key.now; value = option_copied r.0; version = r.1 }) result ≡ shown self.now.settled key.now }
    {
        let at = *self.keys.get(key)?;
        let (place, value) = self.pairs.get_index(at)?;
        Some((value.as_ref(), place.version))
    }

    /// The number of keys that show a value or a deletion.
    pub fn keys(&self) -> usize
        ensures { result ≡ length (shown_keys self.now.settled) }
    {
        self.keys.len()
    }

    /// The number of settled pairs.
    pub fn settled(&self) -> usize
        ensures { result ≡ length self.now.settled }
    {
        self.pairs.len()
    }

    /// Makes room for one more pair, so that the next `settle` allocates no memory. An error, which is `Memory`,
    /// changes nothing.
    pub fn reserve(&mut self) -> Result<(), Memory>
        ensures same { self.new.settled ≡ self.old.settled }
        ensures room { OnOk result (self.new.room ≡ true) }
        ensures no_need { self.old.room ≡ true → IsOk result }
    {
        self.keys.reserve(1)?;
        self.pairs.reserve(1)?;
        Ok(())
    }

    /// Settles a pair, which is a deletion where there is no value. Settling a pair again changes nothing, and
    /// allocates no memory. A new pair is appended, and its key shows it unless it shows a greater version. An error,
    /// which is `Memory`, changes nothing.
    pub fn settle(
        &mut self,
        key: Key,
        value: Option<Value>,
        version: Version,
    ) -> Result<Settled, Memory>
        ensures ok { IfOk result (λ settled. settled ≡ settling self.old.settled (record { key = key; value = value; version = version })) }
        ensures after { OnOk result (self.new.settled ≡ with_settled self.old.settled (record { key = key; value = value; version = version })) }
        ensures err { OnErr result (self.new.settled ≡ self.old.settled) }
        ensures reserved { self.old.room ≡ true → IsOk result }
        ensures there { has_pair self.old.settled (record { key = key; version = version }) ≡ true → IsOk result }
    {
        if self.has(&key, version) {
            return Ok(Settled::Repeat);
        }
        self.reserve()?;
        Ok(self.add(key, value, version))
    }

    /// Settles a pair that is not settled yet.
    fn add(&mut self, key: Key, value: Option<Value>, version: Version) -> Settled
        requires room { self.old.room ≡ true }
        requires new { has_pair self.old.settled (record { key = key; version = version }) ≡ false }
        ensures answer { result ≡ settling self.old.settled (record { key = key; value = value; version = version }) }
        ensures after { self.new.settled ≡ with_settled self.old.settled (record { key = key; value = value; version = version }) }
    {
        let (settled, shown) = chosen(&self.pairs, self.keys.get(&key).copied(), version);
        let (at, _) = self.keys.insert_full(key, shown).unwrap();
        let _none = self
            .pairs
            .insert(KeyPlace { key: at, version }, value)
            .unwrap();
        settled
    }
}

/// The result of settling a new pair, and the place of the pair that its key shows afterwards, from the place of the
/// pair that it shows now.
fn chosen(
    pairs: &IndexMap<KeyPlace, Option<Value>>,
    shown: Option<usize>,
    version: Version,
) -> (Settled, usize)
    ensures { result ≡ chosen pairs.now.entries version shown }
{
    match shown {
        Some(at) if is_above(pairs, at, version) => (Settled::Older, at),
        _ => (Settled::Shown, pairs.len()),
    }
}

/// Whether the pair at this place has a greater version.
fn is_above(pairs: &IndexMap<KeyPlace, Option<Value>>, at: usize, version: Version) -> bool
    ensures { result ≡ is_above version (slice_get pairs.now.entries at) }
{
    match pairs.get_index(at) {
        Some((place, _)) => version < place.version,
        None => false,
    }
}
