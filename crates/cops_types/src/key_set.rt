use crate::fault::Memory;
use crate::key::Key;
use crate::op_view::KeyView;
use indexmap::IndexSet;
use std::alloc::Global;
use std::marker::Model;

/// Keys, each once, in the order in which they were added. A key's number is its index.
#[derive(Debug, Drop)]
pub(crate) struct KeySet {
    keys: IndexSet<Key>,
}

impl Model for KeySet {
    ghost use Rattle.indexmap.specs.IndexSet.{spare};
    ghost use Rattle.cops_types.specs.KeySets.{KeptKeys};

    ghost Value = { KeptKeys };

    ghost view = { λ a. record { keys = a.keys.keys; spare = spare a.keys } };
}

impl KeySet {
    ghost use Rattle.std.specs.Prelude.{◌≡◌, ◌↔◌, ◌<◌, ◌≤◌, [], length, slice_index_or, slice_get, Some, IsTrue, OnOk};
    ghost use Rattle.cops_types.specs.KeySets.{AreDistinct, GainsKey};
    ghost use Rattle.cops_types.specs.declared.limits.TheConstants.{MAX_OPS};

    /// No keys. Allocates nothing.
    pub(crate) fn new(alloc: Global) -> Self
        ensures { result.keys ≡ [] }
    {
        KeySet {
            keys: IndexSet::new(alloc),
        }
    }

    /// How many keys there are.
    pub(crate) fn len(&self) -> usize
        ensures { result ≡ length self.now.keys }
    {
        self.keys.len()
    }

    /// The keys, in the order of their numbers.
    pub(crate) fn as_slice(&self) -> &[Key] {
        self.keys.as_slice()
    }

    /// The key of that number.
    pub(crate) fn key(&self, number: u32) -> &Key
        requires { number < length self.now.keys }
        ensures { result.now ≡ slice_index_or self.now.keys number [] }
    {
        &self.keys.as_slice()[number as usize]
    }

    /// Makes room for `more` more keys. Changes no key if memory runs out.
    pub(crate) fn reserve(&mut self, more: usize) -> Result<(), Memory>
        ensures same { self.new.keys ≡ self.old.keys }
        ensures ok { OnOk result (more ≤ self.new.spare) }
        ensures kept { self.old.spare ≤ self.new.spare }
    {
        self.keys.reserve(more)?;
        Ok(())
    }

    /// Whether there is a key of that number, of the same length and with the same first byte as this one. It reads
    /// both ends of the stored key, which may lie in two cache lines.
    pub(crate) fn may_be_at(&self, number: u32, key: &KeyView<'_>) -> bool {
        match self.keys.as_slice().get(number as usize) {
            Some(there) => {
                let (bytes, other) = (there.as_bytes(), key.as_bytes());
                bytes.len() == other.len() && bytes.first() == other.first()
            }
            None => false,
        }
    }

    /// Whether there is a key of that number and it is this one.
    pub(crate) fn is_at(&self, number: u32, key: &KeyView<'_>) -> bool
        ensures { IsTrue result ↔ (slice_get self.now.keys number ≡ Some key.now) }
    {
        match self.keys.as_slice().get(number as usize) {
            Some(there) => there.is_seen(key),
            None => false,
        }
    }

    /// The number of a key, which is added if it is new. Allocates nothing: room has to be reserved.
    #[inline(never)]
    pub(crate) fn number(&mut self, key: Key) -> u32
        requires few { length self.old.keys < MAX_OPS }
        requires room { 0 < self.old.spare }
        requires distinct { AreDistinct self.old.keys }
        ensures found { slice_get self.new.keys result ≡ Some key }
        ensures gains { GainsKey self.old self.new }
    {
        let (number, _) = self.keys.insert_full(key).unwrap();
        number as u32
    }
}
