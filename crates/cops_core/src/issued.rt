ghost use Rattle.std.specs.Prelude.{◌≡◌};

use cops_types::{Memory, PutRecord, Version};
use indexmap::IndexMap;
use std::alloc::Global;
use std::marker::Model;

/// The issued puts, in the order of issue. A put is found by its version in one look-up.
#[derive(Drop)]
pub struct Issued {
    puts: IndexMap<Version, PutRecord>,
}

impl Model for Issued {
    ghost use Rattle.std.specs.Prelude.{nat_lt};
    ghost use Rattle.indexmap.specs.IndexMap.{spare, values};
    ghost use Rattle.cops_core.specs.Parts.{Puts, AreByVersion};

    ghost Value = { Puts };

    ghost view = { λ i. record { puts = values i.puts; room = nat_lt 0 (spare i.puts) } };

    ghost invariant = { λ i. AreByVersion i.puts.entries };
}

impl Issued {
    ghost use Rattle.std.specs.Prelude.{◌≡◌, ◌++◌, ◌∷◌, [], true, None, OnOk, length, option_copied, slice_get};
    ghost use Rattle.cops_core.specs.World.{sent};

    /// No puts. Allocates nothing.
    pub fn new(alloc: Global) -> Self
        ensures { result.puts ≡ [] }
    {
        Issued {
            puts: IndexMap::new(alloc),
        }
    }

    /// The put of this version, if there is one.
    pub fn find(&self, version: Version) -> Option<&PutRecord>
        ensures { option_copied result ≡ sent self.now.puts version }
    {
        self.puts.get(&version)
    }

    /// How many puts there are.
    pub fn len(&self) -> usize
        ensures { result ≡ length self.now.puts }
    {
        self.puts.len()
    }

    /// The put at an index in the order of issue, if there is one.
    pub fn at(&self, place: usize) -> Option<&PutRecord>
        ensures { option_copied result ≡ slice_get self.now.puts place }
    {
        match self.puts.get_index(place) {
            Some((_, put)) => Some(put),
            None => None,
        }
    }

    /// Makes room for one more put, so that the next `push` allocates nothing. Changes no put if memory runs out.
    pub fn reserve(&mut self) -> Result<(), Memory>
        ensures same { self.new.puts ≡ self.old.puts }
        ensures room { OnOk result (self.new.room ≡ true) }
    {
        self.puts.reserve(1)?;
        Ok(())
    }

    /// Adds a put, whose version no other put may have. Room has to be reserved.
    pub fn push(&mut self, put: PutRecord)
        requires room { self.old.room ≡ true }
        requires new { sent self.old.puts put.version ≡ None }
        ensures { self.new.puts ≡ self.old.puts ++ put ∷ [] }
    {
        let _none = self.puts.insert(put.version, put).unwrap();
    }
}
