ghost use Rattle.std.specs.Prelude.{◌≡◌, slice_get, option_copied};

use crate::fault::Memory;
use crate::slot::OpSlot;
use std::alloc::Global;
use std::marker::Model;
use std::mem;

/// The number of entries in a full block.
const BLOCK: usize = 64;

/// A list of entries in blocks. It grows without moving the entries of full blocks.
#[derive(Debug, Drop)]
pub(crate) struct Blocks {
    full: Vec<Vec<OpSlot>>,
    last: Vec<OpSlot>,
}

impl Model for Blocks {
    ghost use Rattle.std.specs.Prelude.{◌++◌, nat_lt, vec_len, vec_capacity};
    ghost use Rattle.cops_types.specs.Blocks.{AreBlocks, KeptBlocks, joined};

    ghost Value = { KeptBlocks };

    ghost view = { λ b. record { items = joined b.full.items ++ b.last.items; room = nat_lt (vec_len b.last) (vec_capacity b.last) } };

    ghost invariant = { λ b. AreBlocks b.full.items b.last.items };
}

impl Blocks {
    ghost use Rattle.std.specs.Prelude.{◌≡◌, ◌<◌, ◌++◌, ◌∷◌, [], true, length, slice_get, OnOk, option_copied};
    ghost use Rattle.cops_types.specs.declared.limits.TheConstants.{MAX_CLIENT_OPS};

    /// An empty list. Allocates nothing.
    pub(crate) fn new(alloc: Global) -> Self
        ensures { result.items ≡ [] }
    {
        Blocks {
            full: Vec::new(alloc),
            last: Vec::new(alloc),
        }
    }

    /// How many entries there are.
    pub(crate) fn len(&self) -> usize
        ensures { result ≡ length self.now.items }
    {
        self.full.len() * BLOCK + self.last.len()
    }

    /// The entry at an index, if there is one.
    pub(crate) fn get(&self, index: usize) -> Option<&OpSlot>
        ensures { option_copied result ≡ slice_get self.now.items index }
    {
        match self.full.get(index / BLOCK) {
            Some(block) => entry_at(block, index % BLOCK),
            None => entry_at(&self.last, index - self.full.len() * BLOCK),
        }
    }

    /// Makes room for the next entry, in a new block if the last one is full. Changes no entry if memory runs out.
    pub(crate) fn reserve(&mut self) -> Result<(), Memory>
        ensures same { self.new.items ≡ self.old.items }
        ensures room { OnOk result (self.new.room ≡ true) }
        ensures kept { self.old.room ≡ true → self.new.room ≡ true }
    {
        if self.last.len() == BLOCK && self.last.capacity() == BLOCK {
            self.full.reserve(1)?;
            let next = Vec::with_capacity(*self.full.allocator(), BLOCK)?;
            let block = mem::replace(&mut self.last, next);
            self.full.push(block).unwrap();
        } else {
            self.last.reserve(1)?;
        }
        Ok(())
    }

    /// Adds the next entry, in room that was reserved. Allocates nothing.
    pub(crate) fn push(&mut self, slot: OpSlot)
        requires room { self.old.room ≡ true }
        requires few { length self.old.items < MAX_CLIENT_OPS }
        ensures { self.new.items ≡ self.old.items ++ slot ∷ [] }
    {
        self.last.push(slot).unwrap();
    }
}

/// The entry at an index, if there is one.
fn entry_at(entries: &[OpSlot], index: usize) -> Option<&OpSlot>
    ensures { option_copied result ≡ slice_get entries.now index }
{
    entries.get(index)
}
