use crate::keys::{link, set_firsts, set_keys};
use cops_types::{History, VersionedPut};
use std::alloc::{AllocError, Global};

/// The puts by their keys: for each put the next one on its key, or past the end where there is none; for each key, by
/// its number, the first put on it; and for each put the first one on its key.
#[derive(Drop)]
pub struct KeyIndex {
    pub nexts: Vec<u32>,
    pub by_key: Vec<Option<u32>>,
    pub firsts: Vec<u32>,
}

impl KeyIndex {
    ghost use Rattle.std.specs.Prelude.{◌≤◌, ℕ, IfOk, IsOk, OnOk, length};
    ghost use Rattle.cops_types.specs.Counts.{count_of};
    ghost use Rattle.cops_audit.specs.KeyIndexes.{HasCapacity, IsKeyIndex};
    ghost use Rattle.cops_audit.specs.Placing.{ArePutPlaces};
    ghost use Rattle.cops_audit.specs.Tables.{IsVersionTable};

    /// Nothing, without capacity.
    pub fn empty(alloc: Global) -> Self {
        KeyIndex {
            nexts: Vec::new(alloc),
            by_key: Vec::new(alloc),
            firsts: Vec::new(alloc),
        }
    }

    /// The puts of a table by their keys, in new vectors.
    pub fn new(
        alloc: Global,
        history: &History,
        table: &[VersionedPut],
        places: &[u32],
    ) -> Result<Self, AllocError>
        requires table { IsVersionTable history.now.sessions table.now }
        requires places { ArePutPlaces history.now.puts table.now places.now }
        ensures { IfOk result (IsKeyIndex history.now table.now) }
    {
        let mut keys = KeyIndex::empty(alloc);
        keys.fill(history, table, places)?;
        Ok(keys)
    }

    /// Lists the puts of a table by their keys. It allocates nothing where the capacity is at least the number of
    /// operations.
    pub fn fill(
        &mut self,
        history: &History,
        table: &[VersionedPut],
        places: &[u32],
    ) -> Result<(), AllocError>
        requires table { IsVersionTable history.now.sessions table.now }
        requires places { ArePutPlaces history.now.puts table.now places.now }
        ensures index { OnOk result (IsKeyIndex history.now table.now self.new) }
        ensures capacity { (count : ℕ) → HasCapacity count self.old → OnOk result (HasCapacity count self.new) }
        ensures succeeds { length table.now ≤ count_of history.now.sessions → HasCapacity (count_of history.now.sessions) self.old → IsOk result }
    {
        // `firsts` holds the numbers of the puts' keys until `set_firsts` overwrites it.
        set_keys(&mut self.firsts, history, table, places)?;
        link(
            &mut self.nexts,
            &mut self.by_key,
            history,
            table,
            self.firsts.as_slice(),
        )?;
        set_firsts(&mut self.firsts, table, self.nexts.as_slice())?;
        Ok(())
    }
}
