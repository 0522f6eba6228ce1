ghost use Rattle.cops_types.specs.declared.limits.TheConstants.{MAX_OPS};
ghost use Rattle.std.specs.Prelude.{◌≤◌, IfOk, OnOk, replicate, vec_capacity, [], ◌≡◌};
ghost use Rattle.cops_audit.specs.Rooms.{IsReady};

use crate::flat::FlatSummaries;
use crate::key_index::KeyIndex;
use crate::sweep::{OpRange, Sweep};
use crate::window::Suspect;
use cops_types::{History, VersionedPut};
use std::alloc::{AllocError, Global};

/// The vectors that the search for faults fills, with capacity for a history as it grows: together with the causal
/// summaries 88 bytes for each operation. A vector doubles as it grows, so up to twice as much may be reserved. The
/// memory is not touched until the search.
#[derive(Drop)]
pub struct Scratch {
    /// The number of operations that the capacity is for.
    pub space: usize,
    pub table: Vec<VersionedPut>,
    pub places: Vec<u32>,
    pub keys: KeyIndex,
    pub suspects: Vec<Suspect>,
    pub floors: Vec<u32>,
    pub sweep: Sweep,
}

/// The least capacity, in operations, once there is any. Vectors of this size have memory pages of their own, which the
/// system can enlarge without copying what was never written.
const LEAST_SPACE: usize = 32_768;

/// Empties a vector and reserves capacity for `count` items.
fn make_room<T: Drop>(items: &mut Vec<T>, count: usize) -> Result<(), AllocError>
    ensures empty { items.new.items ≡ [] }
    ensures ok { OnOk result (count ≤ vec_capacity items.new) }
    ensures capacity { vec_capacity items.old ≤ vec_capacity items.new }
{
    items.clear();
    items.reserve(count)
}

impl Scratch {
    ghost use Rattle.std.specs.Prelude.{◌<◌, ◌+◌, ℕ, OnOk, length};
    ghost use Rattle.cops_types.specs.Histories.{Operation, with_op};
    ghost use Rattle.cops_audit.specs.Rooms.{Fits, HasSpace, IsSameButSpace};

    /// Room for no operations, of `clients` clients.
    pub fn new(alloc: Global, clients: u16) -> Result<Self, AllocError>
        ensures ready { IfOk result (IsReady (replicate clients [])) }
        ensures space { IfOk result (λ room. room.space ≡ 0) }
    {
        let sweep = Sweep::new(alloc, clients as usize, 0)?;
        Ok(Scratch {
            space: 0,
            table: Vec::new(alloc),
            places: Vec::new(alloc),
            keys: KeyIndex::empty(alloc),
            suspects: Vec::new(alloc),
            floors: Vec::new(alloc),
            sweep,
        })
    }

    /// Reserves capacity for `count` operations, which exceeds the present capacity, and a quarter more, at least for
    /// `LEAST_SPACE`.
    fn reserve(&mut self, summaries: &mut FlatSummaries, count: usize) -> Result<(), AllocError>
        requires more { self.old.space < count }
        requires few { count ≤ MAX_OPS + 1 }
        requires space { HasSpace self.old.space self.old }
        requires summaries { self.old.space ≤ summaries.old.summary_room }
        ensures ok { OnOk result (count ≤ self.new.space) }
        ensures space { HasSpace self.new.space self.new }
        ensures kept { self.old.space ≤ self.new.space }
        ensures same { IsSameButSpace self.old self.new }
        ensures summaries { self.new.space ≤ summaries.new.summary_room }
        ensures sessions { summaries.new.session_room ≡ summaries.old.session_room }
    {
        let space = (count + count / 4).max(LEAST_SPACE);
        summaries.reserve(space)?;
        make_room(&mut self.table, space)?;
        make_room(&mut self.places, space)?;
        make_room(&mut self.keys.nexts, space)?;
        make_room(&mut self.keys.by_key, space)?;
        make_room(&mut self.keys.firsts, space)?;
        make_room(&mut self.suspects, space)?;
        make_room(&mut self.floors, space)?;
        make_room(&mut self.sweep.pending, space)?;
        if self.sweep.newest.len() < space {
            self.sweep.newest.extend(space)?;
        }
        self.space = space;
        Ok(())
    }

    /// Reserves capacity for one more operation and its causal summary.
    pub fn grow(
        &mut self,
        summaries: &mut FlatSummaries,
        history: &History,
    ) -> Result<(), AllocError>
        requires { Fits history.now.sessions self.old summaries.old }
        ensures ok { (client : ℕ) (op : Operation) → client < length history.now.sessions → OnOk result (Fits (with_op history.now.sessions client op) self.new summaries.new) }
        ensures kept { Fits history.now.sessions self.new summaries.new }
    {
        let count = history.len() + 1;
        if self.space < count {
            self.reserve(summaries, count)?;
        }
        Ok(())
    }
}
