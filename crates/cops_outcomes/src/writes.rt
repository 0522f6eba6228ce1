//! Sets of what puts of unknown outcome write.
use crate::write::Write;
use indexmap::IndexSet;
use std::alloc::{AllocFailed, Global};
use std::marker::Model;

/// What some puts of unknown outcome write, each once.
#[derive(Debug, Drop)]
pub struct Writes {
    writes: IndexSet<Write>,
}

impl Model for Writes {
    ghost use Rattle.std.specs.Prelude.{List};
    ghost use Rattle.std.specs.List.{IsDistinct};
    ghost use Rattle.cops_outcomes.specs.Outcomes.{same_write};
    ghost use Rattle.cops_outcomes.specs.declared.write.Write.{Write};

    ghost Value = { List Write };

    ghost view = { λ w. w.writes.keys };

    ghost invariant = { λ w. IsDistinct same_write w.writes.keys };
}

impl Writes {
    ghost use Rattle.std.specs.Prelude.{◌≡◌, ◌↔◌, [], IsTrue, OnErr, OnOk, is_some, length, position};
    ghost use Rattle.std.specs.List.{IsDistinct, list_any};
    ghost use Rattle.cops_outcomes.specs.Outcomes.{same_write, with_write};

    /// No writes. Allocates nothing.
    pub fn new(alloc: Global) -> Writes
        ensures { result ≡ [] }
    {
        Writes {
            writes: IndexSet::new(alloc),
        }
    }

    /// How many there are.
    pub fn len(&self) -> usize
        ensures { result ≡ length self.now }
    {
        self.writes.len()
    }

    /// Whether there is none.
    pub fn is_empty(&self) -> bool
        ensures { IsTrue result ↔ (length self.now ≡ 0) }
    {
        self.writes.is_empty()
    }

    /// Whether this is one of them.
    pub(crate) fn has(&self, write: &Write) -> bool
        ensures { IsTrue result ↔ IsTrue (list_any (same_write write.now) self.now) }
    {
        self.writes.contains(write)
    }

    /// The index of this one, if it is one of them.
    pub(crate) fn place_of(&self, write: &Write) -> Option<usize>
        ensures place { result ≡ position (same_write write.now) self.now }
        ensures known { is_some result ≡ list_any (same_write write.now) self.now }
        ensures distinct { IsDistinct same_write self.now }
    {
        self.writes.get_index_of(write)
    }

    /// Adds one, if it is new. Returns it if memory runs out.
    pub fn add(&mut self, write: Write) -> Result<(), AllocFailed<Write>>
        ensures ok { OnOk result (self.new ≡ with_write self.old write) }
        ensures err { OnErr result (self.new ≡ self.old) }
    {
        self.writes.insert(write)?;
        Ok(())
    }
}
