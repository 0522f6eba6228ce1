ghost use Rattle.std.specs.Prelude.{◌≡◌};

use crate::event::Said;
use cops_types::Memory;
use indexmap::IndexSet;
use std::alloc::Global;
use std::marker::Model;

/// The Yes answers that were given, each once.
#[derive(Drop)]
pub struct Answers {
    said: IndexSet<Said>,
}

impl Model for Answers {
    ghost use Rattle.std.specs.Prelude.{nat_lt};
    ghost use Rattle.indexmap.specs.IndexSet.{spare};
    ghost use Rattle.cops_core.specs.Parts.{Answers as Given};

    ghost Value = { Given };

    ghost view = { λ a. record { said = a.said.keys; room = nat_lt 0 (spare a.said) } };
}

impl Answers {
    ghost use Rattle.std.specs.Prelude.{◌≡◌, [], true, OnOk};
    ghost use Rattle.cops_core.specs.World.{was_said, gained};

    /// No answers. Allocates nothing.
    pub fn new(alloc: Global) -> Self
        ensures { result.said ≡ [] }
    {
        Answers {
            said: IndexSet::new(alloc),
        }
    }

    /// Whether this Yes was given.
    pub fn contains(&self, said: &Said) -> bool
        ensures { result ≡ was_said self.now.said said.now }
    {
        self.said.contains(said)
    }

    /// Makes room for one more answer, so that the next `add` allocates nothing. Changes no answer if memory runs out.
    pub fn reserve(&mut self) -> Result<(), Memory>
        ensures same { self.new.said ≡ self.old.said }
        ensures room { OnOk result (self.new.room ≡ true) }
    {
        self.said.reserve(1)?;
        Ok(())
    }

    /// Adds an answer, unless it is there. Room has to be reserved.
    pub fn add(&mut self, said: Said)
        requires room { self.old.room ≡ true }
        ensures { self.new.said ≡ gained self.old.said said }
    {
        if !self.contains(&said) {
            let _new = self.said.insert(said).unwrap();
        }
    }
}
