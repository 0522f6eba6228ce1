use crate::name::Name;
use indexmap::IndexSet;
use std::alloc::{AllocFailed, Global};
use std::marker::Model;

/// The names of clients, each once, in the order in which they first appear. A client's number is the index of its
/// name.
#[derive(Debug, Drop)]
pub struct Names {
    names: IndexSet<Name>,
}

impl Model for Names {
    ghost use Rattle.std.specs.Prelude.{List, ℕ};

    ghost Value = { List (List ℕ) };

    ghost view = { λ n. n.names.keys };
}

impl Names {
    ghost use Rattle.std.specs.Prelude.{◌≡◌, ◌<◌, ◌↔◌, [], length, slice_index_or, IsTrue, IfOk, OnOk};
    ghost use Rattle.cops_import.specs.Names.{number_of, with_name};

    /// No names. Allocates nothing.
    pub(crate) fn new(alloc: Global) -> Self
        ensures { result ≡ [] }
    {
        Names {
            names: IndexSet::new(alloc),
        }
    }

    /// How many names there are.
    pub fn len(&self) -> usize
        ensures { result ≡ length self.now }
    {
        self.names.len()
    }

    /// Whether there is no name.
    pub fn is_empty(&self) -> bool
        ensures { IsTrue result ↔ (length self.now ≡ 0) }
    {
        self.names.is_empty()
    }

    /// The name of a client.
    pub fn name(&self, client: usize) -> &Name
        requires { client < length self.now }
        ensures { result.now ≡ slice_index_or self.now client [] }
    {
        &self.names.as_slice()[client]
    }

    /// The number of a name, which is added at the end if it is new. Returns the name if memory runs out.
    pub(crate) fn number(&mut self, name: Name) -> Result<usize, AllocFailed<Name>>
        ensures names { OnOk result (self.new ≡ with_name self.old name) }
        ensures number { IfOk result (λ n. n ≡ number_of self.old name) }
        ensures within { IfOk result (λ n. n < length self.new) }
    {
        let (number, _) = self.names.insert_full(name)?;
        Ok(number)
    }
}
