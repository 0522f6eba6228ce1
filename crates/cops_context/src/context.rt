use crate::fault::ContextFault;
use cops_types::{Dep, Deps, Format, Memory};
use indexmap::IndexSet;
use std::alloc::{AllocError, Global};
use std::marker::Model;

/// A client's context (COPS section 4.2): different pairs of a key and a version, in order of arrival. It has at most
/// as many as dependencies of its format: 256 in format 1, 1,024 in format 2. A pair for which the set has no room is
/// stored next to it, as the last of the list, until the set has grown.
#[derive(Drop)]
pub struct Context {
    format: Format,
    pairs: IndexSet<Dep>,
    beside: Option<Dep>,
}

impl Model for Context {
    ghost use Rattle.std.specs.Prelude.{is_none};
    ghost use Rattle.cops_types.specs.Format.{most_deps};
    ghost use Rattle.cops_context.specs.Kept.{AContext, IsContext, and_beside};

    ghost Value = { AContext };

    ghost view = { λ c. record { format = c.format; pairs = and_beside c.pairs.keys c.beside; room = is_none c.beside } };

    ghost invariant = { λ c. IsContext (most_deps c.format) (and_beside c.pairs.keys c.beside) };
}

impl Context {
    ghost use Rattle.std.specs.Prelude.{◌≡◌, ◌≢◌, ◌↔◌, ◌<◌, ◌≤◌, length, [], ◌∷◌, true, false, nat_lt, IsTrue, IsOk, IfOk, OnOk, OnErr, IsErrOf};
    ghost use Rattle.cops_context.specs.Context.{has_pair, with_pair};
    ghost use Rattle.cops_types.specs.Format.{most_deps};
    ghost use Rattle.cops_context.specs.Kept.{IsContext};

    /// An empty context of format 1. Allocates nothing.
    pub fn new(alloc: Global) -> Self
        ensures { result ≡ record { format = Format.One; pairs = []; room = true } }
    {
        Context::new_in(Format::One, alloc)
    }

    /// An empty context of a format. Allocates nothing.
    pub fn new_in(format: Format, alloc: Global) -> Self
        ensures { result ≡ record { format = format; pairs = []; room = true } }
    {
        Context {
            format,
            pairs: IndexSet::new(alloc),
            beside: None,
        }
    }

    /// The format whose limit the context has.
    pub fn format(&self) -> Format
        ensures { result ≡ self.now.format }
    {
        self.format
    }

    /// The number of pairs, at most as many as the format allows.
    pub fn len(&self) -> usize
        ensures count { result ≡ length self.now.pairs }
        ensures context { IsContext (most_deps self.now.format) self.now.pairs }
    {
        self.pairs.len() + usize::from(self.beside.is_some())
    }

    /// Whether there is no pair.
    pub fn is_empty(&self) -> bool
        ensures { IsTrue result ↔ (self.now.pairs ≡ []) }
    {
        self.len() == 0
    }

    /// Whether there are fewer pairs than the format allows.
    pub fn has_room(&self) -> bool
        ensures value { result ≡ nat_lt (length self.now.pairs) (most_deps self.now.format) }
        ensures context { IsContext (most_deps self.now.format) self.now.pairs }
    {
        self.len() < self.format.most_deps()
    }

    /// Whether the pair is there.
    fn contains(&self, pair: &Dep) -> bool
        ensures { result ≡ has_pair self.now.pairs pair.now }
    {
        let beside = match &self.beside {
            Some(other) => pair == other,
            None => false,
        };
        self.pairs.contains(pair) || beside
    }

    /// Copies of the pairs, in order of arrival: the nearest dependencies of the client's next put. Fails if memory
    /// runs out, but not if there are no pairs.
    #[tactic(auto, using(crate::proofs::PairLists::are_deps))]
    pub fn deps(&self) -> Result<Deps, Memory>
        ensures ok { IfOk result (λ deps. deps ≡ self.now.pairs) }
        ensures err { OnErr result (self.now.pairs ≢ []) }
    {
        let copies = self.copies()?;
        Ok(Deps::of_distinct(copies))
    }

    /// Copies of the pairs, in order of arrival. Fails if memory runs out, but not if there are no pairs.
    fn copies(&self) -> Result<Vec<Dep>, AllocError>
        ensures pairs { IfOk result (λ copies. copies.items ≡ self.now.pairs) }
        ensures err { OnErr result (self.now.pairs ≢ []) }
        ensures context { IsContext (most_deps self.now.format) self.now.pairs }
    {
        let mut copies = Vec::new(*self.pairs.allocator());
        let pairs = self.pairs.as_slice();
        for pair in pairs {
            copies.push(pair.clone()?)?;
        }
        if let Some(last) = &self.beside {
            copies.push(last.clone()?)?;
        }
        Ok(copies)
    }

    /// Makes room for one more pair, so that the next `add` or `replace` allocates nothing. Changes nothing if memory
    /// runs out.
    pub fn reserve(&mut self) -> Result<(), Memory>
        ensures same { self.new.pairs ≡ self.old.pairs }
        ensures format { self.new.format ≡ self.old.format }
        ensures room { OnOk result (self.new.room ≡ true) }
        ensures err { OnErr result (self.new ≡ self.old) }
        ensures no_need { self.old.room ≡ true → IsOk result }
    {
        let Some(pair) = self.beside.take() else {
            return Ok(());
        };
        match self.pairs.insert(pair) {
            Ok(_) => Ok(()),
            Err(failed) => {
                self.beside = Some(failed.value);
                Err(Memory)
            }
        }
    }

    /// Adds a pair at the end, unless it is there already. Errors: `ContextFull` for a new pair if there are as many as
    /// the format allows, `Memory` if memory runs out. An error changes nothing.
    pub fn add(&mut self, pair: Dep) -> Result<(), ContextFault>
        ensures ok { OnOk result (self.new.pairs ≡ with_pair self.old.pairs pair) }
        ensures format { self.new.format ≡ self.old.format }
        ensures err { OnErr result (self.new ≡ self.old) }
        ensures full { IsErrOf result ContextFault.ContextFull ↔ (has_pair self.old.pairs pair ≡ false × most_deps self.old.format ≤ length self.old.pairs) }
        ensures reserved { self.old.room ≡ true → ¬ IsErrOf result ContextFault.Memory }
        ensures there { has_pair self.old.pairs pair ≡ true → IsOk result }
    {
        if self.contains(&pair) {
            return Ok(());
        }
        if !self.has_room() {
            return Err(ContextFault::ContextFull);
        }
        self.reserve().or(Err(ContextFault::Memory))?;
        self.put_last(pair);
        Ok(())
    }

    /// Replaces all pairs by that of the client's new put, which depends on all of them. Allocates nothing, so it never
    /// fails.
    pub fn replace(&mut self, put: Dep)
        ensures pairs { self.new.pairs ≡ put ∷ [] }
        ensures format { self.new.format ≡ self.old.format }
    {
        self.pairs.clear();
        self.beside = None;
        self.put_last(put);
    }

    /// Puts a new pair last: into the set if the set has room, and next to it otherwise.
    fn put_last(&mut self, pair: Dep)
        requires room { self.old.room ≡ true }
        requires new { has_pair self.old.pairs pair ≡ false }
        requires few { length self.old.pairs < most_deps self.old.format }
        ensures pairs { self.new.pairs ≡ with_pair self.old.pairs pair }
        ensures format { self.new.format ≡ self.old.format }
    {
        let is_full = self.pairs.len() == self.pairs.capacity();
        if is_full {
            let _none = self.beside.replace(pair);
        } else {
            let _is_new = self.pairs.insert(pair).unwrap();
        }
    }
}
