use crate::fault::HeldFault;
use crate::open::open_places;
use cops_types::PutRecord;
use std::alloc::{AllocError, Global};
use std::marker::Model;

/// A put that waits, with a mark for each of its dependencies.
#[derive(Debug, Drop)]
pub(crate) struct HeldPut {
    put: PutRecord,
    marks: Vec<bool>,
    /// The number of dependencies that are not marked.
    open_marks: usize,
}

impl Model for HeldPut {
    ghost use Rattle.cops_held.specs.Held.{Waiting};
    ghost use Rattle.cops_held.specs.Table.{HasMarks};

    ghost Value = { Waiting };

    ghost view = { λ h. record { put = h.put; marks = h.marks.items } };

    ghost invariant = { λ h. HasMarks h.put h.marks.items h.open_marks };
}

impl HeldPut {
    ghost use Rattle.std.specs.Prelude.{◌≡◌, IfOk, OnOk, OnErr, Some};
    ghost use Rattle.cops_held.specs.Held.{unmarked, marked, all_marked};
    ghost use Rattle.cops_held.specs.Taking.{marking, open_from};

    /// A put with no dependency marked.
    pub(crate) fn new(alloc: Global, put: PutRecord) -> Result<Self, AllocError>
        ensures { IfOk result (λ held. held ≡ unmarked put) }
    {
        let open_marks = put.deps.as_slice().len();
        let marks = vec![in alloc; false; open_marks]?;
        Ok(HeldPut {
            put,
            marks,
            open_marks,
        })
    }

    pub(crate) fn put(&self) -> &PutRecord
        ensures { result.now ≡ self.now.put }
    {
        &self.put
    }

    pub(crate) fn into_put(self) -> PutRecord
        ensures { result ≡ self.put }
    {
        let HeldPut {
            put,
            marks: _,
            open_marks: _,
        } = self;
        put
    }

    /// Whether all dependencies are marked.
    pub(crate) fn is_ready(&self) -> bool
        ensures { result ≡ all_marked self.now }
    {
        self.open_marks == 0
    }

    /// Marks a dependency, given by its index. It allocates no memory. Returns `NoSuchDep` where there is no such
    /// dependency.
    pub(crate) fn mark(&mut self, dep: u16) -> Result<(), HeldFault>
        ensures answer { result ≡ marking (Some self.old) dep }
        ensures ok { OnOk result (self.new ≡ marked dep self.old) }
        ensures err { OnErr result (self.new ≡ self.old) }
    {
        let at = usize::from(dep);
        if at >= self.marks.len() {
            return Err(HeldFault::NoSuchDep);
        }
        if !self.marks[at] {
            self.marks[at] = true;
            self.open_marks -= 1;
        }
        Ok(())
    }

    /// The indexes of the dependencies that are not marked, ascending.
    pub(crate) fn open_deps(&self, alloc: Global) -> Result<Vec<u16>, AllocError>
        ensures { IfOk result (λ deps. deps.items ≡ open_from 0 self.now.marks) }
    {
        let _deps = self.put.deps.as_slice();
        open_places(alloc, &self.marks)
    }
}
