use crate::fault::HeldFault;
use crate::held_put::HeldPut;
use crate::taken::Taken;
use cops_types::{Memory, PutRecord, Version};
use std::alloc::{AllocError, Global};
use std::collections::BTreeMap;
use std::marker::Model;

/// The puts that wait, one for each version, in order of versions. Each call makes at most two look-ups in an ordered
/// map. `hold` and `open_deps` also take time in proportion to the put's dependencies.
#[derive(Drop)]
pub struct Held {
    puts: BTreeMap<Version, HeldPut>,
    alloc: Global,
}

impl Model for Held {
    ghost use Rattle.std.specs.Prelude.{List};
    ghost use Rattle.std.specs.BTreeMap.{values};
    ghost use Rattle.cops_held.specs.Held.{Waiting};
    ghost use Rattle.cops_held.specs.Table.{IsTable};

    ghost Value = { List Waiting };

    ghost view = { λ h. values h.puts };

    ghost invariant = { λ h. IsTable h.puts.entries };
}

impl Held {
    ghost use Rattle.std.specs.Prelude.{◌≡◌, length, [], true, None, is_some, IsOk, IfOk, IfSome, OnOk, OnErr, option_copied};
    ghost use Rattle.std.specs.Option.{option_map};
    ghost use Rattle.cops_held.specs.Held.{waiting, with_waiting, with_mark, without};
    ghost use Rattle.cops_held.specs.Taking.{holding, with_put, open_deps, marking, readiness, taking};

    /// An empty table. It allocates no memory.
    pub fn new(alloc: Global) -> Self
        ensures { result ≡ [] }
    {
        Held {
            puts: BTreeMap::new(alloc),
            alloc,
        }
    }

    /// The number of puts that wait.
    pub fn len(&self) -> usize
        ensures { result ≡ length self.now }
    {
        self.puts.len()
    }

    /// Holds a put, with no dependency marked. Where a put with its version waits already, nothing changes and no
    /// memory is allocated. An error, which is `Memory`, leaves the table unchanged.
    pub fn hold(&mut self, put: PutRecord) -> Result<Taken, Memory>
        ensures ok { IfOk result (λ taken. taken ≡ holding self.old put) }
        ensures after { OnOk result (self.new ≡ with_put self.old put) }
        ensures err { OnErr result (self.new ≡ self.old) }
        ensures there { is_some (waiting self.old put.version) ≡ true → IsOk result }
    {
        if self.find(put.version).is_some() {
            return Ok(Taken::Repeat);
        }
        let held = HeldPut::new(self.alloc, put)?;
        self.add(held)?;
        Ok(Taken::New)
    }

    /// The put that waits at a version.
    pub fn record(&self, version: Version) -> Option<&PutRecord>
        ensures { option_copied result ≡ option_map (λ w. w.put) (waiting self.now version) }
    {
        let held = self.find(version)?;
        Some(held.put())
    }

    /// The dependencies of the put at a version that are not marked yet, by their indexes, ascending. Where no such put
    /// waits, the list is empty, and no memory is allocated. Returns `Memory` when memory runs out.
    pub fn open_deps(&self, version: Version) -> Result<Vec<u16>, Memory>
        ensures ok { IfOk result (λ deps. deps.items ≡ open_deps (waiting self.now version)) }
        ensures err { OnErr result (is_some (waiting self.now version) ≡ true) }
    {
        match self.find(version) {
            Some(held) => Ok(held.open_deps(self.alloc)?),
            None => Ok(Vec::new(self.alloc)),
        }
    }

    /// Marks a dependency of the put at a version, given by its index. Marking it twice is the same as marking it once.
    /// It allocates no memory.
    ///
    /// Errors, which change nothing: `NotHeld` where no such put waits; otherwise `NoSuchDep` where it has no such
    /// dependency.
    pub fn mark(&mut self, version: Version, dep: u16) -> Result<(), HeldFault>
        ensures answer { result ≡ marking (waiting self.old version) dep }
        ensures ok { OnOk result (self.new ≡ with_mark self.old version dep) }
        ensures err { OnErr result (self.new ≡ self.old) }
    {
        let Some(held) = self.puts.get_mut(&version) else {
            return Err(HeldFault::NotHeld);
        };
        held.mark(dep)
    }

    /// Whether `take_ready` would return the put at a version.
    ///
    /// Errors: `NotHeld` where no such put waits; otherwise `DepsOpen` where not all its dependencies are marked.
    pub fn ready(&self, version: Version) -> Result<(), HeldFault>
        ensures { result ≡ readiness (waiting self.now version) }
    {
        match self.find(version) {
            Some(held) if held.is_ready() => Ok(()),
            Some(_) => Err(HeldFault::DepsOpen),
            None => Err(HeldFault::NotHeld),
        }
    }

    /// Removes and returns the put at a version, all of whose dependencies are marked. It allocates no memory.
    ///
    /// Errors, which change nothing: `NotHeld` where no such put waits; otherwise `DepsOpen` where not all its
    /// dependencies are marked.
    pub fn take_ready(&mut self, version: Version) -> Result<PutRecord, HeldFault>
        ensures answer { result ≡ taking (waiting self.old version) }
        ensures ok { OnOk result (self.new ≡ without self.old version) }
        ensures err { OnErr result (self.new ≡ self.old) }
        ensures version { IfOk result (λ put. put.version ≡ version) }
    {
        let is_ready = match self.find(version) {
            Some(held) => held.is_ready(),
            None => return Err(HeldFault::NotHeld),
        };
        if !is_ready {
            return Err(HeldFault::DepsOpen);
        }
        match self.take(version) {
            Some(held) => Ok(held.into_put()),
            None => Err(HeldFault::NotHeld),
        }
    }

    /// The put that waits at a version, with its marks.
    fn find(&self, version: Version) -> Option<&HeldPut>
        ensures { option_copied result ≡ waiting self.now version }
    {
        self.puts.get(&version)
    }

    /// Removes and returns the put that waits at a version, with its marks.
    fn take(&mut self, version: Version) -> Option<HeldPut>
        ensures taken { result ≡ waiting self.old version }
        ensures rest { self.new ≡ without self.old version }
        ensures version { IfSome result (λ w. w.put.version ≡ version) }
    {
        self.puts.remove(&version)
    }

    /// Adds a put, at whose version none waits.
    fn add(&mut self, held: HeldPut) -> Result<(), AllocError>
        requires { waiting self.old held.put.version ≡ None }
        ensures ok { OnOk result (self.new ≡ with_waiting self.old held) }
        ensures err { OnErr result (self.new ≡ self.old) }
    {
        let _none = self.puts.insert(held.put().version, held)?;
        Ok(())
    }
}
