//! What operations show of puts of unknown outcome.
ghost use Rattle.std.specs.Prelude.{◌≡◌, ◌≢◌, ◌<◌, [], filter, map, nat_eq, not, replicate, IfOk, OnErr};
ghost use Rattle.std.specs.List.{list_any};

use crate::outcomes::Outcomes;
use crate::write::Write;
use crate::writes::Writes;
use cops_types::{Op, Version};
use indexmap::IndexSet;
use std::alloc::{AllocError, Global};
use std::collections::VecDeque;
use std::marker::Model;

/// What some puts of unknown outcome write, and what was seen of operations that were given one after another: the
/// versions with which gets returned each of these writes, and the versions of puts. Where no put has an unknown
/// outcome it keeps nothing.
#[derive(Debug, Drop)]
pub struct Sightings {
    writes: Writes,
    /// For each write the versions with which gets returned it.
    returned: Vec<IndexSet<Version>>,
    puts: IndexSet<Version>,
}

impl Model for Sightings {
    ghost use Rattle.std.specs.Prelude.{map};
    ghost use Rattle.cops_outcomes.specs.Sightings.{ASightings};

    ghost Value = { ASightings };

    ghost view = { λ s. record { writes = s.writes; returned = map (λ versions. versions.keys) s.returned.items; puts = s.puts.keys } };
}

impl Sightings {
    ghost use Rattle.std.specs.Prelude.{◌↔◌, ◌≢◌, ◌∷◌, ◌++◌, ℕ, List, Option, OnErr, OnOk, IsTrue};
    ghost use Rattle.cops_types.specs.Histories.{Operation, read, write};
    ghost use Rattle.cops_types.specs.Operations.{operation_of};
    ghost use Rattle.cops_outcomes.specs.Outcomes.{same_write};
    ghost use Rattle.cops_outcomes.specs.Sightings.{IsAfter, IsKept, IsSighted};

    /// Nothing seen yet, for puts of unknown outcome that write these. Fails if memory runs out; without such puts it
    /// allocates nothing.
    pub fn new(alloc: Global, writes: Writes) -> Result<Sightings, AllocError>
        ensures writes { IfOk result (λ s. s.writes ≡ writes) }
        ensures nothing { IfOk result (λ s. IsSighted s []) }
        ensures err { OnErr result (writes ≢ []) }
    {
        let returned = empty_sets(alloc, writes.len())?;
        Ok(Sightings {
            writes,
            returned,
            puts: IndexSet::new(alloc),
        })
    }

    /// Whether this write is one of them.
    pub fn knows(&self, write: &Write) -> bool
        ensures { IsTrue result ↔ IsTrue (list_any (same_write write.now) self.now.writes) }
    {
        self.writes.has(write)
    }

    /// Sees one more operation. Fails if memory runs out; what it has seen is then unspecified. Allocates only where it
    /// keeps something of the operation.
    pub fn see(&mut self, op: Op) -> Result<(), AllocError>
        ensures writes { self.new.writes ≡ self.old.writes }
        ensures seen { OnOk result ((ops : List Operation) → IsSighted self.old ops → IsSighted self.new (ops ++ operation_of op ∷ [])) }
        ensures err { OnErr result (IsKept self.old (operation_of op)) }
    {
        if self.writes.is_empty() {
            return Ok(());
        }
        match op {
            Op::Put { version, .. } | Op::Del { version, .. } => self.see_put(version),
            Op::Got {
                key,
                value,
                version,
            } => {
                let content = Some(value);
                self.see_get(&Write { key, content }, version)
            }
            Op::Gone { key, version } => {
                let content = None;
                self.see_get(&Write { key, content }, version)
            }
            Op::Missed { .. } => Ok(()),
        }
    }

    /// Sees one more operation, a put or a deletion with this version. Fails if memory runs out.
    fn see_put(&mut self, version: Version) -> Result<(), AllocError>
        ensures writes { self.new.writes ≡ self.old.writes }
        ensures seen { OnOk result ((ops : List Operation) (key : List ℕ) (content : Option (List ℕ)) → IsSighted self.old ops → IsSighted self.new (ops ++ write key content version ∷ [])) }
    {
        self.puts.insert(version)?;
        Ok(())
    }

    /// Sees one more operation, a get that returned this key and content with a version. Fails if memory runs out.
    fn see_get(&mut self, got: &Write, version: Version) -> Result<(), AllocError>
        ensures writes { self.new.writes ≡ self.old.writes }
        ensures seen { OnOk result ((ops : List Operation) → IsSighted self.old ops → IsSighted self.new (ops ++ read got.now.key got.now.content version ∷ [])) }
        ensures err { OnErr result (IsTrue (list_any (same_write got.now) self.old.writes)) }
    {
        if let Some(place) = self.writes.place_of(got) {
            if let Some(versions) = self.returned.get_mut(place) {
                versions.insert(version)?;
            }
        }
        Ok(())
    }

    /// The outcomes, once all operations were seen. Fails if memory runs out; without puts of unknown outcome it allocates
    /// nothing.
    pub fn outcomes(self, alloc: Global) -> Result<Outcomes, AllocError>
        ensures writes { IfOk result (λ o. o.writes ≡ self.writes) }
        ensures after { IfOk result (λ o. (ops : List Operation) → IsSighted self ops → IsAfter o ops []) }
        ensures err { OnErr result (self.returned ≢ []) }
    {
        let Sightings {
            writes,
            returned,
            puts,
        } = self;
        let rest = free_of_each(alloc, &returned, &puts)?;
        Ok(Outcomes::new(writes, rest))
    }
}

/// That many empty sets. Fails if memory runs out.
fn empty_sets(alloc: Global, count: usize) -> Result<Vec<IndexSet<Version>>, AllocError>
    ensures ok { IfOk result (λ sets. map (λ versions. versions.keys) sets.items ≡ replicate count []) }
    ensures err { OnErr result (0 < count) }
{
    let mut sets = Vec::with_capacity(alloc, count)?;
    for _i in 0..count {
        sets.push(IndexSet::new(alloc))?;
    }
    Ok(sets)
}

/// Of each of these sets the versions that no put has, in their order. Fails if memory runs out.
fn free_of_each(
    alloc: Global,
    returned: &[IndexSet<Version>],
    puts: &IndexSet<Version>,
) -> Result<Vec<VecDeque<Version>>, AllocError>
    ensures err { OnErr result (returned.now ≢ []) }
    ensures ok { IfOk result (λ free. map (λ versions. versions.items) free.items ≡ map (λ versions. filter (λ version. not (list_any (nat_eq version) puts.now.keys)) versions.keys) returned.now) }
{
    let mut free = Vec::with_capacity(alloc, returned.len())?;
    for versions in returned {
        free.push(free_of(alloc, versions, puts)?)?;
    }
    Ok(free)
}

/// Those of these versions that no put has, in their order. Fails if memory runs out.
fn free_of(
    alloc: Global,
    versions: &IndexSet<Version>,
    puts: &IndexSet<Version>,
) -> Result<VecDeque<Version>, AllocError>
    ensures { IfOk result (λ free. free.items ≡ filter (λ version. not (list_any (nat_eq version) puts.now.keys)) versions.now.keys) }
{
    versions
        .iter()
        .copied()
        .filter(|version| !puts.contains(version))
        .collect(alloc)
}
