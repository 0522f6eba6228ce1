//! The outcomes of puts.
use crate::write::Write;
use crate::writes::Writes;
use cops_types::Version;
use std::collections::VecDeque;
use std::marker::Model;

/// The outcomes of puts that were unknown, which are asked for one after another.
#[derive(Debug, Drop)]
pub struct Outcomes {
    writes: Writes,
    /// For each write those of its free versions that are not taken yet.
    rest: Vec<VecDeque<Version>>,
}

impl Model for Outcomes {
    ghost use Rattle.std.specs.Prelude.{map};
    ghost use Rattle.cops_outcomes.specs.Sightings.{AnOutcomes};

    ghost Value = { AnOutcomes };

    ghost view = { λ o. record { writes = o.writes; rest = map (λ versions. versions.items) o.rest.items } };
}

impl Outcomes {
    ghost use Rattle.std.specs.Prelude.{◌≡◌, ◌∷◌, ◌++◌, [], List, map, true};
    ghost use Rattle.std.specs.List.{list_any};
    ghost use Rattle.cops_types.specs.Histories.{Operation};
    ghost use Rattle.cops_outcomes.specs.Outcomes.{outcome, same_write};
    ghost use Rattle.cops_outcomes.specs.Sightings.{IsAfter};
    ghost use Rattle.cops_outcomes.specs.declared.write.Write.{Write};

    /// The outcomes of puts that write these, from the free versions of each.
    pub(crate) fn new(writes: Writes, rest: Vec<VecDeque<Version>>) -> Outcomes
        ensures writes { result.writes ≡ writes }
        ensures rest { result.rest ≡ map (λ versions. versions.items) rest.items }
    {
        Outcomes { writes, rest }
    }

    /// The version of the next put of unknown outcome, if it took effect.
    pub fn next(&mut self, write: &Write) -> Option<Version>
        ensures writes { self.new.writes ≡ self.old.writes }
        ensures outcome { (ops : List Operation) (earlier : List Write) → IsAfter self.old ops earlier → list_any (same_write write.now) self.old.writes ≡ true → result ≡ outcome ops earlier write.now }
        ensures after { (ops : List Operation) (earlier : List Write) → IsAfter self.old ops earlier → IsAfter self.new ops (earlier ++ write.now ∷ []) }
    {
        let place = self.writes.place_of(write)?;
        let versions = self.rest.get_mut(place)?;
        versions.pop_front()
    }

    /// What the puts write.
    pub fn into_writes(self) -> Writes
        ensures { result ≡ self.writes }
    {
        self.writes
    }
}
