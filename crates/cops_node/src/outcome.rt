use cops_types::{Memory, Refusal, Value, Version};

/// A node's answer to one event.
#[derive(Debug, Drop, PartialEq, Eq)]
pub enum Outcome {
    /// The put was given this version.
    PutDone(Version),
    /// The deletion was given this version.
    Deleted(Version),
    /// The key shows this value, written by the put of this version.
    Got(Value, Version),
    /// The key shows the deletion of this version.
    Gone(Version),
    /// The key shows nothing.
    Missed,
    /// The put waits from now on.
    Held,
    /// The put waits already, or is settled.
    Repeat,
    /// Exactly this pair is settled.
    Yes,
    /// The pair is not settled yet.
    Wait,
    /// The dependency is marked.
    Marked,
    /// The put is settled and waits no longer.
    Settled,
    /// Nothing changed, for this reason.
    Refused(Refusal),
}

impl Outcome {
    ghost use Rattle.std.specs.Prelude.{◌≡◌, ◌↔◌, IsTrue, IfOk, OnErr};
    ghost use Rattle.cops_types.specs.declared.refusal.Refusal.TheVariants.{Memory as OutOfMemory};
    ghost use Rattle.cops_node.specs.declared.outcome.Outcome.TheVariants.{Refused as RefusedWith};
    ghost use Rattle.cops_node.specs.Acts.{found, version_given};
    ghost use Rattle.cops_node.specs.Outcomes.{IsGot};

    /// The outcome of a get that found a value, or a deletion where there is no value.
    pub(crate) fn found(content: Option<Value>, version: Version) -> Self
        ensures { result ≡ found content version }
    {
        match content {
            Some(value) => Outcome::Got(value, version),
            None => Outcome::Gone(version),
        }
    }

    /// A copy. It allocates memory only for the value that a get returned, and returns `Memory` when that runs out.
    pub fn copy(&self) -> Result<Outcome, Memory>
        ensures ok { IfOk result (λ copy. copy ≡ self.now) }
        ensures err { OnErr result (IsGot self.now) }
    {
        Ok(match self {
            Outcome::PutDone(version) => Outcome::PutDone(*version),
            Outcome::Deleted(version) => Outcome::Deleted(*version),
            Outcome::Got(value, version) => Outcome::Got(value.clone()?, *version),
            Outcome::Gone(version) => Outcome::Gone(*version),
            Outcome::Missed => Outcome::Missed,
            Outcome::Held => Outcome::Held,
            Outcome::Repeat => Outcome::Repeat,
            Outcome::Yes => Outcome::Yes,
            Outcome::Wait => Outcome::Wait,
            Outcome::Marked => Outcome::Marked,
            Outcome::Settled => Outcome::Settled,
            Outcome::Refused(refusal) => Outcome::Refused(*refusal),
        })
    }

    /// The version that a put or a deletion was given, if one was done.
    pub fn version_given(&self) -> Option<Version>
        ensures { result ≡ version_given self.now }
    {
        match self {
            Outcome::PutDone(version) | Outcome::Deleted(version) => Some(*version),
            _ => None,
        }
    }

    /// Whether this is the refusal because memory ran out.
    pub fn is_memory(&self) -> bool
        ensures { IsTrue result ↔ (self.now ≡ RefusedWith OutOfMemory) }
    {
        matches!(self, Outcome::Refused(Refusal::Memory))
    }
}
