use cops_types::{OpName, VersionedPut};

/// A put that has an earlier put or get of its session whose version is not below its own, and the first such
/// operation.
#[derive(Clone, Copy, Debug, PartialEq, Eq)]
pub struct NotAbove {
    pub op: OpName,
    pub earlier: OpName,
}

/// A get that returned less than it could know of, and the newest put on its key in its past.
#[derive(Clone, Copy, Debug, PartialEq, Eq)]
pub struct Stale {
    pub op: OpName,
    pub newer: OpName,
}

/// All faults of one class, in order of names.
#[derive(Debug, Drop, PartialEq, Eq)]
pub enum Faults {
    Doubled(Vec<OpName>),
    NoSource(Vec<OpName>),
    NotAbove(Vec<NotAbove>),
    Stale(Vec<Stale>),
}

/// The verdict so far on a history that may go on.
#[derive(Clone, Copy, Debug, PartialEq, Eq)]
pub enum SoFar {
    /// It is accepted.
    Clean,
    /// It has no lasting fault, but for this number of gets, above 0, no put has their version yet.
    Waiting(usize),
    /// It has a fault that no further operation removes.
    Refused,
}

/// The auditor's verdict on a history.
#[derive(Debug, Drop, PartialEq, Eq)]
pub enum Verdict {
    /// The puts, in order of versions.
    Accepted(Vec<OpName>),
    Refused(Faults),
}

/// The verdict on a history, with its puts in order of versions.
#[derive(Debug, Drop, PartialEq, Eq)]
pub struct OrderedVerdict {
    pub verdict: Verdict,
    pub puts: Vec<VersionedPut>,
}
