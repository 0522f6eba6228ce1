use crate::verdict::{Faults, NotAbove, Stale};
use cops_types::OpName;
use std::fmt;

/// One fault of a refusal, of its class.
#[derive(Clone, Copy, Debug, PartialEq, Eq)]
pub enum Fault {
    Doubled(OpName),
    NoSource(OpName),
    NotAbove(NotAbove),
    Stale(Stale),
}

/// Writes the fault's class and the name of its operation, as in the report.
impl fmt::Display for Fault {
    ghost use Rattle.std.specs.Prelude.{Some};
    ghost use Rattle.cops_audit.specs.Faults.{fault_text};

    ghost output = { λ fault. Some (fault_text fault) };

    fn fmt<W: fmt::Write>(&self, f: &mut fmt::Formatter<W>) -> fmt::Result {
        let name = self.name();
        match self {
            Fault::Doubled(_) => write!(f, "doubled {name}"),
            Fault::NoSource(_) => write!(f, "no source {name}"),
            Fault::NotAbove(_) => write!(f, "not above {name}"),
            Fault::Stale(_) => write!(f, "stale {name}"),
        }
    }
}

impl Fault {
    ghost use Rattle.std.specs.Prelude.{◌≡◌};
    ghost use Rattle.cops_audit.specs.Faults.{op_of};

    /// The operation at fault.
    pub fn name(self) -> OpName
        ensures { result ≡ op_of self }
    {
        match self {
            Fault::Doubled(name) => name,
            Fault::NoSource(name) => name,
            Fault::NotAbove(fault) => fault.op,
            Fault::Stale(fault) => fault.op,
        }
    }
}

impl Faults {
    ghost use Rattle.std.specs.Prelude.{◌≡◌, ◌↔◌, IsTrue, length, slice_get};
    ghost use Rattle.cops_audit.specs.Faults.{fault_of_number, faults_of};

    /// How many faults there are.
    pub fn len(&self) -> usize
        ensures { result ≡ length (faults_of self.now) }
    {
        match self {
            Faults::Doubled(names) => names.len(),
            Faults::NoSource(names) => names.len(),
            Faults::NotAbove(faults) => faults.len(),
            Faults::Stale(faults) => faults.len(),
        }
    }

    /// Whether there are none.
    pub fn is_empty(&self) -> bool
        ensures { IsTrue result ↔ (length (faults_of self.now) ≡ 0) }
    {
        self.len() == 0
    }

    /// The fault at a place, counted from 0, if there is one.
    pub fn get(&self, place: usize) -> Option<Fault>
        ensures { result ≡ slice_get (faults_of self.now) place }
    {
        match self {
            Faults::Doubled(names) => Some(Fault::Doubled(*names.get(place)?)),
            Faults::NoSource(names) => Some(Fault::NoSource(*names.get(place)?)),
            Faults::NotAbove(faults) => Some(Fault::NotAbove(*faults.get(place)?)),
            Faults::Stale(faults) => Some(Fault::Stale(*faults.get(place)?)),
        }
    }

    /// The fault with a number, counted from 1 in the faults' order, if there is one.
    pub fn of_number(&self, number: u32) -> Option<Fault>
        ensures { result ≡ fault_of_number (faults_of self.now) number }
    {
        let place = number.checked_sub(1)?;
        self.get(place as usize)
    }
}
