ghost use Rattle.std.specs.Prelude.{◌≡◌, ◌<◌, ◌≤◌, ◌↔◌, ◌+◌, ◌*◌, ◌/◌, ◌%◌, ℕ, IfOk, OnErr, IsErrOf, Err};
ghost use Rattle.cops_types.specs.declared.limits.TheConstants.{MAX_CLOCK, MAX_DCS, NODES, PLACES};
ghost use Rattle.cops_types.specs.Version.{IsVersion, clock_of, node_of};
ghost use Rattle.cops_types.specs.NodeNumber.{node_number, data_centre_of, place_of, version_of};

use crate::fault::TypeFault;
use crate::limits::{MAX_CLOCK, NODES, PLACES};
use std::fmt;
use std::marker::Model;

/// The number of the node at a place of a data centre: 64 times the data centre, and the place.
pub fn node_number(dc: u8, place: u8) -> u16
    ensures { result ≡ node_number dc place }
{
    u16::from(dc) * u16::from(PLACES) + u16::from(place)
}

/// The version of a put, which is the put's identity: a clock from 1 to 281,474,976,710,655 in the high bits, and the
/// number of the node that gave it, below 1,024, in the low 16 bits. The greater version is the later one (COPS,
/// section 4: Lamport clocks with the node's number as tie-breaker).
#[derive(Clone, Copy, Debug, PartialEq, Eq, PartialOrd, Ord, Hash)]
pub struct Version {
    raw: u64,
}

impl Model for Version {
    ghost Value = { ℕ };

    ghost view = { λ v. v.raw };

    ghost invariant = { λ v. IsVersion v.raw };

    ghost inverse = { λ n. record { raw = n } };
}

impl Version {
    /// The version of this clock and node. Fails with `BadVersion` if one of them is out of its range.
    pub fn new(clock: u64, node: u16) -> Result<Self, TypeFault>
        ensures ok { IfOk result (λ version. version ≡ version_of clock node) }
        ensures bad { IsErrOf result TypeFault.BadVersion ↔ ((1 ≤ clock × clock ≤ MAX_CLOCK × node < NODES) → ⊥) }
        ensures only { OnErr result (result ≡ Err TypeFault.BadVersion) }
    {
        if clock >= 1 && clock <= MAX_CLOCK && node < NODES {
            Ok(Version {
                raw: clock * 65536 + u64::from(node),
            })
        } else {
            Err(TypeFault::BadVersion)
        }
    }

    /// The version with this number. Fails with `BadVersion` if its clock or node is out of its range.
    pub fn from_u64(raw: u64) -> Result<Self, TypeFault>
        ensures ok { IfOk result (λ version. (version ≡ raw) × IsVersion raw) }
        ensures bad { IsErrOf result TypeFault.BadVersion ↔ (IsVersion raw → ⊥) }
        ensures only { OnErr result (result ≡ Err TypeFault.BadVersion) }
    {
        if raw / 65536 >= 1 && raw % 65536 < u64::from(NODES) {
            Ok(Version { raw })
        } else {
            Err(TypeFault::BadVersion)
        }
    }

    /// The version's number: the clock times 65,536, plus the node.
    pub fn as_u64(self) -> u64
        ensures number { result ≡ self }
        ensures version { IsVersion self }
    {
        self.raw
    }

    /// The clock, 1 to 281,474,976,710,655.
    pub fn clock(self) -> u64
        ensures value { result ≡ clock_of self }
        ensures range { 1 ≤ result × result ≤ MAX_CLOCK }
    {
        self.raw / 65536
    }

    /// The number of the node that gave the version, below 1,024.
    pub fn node(self) -> u16
        ensures value { result ≡ node_of self }
        ensures range { result < NODES }
    {
        (self.raw % 65536) as u16
    }

    /// The data centre of that node, below 16.
    pub fn dc(self) -> u8
        ensures value { result ≡ data_centre_of self }
        ensures range { result < MAX_DCS }
    {
        (self.node() / u16::from(PLACES)) as u8
    }

    /// The place of that node in its data centre, below 64.
    pub fn place(self) -> u8
        ensures value { result ≡ place_of self }
        ensures range { result < PLACES }
    {
        (self.node() % u16::from(PLACES)) as u8
    }
}

impl fmt::Display for Version {
    ghost use Rattle.std.specs.Prelude.{Some};
    ghost use Rattle.cops_types.specs.Texts.{version_text};

    ghost output = { λ v. Some (version_text v) };

    fn fmt<W: fmt::Write>(&self, f: &mut fmt::Formatter<W>) -> fmt::Result {
        let clock = self.clock();
        let node = self.node();
        write!(f, "{clock}.{node}")
    }
}
