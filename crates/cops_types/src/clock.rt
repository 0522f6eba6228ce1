use crate::fault::TypeFault;
use crate::limits::MAX_CLOCK;
use crate::version::Version;
use std::marker::Model;

/// A node's Lamport clock, from 0 to 281,474,976,710,655 (COPS, section 4: versions are Lamport timestamps).
#[derive(Debug, Drop)]
pub struct Clock {
    clock: u64,
    node: u16,
}

impl Model for Clock {
    ghost use Rattle.std.specs.Prelude.{◌≤◌, ◌<◌};
    ghost use Rattle.cops_types.specs.Clock.{AClock};
    ghost use Rattle.cops_types.specs.declared.limits.TheConstants.{MAX_CLOCK, NODES};

    ghost Value = { AClock };

    ghost view = { λ c. record { clock = c.clock; node = c.node } };

    ghost invariant = { λ c. (c.clock ≤ MAX_CLOCK) × (c.node < NODES) };
}

impl Clock {
    ghost use Rattle.std.specs.Prelude.{◌≡◌, ◌<◌, ◌≤◌, ◌+◌, ◌↔◌, IfOk, OnErr, IsErrOf, Err, max};
    ghost use Rattle.cops_types.specs.Version.{clock_of};
    ghost use Rattle.cops_types.specs.NodeNumber.{version_of};
    ghost use Rattle.cops_types.specs.declared.limits.TheConstants.{MAX_CLOCK, NODES};

    /// The clock of a node, at 0.
    pub fn new(node: u16) -> Clock
        requires { node < NODES }
        ensures { result ≡ record { clock = 0; node = node } }
    {
        Clock { clock: 0, node }
    }

    /// Raises the clock to that of a version, if that is greater.
    pub fn raise(&mut self, version: Version)
        ensures { self.new ≡ record self.old { clock = max self.old.clock (clock_of version) } }
    {
        self.clock = self.clock.max(version.clock());
    }

    /// Raises the clock by one and returns the node's version of that clock. Fails with `ClockExhausted` if the clock
    /// is at its greatest, and then changes nothing.
    pub fn next(&mut self) -> Result<Version, TypeFault>
        ensures ok { IfOk result (λ version. (version ≡ version_of (self.old.clock + 1) self.old.node) × (self.new ≡ record self.old { clock = self.old.clock + 1 })) }
        ensures err { OnErr result (self.new ≡ self.old) }
        ensures exhausted { IsErrOf result TypeFault.ClockExhausted ↔ (self.old.clock ≡ MAX_CLOCK) }
        ensures only { OnErr result (result ≡ Err TypeFault.ClockExhausted) }
    {
        if self.clock >= MAX_CLOCK {
            return Err(TypeFault::ClockExhausted);
        }
        let version = Version::new(self.clock + 1, self.node)?;
        self.clock += 1;
        Ok(version)
    }

    /// The clock's value.
    pub fn clock(&self) -> u64
        ensures value { result ≡ self.now.clock }
        ensures range { result ≤ MAX_CLOCK }
    {
        self.clock
    }
}
