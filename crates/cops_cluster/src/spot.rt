//! Nodes by data centre and place.
ghost use Rattle.std.specs.Prelude.{◌≡◌};
ghost use Rattle.cops_types.specs.NodeNumber.{node_number};

use cops_types::node_number;

/// A node, given by its data centre and its place there. Its number is below 1,024 where both are in range.
#[derive(Clone, Copy, Debug, PartialEq, Eq)]
pub(crate) struct Spot {
    pub(crate) dc: u8,
    pub(crate) place: u8,
}

impl Spot {
    ghost use Rattle.std.specs.Prelude.{◌≡◌};
    ghost use Rattle.cops_types.specs.NodeNumber.{node_number};

    /// The node's number.
    pub(crate) fn number(self) -> u16
        ensures { result ≡ node_number self.dc self.place }
    {
        node_number(self.dc, self.place)
    }
}
