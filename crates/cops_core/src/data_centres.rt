ghost use Rattle.std.specs.Prelude.{◌≡◌, ◌<◌, length, slice_index_or};
ghost use Rattle.std.specs.Borrow.{sem};
ghost use Rattle.cops_core.specs.Lending.{LendsNode, LendsNodeAt};

use cops_node::Node;
use cops_types::{Memory, node_number};
use std::alloc::Global;
use std::marker::Model;

/// The nodes of a data centre, in the order of their places.
#[derive(Drop)]
pub struct DataCentre {
    nodes: Vec<Node>,
}

impl Model for DataCentre {
    ghost use Rattle.std.specs.Prelude.{List};
    ghost use Rattle.cops_node.specs.Node.{Node as State};

    ghost Value = { List State };

    ghost view = { λ r. r.nodes.items };
}

impl DataCentre {
    ghost use Rattle.std.specs.Prelude.{◌≡◌, ◌<◌, ◌≤◌, length, slice_get, Some, IfOk};
    ghost use Rattle.cops_types.specs.declared.limits.TheConstants.{MAX_DCS, PLACES};
    ghost use Rattle.cops_core.specs.World.{row};
    ghost use Rattle.std.specs.Borrow.{sem};
    ghost use Rattle.cops_core.specs.Lending.{LendsNode};

    /// The first `nodes` nodes of a data centre, empty. Fails if memory runs out.
    pub fn open(alloc: Global, dc: u8, nodes: u8) -> Result<Self, Memory>
        requires dc { dc < MAX_DCS }
        requires nodes { nodes ≤ PLACES }
        ensures { IfOk result (λ opened. opened ≡ row dc nodes) }
    {
        let mut opened = Vec::new(alloc);
        for place in 0..nodes {
            opened.push(Node::open(alloc, node_number(dc, place)))?;
        }
        Ok(DataCentre { nodes: opened })
    }

    /// Borrows the node at a place mutably.
    pub fn node(&mut self, place: u8) -> &mut Node
        requires { place < length self.old }
        ensures* writes_back { sem 𝓛 (LendsNode self.entry place result) }
        ensures value { slice_get self.old place ≡ Some result.now }
    {
        &mut self.nodes[place as usize]
    }
}

/// The data centres, each with its nodes.
#[derive(Drop)]
pub struct DataCentres {
    rows: Vec<DataCentre>,
}

impl Model for DataCentres {
    ghost use Rattle.std.specs.Prelude.{List};
    ghost use Rattle.cops_node.specs.Node.{Node as State};

    ghost Value = { List (List State) };

    ghost view = { λ r. r.rows.items };
}

impl DataCentres {
    ghost use Rattle.std.specs.Prelude.{IfOk, ◌≡◌, ◌≤◌};
    ghost use Rattle.cops_types.specs.declared.limits.TheConstants.{MAX_DCS, PLACES};
    ghost use Rattle.cops_core.specs.World.{rows};
    ghost use Rattle.std.specs.Prelude.{◌<◌, length, slice_get, slice_index_or, [], Some};
    ghost use Rattle.std.specs.Borrow.{sem};
    ghost use Rattle.cops_core.specs.Lending.{LendsNodeAt};

    /// The first `dcs` data centres, each with `nodes` empty nodes. Fails if memory runs out.
    pub fn open(alloc: Global, dcs: u8, nodes: u8) -> Result<Self, Memory>
        requires dcs { dcs ≤ MAX_DCS }
        requires nodes { nodes ≤ PLACES }
        ensures { IfOk result (λ opened. opened ≡ rows nodes dcs) }
    {
        let mut opened = Vec::new(alloc);
        for dc in 0..dcs {
            opened.push(DataCentre::open(alloc, dc, nodes)?)?;
        }
        Ok(DataCentres { rows: opened })
    }

    /// Borrows the node at a place of a data centre.
    pub fn at(&self, dc: u8, place: u8) -> &Node
        requires dc { dc < length self.now }
        requires place { place < length (slice_index_or self.now dc []) }
        ensures { slice_get (slice_index_or self.now dc []) place ≡ Some result.now }
    {
        &self.rows[dc as usize].nodes[place as usize]
    }

    /// Borrows the node at a place of a data centre mutably.
    pub fn node(&mut self, dc: u8, place: u8) -> &mut Node
        requires dc { dc < length self.old }
        requires place { place < length (slice_index_or self.old dc []) }
        ensures* writes_back { sem 𝓛 (LendsNodeAt self.entry dc place result) }
        ensures value { slice_get (slice_index_or self.old dc []) place ≡ Some result.now }
    {
        let row = &mut self.rows[dc as usize];
        row.node(place)
    }
}
