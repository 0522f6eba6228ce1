use crate::fault::TraceFault;
use cops_types::{Format, Op};

/// An item of a trace's text.
#[derive(Debug, Drop)]
pub enum Item {
    /// The head, with the format that it names and the number of clients.
    Head { format: Format, clients: u16 },
    /// A record: the next operation of a client.
    Op { client: u16, op: Op },
    /// The end.
    End,
}

/// What the rest of a text begins with: an item of `used` bytes, no whole frame, or a fault.
#[derive(Debug, Drop)]
pub enum Found {
    Gives { item: Item, used: usize },
    Waits,
    Fails(TraceFault),
}
