//! What the callers of a cluster were answered.
ghost use Rattle.std.specs.Prelude.{◌≡◌};

use cops_node::Entry;

/// A log entry, with the number of the node whose step it is.
#[derive(Debug, Drop)]
pub struct Made {
    pub entry: Entry,
    pub node: u16,
}

/// The holder of a share: a client, or the receiver of a data centre.
#[derive(Clone, Copy, Debug, PartialEq, Eq)]
pub enum Holder {
    Client(u16),
    Receiver(u8),
}

/// A caller's share: the entries of the steps that it made, in order. Only a step of a node adds an entry.
#[derive(Debug, Drop)]
pub struct Share {
    pub(crate) holder: Holder,
    pub(crate) entries: Vec<Made>,
}

impl Share {
    ghost use Rattle.std.specs.Prelude.{◌≡◌};

    /// The share's holder.
    pub fn holder(&self) -> Holder
        ensures { result ≡ self.now.holder }
    {
        self.holder
    }

    /// The share's entries, in order.
    pub fn entries(&self) -> &[Made]
        ensures { result.now ≡ self.now.entries.items }
    {
        &self.entries
    }
}
