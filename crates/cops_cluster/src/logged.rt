//! Log entries with their nodes' numbers, to be sorted by ticket.
ghost use Rattle.std.specs.Prelude.{◌≡◌};

use cops_node::Entry;

/// A log entry with its node's number, and its ticket, so that sorting need not look into the entry.
#[derive(Clone, Copy)]
pub struct LoggedEntry<'a> {
    pub ticket: u64,
    pub entry: &'a Entry,
    pub node: u16,
    ghost same: { ticket ≡ entry.now.ticket },
}

impl<'a> LoggedEntry<'a> {
    ghost use Rattle.std.specs.Prelude.{◌≡◌, ◌↔◌, IsTrue};
    ghost use Rattle.cops_cluster.specs.Shares.{made};
    ghost use Rattle.cops_cluster.specs.Differing.{shown};

    pub(crate) fn new(entry: &'a Entry, node: u16) -> Self
        ensures { shown result ≡ made node entry.now }
    {
        LoggedEntry {
            ticket: entry.ticket,
            entry,
            node,
        }
    }

    /// Whether both are the same entry of the same node.
    pub(crate) fn is(&self, other: &LoggedEntry<'_>) -> bool
        ensures { IsTrue result ↔ (shown self.now ≡ shown other.now) }
    {
        if self.node != other.node {
            return false;
        }
        self.entry.is(other.entry)
    }
}
