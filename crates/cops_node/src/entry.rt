use crate::event::NodeEvent;
use crate::outcome::Outcome;

/// One step of a node: its ticket, the event, and the node's answer.
#[derive(Debug, Drop)]
pub struct Entry {
    pub ticket: u64,
    pub event: NodeEvent,
    pub outcome: Outcome,
}
