use cops_core::Event;
use cops_node::Entry;
use cops_tie::ClientOutcome;
use cops_trace::Trace;

/// A run: for each node, in order of node numbers, the list of its log entries; the world's events that these entries
/// are; what the clients saw; and how each client ended.
#[derive(Drop)]
pub struct Run {
    pub entries: Vec<Vec<Entry>>,
    pub events: Vec<Event>,
    pub trace: Trace,
    pub outcomes: Vec<ClientOutcome>,
}
