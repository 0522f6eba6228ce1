//! The scripts of clients.
use cops_types::{Key, Value};

/// An operation of a script.
#[derive(Debug, Drop, PartialEq, Eq)]
pub enum ScriptOp {
    Put { key: Key, value: Value },
    Del { key: Key },
    Get { key: Key },
}

/// A client with its data centre, and its operations, one after the other.
#[derive(Debug, Drop)]
pub struct ScriptedClient {
    pub at: u8,
    pub script: Vec<ScriptOp>,
}
