use cops_types::{Dep, Key, Value, Version};
use std::alloc::AllocError;

/// An event of a world.
#[derive(Debug, Drop)]
pub enum Event {
    /// A client puts a value at a key, in its own data centre.
    Put { client: u16, key: Key, value: Value },
    /// A client deletes a key, in its own data centre. Only format 2 has this.
    Del { client: u16, key: Key },
    /// A client gets a key, from its own data centre.
    Get { client: u16, key: Key },
    /// The put of that version, or the deletion, arrives at a data centre. Every put may arrive at every data centre at
    /// any time and any number of times, so the choice and order of these events models delays, losses and repeats.
    Deliver { dc: u8, version: Version },
    /// A data centre's node is asked whether exactly this pair is settled there (COPS, section 4.3: `dep_check`).
    Ask { dc: u8, key: Key, version: Version },
    /// The held put of that version gets a mark for its dependency at index `dep`, for which Yes was answered.
    Mark { dc: u8, version: Version, dep: u16 },
    /// The held put of that version is settled, if all its dependencies are marked.
    Settle { dc: u8, version: Version },
}

/// A Yes answer: the pair was settled in the data centre.
#[derive(Debug, Drop, PartialEq, Eq, Hash)]
pub struct Said {
    pub dc: u8,
    pub pair: Dep,
}
