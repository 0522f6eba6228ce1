use cops_types::{Deps, Key, PutRecord, Value, Version};
use std::alloc::AllocError;

/// One event at a node.
#[derive(Debug, Drop)]
pub enum NodeEvent {
    /// A client puts a value; `deps` is its context.
    Put {
        client: u16,
        key: Key,
        value: Value,
        deps: Deps,
    },
    /// A client deletes a key; `deps` is its context.
    Del {
        client: u16,
        key: Key,
        deps: Deps,
    },
    /// A client gets a key.
    Get {
        client: u16,
        key: Key,
    },
    /// A put or a deletion of another data centre arrives.
    Deliver(PutRecord),
    /// A node of the same data centre asks whether exactly this pair is settled.
    Ask {
        key: Key,
        version: Version,
    },
    /// A dependency of a waiting put, by its index, is settled in this data centre.
    Mark {
        version: Version,
        dep: u16,
    },
    /// A waiting put whose dependencies are all marked is settled.
    Settle {
        version: Version,
    },
}

/// A clone is equal to its original.
impl Clone for NodeEvent {
    ghost use Rattle.std.specs.Prelude.{◌≡◌};

    ghost is_clone = { λ s t. t ≡ s };

    fn clone(&self) -> Result<NodeEvent, AllocError> {
        Ok(match self {
            NodeEvent::Put {
                client,
                key,
                value,
                deps,
            } => NodeEvent::Put {
                client: *client,
                key: key.clone()?,
                value: value.clone()?,
                deps: deps.clone()?,
            },
            NodeEvent::Del { client, key, deps } => NodeEvent::Del {
                client: *client,
                key: key.clone()?,
                deps: deps.clone()?,
            },
            NodeEvent::Get { client, key } => NodeEvent::Get {
                client: *client,
                key: key.clone()?,
            },
            NodeEvent::Deliver(put) => NodeEvent::Deliver(put.clone()?),
            NodeEvent::Ask { key, version } => NodeEvent::Ask {
                key: key.clone()?,
                version: *version,
            },
            NodeEvent::Mark { version, dep } => NodeEvent::Mark {
                version: *version,
                dep: *dep,
            },
            NodeEvent::Settle { version } => NodeEvent::Settle { version: *version },
        })
    }
}
