//! The events of a node: `put CLIENT KEY VALUE DEPS`, `del CLIENT KEY DEPS`, `get CLIENT KEY`,
//! `deliver KEY VALUE VERSION DEPS`, which has no value for a deletion, `ask KEY VERSION`, `mark VERSION DEP`,
//! `settle VERSION`.

use crate::words::reading::{
    client_key, deps, key, mark, no_row, pair, put, u16_of, value, version,
};
use anyhow::Error;
use cops_node::NodeEvent;
use cops_types::Dep;
use std::alloc::Global;

/// The event of a node that words describe.
pub fn node_event(alloc: Global, words: &[&str]) -> Result<NodeEvent, Error> {
    match words {
        ["put", client, name, bytes, pairs] => Ok(NodeEvent::Put {
            client: u16_of(client)?,
            deps: deps(alloc, pairs)?,
            key: key(alloc, name)?,
            value: value(alloc, bytes)?,
        }),
        ["del", client, name, pairs] => Ok(NodeEvent::Del {
            client: u16_of(client)?,
            deps: deps(alloc, pairs)?,
            key: key(alloc, name)?,
        }),
        ["get", rest @ ..] => {
            let (client, key) = client_key(alloc, rest)?;
            Ok(NodeEvent::Get { client, key })
        }
        ["deliver", rest @ ..] => Ok(NodeEvent::Deliver(put(alloc, rest)?)),
        ["ask", rest @ ..] => {
            let Dep { key, version } = pair(alloc, rest)?;
            Ok(NodeEvent::Ask { key, version })
        }
        ["mark", rest @ ..] => {
            let (version, dep) = mark(rest)?;
            Ok(NodeEvent::Mark { version, dep })
        }
        ["settle", at] => Ok(NodeEvent::Settle {
            version: version(at)?,
        }),
        _ => Err(no_row()),
    }
}
