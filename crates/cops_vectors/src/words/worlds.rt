//! The events of a world: `put CLIENT KEY VALUE`, `del CLIENT KEY`, `get CLIENT KEY`, `deliver DATA_CENTRE VERSION`,
//! `ask DATA_CENTRE KEY VERSION`, `mark DATA_CENTRE VERSION DEP`, `settle DATA_CENTRE VERSION`.

use crate::words::reading::{client_key, key, mark, no_row, pair, u8_of, u16_of, value, version};
use anyhow::Error;
use cops_core::Event;
use cops_types::Dep;
use std::alloc::Global;

/// The event of a world that words describe.
pub fn world_event(alloc: Global, words: &[&str]) -> Result<Event, Error> {
    match words {
        ["put", client, name, bytes] => Ok(Event::Put {
            client: u16_of(client)?,
            key: key(alloc, name)?,
            value: value(alloc, bytes)?,
        }),
        ["del", rest @ ..] => {
            let (client, key) = client_key(alloc, rest)?;
            Ok(Event::Del { client, key })
        }
        ["get", rest @ ..] => {
            let (client, key) = client_key(alloc, rest)?;
            Ok(Event::Get { client, key })
        }
        ["deliver", dc, at] => Ok(Event::Deliver {
            dc: u8_of(dc)?,
            version: version(at)?,
        }),
        ["ask", dc, rest @ ..] => {
            let dc = u8_of(dc)?;
            let Dep { key, version } = pair(alloc, rest)?;
            Ok(Event::Ask { dc, key, version })
        }
        ["mark", dc, rest @ ..] => {
            let dc = u8_of(dc)?;
            let (version, dep) = mark(rest)?;
            Ok(Event::Mark { dc, version, dep })
        }
        ["settle", dc, at] => Ok(Event::Settle {
            dc: u8_of(dc)?,
            version: version(at)?,
        }),
        _ => Err(no_row()),
    }
}
