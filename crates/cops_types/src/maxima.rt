ghost use Rattle.std.specs.Prelude.{◌≡◌, ◌<◌, [], false, IfOk, length, replicate, slice_index_or};
ghost use Rattle.cops_types.specs.Maxima.{AreSessionMaxima, TakesEntry};

use crate::entry::StoredOp;
use std::alloc::{AllocError, Global};

/// For each session its maximum, the greatest version that it put or got so far, and whether each of its puts has a
/// greater version than all that it put or got before; and whether that holds for all sessions.
#[derive(Debug, Drop)]
pub(crate) struct Maxima {
    sessions: Vec<u64>,
    rise: Vec<bool>,
    are_above: bool,
}

impl Maxima {
    /// The state for `clients` sessions without operations. Fails if memory runs out.
    pub(crate) fn new(alloc: Global, clients: u16) -> Result<Self, AllocError>
        ensures { IfOk result (AreSessionMaxima (replicate clients [])) }
    {
        let sessions = vec![in alloc; 0u64; clients as usize]?;
        let rise = vec![in alloc; true; clients as usize]?;
        Ok(Maxima {
            sessions,
            rise,
            are_above: true,
        })
    }

    /// Whether each put has a greater version than all that its session put or got before it.
    pub(crate) fn are_above(&self) -> bool
        ensures { result ≡ self.now.are_above }
    {
        self.are_above
    }

    /// Whether each put of a client has a greater version than all that the client put or got before it. False if there
    /// is no such client.
    pub(crate) fn is_above(&self, client: u16) -> bool
        ensures { result ≡ slice_index_or self.now.rise.items client false }
    {
        self.rise.get(client as usize).copied().unwrap_or(false)
    }

    /// Updates the state with a client's next operation.
    #[inline(always)]
    pub(crate) fn take_in(&mut self, client: u16, entry: &StoredOp)
        requires maximum { client < length self.old.sessions.items }
        requires flag { client < length self.old.rise.items }
        ensures { TakesEntry client entry.now self.old self.new }
    {
        let maximum = self.sessions[client as usize];
        match entry {
            StoredOp::Put { version, .. } if version.as_u64() <= maximum => {
                self.rise[client as usize] = false;
                self.are_above = false;
            }
            StoredOp::Put { version, .. } => self.sessions[client as usize] = version.as_u64(),
            StoredOp::Got { version, .. } | StoredOp::Sourced { version, .. } => {
                self.sessions[client as usize] = maximum.max(version.as_u64());
            }
            StoredOp::Missed { .. } => {}
        }
    }
}
