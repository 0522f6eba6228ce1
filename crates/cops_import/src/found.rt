//! The versions of another store, as a survey finds them.
use crate::fault::ImportFault;
use crate::keys::Keys;
use crate::ranks::Ranks;
use crate::store_version::StoreVersion;
use std::alloc::Global;

/// The number of versions that may be held before equal ones are dropped.
const LEAST: usize = 4096;

/// Versions of the kind of the first one. Equal ones are dropped whenever there are twice as many as were left before.
#[derive(Debug, Drop)]
pub(crate) struct Found {
    alloc: Global,
    keys: Keys,
    full: usize,
}

impl Found {
    /// No versions. Allocates nothing.
    pub(crate) fn new(alloc: Global) -> Found {
        Found {
            alloc,
            keys: Keys::Numbers(Vec::new(alloc)),
            full: LEAST,
        }
    }

    /// Adds a version, if it has the kind of the first one.
    pub(crate) fn add(&mut self, version: StoreVersion) -> Result<(), ImportFault> {
        if self.keys.len() == 0 {
            self.keys = Keys::like(self.alloc, &version);
        }
        if self.keys.len() >= self.full {
            self.keys.sort();
            self.full = self.keys.len().saturating_mul(2).max(LEAST);
        }
        Ok(self.keys.push(version)?)
    }

    /// The ranks of the versions. Nothing if there are 2^48 of them.
    pub(crate) fn ranks(self) -> Option<Ranks> {
        Ranks::new(self.keys)
    }
}
