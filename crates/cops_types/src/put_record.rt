use crate::dep::Deps;
use crate::key::Key;
use crate::value::{Value, content_copy};
use crate::version::Version;
use std::alloc::AllocError;

/// A put as it is sent to the other data centres, with its nearest dependencies (COPS, section 4.3). Without a value it
/// is a deletion.
#[derive(Debug, Drop)]
pub struct PutRecord {
    pub key: Key,
    pub value: Option<Value>,
    pub version: Version,
    pub deps: Deps,
}

/// A copy that equals it.
impl Clone for PutRecord {
    ghost use Rattle.std.specs.Prelude.{◌≡◌};

    ghost is_clone = { λ s t. t ≡ s };

    fn clone(&self) -> Result<PutRecord, AllocError> {
        Ok(PutRecord {
            key: self.key.clone()?,
            value: content_copy(self.value.as_ref())?,
            version: self.version,
            deps: self.deps.clone()?,
        })
    }
}

/// The status of a node: its clock, how many keys show a put, how many pairs are settled, and how many puts are held.
#[derive(Clone, Copy, Debug, PartialEq, Eq)]
pub struct NodeStatus {
    pub clock: u64,
    pub keys: u64,
    pub settled: u64,
    pub held: u64,
}
