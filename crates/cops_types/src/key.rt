ghost use Rattle.std.specs.Prelude.{◌≡◌, ◌<◌, ◌≤◌, ◌↔◌, List, ℕ, length, [], IfOk, IfErr, IsErrOf, IsTrue};
ghost use Rattle.cops_types.specs.declared.limits.TheConstants.{MAX_KEY};
ghost use Rattle.cops_types.specs.KeyValue.{IsKey};
ghost use Rattle.cops_types.specs.TypeFaults.{IsKeyFault};

use crate::fault::TypeFault;
use crate::limits::MAX_KEY;
use crate::op_view::KeyView;
use crate::short_bytes::{INLINE, ShortBytes};
use smallvec::SmallVec;
use std::alloc::{AllocError, Global};
use std::marker::Model;

/// A key: 1 to 64 bytes. Keys compare byte by byte.
#[derive(Clone, Debug, PartialEq, Eq, PartialOrd, Ord, Hash, Drop)]
pub struct Key {
    bytes: ShortBytes,
}

impl Model for Key {
    ghost Value = { List ℕ };

    ghost view = { λ k. k.bytes };

    ghost invariant = { λ k. IsKey k.bytes };

    ghost inverse = { λ items. record { bytes = items } };
}

impl Key {
    /// The key of these bytes. Errors: `KeyEmpty` if there are none, `KeyTooLong` if there are more than 64, `Memory`
    /// if memory runs out.
    pub fn new(alloc: Global, bytes: &[u8]) -> Result<Self, TypeFault>
        ensures ok { IfOk result (λ key. (key ≡ bytes.now) × IsKey bytes.now) }
        ensures empty { IsErrOf result TypeFault.KeyEmpty ↔ (length bytes.now ≡ 0) }
        ensures too_long { IsErrOf result TypeFault.KeyTooLong ↔ (MAX_KEY < length bytes.now) }
        ensures only { IfErr result IsKeyFault }
    {
        match KeyView::new(bytes) {
            Ok(seen) => Key::of(alloc, &seen).or(Err(TypeFault::Memory)),
            Err(fault) => Err(fault),
        }
    }

    /// A copy of a borrowed key.
    pub(crate) fn of(alloc: Global, seen: &KeyView<'_>) -> Result<Self, AllocError>
        ensures { IfOk result (λ key. key ≡ seen.now) }
    {
        let bytes = ShortBytes::from_slice(alloc, seen.as_bytes())?;
        Ok(Key { bytes })
    }

    /// Borrows the key.
    pub fn as_view(&self) -> KeyView<'_>
        ensures { result ≡ self.now }
    {
        KeyView {
            bytes: self.bytes.as_slice(),
        }
    }

    pub fn as_bytes(&self) -> &[u8]
        ensures bytes { result.now ≡ self.now }
        ensures key { IsKey self.now }
    {
        self.bytes.as_slice()
    }

    /// Whether the two have the same bytes.
    pub fn is(&self, other: &Key) -> bool
        ensures { IsTrue result ↔ (self.now ≡ other.now) }
    {
        self.is_seen(&other.as_view())
    }

    /// Whether the borrowed key has the same bytes.
    pub fn is_seen(&self, other: &KeyView<'_>) -> bool
        ensures { IsTrue result ↔ (self.now ≡ other.now) }
    {
        self.bytes.as_slice() == other.as_bytes()
    }
}

/// Reserved memory for a copy of any key, so that making the copy cannot fail.
#[derive(Drop)]
pub struct KeyRoom {
    bytes: SmallVec<u8, INLINE>,
    ghost empty: { bytes.items ≡ [] },
    ghost room: { MAX_KEY ≤ bytes.capacity },
}

impl KeyRoom {
    /// Reserves memory for one copy. Fails if memory runs out.
    pub fn new(alloc: Global) -> Result<Self, AllocError> {
        Ok(KeyRoom {
            bytes: SmallVec::with_capacity(alloc, MAX_KEY)?,
        })
    }

    /// A copy of a key, in this memory.
    pub fn copy(self, key: &Key) -> Key
        ensures { result ≡ key.now }
    {
        let KeyRoom { bytes: room } = self;
        let mut bytes = room;
        bytes.extend_from_slice(key.as_bytes()).unwrap();
        Key {
            bytes: ShortBytes::of(bytes),
        }
    }
}
