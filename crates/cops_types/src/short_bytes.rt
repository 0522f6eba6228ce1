//! Bytes that are stored inline where they are few.
ghost use Rattle.std.specs.Prelude.{◌≡◌, ◌==◌, List, ℕ, [], IfOk};

use smallvec::SmallVec;
use std::alloc::{AllocError, Global};
use std::cmp::Ordering;
use std::hash::{Hash, Hasher};
use std::marker::Model;

/// The number of bytes that are stored inline. More are stored in an allocation.
pub(crate) const INLINE: usize = 16;

/// Bytes, of which up to 16 are stored inline. They compare and hash as their slice does.
#[derive(Debug, Drop)]
pub struct ShortBytes {
    bytes: SmallVec<u8, INLINE>,
}

impl Model for ShortBytes {
    ghost Value = { List ℕ };

    ghost view = { λ b. b.bytes.items };
}

impl PartialEq for ShortBytes {
    ghost use Rattle.std.proofs.Common.{rules};
    ghost use Rattle.std.specs.Cmp.Rules.{comparing};
    ghost use Rattle.std.specs.Cmp.Lexicographic.{pointwise};

    ghost eq = { pointwise ◌==◌ };

    ghost laws = { Prim.search (comparing, rules) };

    #[inline(always)]
    fn eq(&self, other: &ShortBytes) -> bool {
        self.bytes.as_slice() == other.bytes.as_slice()
    }
}

impl Eq for ShortBytes {
    ghost use Rattle.std.proofs.Common.{rules};
    ghost use Rattle.std.specs.Cmp.Rules.{comparing};

    ghost laws = { Prim.search (comparing, rules) };
}

impl Ord for ShortBytes {
    ghost use Rattle.std.proofs.Common.{rules};
    ghost use Rattle.std.specs.Cmp.Lexicographic.{slice_cmp};
    ghost use Rattle.std.specs.Cmp.Rules.{comparing};
    ghost use Rattle.std.specs.Ordering.{nat_cmp};

    ghost cmp = { slice_cmp nat_cmp };

    ghost total = { Prim.search (comparing, rules) };

    ghost matches_partial_cmp = { Prim.search (comparing, rules) };

    ghost matches_eq = { Prim.search (comparing, rules) };

    fn cmp(&self, other: &ShortBytes) -> Ordering {
        self.bytes.as_slice().cmp(&other.bytes.as_slice())
    }
}

impl PartialOrd for ShortBytes {
    ghost use Rattle.std.proofs.Common.{rules};
    ghost use Rattle.std.specs.Cmp.{partial_order_from_own_ties};
    ghost use Rattle.std.specs.Cmp.Lexicographic.{slice_cmp};
    ghost use Rattle.std.specs.Cmp.Rules.{comparing};
    ghost use Rattle.std.specs.Ordering.{as_partial_cmp, nat_cmp};

    ghost partial_cmp = { as_partial_cmp (slice_cmp nat_cmp) };

    ghost laws = { partial_order_from_own_ties (Prim.search (comparing, rules)) (Prim.search (comparing, rules)) };

    fn partial_cmp(&self, other: &ShortBytes) -> Option<Ordering> {
        Some(self.cmp(other))
    }
}

impl Hash for ShortBytes {
    ghost use Rattle.std.proofs.Common.{rules};
    ghost use Rattle.std.specs.Hash as fed;
    ghost use Rattle.std.specs.Cmp.Rules.{hashing};

    ghost hash_input = { fed.slice fed.u8 };

    ghost respects_eq = { Prim.search (hashing, rules) };

    fn hash<H: Hasher>(&self, state: &mut H) {
        self.bytes.as_slice().hash(state);
    }
}

/// A copy with the same bytes.
impl Clone for ShortBytes {
    ghost is_clone = { λ s t. t ≡ s };

    fn clone(&self) -> Result<ShortBytes, AllocError> {
        ShortBytes::from_slice(*self.bytes.allocator(), self.as_slice())
    }
}

impl ShortBytes {
    /// No bytes. Allocates nothing.
    pub(crate) fn new(alloc: Global) -> Self
        ensures { result ≡ [] }
    {
        ShortBytes {
            bytes: SmallVec::new(alloc),
        }
    }

    /// A copy of these bytes. Fails if memory runs out.
    pub fn from_slice(alloc: Global, bytes: &[u8]) -> Result<Self, AllocError>
        ensures { IfOk result (λ copy. copy ≡ bytes.now) }
    {
        Ok(ShortBytes {
            bytes: SmallVec::from_slice(alloc, bytes)?,
        })
    }

    /// These bytes, in the memory in which they are.
    pub(crate) fn of(bytes: SmallVec<u8, INLINE>) -> Self
        ensures { result ≡ bytes.items }
    {
        ShortBytes { bytes }
    }

    #[inline(always)]
    pub fn as_slice(&self) -> &[u8]
        ensures { result.now ≡ self.now }
    {
        self.bytes.as_slice()
    }
}
