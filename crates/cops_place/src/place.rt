ghost use Rattle.std.specs.Prelude.{◌≡◌, ◌↔◌, IsTrue};
ghost use Rattle.cops_place.specs.Place.{AreAscending, primary, is_at_most, is_below};

use crate::fault::PlaceFault;
use cops_types::{Key, MAX_DCS, node_number};
use std::alloc::AllocError;
use std::marker::Model;

/// The greatest number of split keys.
pub const MAX_SPLITS: usize = 63;

/// Where a key lives: 1 to 16 data centres, and at most 63 split keys, each above the one before it. Keys compare byte
/// by byte.
#[derive(Debug, Drop)]
pub struct Place {
    dcs: u8,
    splits: Vec<Key>,
}

impl Model for Place {
    ghost use Rattle.cops_place.specs.Place.{APlace, IsPlace};

    ghost Value = { APlace };

    ghost view = { λ p. record { dcs = p.dcs; splits = p.splits.items } };

    ghost invariant = { λ p. IsPlace (record { dcs = p.dcs; splits = p.splits.items }) };
}

impl Place {
    ghost use Rattle.std.specs.Prelude.{◌≡◌, ◌↔◌, ◌≤◌, ◌<◌, ◌+◌, length, IfOk, IsErrOf};
    ghost use Rattle.cops_place.specs.Place.{IsPlace, IsInRange, AreAscending, primary};
    ghost use Rattle.cops_types.specs.NodeNumber.{node_number};
    ghost use Rattle.cops_types.specs.declared.limits.TheConstants.{NODES};

    /// A place of `dcs` data centres with these split keys.
    ///
    /// Errors: `BadCount` unless there are 1 to 16 data centres and at most 63 split keys; then `SplitsNotAscending`
    /// unless each split key is above the one before it.
    pub fn new(dcs: u8, splits: Vec<Key>) -> Result<Self, PlaceFault>
        ensures ok { IfOk result (λ place. place ≡ record { dcs = dcs; splits = splits.items }) }
        ensures bad_count { IsErrOf result PlaceFault.BadCount ↔ (IsInRange dcs splits.items → ⊥) }
        ensures not_ascending { IsErrOf result PlaceFault.SplitsNotAscending ↔ (IsInRange dcs splits.items × (AreAscending splits.items → ⊥)) }
    {
        if dcs < 1 || dcs > MAX_DCS || splits.len() > MAX_SPLITS {
            return Err(PlaceFault::BadCount);
        }
        if !are_ascending(&splits) {
            return Err(PlaceFault::SplitsNotAscending);
        }
        Ok(Place { dcs, splits })
    }

    /// The number of data centres, 1 to 16.
    pub fn dcs(&self) -> u8
        ensures count { result ≡ self.now.dcs }
        ensures place { IsPlace self.now }
    {
        self.dcs
    }

    /// The number of nodes of each data centre, 1 to 64.
    pub fn nodes(&self) -> u8
        ensures count { result ≡ length self.now.splits + 1 }
        ensures place { IsPlace self.now }
    {
        self.splits.len() as u8 + 1
    }

    /// The place of a key's primary node in each data centre: the number of split keys that are not above the key.
    pub fn primary(&self, key: &Key) -> u8
        ensures count { result ≡ primary self.now.splits key.now }
        ensures range { result ≤ length self.now.splits }
        ensures place { IsPlace self.now }
    {
        let count = count_at_most(&self.splits, key);
        count as u8
    }

    /// The number of a key's primary node in a data centre, below 1,024: 64 times the data centre, plus the place.
    pub fn node(&self, dc: u8, key: &Key) -> u16
        requires { dc < self.now.dcs }
        ensures number { result ≡ node_number dc (primary self.now.splits key.now) }
        ensures range { result < NODES }
    {
        node_number(dc, self.primary(key))
    }
}

/// A clone is equal to its original.
impl Clone for Place {
    ghost use Rattle.std.specs.Prelude.{◌≡◌};

    ghost is_clone = { λ s t. t ≡ s };

    fn clone(&self) -> Result<Place, AllocError> {
        let mut splits = Vec::new(*self.splits.allocator());
        for split in &self.splits {
            splits.push(split.clone()?)?;
        }
        Ok(Place {
            dcs: self.dcs,
            splits,
        })
    }
}

/// Whether each key is above the one before it.
fn are_ascending(keys: &[Key]) -> bool
    ensures { IsTrue result ↔ AreAscending keys.now }
{
    for i in 1..keys.len() {
        if !is_below(&keys[i - 1], &keys[i]) {
            return false;
        }
    }
    true
}

/// The number of keys that are not above this one.
fn count_at_most(keys: &[Key], key: &Key) -> usize
    ensures { result ≡ primary keys.now key.now }
{
    keys.iter().filter(|other| is_at_most(other, key)).count()
}

/// Whether a key is below the other.
fn is_below(key: &Key, other: &Key) -> bool
    ensures { result ≡ is_below key.now other.now }
{
    key.cmp(other).is_lt()
}

/// Whether a key is not above the other.
fn is_at_most(key: &Key, other: &Key) -> bool
    ensures { result ≡ is_at_most key.now other.now }
{
    key.cmp(other).is_le()
}
