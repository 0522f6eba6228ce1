//! Sorted lists of versions of one kind.
ghost use Rattle.std.specs.Prelude.{◌≡◌, ◌≢◌, ◌<◌, ℕ, length, IfNone, IfSome};
ghost use Rattle.std.specs.List.{AllPairs, HoldsAt};

use crate::store_version::{StoreVersion, Text};
use std::alloc::{AllocError, Global};
use std::cmp::Ordering;

/// A full list of keys grows at least by this many.
const GROWTH: usize = 1024;

/// Versions of another store, all of one kind.
#[derive(Debug, Drop)]
pub(crate) enum Keys {
    Numbers(Vec<u64>),
    Texts(Vec<Text>),
    Pairs(Vec<(u64, Text)>),
}

impl Keys {
    ghost use Rattle.std.specs.Prelude.{◌↔◌, IsTrue, Some, slice_get};
    ghost use Rattle.std.specs.List.{Contains};
    ghost use Rattle.cops_import.specs.Stores.{IsIncreasing, IsOfKind, all_stored, stored};

    /// How many there are.
    pub(crate) fn len(&self) -> usize
        ensures { result ≡ length (all_stored self.now) }
    {
        match self {
            Keys::Numbers(numbers) => numbers.len(),
            Keys::Texts(texts) => texts.len(),
            Keys::Pairs(pairs) => pairs.len(),
        }
    }

    /// No versions, of the kind of this one.
    pub(crate) fn like(alloc: Global, version: &StoreVersion) -> Keys {
        match version {
            StoreVersion::Number(_) => Keys::Numbers(Vec::new(alloc)),
            StoreVersion::Text(_) => Keys::Texts(Vec::new(alloc)),
            StoreVersion::Pair(_) => Keys::Pairs(Vec::new(alloc)),
        }
    }

    /// Adds a version at the end, if it has the kind of these.
    pub(crate) fn push(&mut self, version: StoreVersion) -> Result<(), AllocError> {
        match (self, version) {
            (Keys::Numbers(numbers), StoreVersion::Number(number)) => push(numbers, number)?,
            (Keys::Texts(texts), StoreVersion::Text(text)) => push(texts, text)?,
            (Keys::Pairs(pairs), StoreVersion::Pair(pair)) => push(pairs, pair)?,
            _ => {}
        }
        Ok(())
    }

    /// Puts the versions in increasing order, and drops all but one of those that are equal.
    pub(crate) fn sort(&mut self)
        ensures { IsIncreasing (all_stored self.new) }
    {
        match self {
            Keys::Numbers(numbers) => tidy(numbers),
            Keys::Texts(texts) => tidy(texts),
            Keys::Pairs(pairs) => tidy(pairs),
        }
    }

    /// Whether a version has the kind of these, which is any kind if there are none.
    pub(crate) fn is_kind_of(&self, version: &StoreVersion) -> bool
        ensures { IsTrue result ↔ IsOfKind (all_stored self.now) (stored version.now) }
    {
        match (self, version) {
            (Keys::Numbers(_), StoreVersion::Number(_)) => true,
            (Keys::Texts(_), StoreVersion::Text(_)) => true,
            (Keys::Pairs(_), StoreVersion::Pair(_)) => true,
            _ => self.len() == 0,
        }
    }

    /// The place of a version among increasing ones, if it is among them.
    pub(crate) fn place_of(&self, version: &StoreVersion) -> Option<usize>
        requires { IsIncreasing (all_stored self.now) }
        ensures some { IfSome result (λ place. slice_get (all_stored self.now) place ≡ Some (stored version.now)) }
        ensures none { IfNone result (Contains (all_stored self.now) (stored version.now) → ⊥) }
    {
        match (self, version) {
            (Keys::Numbers(numbers), StoreVersion::Number(number)) => place_of(numbers, number),
            (Keys::Texts(texts), StoreVersion::Text(text)) => place_of(texts, text),
            (Keys::Pairs(pairs), StoreVersion::Pair(pair)) => place_of(pairs, pair),
            _ => None,
        }
    }
}

/// Adds a key at the end. A full list grows by a quarter.
fn push<K: Drop>(keys: &mut Vec<K>, key: K) -> Result<(), AllocError> {
    if keys.len() == keys.capacity() {
        keys.reserve_exact(keys.len() / 4 + GROWTH)?;
    }
    Ok(keys.push(key)?)
}

/// Sorts keys, and drops all but one of those that are equal.
fn tidy<K: Ord + Drop>(keys: &mut Vec<K>)
    ensures { AllPairs (λ a b. K.cmp a b ≡ Ordering.Less) keys.new.items }
{
    keys.sort_unstable();
    keys.dedup();
}

/// The place of a key among increasing ones, if it is among them.
fn place_of<K: Ord>(keys: &[K], key: &K) -> Option<usize>
    requires { AllPairs (λ a b. K.cmp a b ≡ Ordering.Less) keys.now }
    ensures some { IfSome result (λ place. (place < length keys.now) × HoldsAt (λ k. K.cmp k key.now ≡ Ordering.Equal) keys.now place) }
    ensures none { IfNone result ((place : ℕ) → place < length keys.now → HoldsAt (λ k. K.cmp k key.now ≢ Ordering.Equal) keys.now place) }
{
    match keys.binary_search(key) {
        Ok(place) => Some(place),
        Err(_) => None,
    }
}
