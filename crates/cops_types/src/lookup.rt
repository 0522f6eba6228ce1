//! Lookups of keys and puts that are faster than a search. Every answer is verified, and no answer says nothing, so the
//! module can be replaced by one that answers nothing.
ghost use Rattle.std.specs.Prelude.{◌≡◌, Some, IfSome, slice_get};
ghost use Rattle.cops_types.specs.Entries.{IsReturned};

use crate::candidates::Candidates;
use crate::entries::Entries;
use crate::entry::{NumberedPut, Returned};
use crate::key_set::KeySet;
use crate::op_view::{KeyView, OpView};
use crate::version::Version;
use std::alloc::Global;

/// The distance between the places of two nodes' puts at one clock.
const NODE_STEP: usize = 40_503;

/// An odd number whose multiples spread over all bits.
const SPREAD: u64 = 0x9E37_79B9_7F4A_7C15;

/// The content of a place without a candidate: no put has this number.
const NO_PUT: PutCandidate = PutCandidate {
    tag: 0,
    number: u32::MAX,
};

/// The content of a place without a candidate: no key has this number.
const NO_KEY: u32 = u32::MAX;

/// The most places of a table.
const MOST_PLACES: usize = 1_048_576;

/// The number of operations after which the tables may grow.
const GROWN_AFTER: usize = 64;

/// The memory for fewer keys than these fits into a processor's caches, so that prefetching is of no use.
const FEW_KEYS: usize = 32_768;

/// A candidate put for a version, with a part of the put's version, so that most of the wrong candidates are rejected
/// without looking at the put.
#[derive(Clone, Copy, Debug)]
struct PutCandidate {
    tag: u32,
    number: u32,
}

/// The candidates for an operation: the numbers of its key and of the put that it returned.
#[derive(Clone, Copy, Debug)]
pub(crate) struct Candidate {
    key: Option<u32>,
    put: Option<u32>,
}

/// An operation to be added: the place of its key, the version that it returned, and its candidates.
#[derive(Clone, Copy, Debug)]
struct Coming {
    key_place: usize,
    version: Option<Version>,
    candidate: Candidate,
}

/// The candidates of an operation that was not prefetched.
const NO_CANDIDATE: Candidate = Candidate {
    key: None,
    put: None,
};

/// Candidates for lookups, each of which is verified before it is an answer. The memory for many coming operations is
/// prefetched at once, where fetching it for one after the other would wait for each.
#[derive(Debug, Drop)]
pub(crate) struct Lookup {
    keys: Candidates<u32>,
    puts: Candidates<PutCandidate>,
    /// The candidates of the operations to be added, in their order.
    coming: Vec<Coming>,
    /// How many of those were added.
    come: usize,
}

impl Lookup {
    /// No candidates. Allocates nothing.
    pub(crate) fn new(alloc: Global) -> Self {
        Lookup {
            keys: Candidates::new(alloc),
            puts: Candidates::new(alloc),
            coming: Vec::new(alloc),
            come: 0,
        }
    }

    /// Makes room for candidates for these keys and `ops` operations, if there is memory. It does so only now and then.
    #[inline(always)]
    pub(crate) fn grow(&mut self, keys: &KeySet, ops: usize) {
        if ops % GROWN_AFTER == 0 {
            self.grow_tables(keys, ops);
        }
    }

    /// Like `grow`, but at once.
    #[inline(never)]
    fn grow_tables(&mut self, keys: &KeySet, ops: usize) {
        self.puts.grow(ops, MOST_PLACES, NO_PUT);
        let has_grown = self
            .keys
            .grow(keys.len().saturating_mul(8), MOST_PLACES, NO_KEY);
        if has_grown {
            self.store_keys(keys);
        }
    }

    /// Stores the numbers of these keys, and no others.
    fn store_keys(&mut self, keys: &KeySet) {
        self.keys.fill(NO_KEY);
        for (number, key) in keys.as_slice().iter().enumerate() {
            let Ok(number) = u32::try_from(number) else {
                return;
            };
            self.store_key(&key.as_view(), number);
        }
    }

    /// Drops all candidates, and gives their memory back.
    pub(crate) fn forget(&mut self) {
        self.keys.forget();
        self.puts.forget();
    }

    /// Whether prefetching is useful with this number of keys. If not, the memory is in the caches anyway.
    pub(crate) fn looks_ahead(&self, keys: &KeySet) -> bool {
        keys.len() >= FEW_KEYS
    }

    /// Finds candidates for the coming operations, and prefetches their memory. Each loop reads from one array: its
    /// turns are so short that a processor has many of them under way at once, and waits for memory once instead of
    /// once for each operation.
    pub(crate) fn prefetch(&mut self, keys: &KeySet, entries: &Entries, coming: &[OpView<'_>]) {
        self.come = 0;
        self.coming.clear();
        for op in coming {
            if self.coming.push(Coming::of(op)).is_err() {
                return;
            }
        }
        for it in self.coming.iter_mut() {
            it.candidate.key = self.keys.find(it.key_place);
        }
        for it in self.coming.iter_mut() {
            it.candidate.put = put_among(&self.puts, it.version);
        }
        for (it, op) in self.coming.iter_mut().zip(coming) {
            it.candidate.key = key_that_may_be(it.candidate.key, keys, op.key());
        }
        for (it, op) in self.coming.iter_mut().zip(coming) {
            it.candidate.put = put_that_may_be(it.candidate.put, entries, op);
        }
    }

    /// The candidates for the next operation.
    pub(crate) fn next(&mut self) -> Candidate {
        let coming = self.coming.get(self.come).copied();
        self.come = self.come.saturating_add(1);
        match coming {
            Some(Coming { candidate, .. }) => candidate,
            None => NO_CANDIDATE,
        }
    }

    /// The number of a key, if it is found at its candidate or in the table of candidates.
    #[inline(always)]
    pub(crate) fn key_number(
        &self,
        keys: &KeySet,
        key: &KeyView<'_>,
        candidate: Candidate,
    ) -> Option<u32>
        ensures { IfSome result (λ number. slice_get keys.now.keys number ≡ Some key.now) }
    {
        match candidate.key {
            Some(number) if keys.is_at(number, key) => Some(number),
            _ => self.key_in_table(keys, key),
        }
    }

    /// The put that a get returned, if it is found at its candidate or in the table of candidates.
    #[inline(always)]
    pub(crate) fn source(
        &self,
        entries: &Entries,
        got: &Returned<'_>,
        candidate: Candidate,
    ) -> Option<NumberedPut>
        ensures put { IfSome result (λ put. IsReturned entries.now.all got.now put.name) }
        ensures number { IfSome result (λ put. slice_get entries.now.names put.number ≡ Some put.name) }
    {
        let number = match candidate.put {
            Some(number) => number,
            None => put_among(&self.puts, Some(got.version))?,
        };
        entries.source(number, got)
    }

    /// The number of a key, if the table has it, at the key's place or at the one next to it.
    #[inline(always)]
    fn key_in_table(&self, keys: &KeySet, key: &KeyView<'_>) -> Option<u32>
        ensures { IfSome result (λ number. slice_get keys.now.keys number ≡ Some key.now) }
    {
        let place = spread(key);
        let number = self.keys.find(place)?;
        if keys.is_at(number, key) {
            return Some(number);
        }
        let beside = self.keys.find(place ^ 1)?;
        keys.is_at(beside, key).then_some(beside)
    }

    /// Stores the number of a key, next to its place if another key has that.
    pub(crate) fn store_key(&mut self, key: &KeyView<'_>, number: u32) {
        let place = spread(key);
        match self.keys.find(place) {
            Some(NO_KEY) | None => self.keys.store(place, number),
            Some(_) => self.keys.store(place ^ 1, number),
        }
    }

    /// Stores the number of a put of that version.
    pub(crate) fn store_put(&mut self, version: Version, number: usize) {
        let Ok(number) = u32::try_from(number) else {
            return;
        };
        let candidate = PutCandidate {
            tag: tag(version),
            number,
        };
        self.puts.store(place(version), candidate);
    }
}

impl Coming {
    /// An operation without candidates yet.
    fn of(op: &OpView<'_>) -> Self {
        let version = match op {
            OpView::Got { version, .. } => Some(*version),
            OpView::Put { .. } | OpView::Missed { .. } => None,
        };
        Coming {
            key_place: spread(op.key()),
            version,
            candidate: NO_CANDIDATE,
        }
    }
}

/// The candidate put for a version, if there is a version.
#[inline(always)]
fn put_among(puts: &Candidates<PutCandidate>, version: Option<Version>) -> Option<u32> {
    let version = version?;
    let candidate = puts.find(place(version))?;
    (candidate.tag == tag(version)).then_some(candidate.number)
}

/// The candidate for a key's number, unless it is seen to be wrong.
fn key_that_may_be(candidate: Option<u32>, keys: &KeySet, key: &KeyView<'_>) -> Option<u32> {
    let number = candidate?;
    keys.may_be_at(number, key).then_some(number)
}

/// The candidate for a put's number, unless it is seen to be wrong.
fn put_that_may_be(candidate: Option<u32>, entries: &Entries, op: &OpView<'_>) -> Option<u32> {
    let number = candidate?;
    let OpView::Got { value, version, .. } = op else {
        return None;
    };
    let len = match value {
        Some(value) => value.as_bytes().len(),
        None => 0,
    };
    entries.may_be_put(number, len, *version).then_some(number)
}

/// Spreads keys over places, by their first and their last bytes.
fn spread(key: &KeyView<'_>) -> usize {
    let bytes = key.as_bytes();
    let word = if let (Some(first), Some(last)) = (
        bytes.first_chunk::<8>(),
        bytes.last_chunk::<8>(),
    ) {
        // The first bytes are spread before: in a key of eight bytes they are the last ones too.
        u64::from_le_bytes(*first).wrapping_mul(SPREAD) ^ u64::from_le_bytes(*last).rotate_left(32)
    } else if let (Some(first), Some(last)) = (bytes.first_chunk::<4>(), bytes.last_chunk::<4>()) {
        u64::from(u32::from_le_bytes(*first)) << 32 | u64::from(u32::from_le_bytes(*last))
    } else {
        short_word(bytes)
    };
    (word.wrapping_mul(SPREAD) >> 32) as usize
}

/// The bytes of a short key.
fn short_word(bytes: &[u8]) -> u64 {
    let mut word = 0u64;
    for byte in bytes {
        word = word << 8 | u64::from(*byte);
    }
    word
}

/// A part of a version that distinguishes most versions of one place.
fn tag(version: Version) -> u32 {
    (version.as_u64().wrapping_mul(SPREAD) >> 32) as u32
}

/// The place of a version. The places of a node's puts follow one another, and those of different nodes lie apart.
fn place(version: Version) -> usize {
    version.clock() as usize + usize::from(version.node()) * NODE_STEP
}
