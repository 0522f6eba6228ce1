//! The ranks of another store's versions.
use crate::keys::Keys;
use crate::store_version::StoreVersion;
use cops_types::Version;
use std::marker::Model;

/// Fewer versions than this have ranks, so that each rank is a clock.
const MOST: usize = 1 << 48;

/// The distinct versions of another store's operations, in increasing order and all of one kind: whole numbers, texts,
/// which are compared by their bytes, or pairs of these, which are compared by number and then by text. The rank of a
/// version is its place among them, counted from 1.
#[derive(Debug, Drop)]
pub struct Ranks {
    keys: Keys,
}

impl Model for Ranks {
    ghost use Rattle.std.specs.Prelude.{List};
    ghost use Rattle.cops_import.specs.Stores.{AStoreVersion, AreRanks, all_stored};

    ghost Value = { List AStoreVersion };

    ghost view = { λ r. all_stored r.keys };

    ghost invariant = { λ r. AreRanks (all_stored r.keys) };
}

/// Why a version has no rank.
#[derive(Clone, Copy, Debug, PartialEq, Eq)]
pub(crate) enum Unranked {
    /// It is of another kind.
    Kind,
    /// It is not among them.
    Absent,
}

impl Ranks {
    ghost use Rattle.std.specs.Prelude.{◌≡◌, ◌↔◌, Err, IfOk, IsTrue, length};
    ghost use Rattle.std.specs.List.{Contains};
    ghost use Rattle.cops_types.specs.Version.{IsVersion};
    ghost use Rattle.cops_import.specs.Stores.{AreRanks, IsOfKind, IsRankOf, stored};

    /// The ranks of versions that may stand in any order. Nothing if there are 2^48 of them.
    pub(crate) fn new(mut keys: Keys) -> Option<Ranks> {
        keys.sort();
        if keys.len() < MOST {
            Some(Ranks { keys })
        } else {
            None
        }
    }

    /// How many versions there are.
    pub fn len(&self) -> usize
        ensures len { result ≡ length self.now }
        ensures ranks { AreRanks self.now }
    {
        self.keys.len()
    }

    /// Whether there is no version.
    pub fn is_empty(&self) -> bool
        ensures { IsTrue result ↔ (length self.now ≡ 0) }
    {
        self.len() == 0
    }

    /// The version of a trace for a version of the store: its clock is the rank, and its node is 0.
    pub(crate) fn version(&self, of: &StoreVersion) -> Result<Version, Unranked>
        ensures ok { IfOk result (λ version. IsRankOf self.now (stored of.now) version × IsVersion version) }
        ensures kind { result ≡ Err Unranked.Kind → IsOfKind self.now (stored of.now) → ⊥ }
        ensures absent { result ≡ Err Unranked.Absent → IsOfKind self.now (stored of.now) × (Contains self.now (stored of.now) → ⊥) }
    {
        if !self.keys.is_kind_of(of) {
            return Err(Unranked::Kind);
        }
        let Some(place) = self.keys.place_of(of) else {
            return Err(Unranked::Absent);
        };
        match Version::new(place as u64 + 1, 0) {
            Ok(version) => Ok(version),
            Err(_) => Err(Unranked::Absent),
        }
    }
}
