//! The puts of a history, by their versions.
ghost use Rattle.std.specs.Prelude.{◌<◌, ◌≤◌, ℕ, length, slice_index_or};
ghost use Rattle.cops_types.specs.declared.op.OpName.{OpName};
ghost use Rattle.cops_types.specs.declared.versioned_put.VersionedPut.{VersionedPut};
ghost use Rattle.cops_audit.specs.Tables.{VersionsNeverFall};
ghost use Rattle.cops_report.specs.Puts.{HasPut};

use cops_audit::first_from;
use cops_types::{Version, VersionedPut};

/// The puts from a version on, in a list in order of versions.
pub fn from_version(puts: &[VersionedPut], version: Version) -> &[VersionedPut]
    requires { VersionsNeverFall puts.now }
    ensures rising { VersionsNeverFall result.now }
    ensures low { (k : ℕ) (d : VersionedPut) → k < length result.now →
        version ≤ (slice_index_or result.now k d).version }
    ensures all { (n : OpName) → HasPut puts.now n version → HasPut result.now n version }
{
    &puts[first_from(puts, version)..]
}
