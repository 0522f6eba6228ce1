//! The version of a line, as versions are read.
ghost use Rattle.std.specs.Prelude.{◌≡◌, ◌≢◌, ℕ, Err, IfOk, OnErr, Some};
ghost use Rattle.serde_json.specs.View.{view};
ghost use Rattle.cops_json.specs.Json.{number_json};
ghost use Rattle.cops_types.specs.Version.{IsVersion, clock_of, node_of};
ghost use Rattle.cops_import.specs.Line.{HasForm, HasNoVersion, IsUnranked, IsUnrankedJson, IsVersionJson, IsVersionOf, GivesVersion, pair_json};
ghost use Rattle.cops_import.specs.declared.rules.Versions.TheVariants.{Ranked};

use crate::ranks::{Ranks, Unranked};
use crate::rules::Versions;
use crate::store_version::store_version;
use cops_json::{Unread, version};
use cops_types::Version;
use serde_json::Value as Json;
use std::alloc::Global;

/// Why a version was not read.
#[derive(Clone, Copy, Debug, PartialEq, Eq)]
pub(crate) enum Unversioned {
    Memory,
    /// It does not have the right form.
    Form,
    /// It is the version of a store that has no rank.
    Unranked,
}

/// The version of an object.
pub(crate) fn version_of(
    alloc: Global,
    versions: &Versions,
    object: &Json,
) -> Result<Version, Unversioned>
    ensures reported { IfOk result (GivesVersion versions.now (view object.now)) }
    ensures none { result ≡ Err Unversioned.Form → HasNoVersion versions.now (view object.now) }
    ensures unranked { result ≡ Err Unversioned.Unranked → IsUnranked versions.now (view object.now) }
{
    let Some(json) = object.get("version") else {
        return Err(Unversioned::Form);
    };
    match versions {
        Versions::Plain => plain_version(json).or(Err(Unversioned::Form)),
        Versions::Ranked(ranks) => ranked_version(alloc, ranks, json),
    }
}

/// The version of a trace for the JSON of a version of another store.
fn ranked_version(alloc: Global, ranks: &Ranks, json: &Json) -> Result<Version, Unversioned>
    ensures reported { IfOk result (λ version. IsVersionOf (Ranked ranks.now) version (view json.now)) }
    ensures legal { IfOk result IsVersion }
    ensures none { result ≡ Err Unversioned.Form → HasForm (Ranked ranks.now) (view json.now) → ⊥ }
    ensures unranked { result ≡ Err Unversioned.Unranked → IsUnrankedJson (Ranked ranks.now) (view json.now) }
{
    let of = match store_version(alloc, json) {
        Ok(of) => of,
        Err(Unread::Memory) => return Err(Unversioned::Memory),
        Err(Unread::Form) => return Err(Unversioned::Form),
    };
    match ranks.version(&of) {
        Ok(version) => Ok(version),
        Err(Unranked::Kind) => Err(Unversioned::Form),
        Err(Unranked::Absent) => Err(Unversioned::Unranked),
    }
}

/// A version of a trace: a text, a clock or a pair.
fn plain_version(json: &Json) -> Result<Version, Unread>
    ensures json { IfOk result (λ version. IsVersionJson version (view json.now)) }
    ensures legal { IfOk result IsVersion }
    ensures none { OnErr result ((version : ℕ) → IsVersionJson version (view json.now) → IsVersion version → ⊥) }
{
    if json.is_string() {
        version(json)
    } else if json.is_array() {
        pair_version(json)
    } else {
        clock_version(json)
    }
}

/// A whole number as a version: a clock of node 0.
fn clock_version(json: &Json) -> Result<Version, Unread>
    ensures json { IfOk result (λ version. (view json.now ≡ number_json (clock_of version)) × (node_of version ≡ 0)) }
    ensures legal { IfOk result IsVersion }
    ensures none { OnErr result ((version : ℕ) → IsVersion version → view json.now ≡ number_json (clock_of version) → node_of version ≢ 0) }
{
    let clock = json.as_u64().ok_or(Unread::Form)?;
    Ok(Version::new(clock, 0)?)
}

/// A list of two whole numbers as a version: a clock and a node.
fn pair_version(json: &Json) -> Result<Version, Unread>
    ensures json { IfOk result (λ version. view json.now ≡ pair_json (clock_of version) (node_of version)) }
    ensures legal { IfOk result IsVersion }
    ensures none { OnErr result ((version : ℕ) → IsVersion version → view json.now ≢ pair_json (clock_of version) (node_of version)) }
{
    let (clock, node) = pair(json)?;
    let node = u16::try_from(node).or(Err(Unread::Form))?;
    Ok(Version::new(clock, node)?)
}

/// The numbers of a list of two.
fn pair(json: &Json) -> Result<(u64, u64), Unread>
    ensures json { IfOk result (λ p. view json.now ≡ pair_json p.0 p.1) }
    ensures none { OnErr result ((a b : ℕ) → view json.now ≢ pair_json a b) }
{
    let items = json.as_array().ok_or(Unread::Form)?;
    match items.as_slice() {
        [first, second] => {
            let first = first.as_u64().ok_or(Unread::Form)?;
            let second = second.as_u64().ok_or(Unread::Form)?;
            Ok((first, second))
        }
        _ => Err(Unread::Form),
    }
}
