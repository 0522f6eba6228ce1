ghost use Rattle.std.specs.Prelude.{◌≡◌, ◌<◌, ◌≤◌, ◌+◌, ◌⊎◌, ℕ, IfOk, IfSome, IfNone, OnOk, length, slice_get, vec_len, AllPairs};
ghost use Rattle.cops_types.specs.declared.op.OpName.{OpName};
ghost use Rattle.cops_types.specs.Histories.{Sessions};
ghost use Rattle.cops_types.specs.Faults.{HasVersion, IsBefore, IsNotAbove, IsNotBelow};
ghost use Rattle.cops_audit.specs.Climbs.{AreMaxima};
ghost use Rattle.cops_audit.specs.Names.{ListsNotAbove, names_left};

use crate::names::Names;
use crate::verdict::NotAbove;
use cops_types::{History, OpName};
use std::alloc::{AllocError, Global};

/// The version that an operation put or got, as a number; 0 for a get that found nothing.
fn version_number(history: &History, name: OpName) -> u64
    ensures version { (version : ℕ) → HasVersion history.now.sessions name version → result ≡ version }
    ensures none { (result ≡ 0) ⊎ HasVersion history.now.sessions name result }
{
    if let Some(version) = history.put_version(name) {
        return version.as_u64();
    }
    match history.got_version(name) {
        Some(version) => version.as_u64(),
        None => 0,
    }
}

/// The session maximum after the last operation so far; 0 where there is none.
fn last_maximum(maxima: &[u64]) -> u64
    ensures none { length maxima.now ≡ 0 → result ≡ 0 }
    ensures last { (i : ℕ) → i + 1 ≡ length maxima.now → slice_get maxima.now i ≡ Some result }
{
    maxima.last().copied().unwrap_or(0)
}

/// Extends the session maxima to the first `count` operations of a session.
fn climb(
    maxima: &mut Vec<u64>,
    history: &History,
    client: u16,
    count: u32,
) -> Result<(), AllocError>
    requires { AreMaxima history.now.sessions client maxima.old.items }
    ensures maxima { OnOk result (AreMaxima history.now.sessions client maxima.new.items) }
    ensures count { OnOk result (count ≤ vec_len maxima.new) }
{
    let mut maximum = last_maximum(maxima.as_slice());
    for index in maxima.len()..count as usize {
        let name = OpName {
            client,
            index: index as u32,
        };
        maximum = maximum.max(version_number(history, name));
        maxima.push(maximum)?;
    }
    Ok(())
}

/// The first operation of a session after which its session maximum is at least `version`.
fn first_from(maxima: &[u64], version: u64) -> usize
    requires { (h : Sessions) × (client : ℕ) × AreMaxima h client maxima.now }
    ensures before { (i maximum : ℕ) → i < result → slice_get maxima.now i ≡ Some maximum → maximum < version }
    ensures from { (i maximum : ℕ) → result ≤ i → slice_get maxima.now i ≡ Some maximum → version ≤ maximum }
{
    maxima.partition_point(|maximum| *maximum < version)
}

/// The first earlier operation of a put's session whose version is not below the put's, by the session maxima before
/// the put.
fn first_not_below(history: &History, maxima: &[u64], name: OpName) -> Option<OpName>
    requires maxima { AreMaxima history.now.sessions name.client maxima.now }
    requires before { name.index ≤ length maxima.now }
    ensures first { IfSome result (λ e. IsNotAbove history.now.sessions name e) }
    ensures none { IfNone result ((e : OpName) → ¬ IsNotBelow history.now.sessions e name) }
{
    let Some(version) = history.put_version(name) else {
        return None;
    };
    let version = version.as_u64();
    if name.index == 0 {
        return None;
    }
    if maxima[name.index as usize - 1] < version {
        return None;
    }
    let first = first_from(maxima, version);
    Some(OpName {
        client: name.client,
        index: first as u32,
    })
}

/// The first earlier operation of a put's session whose version is not below the put's. `maxima` holds the session
/// maxima of some first operations; it is extended up to the put unless the history records that all puts of the
/// session are above what it saw.
fn earlier_not_below(
    maxima: &mut Vec<u64>,
    history: &History,
    name: OpName,
) -> Result<Option<OpName>, AllocError>
    requires { AreMaxima history.now.sessions name.client maxima.old.items }
    ensures maxima { OnOk result (AreMaxima history.now.sessions name.client maxima.new.items) }
    ensures first { IfOk result (λ found. IfSome found (λ e. IsNotAbove history.now.sessions name e)) }
    ensures none { IfOk result (λ found. IfNone found ((e : OpName) → ¬ IsNotBelow history.now.sessions e name)) }
{
    if history.is_session_above(name.client) {
        return Ok(None);
    }
    climb(maxima, history, name.client, name.index)?;
    Ok(first_not_below(history, maxima.as_slice(), name))
}

/// The puts among these names that are not above what their sessions saw, each with the first earlier operation whose
/// version is not below its own.
pub fn not_above(
    alloc: Global,
    history: &History,
    names: Names<'_>,
) -> Result<Vec<NotAbove>, AllocError>
    requires { AllPairs IsBefore (names_left names) }
    ensures { IfOk result (λ v. ListsNotAbove history.now.sessions (names_left names.entry) v.items) }
{
    let mut faults = Vec::new(alloc);
    let mut maxima = Vec::new(alloc);
    let mut client = 0;
    for name in names {
        if name.client != client {
            maxima.clear();
        }
        client = name.client;
        let found = earlier_not_below(&mut maxima, history, name)?;
        if let Some(earlier) = found {
            faults.push(NotAbove { op: name, earlier })?;
        }
    }
    Ok(faults)
}
