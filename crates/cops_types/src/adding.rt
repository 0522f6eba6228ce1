ghost use Rattle.std.specs.Prelude.{◌≡◌, ◌<◌, ℕ, List, Some, IfOk, IfSome, OnErr, OnOk, length, option_copied, slice_get};
ghost use Rattle.cops_types.specs.declared.limits.TheConstants.{MAX_OPS};
ghost use Rattle.cops_types.specs.declared.entry.StoredOp.TheVariants.{Put};
ghost use Rattle.cops_types.specs.Entries.{AreSound, HasSource, IsNumbered, IsSound, key_number_of, reported, returned};
ghost use Rattle.cops_types.specs.KeySets.{AreDistinct, GainsKey};
ghost use Rattle.cops_types.specs.Operations.{operation_of};
ghost use Rattle.cops_types.specs.OpViews.{viewed};

use crate::entries::Entries;
use crate::entry::{Returned, StoredOp};
use crate::fault::Memory;
use crate::key::Key;
use crate::key_set::KeySet;
use crate::lookup::{Candidate, Lookup};
use crate::op::Op;
use crate::op_view::{KeyView, OpView, ValueView};
use crate::value::Value;
use crate::version::Version;
use std::alloc::Global;

/// The entry of an operation, whose key is added if it is new.
#[inline(always)]
pub(crate) fn entry_of(
    keys: &mut KeySet,
    lookup: &mut Lookup,
    entries: &Entries,
    op: Op,
) -> StoredOp
    requires sound { AreSound keys.old.keys entries.now.all }
    requires distinct { AreDistinct keys.old.keys }
    requires few { length keys.old.keys < MAX_OPS }
    requires room { 0 < keys.old.spare }
    ensures reported { reported keys.new.keys entries.now.all result ≡ operation_of op }
    ensures sound { IsSound keys.new.keys entries.now.all result }
    ensures numbered { IsNumbered entries.now.names result }
    ensures gains { GainsKey keys.old keys.new }
{
    let candidate = lookup.next();
    let known = lookup.key_number(keys, &op.as_key_view(), candidate);
    match op {
        Op::Put {
            key,
            value,
            version,
        } => {
            let key = number_of(keys, lookup, key, known);
            put_entry(lookup, entries, key, Some(value), version)
        }
        Op::Del { key, version } => {
            let key = number_of(keys, lookup, key, known);
            put_entry(lookup, entries, key, None, version)
        }
        Op::Got {
            key,
            value,
            version,
        } => {
            let got = StoredOp::Got {
                key: number_of(keys, lookup, key, known),
                value: Some(value),
                version,
            };
            with_source(lookup, entries, candidate, got)
        }
        Op::Gone { key, version } => {
            let got = StoredOp::Got {
                key: number_of(keys, lookup, key, known),
                value: None,
                version,
            };
            with_source(lookup, entries, candidate, got)
        }
        Op::Missed { key } => StoredOp::Missed {
            key: number_of(keys, lookup, key, known),
        },
    }
}

/// The entry of a borrowed operation, whose key is added if it is new. Adds nothing if memory runs out.
#[inline(always)]
pub(crate) fn borrowed_entry(
    alloc: Global,
    keys: &mut KeySet,
    lookup: &mut Lookup,
    entries: &Entries,
    op: &OpView<'_>,
) -> Result<StoredOp, Memory>
    requires sound { AreSound keys.old.keys entries.now.all }
    requires distinct { AreDistinct keys.old.keys }
    requires few { length keys.old.keys < MAX_OPS }
    requires room { 0 < keys.old.spare }
    ensures reported { IfOk result (λ entry. reported keys.new.keys entries.now.all entry ≡ viewed op.now) }
    ensures sound { IfOk result (λ entry. IsSound keys.new.keys entries.now.all entry) }
    ensures numbered { IfOk result (IsNumbered entries.now.names) }
    ensures gains { OnOk result (GainsKey keys.old keys.new) }
    ensures same { OnErr result (keys.new ≡ keys.old) }
{
    let candidate = lookup.next();
    let known = lookup.key_number(keys, op.key(), candidate);
    match op {
        OpView::Put {
            key,
            value,
            version,
        } => {
            let value = copy_of_borrowed(alloc, value.as_ref())?;
            let key = number_of_seen(alloc, keys, lookup, key, known)?;
            Ok(put_entry(lookup, entries, key, value, *version))
        }
        OpView::Got {
            key,
            value,
            version,
        } => {
            if let Some(key) = known {
                let got = Returned {
                    key,
                    value: value.as_ref(),
                    version: *version,
                };
                return returned_entry(alloc, lookup, entries, candidate, &got);
            }
            // (once the key is added nothing may fail)
            let value = copy_of_borrowed(alloc, value.as_ref())?;
            let got = StoredOp::Got {
                key: number_of_seen(alloc, keys, lookup, key, known)?,
                value,
                version: *version,
            };
            Ok(with_source(lookup, entries, candidate, got))
        }
        OpView::Missed { key } => {
            let key = number_of_seen(alloc, keys, lookup, key, known)?;
            Ok(StoredOp::Missed { key })
        }
    }
}

/// The entry of a put of the key of that number. The put becomes the candidate for the gets of its version.
#[inline(always)]
fn put_entry(
    lookup: &mut Lookup,
    entries: &Entries,
    key: u32,
    value: Option<Value>,
    version: Version,
) -> StoredOp
    ensures { result ≡ Put key value version }
{
    lookup.store_put(version, entries.puts());
    StoredOp::Put {
        key,
        value,
        version,
    }
}

/// The entry of a get that is stored with what it returned, or one that refers to its put if that is found.
#[inline(always)]
fn with_source(lookup: &Lookup, entries: &Entries, candidate: Candidate, got: StoredOp) -> StoredOp
    ensures reported { (keys : List (List ℕ)) → reported keys entries.now.all result ≡ reported keys entries.now.all got }
    ensures key { key_number_of result ≡ key_number_of got }
    ensures source { HasSource entries.now.all got → HasSource entries.now.all result }
    ensures numbered { IsNumbered entries.now.names got → IsNumbered entries.now.names result }
{
    match got {
        StoredOp::Got {
            key,
            value,
            version,
        } => {
            let view = value.as_ref().map(Value::as_view);
            let returned = Returned {
                key,
                value: view.as_ref(),
                version,
            };
            match lookup.source(entries, &returned, candidate) {
                Some(put) => StoredOp::Sourced { key, put, version },
                None => StoredOp::Got {
                    key,
                    value,
                    version,
                },
            }
        }
        other => other,
    }
}

/// Like `with_source`, of what the get returned, which is copied only where no put is found.
#[inline(always)]
fn returned_entry(
    alloc: Global,
    lookup: &Lookup,
    entries: &Entries,
    candidate: Candidate,
    got: &Returned<'_>,
) -> Result<StoredOp, Memory>
    ensures reported { IfOk result (λ entry. (keys : List (List ℕ)) → reported keys entries.now.all entry ≡ returned keys got.now) }
    ensures key { IfOk result (λ entry. key_number_of entry ≡ got.now.key) }
    ensures source { IfOk result (HasSource entries.now.all) }
    ensures numbered { IfOk result (IsNumbered entries.now.names) }
{
    let (key, version) = (got.key, got.version);
    match lookup.source(entries, got, candidate) {
        Some(put) => Ok(StoredOp::Sourced { key, put, version }),
        None => Ok(StoredOp::Got {
            key,
            value: copy_of_borrowed(alloc, got.value)?,
            version,
        }),
    }
}

/// A copy of a borrowed value, or that there is none.
#[inline(always)]
fn copy_of_borrowed(alloc: Global, value: Option<&ValueView<'_>>) -> Result<Option<Value>, Memory>
    ensures { IfOk result (λ copy. copy ≡ option_copied value.entry) }
{
    match value {
        Some(value) => Ok(Some(value.to_value(alloc)?)),
        None => Ok(None),
    }
}

/// The number of a key: the known one, or else the one that a search finds, which adds a new key and stores the number
/// as a candidate.
#[inline(always)]
fn number_of(keys: &mut KeySet, lookup: &mut Lookup, key: Key, known: Option<u32>) -> u32
    requires known { IfSome known (λ number. slice_get keys.old.keys number ≡ Some key) }
    requires few { length keys.old.keys < MAX_OPS }
    requires room { 0 < keys.old.spare }
    requires distinct { AreDistinct keys.old.keys }
    ensures found { slice_get keys.new.keys result ≡ Some key }
    ensures gains { GainsKey keys.old keys.new }
{
    if let Some(number) = known {
        drop(key);
        return number;
    }
    let number = keys.number(key);
    lookup.store_key(&keys.key(number).as_view(), number);
    number
}

/// The number of a borrowed key: the known one, or else that of a copy. Fails if memory runs out.
#[inline(always)]
fn number_of_seen(
    alloc: Global,
    keys: &mut KeySet,
    lookup: &mut Lookup,
    key: &KeyView<'_>,
    known: Option<u32>,
) -> Result<u32, Memory>
    requires known { IfSome known (λ number. slice_get keys.old.keys number ≡ Some key.now) }
    requires few { length keys.old.keys < MAX_OPS }
    requires room { 0 < keys.old.spare }
    requires distinct { AreDistinct keys.old.keys }
    ensures found { IfOk result (λ number. slice_get keys.new.keys number ≡ Some key.now) }
    ensures gains { OnOk result (GainsKey keys.old keys.new) }
    ensures same { OnErr result (keys.new ≡ keys.old) }
{
    if let Some(number) = known {
        return Ok(number);
    }
    let copied = key.to_key(alloc)?;
    Ok(number_of(keys, lookup, copied, None))
}
