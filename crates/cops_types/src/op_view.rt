//! Operations borrowed as bytes, before a history stores them.
ghost use Rattle.std.specs.Prelude.{◌≡◌, ◌<◌, ◌≤◌, ◌↔◌, length, IfErr, IfOk, IsErrOf};
ghost use Rattle.cops_types.specs.declared.limits.TheConstants.{MAX_KEY};
ghost use Rattle.cops_types.specs.Format.{most_value};
ghost use Rattle.cops_types.specs.KeyValue.{IsKey, IsValue};
ghost use Rattle.cops_types.specs.TypeFaults.{IsKeyFault, IsValueFault};

use crate::fault::TypeFault;
use crate::format::Format;
use crate::key::Key;
use crate::limits::MAX_KEY;
use crate::value::Value;
use crate::version::Version;
use std::alloc::{AllocError, Global};
use std::marker::Model;

/// A borrowed key of 1 to 64 bytes.
#[derive(Debug, Drop)]
pub struct KeyView<'a> {
    pub(crate) bytes: &'a [u8],
}

impl<'a> Model for KeyView<'a> {
    ghost use Rattle.std.specs.Prelude.{List, ℕ};
    ghost use Rattle.cops_types.specs.KeyValue.{IsKey};

    ghost Value = { List ℕ };

    ghost view = { λ k. k.bytes.now };

    ghost invariant = { λ k. IsKey k.bytes.now };
}

impl<'a> KeyView<'a> {
    /// The key of these bytes: `KeyEmpty` where there are none, or `KeyTooLong` where there are more than 64.
    pub fn new(bytes: &'a [u8]) -> Result<Self, TypeFault>
        ensures ok { IfOk result (λ key. (key ≡ bytes.now) × IsKey bytes.now) }
        ensures empty { IsErrOf result TypeFault.KeyEmpty ↔ (length bytes.now ≡ 0) }
        ensures too_long { IsErrOf result TypeFault.KeyTooLong ↔ (MAX_KEY < length bytes.now) }
        ensures only { IfErr result IsKeyFault }
        ensures no_memory { ¬ IsErrOf result TypeFault.Memory }
    {
        if bytes.is_empty() {
            return Err(TypeFault::KeyEmpty);
        }
        if bytes.len() > MAX_KEY {
            return Err(TypeFault::KeyTooLong);
        }
        Ok(KeyView { bytes })
    }

    pub fn as_bytes(&self) -> &'a [u8]
        ensures bytes { result.now ≡ self.now }
        ensures key { IsKey self.now }
    {
        self.bytes
    }

    /// A copy.
    pub fn to_key(&self, alloc: Global) -> Result<Key, AllocError>
        ensures { IfOk result (λ key. key ≡ self.now) }
    {
        Key::of(alloc, self)
    }
}

/// A borrowed value of at most 16,384 bytes.
#[derive(Debug, Drop)]
pub struct ValueView<'a> {
    pub(crate) bytes: &'a [u8],
}

impl<'a> Model for ValueView<'a> {
    ghost use Rattle.std.specs.Prelude.{List, ℕ};
    ghost use Rattle.cops_types.specs.KeyValue.{IsValue};

    ghost Value = { List ℕ };

    ghost view = { λ v. v.bytes.now };

    ghost invariant = { λ v. IsValue v.bytes.now };
}

impl<'a> ValueView<'a> {
    /// The value of these bytes, or `ValueTooLong` where there are more than the format allows.
    pub fn new_in(format: Format, bytes: &'a [u8]) -> Result<Self, TypeFault>
        ensures ok { IfOk result (λ value. (value ≡ bytes.now) × (length bytes.now ≤ most_value format)) }
        ensures too_long { IsErrOf result TypeFault.ValueTooLong ↔ (most_value format < length bytes.now) }
        ensures only { IfErr result IsValueFault }
        ensures no_memory { ¬ IsErrOf result TypeFault.Memory }
    {
        if bytes.len() > format.most_value() {
            return Err(TypeFault::ValueTooLong);
        }
        Ok(ValueView { bytes })
    }

    pub fn as_bytes(&self) -> &'a [u8]
        ensures bytes { result.now ≡ self.now }
        ensures value { IsValue self.now }
    {
        self.bytes
    }

    /// A copy.
    pub fn to_value(&self, alloc: Global) -> Result<Value, AllocError>
        ensures { IfOk result (λ value. value ≡ self.now) }
    {
        Value::of(alloc, self)
    }
}

/// An operation with a borrowed key and value.
#[derive(Debug, Drop)]
pub enum OpView<'a> {
    /// A put, which was given this version: without a value it is a deletion.
    Put {
        key: KeyView<'a>,
        value: Option<ValueView<'a>>,
        version: Version,
    },
    /// A get that returned a value and the version of its put, or without a value one that found a deletion.
    Got {
        key: KeyView<'a>,
        value: Option<ValueView<'a>>,
        version: Version,
    },
    /// A get that found nothing.
    Missed {
        key: KeyView<'a>,
    },
}

impl<'a> OpView<'a> {
    ghost use Rattle.std.specs.Prelude.{◌≡◌};
    ghost use Rattle.cops_types.specs.Operations.{key_of};
    ghost use Rattle.cops_types.specs.OpViews.{viewed};

    /// The key that it is on.
    pub fn key(&self) -> &KeyView<'a>
        ensures { result.now ≡ key_of (viewed self.now) }
    {
        match self {
            OpView::Put { key, .. } | OpView::Got { key, .. } | OpView::Missed { key } => key,
        }
    }
}
