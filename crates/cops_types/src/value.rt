ghost use Rattle.std.specs.Prelude.{◌≡◌, ◌<◌, ◌≤◌, ◌↔◌, List, ℕ, length, [], IfOk, IfErr, IsErrOf, IsTrue, option_copied};
ghost use Rattle.cops_types.specs.declared.limits.TheConstants.{MAX_VALUE_IN_ONE};
ghost use Rattle.cops_types.specs.KeyValue.{IsValue};
ghost use Rattle.cops_types.specs.Format.{most_value};
ghost use Rattle.cops_types.specs.TypeFaults.{IsValueFault};

use crate::fault::TypeFault;
use crate::format::Format;
use crate::op_view::ValueView;
use crate::short_bytes::{INLINE, ShortBytes};
use smallvec::SmallVec;
use std::alloc::{AllocError, Global};
use std::marker::Model;

/// A value: at most 16,384 bytes, the limit of format 2.
#[derive(Clone, Debug, PartialEq, Eq, Drop)]
pub struct Value {
    bytes: ShortBytes,
}

impl Model for Value {
    ghost Value = { List ℕ };

    ghost view = { λ v. v.bytes };

    ghost invariant = { λ v. IsValue v.bytes };

    ghost inverse = { λ items. record { bytes = items } };
}

impl Value {
    /// The value of these bytes in format 1. Errors: `ValueTooLong` if there are more than 4,096, `Memory` if memory
    /// runs out.
    pub fn new(alloc: Global, bytes: &[u8]) -> Result<Self, TypeFault>
        ensures ok { IfOk result (λ value. (value ≡ bytes.now) × (length bytes.now ≤ MAX_VALUE_IN_ONE)) }
        ensures too_long { IsErrOf result TypeFault.ValueTooLong ↔ (MAX_VALUE_IN_ONE < length bytes.now) }
        ensures only { IfErr result IsValueFault }
    {
        Value::new_in(Format::One, alloc, bytes)
    }

    /// The value of these bytes in a format. Errors: `ValueTooLong` if there are more than the format allows, 4,096 in
    /// format 1 and 16,384 in format 2; `Memory` if memory runs out.
    pub fn new_in(format: Format, alloc: Global, bytes: &[u8]) -> Result<Self, TypeFault>
        ensures ok { IfOk result (λ value. (value ≡ bytes.now) × (length bytes.now ≤ most_value format)) }
        ensures too_long { IsErrOf result TypeFault.ValueTooLong ↔ (most_value format < length bytes.now) }
        ensures only { IfErr result IsValueFault }
    {
        match ValueView::new_in(format, bytes) {
            Ok(seen) => Value::of(alloc, &seen).or(Err(TypeFault::Memory)),
            Err(fault) => Err(fault),
        }
    }

    /// The value without bytes. Allocates nothing.
    pub(crate) fn empty(alloc: Global) -> Self
        ensures { result ≡ [] }
    {
        Value {
            bytes: ShortBytes::new(alloc),
        }
    }

    /// A copy of a borrowed value.
    pub(crate) fn of(alloc: Global, seen: &ValueView<'_>) -> Result<Self, AllocError>
        ensures { IfOk result (λ value. value ≡ seen.now) }
    {
        let bytes = ShortBytes::from_slice(alloc, seen.as_bytes())?;
        Ok(Value { bytes })
    }

    /// Borrows the value.
    pub fn as_view(&self) -> ValueView<'_>
        ensures { result ≡ self.now }
    {
        ValueView {
            bytes: self.bytes.as_slice(),
        }
    }

    pub fn as_bytes(&self) -> &[u8]
        ensures bytes { result.now ≡ self.now }
        ensures value { IsValue self.now }
    {
        self.bytes.as_slice()
    }

    /// Whether the two have the same bytes.
    pub fn is(&self, other: &Value) -> bool
        ensures { IsTrue result ↔ (self.now ≡ other.now) }
    {
        self.is_seen(&other.as_view())
    }

    /// Whether the borrowed value has the same bytes.
    #[inline(always)]
    pub fn is_seen(&self, other: &ValueView<'_>) -> bool
        ensures { IsTrue result ↔ (self.now ≡ other.now) }
    {
        self.bytes.as_slice() == other.as_bytes()
    }
}

/// A copy of what an operation wrote: a value, or nothing for a deletion.
pub fn content_copy(content: Option<&Value>) -> Result<Option<Value>, AllocError>
    ensures { IfOk result (λ copy. copy ≡ option_copied content.entry) }
{
    match content {
        Some(value) => Ok(Some(value.clone()?)),
        None => Ok(None),
    }
}

/// Reserved memory for a copy of any value of a format, so that making the copy cannot fail.
#[derive(Drop)]
pub struct ValueRoom {
    format: Format,
    bytes: SmallVec<u8, INLINE>,
}

impl Model for ValueRoom {
    ghost use Rattle.std.specs.Prelude.{◌≡◌, ◌≤◌, []};
    ghost use Rattle.cops_types.specs.Format.{most_value};
    ghost use Rattle.cops_types.specs.declared.format.Format.{Format};

    ghost Value = { Format };

    ghost view = { λ r. r.format };

    ghost invariant = { λ r. (r.bytes.items ≡ []) × (most_value r.format ≤ r.bytes.capacity) };
}

impl ValueRoom {
    /// Reserves memory for one copy of a value of this format. Fails if memory runs out.
    pub fn new_in(format: Format, alloc: Global) -> Result<Self, AllocError>
        ensures { IfOk result (λ room. room ≡ format) }
    {
        Ok(ValueRoom {
            format,
            bytes: SmallVec::with_capacity(alloc, format.most_value())?,
        })
    }

    /// A copy of a value of the format, in this memory.
    pub fn copy(self, value: &Value) -> Value
        requires { length value.now ≤ most_value self }
        ensures { result ≡ value.now }
    {
        let ValueRoom {
            format: _,
            bytes: room,
        } = self;
        let mut bytes = room;
        bytes.extend_from_slice(value.as_bytes()).unwrap();
        Value {
            bytes: ShortBytes::of(bytes),
        }
    }
}
