ghost use Rattle.std.specs.Prelude.{◌≡◌, ◌↔◌, IsTrue, option_copied};
ghost use Rattle.cops_types.specs.Slots.{content_of};

use crate::op::OpName;
use crate::op_view::ValueView;
use crate::value::Value;
use crate::version::Version;
use std::alloc::Global;

/// An operation in a session, as a number that refers to the history's lists of puts, gets and keys.
#[derive(Clone, Copy, Debug)]
pub(crate) enum OpSlot {
    /// The put of that number.
    Put(u32),
    /// A get that returned what the put of that number wrote.
    Sourced(u32),
    /// The get of that number, stored with what it returned.
    Got(u32),
    /// A get of the key of that number, which found nothing.
    Missed(u32),
}

/// A put as a history stores it. A number stands for its key. For a deletion the value is empty and `has_value` is
/// false; the flag lies in padding, where an `Option` would take eight bytes more.
#[derive(Debug, Drop)]
pub(crate) struct KeptPut {
    pub(crate) name: OpName,
    pub(crate) key: u32,
    pub(crate) has_value: bool,
    pub(crate) version: Version,
    pub(crate) value: Value,
}

/// What a get returned whose put is not known. `has_value` is as in `KeptPut`.
#[derive(Debug, Drop)]
pub(crate) struct KeptGot {
    pub(crate) key: u32,
    pub(crate) has_value: bool,
    pub(crate) version: Version,
    pub(crate) value: Value,
}

impl KeptPut {
    /// The value that the put wrote: none if it is a deletion.
    pub(crate) fn content(&self) -> Option<&Value>
        ensures { option_copied result ≡ content_of self.now.has_value self.now.value }
    {
        content(self.has_value, &self.value)
    }

    /// Whether the put wrote this.
    #[inline(always)]
    pub(crate) fn has_content(&self, content: Option<&ValueView<'_>>) -> bool
        ensures { IsTrue result ↔ (content_of self.now.has_value self.now.value ≡ option_copied content.entry) }
    {
        match content {
            Some(value) => self.has_value && self.value.is_seen(value),
            None => !self.has_value,
        }
    }
}

impl KeptGot {
    /// The value that the get returned: none if it found a deletion.
    pub(crate) fn content(&self) -> Option<&Value>
        ensures { option_copied result ≡ content_of self.now.has_value self.now.value }
    {
        content(self.has_value, &self.value)
    }
}

/// The content that a flag and a value stand for.
fn content(has_value: bool, value: &Value) -> Option<&Value>
    ensures { option_copied result ≡ content_of has_value value.now }
{
    if has_value { Some(value) } else { None }
}

/// The flag and the value that stand for a content.
pub(crate) fn flagged(alloc: Global, content: Option<Value>) -> (bool, Value)
    ensures { content_of result.0 result.1 ≡ content }
{
    match content {
        Some(value) => (true, value),
        None => (false, Value::empty(alloc)),
    }
}
