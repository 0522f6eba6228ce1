ghost use Rattle.std.specs.Prelude.{◌≡◌, ◌↔◌, IfOk, IsTrue, option_copied};
ghost use Rattle.cops_types.specs.OpRefs.{seen};
ghost use Rattle.cops_types.specs.Operations.{IsReadBy, operation_of};

use crate::key::Key;
use crate::op::Op;
use crate::value::{Value, content_copy};
use crate::version::Version;
use std::alloc::AllocError;

/// An operation borrowed from a history.
#[derive(Clone, Copy, Debug)]
pub enum OpRef<'a> {
    /// A put, and its version. Without a value it is a deletion.
    Put {
        key: &'a Key,
        value: Option<&'a Value>,
        version: &'a Version,
    },
    /// A get, with the value and the version that it returned. Without a value it found a deletion.
    Got {
        key: &'a Key,
        value: Option<&'a Value>,
        version: &'a Version,
    },
    /// A get that found nothing.
    Missed {
        key: &'a Key,
    },
}

impl OpRef<'_> {
    /// A copy of the operation.
    pub fn to_op(&self) -> Result<Op, AllocError>
        ensures { IfOk result (λ op. operation_of op ≡ seen self.now) }
    {
        match self {
            OpRef::Put {
                key,
                value,
                version,
            } => Ok(Op::write(Key::clone(key)?, content_copy(*value)?, **version)),
            OpRef::Got {
                key,
                value,
                version,
            } => Ok(Op::read(Key::clone(key)?, content_copy(*value)?, **version)),
            OpRef::Missed { key } => Ok(Op::Missed {
                key: Key::clone(key)?,
            }),
        }
    }

    /// Whether the two are the same operation.
    pub fn is(&self, other: &OpRef<'_>) -> bool
        ensures { IsTrue result ↔ (seen self.now ≡ seen other.now) }
    {
        match (self, other) {
            (
                OpRef::Put {
                    key,
                    value,
                    version,
                },
                OpRef::Put {
                    key: other_key,
                    value: other_value,
                    version: other_version,
                },
            )
            | (
                OpRef::Got {
                    key,
                    value,
                    version,
                },
                OpRef::Got {
                    key: other_key,
                    value: other_value,
                    version: other_version,
                },
            ) => {
                **version == **other_version
                    && key.is(other_key)
                    && is_same_content(*value, *other_value)
            }
            (OpRef::Missed { key }, OpRef::Missed { key: other_key }) => key.is(other_key),
            _ => false,
        }
    }

    /// Whether this is a put, and the other a get that returned it: its key, its version, and its value or that it is a
    /// deletion.
    pub fn is_source_of(&self, got: &OpRef<'_>) -> bool
        ensures { IsTrue result ↔ IsReadBy (seen self.now) (seen got.now) }
    {
        match (self, got) {
            (
                OpRef::Put {
                    key,
                    value,
                    version,
                },
                OpRef::Got {
                    key: got_key,
                    value: got_value,
                    version: got_version,
                },
            ) if **version == **got_version => {
                key.is(got_key) && is_same_content(*value, *got_value)
            }
            _ => false,
        }
    }
}

/// Whether the two are equal values, or both no value.
pub(crate) fn is_same_content(content: Option<&Value>, other: Option<&Value>) -> bool
    ensures { IsTrue result ↔ (option_copied content.entry ≡ option_copied other.entry) }
{
    match (content, other) {
        (Some(value), Some(other)) => value.is(other),
        (None, None) => true,
        _ => false,
    }
}
