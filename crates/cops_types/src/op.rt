use crate::format::Format;
use crate::key::Key;
use crate::op_ref::OpRef;
use crate::op_view::{KeyView, OpView};
use crate::value::Value;
use crate::version::Version;
use std::alloc::AllocError;
use std::fmt;

/// An operation of a client, and its result.
#[derive(Debug, Drop, PartialEq, Eq)]
pub enum Op {
    /// A put, and its version.
    Put {
        key: Key,
        value: Value,
        version: Version,
    },
    /// A deletion, and its version.
    Del {
        key: Key,
        version: Version,
    },
    /// A get, with the value and the version that it returned.
    Got {
        key: Key,
        value: Value,
        version: Version,
    },
    /// A get that found a deletion of this version.
    Gone {
        key: Key,
        version: Version,
    },
    /// A get that found nothing.
    Missed {
        key: Key,
    },
}

/// A copy that equals it.
impl Clone for Op {
    ghost use Rattle.std.specs.Prelude.{◌≡◌};

    ghost is_clone = { λ s t. t ≡ s };

    fn clone(&self) -> Result<Op, AllocError> {
        self.as_ref().to_op()
    }
}

impl Op {
    ghost use Rattle.std.specs.Prelude.{◌≡◌, ◌↔◌, IsTrue};
    ghost use Rattle.cops_types.specs.Format.{IsInFormat};
    ghost use Rattle.cops_types.specs.Histories.{read, write};
    ghost use Rattle.cops_types.specs.OpRefs.{seen};
    ghost use Rattle.cops_types.specs.OpViews.{viewed};
    ghost use Rattle.cops_types.specs.Operations.{key_of, operation_of};

    /// A put of this content, with its version: without a value it is a deletion.
    pub fn write(key: Key, content: Option<Value>, version: Version) -> Op
        ensures { operation_of result ≡ write key content version }
    {
        match content {
            Some(value) => Op::Put {
                key,
                value,
                version,
            },
            None => Op::Del { key, version },
        }
    }

    /// A get that returned this content and version: without a value it found a deletion.
    pub fn read(key: Key, content: Option<Value>, version: Version) -> Op
        ensures { operation_of result ≡ read key content version }
    {
        match content {
            Some(value) => Op::Got {
                key,
                value,
                version,
            },
            None => Op::Gone { key, version },
        }
    }

    /// Whether the format has such an operation. Deletions, gets that found one, and values of more than 4,096 bytes
    /// are only in format 2.
    pub fn in_format(&self, format: Format) -> bool
        ensures { IsTrue result ↔ IsInFormat format (operation_of self.now) }
    {
        match self {
            Op::Put { value, .. } | Op::Got { value, .. } => format.fits(Some(value)),
            Op::Del { .. } | Op::Gone { .. } => format.fits(None),
            Op::Missed { .. } => true,
        }
    }

    /// Borrows the operation.
    pub fn as_ref(&self) -> OpRef<'_>
        ensures { seen result ≡ operation_of self.now }
    {
        match self {
            Op::Put {
                key,
                value,
                version,
            } => OpRef::Put {
                key,
                value: Some(value),
                version,
            },
            Op::Del { key, version } => OpRef::Put {
                key,
                value: None,
                version,
            },
            Op::Gone { key, version } => OpRef::Got {
                key,
                value: None,
                version,
            },
            Op::Got {
                key,
                value,
                version,
            } => OpRef::Got {
                key,
                value: Some(value),
                version,
            },
            Op::Missed { key } => OpRef::Missed { key },
        }
    }

    /// Borrows the operation's key.
    pub fn as_key_view(&self) -> KeyView<'_>
        ensures { result ≡ key_of (operation_of self.now) }
    {
        match self {
            Op::Put { key, .. }
            | Op::Del { key, .. }
            | Op::Got { key, .. }
            | Op::Gone { key, .. }
            | Op::Missed { key } => key.as_view(),
        }
    }

    /// The operation, borrowed.
    pub fn as_view(&self) -> OpView<'_>
        ensures { viewed result ≡ operation_of self.now }
    {
        match self {
            Op::Put {
                key,
                value,
                version,
            } => OpView::Put {
                key: key.as_view(),
                value: Some(value.as_view()),
                version: *version,
            },
            Op::Got {
                key,
                value,
                version,
            } => OpView::Got {
                key: key.as_view(),
                value: Some(value.as_view()),
                version: *version,
            },
            Op::Del { key, version } => OpView::Put {
                key: key.as_view(),
                value: None,
                version: *version,
            },
            Op::Gone { key, version } => OpView::Got {
                key: key.as_view(),
                value: None,
                version: *version,
            },
            Op::Missed { key } => OpView::Missed { key: key.as_view() },
        }
    }
}

/// An operation's name: its client, and its index in that client's session, both from 0. Names are ordered by client
/// first.
#[derive(Clone, Copy, Debug, PartialEq, Eq, PartialOrd, Ord)]
pub struct OpName {
    pub client: u16,
    pub index: u32,
}

impl fmt::Display for OpName {
    ghost use Rattle.std.specs.Prelude.{Some};
    ghost use Rattle.cops_types.specs.Texts.{name_text};

    ghost output = { λ n. Some (name_text n) };

    fn fmt<W: fmt::Write>(&self, f: &mut fmt::Formatter<W>) -> fmt::Result {
        let client = self.client;
        let index = self.index;
        write!(f, "({client},{index})")
    }
}
