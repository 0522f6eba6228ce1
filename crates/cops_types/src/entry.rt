use crate::key::Key;
use crate::op::OpName;
use crate::op_ref::OpRef;
use crate::op_view::ValueView;
use crate::value::Value;
use crate::version::Version;

/// A put of a history, with its number: puts are numbered in the order in which they were added.
#[derive(Clone, Copy, Debug)]
pub(crate) struct NumberedPut {
    pub(crate) name: OpName,
    pub(crate) number: u32,
}

/// What a get returned, with the number of its key: no value if it found a deletion.
#[derive(Clone, Copy, Debug)]
pub(crate) struct Returned<'a> {
    pub(crate) key: u32,
    pub(crate) value: Option<&'a ValueView<'a>>,
    pub(crate) version: Version,
}

/// An operation to be added to a history. A number stands for its key.
#[derive(Debug, Drop)]
pub(crate) enum StoredOp {
    /// A put, and its version. Without a value it is a deletion.
    Put {
        key: u32,
        value: Option<Value>,
        version: Version,
    },
    /// A get that returned this value, or found a deletion if there is no value.
    Got {
        key: u32,
        value: Option<Value>,
        version: Version,
    },
    /// A get that returned what this put wrote.
    Sourced {
        key: u32,
        put: NumberedPut,
        version: Version,
    },
    /// A get that found nothing.
    Missed {
        key: u32,
    },
}

/// Like `StoredOp`, but borrowed from a history.
#[derive(Clone, Copy, Debug)]
pub(crate) enum StoredOpRef<'a> {
    Put {
        key: u32,
        value: Option<&'a Value>,
        version: &'a Version,
    },
    Got {
        key: u32,
        value: Option<&'a Value>,
        version: &'a Version,
    },
    /// With the value that the put wrote.
    Sourced {
        key: u32,
        put: NumberedPut,
        value: Option<&'a Value>,
        version: &'a Version,
    },
    Missed {
        key: u32,
    },
}

impl<'a> StoredOpRef<'a> {
    ghost use Rattle.std.specs.Prelude.{◌≡◌};
    ghost use Rattle.cops_types.specs.Entries.{key_number_of, referred, with_key};
    ghost use Rattle.cops_types.specs.OpRefs.{seen};

    /// The number of the operation's key.
    pub(crate) fn key(&self) -> u32
        ensures { result ≡ key_number_of (referred self.now) }
    {
        match self {
            StoredOpRef::Put { key, .. }
            | StoredOpRef::Got { key, .. }
            | StoredOpRef::Sourced { key, .. }
            | StoredOpRef::Missed { key } => *key,
        }
    }

    /// The operation, whose key is this one.
    #[inline(always)]
    pub(crate) fn with_key(self, key: &'a Key) -> OpRef<'a>
        ensures { seen result ≡ with_key key.now self.entry }
    {
        match self {
            StoredOpRef::Put { value, version, .. } => OpRef::Put {
                key,
                value,
                version,
            },
            StoredOpRef::Got { value, version, .. } | StoredOpRef::Sourced { value, version, .. } =>
                OpRef::Got {
                    key,
                    value,
                    version,
                },
            StoredOpRef::Missed { .. } => OpRef::Missed { key },
        }
    }
}
