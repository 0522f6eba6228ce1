use cops_types::ShortBytes;
use std::alloc::{AllocError, Global};
use std::marker::Model;

/// The name of a client: the bytes of any text.
#[derive(Clone, Debug, PartialEq, Eq, Hash, Drop)]
pub struct Name {
    bytes: ShortBytes,
}

impl Model for Name {
    ghost use Rattle.std.specs.Prelude.{List, ℕ};

    ghost Value = { List ℕ };

    ghost view = { λ n. n.bytes };

    ghost inverse = { λ items. record { bytes = items } };
}

impl Name {
    ghost use Rattle.std.specs.Prelude.{◌≡◌, IfOk};

    /// The name with these bytes.
    pub(crate) fn new(alloc: Global, bytes: &[u8]) -> Result<Name, AllocError>
        ensures { IfOk result (λ name. name ≡ bytes.now) }
    {
        Ok(Name {
            bytes: ShortBytes::from_slice(alloc, bytes)?,
        })
    }

    /// The bytes of the text.
    pub fn as_bytes(&self) -> &[u8]
        ensures { result.now ≡ self.now }
    {
        self.bytes.as_slice()
    }
}
