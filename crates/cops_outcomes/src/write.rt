//! What a put or a deletion writes.
use cops_types::{Key, Value};
use std::hash::{Hash, Hasher};

/// What a put or a deletion of unknown outcome writes: a key, and its content, which is a value, or nothing for a
/// deletion.
#[derive(Debug, Drop, PartialEq, Eq)]
pub struct Write {
    pub key: Key,
    pub content: Option<Value>,
}

/// Both the key and the content are hashed, so that many values of one key are spread.
impl Hash for Write {
    ghost use Rattle.std.proofs.Common.{rules};
    ghost use Rattle.std.specs.Prelude.{◌++◌};
    ghost use Rattle.std.specs.Hash as fed;
    ghost use Rattle.std.specs.Cmp.Rules.{hashing};

    ghost hash_input = { λ w. fed.slice fed.u8 w.key ++ fed.option (fed.slice fed.u8) w.content };

    ghost respects_eq = { Prim.search (hashing, rules) };

    fn hash<H: Hasher>(&self, state: &mut H) {
        self.key.hash(state);
        match &self.content {
            Some(value) => {
                state.write_isize(1);
                value.as_bytes().hash(state);
            }
            None => state.write_isize(0),
        }
    }
}
