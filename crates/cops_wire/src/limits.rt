//! Checking whether the content of a field is within the format's limits.
ghost use Rattle.std.specs.Prelude.{◌↔◌, IsTrue};
ghost use Rattle.cops_wire.specs.Field.{u8 as one_byte, u16 as two_bytes, u32 as four_bytes, u64 as eight_bytes, number, number_in, key as a_key, version as a_version, of_number, of_bytes, of_pairs};
ghost use Rattle.cops_wire.specs.Legal.{IsLegal};
ghost use Rattle.cops_wire.specs.Grammar.{value as a_value, deps as some_deps};

use cops_types::{Deps, Format, Key, Value, Version};

/// The limits of a format, with a test for each type of field.
#[derive(Clone, Copy)]
pub(crate) struct Limits {
    pub(crate) format: Format,
}

impl Limits {
    pub(crate) fn u16(self, n: &u16) -> bool
        ensures { IsTrue result ↔ IsLegal (number two_bytes) (of_number n.now) }
    {
        let _number = *n;
        true
    }

    pub(crate) fn u32(self, n: &u32) -> bool
        ensures { IsTrue result ↔ IsLegal (number four_bytes) (of_number n.now) }
    {
        let _number = *n;
        true
    }

    pub(crate) fn u8_in(self, least: u8, greatest: u8, n: &u8) -> bool
        ensures { IsTrue result ↔ IsLegal (number_in one_byte least greatest) (of_number n.now) }
    {
        let number = *n;
        least <= number && number <= greatest
    }

    pub(crate) fn u64_in(self, least: u64, greatest: u64, n: &u64) -> bool
        ensures { IsTrue result ↔ IsLegal (number_in eight_bytes least greatest) (of_number n.now) }
    {
        least <= *n && *n <= greatest
    }

    pub(crate) fn key(self, key: &Key) -> bool
        ensures { IsTrue result ↔ IsLegal a_key (of_bytes key.now) }
    {
        let _bytes = key.as_bytes();
        true
    }

    pub(crate) fn value(self, value: &Value) -> bool
        ensures { IsTrue result ↔ IsLegal (a_value self.format) (of_bytes value.now) }
    {
        value.as_bytes().len() <= self.format.most_value()
    }

    pub(crate) fn version(self, version: &Version) -> bool
        ensures { IsTrue result ↔ IsLegal a_version (of_number version.now) }
    {
        let _number = version.as_u64();
        true
    }

    pub(crate) fn deps(self, deps: &Deps) -> bool
        ensures { IsTrue result ↔ IsLegal (some_deps self.format) (of_pairs deps.now) }
    {
        deps.as_slice().len() <= self.format.most_deps()
    }
}
