//! Reading the fields of a message from the front of the remaining body.
ghost use Rattle.std.specs.Prelude.{◌≡◌, ◌≤◌, length, take, drop, IfOk};
ghost use Rattle.cops_wire.specs.Field.{u8, u16, u32, u64, key};
ghost use Rattle.cops_types.specs.declared.limits.TheConstants.{MAX_KEY};
ghost use Rattle.cops_types.specs.Format.{most_value, most_deps};
ghost use Rattle.cops_wire.specs.Grammar.{grammar, value, deps};
ghost use Rattle.cops_wire.specs.Kind.{IsOneOf, kind_of};
ghost use Rattle.cops_wire.specs.Reading.{GivesField, GivesNumber, GivesContents, number_at, number_in_at, string_at, version_at, pair_at, pairs_at, deps_at, GivesPart};

use crate::message::Message;
use crate::table::{group, kinds};
use cops_types::{Dep, Deps, Format, Key, KeyView, Value, ValueView, Version};
use std::alloc::{AllocError, AllocFailed, Global};

/// The fewest bytes of a pair: a key's length, one byte of a key, and a version.
const LEAST_PAIR: usize = 10;

/// Why fields could not be read.
#[derive(Clone, Copy, Debug, PartialEq, Eq)]
pub(crate) enum ReadFault {
    Memory,
    UnknownKind,
    /// The number of bytes left at the first field that cannot be read.
    BadField(usize),
}

impl From<AllocError> for ReadFault {
    ghost use Rattle.std.specs.Prelude.{◌≡◌};
    ghost use Rattle.cops_wire.specs.declared.reading.ReadFault.TheVariants.{Memory};

    ghost from_gives = { λ _ e. e ≡ Memory };

    fn from(_e: AllocError) -> ReadFault {
        ReadFault::Memory
    }
}

impl<T: Drop> From<AllocFailed<T>> for ReadFault {
    ghost use Rattle.std.specs.Prelude.{◌≡◌};
    ghost use Rattle.cops_wire.specs.declared.reading.ReadFault.TheVariants.{Memory};

    ghost from_gives = { λ _ e. e ≡ Memory };

    fn from(_e: AllocFailed<T>) -> ReadFault {
        ReadFault::Memory
    }
}

/// The numbers of the kinds of a group.
macro_rules! numbers {
    (; $($number:literal => $name:ident { $($fields:tt)* }),*) => {
        &[$($number),*]
    };
}

const SESSION: &[u8] = kinds!(group session numbers);

const OPERATION: &[u8] = kinds!(group operation numbers);

const REPLICATION: &[u8] = kinds!(group replication numbers);

const TRACE: &[u8] = kinds!(group trace numbers);

const RECORD: &[u8] = kinds!(group record numbers);

const DELETION: &[u8] = kinds!(group deletion numbers);

/// A match on the kind, which is one of the group's, that reads the fields from left to right.
macro_rules! read {
    ($kind:ident $rest:ident; $($number:literal => $name:ident { $($field:ident: $type:ident($($arg:literal),*)),* }),*) => {
        match $kind {
            $($number => return Ok(Message::$name { $($field: taken!($rest.$type($($arg),*))),* }),)*
            _ => unreachable!(),
        }
    };
}

/// A field that was read. Returns from the function on a fault.
macro_rules! taken {
    ($read:expr) => {
        match $read {
            Ok(field) => field,
            Err(fault) => return Err(fault),
        }
    };
}

/// The remaining bytes of a body. A reader takes a field from their front.
#[derive(Drop)]
pub(crate) struct Rest<'a> {
    pub(crate) alloc: Global,
    pub(crate) format: Format,
    pub(crate) bytes: &'a [u8],
}

impl<'a> Rest<'a> {
    pub(crate) fn bad(&self) -> ReadFault
        ensures { result ≡ ReadFault.BadField (length self.now.bytes.now) }
    {
        ReadFault::BadField(self.bytes.len())
    }

    /// Takes the next `len` bytes, which have to be there.
    pub(crate) fn take(&mut self, len: usize) -> &'a [u8]
        requires { len ≤ length self.old.bytes.now }
        ensures format { self.new.format ≡ self.old.format }
        ensures taken { result.now ≡ take len self.old.bytes.now }
        ensures rest { self.new.bytes.now ≡ drop len self.old.bytes.now }
    {
        let (front, rest) = self.bytes.split_at(len);
        self.bytes = rest;
        front
    }

    #[tactic(auto, unfolding(crate::specs::Reading::number_at))]
    pub(crate) fn u8(&mut self) -> Result<u8, ReadFault>
        ensures format { self.new.format ≡ self.old.format }
        ensures field { GivesNumber (λ n. (n, self.new.bytes.now)) self.old.bytes.now result (number_at u8 self.old.bytes.now) }
    {
        if self.bytes.is_empty() {
            return Err(self.bad());
        }
        let front = self.take(1);
        Ok(u8::from_be_bytes([front[0]]))
    }

    #[tactic(auto, unfolding(crate::specs::Reading::number_at))]
    pub(crate) fn u16(&mut self) -> Result<u16, ReadFault>
        ensures format { self.new.format ≡ self.old.format }
        ensures field { GivesNumber (λ n. (n, self.new.bytes.now)) self.old.bytes.now result (number_at u16 self.old.bytes.now) }
    {
        if self.bytes.len() < 2 {
            return Err(self.bad());
        }
        let front = self.take(2);
        Ok(u16::from_be_bytes([front[0], front[1]]))
    }

    #[tactic(auto, unfolding(crate::specs::Reading::number_at))]
    pub(crate) fn u32(&mut self) -> Result<u32, ReadFault>
        ensures format { self.new.format ≡ self.old.format }
        ensures field { GivesNumber (λ n. (n, self.new.bytes.now)) self.old.bytes.now result (number_at u32 self.old.bytes.now) }
    {
        if self.bytes.len() < 4 {
            return Err(self.bad());
        }
        let front = self.take(4);
        Ok(u32::from_be_bytes([front[0], front[1], front[2], front[3]]))
    }

    #[tactic(auto, unfolding(crate::specs::Reading::number_at))]
    fn u64(&mut self) -> Result<u64, ReadFault>
        ensures format { self.new.format ≡ self.old.format }
        ensures field { GivesNumber (λ n. (n, self.new.bytes.now)) self.old.bytes.now result (number_at u64 self.old.bytes.now) }
    {
        if self.bytes.len() < 8 {
            return Err(self.bad());
        }
        let front = self.take(8);
        Ok(u64::from_be_bytes([
            front[0], front[1], front[2], front[3], front[4], front[5], front[6], front[7],
        ]))
    }

    #[tactic(auto, unfolding(crate::specs::Reading::number_in_at))]
    fn u8_in(&mut self, least: u8, greatest: u8) -> Result<u8, ReadFault>
        ensures format { self.new.format ≡ self.old.format }
        ensures field { GivesNumber (λ n. (n, self.new.bytes.now)) self.old.bytes.now result (number_in_at u8 least greatest self.old.bytes.now) }
    {
        let bad = self.bad();
        let number = self.u8()?;
        if number < least || number > greatest {
            return Err(bad);
        }
        Ok(number)
    }

    #[tactic(auto, unfolding(crate::specs::Reading::number_in_at))]
    fn u64_in(&mut self, least: u64, greatest: u64) -> Result<u64, ReadFault>
        ensures format { self.new.format ≡ self.old.format }
        ensures field { GivesNumber (λ n. (n, self.new.bytes.now)) self.old.bytes.now result (number_in_at u64 least greatest self.old.bytes.now) }
    {
        let bad = self.bad();
        let number = self.u64()?;
        if number < least || number > greatest {
            return Err(bad);
        }
        Ok(number)
    }

    #[tactic(auto, unfolding(crate::specs::Reading::string_at, crate::specs::Reading::number_in_at))]
    fn key(&mut self) -> Result<Key, ReadFault>
        ensures format { self.new.format ≡ self.old.format }
        ensures field { GivesField (λ k. (k, self.new.bytes.now)) key self.old.bytes.now result (string_at u8 1 MAX_KEY self.old.bytes.now) }
    {
        let seen = self.key_view()?;
        let key = seen.to_key(self.alloc)?;
        Ok(key)
    }

    /// Reads a key and borrows its bytes.
    #[tactic(auto, unfolding(crate::specs::Reading::string_at, crate::specs::Reading::number_in_at))]
    #[inline(always)]
    pub(crate) fn key_view(&mut self) -> Result<KeyView<'a>, ReadFault>
        ensures format { self.new.format ≡ self.old.format }
        ensures field { GivesNumber (λ k. (k, self.new.bytes.now)) self.old.bytes.now result (string_at u8 1 MAX_KEY self.old.bytes.now) }
    {
        let bad = self.bad();
        let len = self.u8()? as usize;
        if self.bytes.len() < len {
            return Err(bad);
        }
        match KeyView::new(self.take(len)) {
            Ok(key) => Ok(key),
            Err(_) => Err(bad),
        }
    }

    #[tactic(auto, unfolding(crate::specs::Reading::string_at, crate::specs::Reading::number_in_at))]
    fn value(&mut self) -> Result<Value, ReadFault>
        ensures format { self.new.format ≡ self.old.format }
        ensures field { GivesField (λ v. (v, self.new.bytes.now)) (value self.old.format) self.old.bytes.now result (string_at u16 0 (most_value self.old.format) self.old.bytes.now) }
    {
        let seen = self.value_view()?;
        let value = seen.to_value(self.alloc)?;
        Ok(value)
    }

    /// Reads a value and borrows its bytes.
    #[tactic(auto, unfolding(crate::specs::Reading::string_at, crate::specs::Reading::number_in_at))]
    #[inline(always)]
    pub(crate) fn value_view(&mut self) -> Result<ValueView<'a>, ReadFault>
        ensures format { self.new.format ≡ self.old.format }
        ensures field { GivesNumber (λ v. (v, self.new.bytes.now)) self.old.bytes.now result (string_at u16 0 (most_value self.old.format) self.old.bytes.now) }
    {
        let bad = self.bad();
        let len = self.u16()? as usize;
        if self.bytes.len() < len {
            return Err(bad);
        }
        match ValueView::new_in(self.format, self.take(len)) {
            Ok(value) => Ok(value),
            Err(_) => Err(bad),
        }
    }

    #[tactic(auto, unfolding(crate::specs::Reading::version_at))]
    pub(crate) fn version(&mut self) -> Result<Version, ReadFault>
        ensures format { self.new.format ≡ self.old.format }
        ensures field { GivesNumber (λ v. (v, self.new.bytes.now)) self.old.bytes.now result (version_at self.old.bytes.now) }
    {
        let bad = self.bad();
        let number = self.u64()?;
        match Version::from_u64(number) {
            Ok(version) => Ok(version),
            Err(_) => Err(bad),
        }
    }

    #[tactic(auto, unfolding(crate::specs::Reading::pair_at))]
    fn pair(&mut self) -> Result<Dep, ReadFault>
        ensures format { self.new.format ≡ self.old.format }
        ensures field { GivesPart (λ d. (d, self.new.bytes.now)) result (pair_at self.old.bytes.now) }
    {
        let key = self.key()?;
        match self.version() {
            Ok(version) => Ok(Dep { key, version }),
            Err(fault) => {
                drop(key);
                Err(fault)
            }
        }
    }

    /// Reads `count` pairs. Allocates no more room than for the pairs that the remaining bytes can hold.
    fn pairs(&mut self, count: u16) -> Result<Vec<Dep>, ReadFault>
        ensures format { self.new.format ≡ self.old.format }
        ensures field { GivesPart (λ v. (v.items, self.new.bytes.now)) result (pairs_at count self.old.bytes.now) }
    {
        let room = usize::from(count).min(self.bytes.len() / LEAST_PAIR);
        let mut pairs = Vec::with_capacity(self.alloc, room)?;
        for _ in 0..count {
            let pair = self.pair()?;
            pairs.push(pair)?;
        }
        Ok(pairs)
    }

    #[tactic(auto, unfolding(crate::specs::Reading::deps_at, crate::specs::Reading::number_in_at))]
    fn deps(&mut self) -> Result<Deps, ReadFault>
        ensures format { self.new.format ≡ self.old.format }
        ensures field { GivesField (λ d. (d, self.new.bytes.now)) (deps self.old.format) self.old.bytes.now result (deps_at (most_deps self.old.format) self.old.bytes.now) }
    {
        let bad = self.bad();
        let most = self.format.most_deps();
        let count = self.u16()?;
        if count as usize > most {
            return Err(bad);
        }
        let pairs = match self.pairs(count) {
            Ok(pairs) => pairs,
            Err(ReadFault::Memory) => return Err(ReadFault::Memory),
            Err(_) => return Err(bad),
        };
        match Deps::new(pairs) {
            Ok(deps) => Ok(deps),
            Err(_) => Err(bad),
        }
    }

    /// Reads the message of this kind whose fields are at the front, by the method of the kind's group.
    pub(crate) fn message(&mut self, kind: u8) -> Result<Message, ReadFault>
        ensures contents { GivesContents (grammar self.old.format) kind self.old.bytes.now result self.new.bytes.now }
        ensures kind { IfOk result (λ m. kind_of m ≡ kind) }
    {
        macro_rules! by_group {
            ($rest:ident, $kind:ident; $($group:ident { $($number:literal => $name:ident { $($fields:tt)* }),* })*) => {
                match $kind {
                    $($($number)|* => $rest.$group($kind),)*
                    _ => Err(ReadFault::UnknownKind),
                }
            };
        }
        let rest = self;
        kinds!(by_group rest, kind)
    }

    fn session(&mut self, kind: u8) -> Result<Message, ReadFault>
        requires { IsOneOf SESSION.now kind }
        ensures contents { GivesContents (grammar self.old.format) kind self.old.bytes.now result self.new.bytes.now }
        ensures kind { IfOk result (λ m. kind_of m ≡ kind) }
    {
        let rest = self;
        kinds!(group session read kind rest)
    }

    fn operation(&mut self, kind: u8) -> Result<Message, ReadFault>
        requires { IsOneOf OPERATION.now kind }
        ensures contents { GivesContents (grammar self.old.format) kind self.old.bytes.now result self.new.bytes.now }
        ensures kind { IfOk result (λ m. kind_of m ≡ kind) }
    {
        let rest = self;
        kinds!(group operation read kind rest)
    }

    fn replication(&mut self, kind: u8) -> Result<Message, ReadFault>
        requires { IsOneOf REPLICATION.now kind }
        ensures contents { GivesContents (grammar self.old.format) kind self.old.bytes.now result self.new.bytes.now }
        ensures kind { IfOk result (λ m. kind_of m ≡ kind) }
    {
        let rest = self;
        kinds!(group replication read kind rest)
    }

    fn trace(&mut self, kind: u8) -> Result<Message, ReadFault>
        requires { IsOneOf TRACE.now kind }
        ensures contents { GivesContents (grammar self.old.format) kind self.old.bytes.now result self.new.bytes.now }
        ensures kind { IfOk result (λ m. kind_of m ≡ kind) }
    {
        let rest = self;
        kinds!(group trace read kind rest)
    }

    fn record(&mut self, kind: u8) -> Result<Message, ReadFault>
        requires { IsOneOf RECORD.now kind }
        ensures contents { GivesContents (grammar self.old.format) kind self.old.bytes.now result self.new.bytes.now }
        ensures kind { IfOk result (λ m. kind_of m ≡ kind) }
    {
        let rest = self;
        kinds!(group record read kind rest)
    }

    fn deletion(&mut self, kind: u8) -> Result<Message, ReadFault>
        requires { IsOneOf DELETION.now kind }
        ensures contents { GivesContents (grammar self.old.format) kind self.old.bytes.now result self.new.bytes.now }
        ensures kind { IfOk result (λ m. kind_of m ≡ kind) }
    {
        match self.format {
            Format::One => Err(ReadFault::UnknownKind),
            Format::Two => {
                let rest = self;
                kinds!(group deletion read kind rest)
            }
        }
    }
}
