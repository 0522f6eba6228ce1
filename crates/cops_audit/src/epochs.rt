ghost use Rattle.std.specs.Prelude.{◌≡◌, ◌≤◌, ◌-◌, ◌++◌, replicate, vec_len, vec_capacity};
ghost use Rattle.cops_audit.specs.declared.epochs.EpochEntry.{EpochEntry};

use std::alloc::{AllocError, Global};
use std::marker::Model;

/// A number, and the epoch in which it was written.
#[derive(Clone, Copy)]
struct EpochEntry {
    epoch: u32,
    number: u32,
}

/// An epoch array: numbers that all become 0 at once at no cost, because those written in an earlier epoch count as 0.
/// So do those past the last one that was ever written, whose memory is reserved and not touched before.
#[derive(Drop)]
pub struct Epochs {
    entries: Vec<EpochEntry>,
    len: usize,
    epoch: u32,
}

/// Adds entries that count as 0, up to `len` entries. The vector must have the capacity for them.
fn fill(entries: &mut Vec<EpochEntry>, len: usize)
    requires more { vec_len entries.old ≤ len }
    requires room { len ≤ vec_capacity entries.old }
    ensures items { entries.new.items ≡ entries.old.items ++ replicate (len - vec_len entries.old) (record { epoch = 0; number = 0 }) }
    ensures len { vec_len entries.new ≡ len }
    ensures capacity { vec_capacity entries.old ≤ vec_capacity entries.new }
{
    match entries.resize(
        len,
        EpochEntry {
            epoch: 0,
            number: 0,
        },
    ) {
        Ok(()) => {}
        Err(_) => unreachable!(),
    }
}

impl Model for Epochs {
    ghost use Rattle.std.specs.Prelude.{List, ℕ, ◌≤◌, ◌-◌, All, vec_len, vec_capacity};
    ghost use Rattle.cops_audit.specs.EpochNumbers.{numbers_in};

    ghost Value = { List ℕ };

    ghost view = { λ a. numbers_in a.epoch a.entries.items (a.len - vec_len a.entries) };

    ghost invariant = { λ a. All (λ e. e.epoch ≤ a.epoch) a.entries.items × (vec_len a.entries ≤ a.len) × (a.len ≤ vec_capacity a.entries) };
}

impl Epochs {
    ghost use Rattle.std.specs.Prelude.{◌≡◌, ◌<◌, ◌≤◌, ◌-◌, ◌++◌, IfOk, OnErr, OnOk, length, slice_index, slice_set, replicate};

    /// `len` zeros.
    pub fn new(alloc: Global, len: usize) -> Result<Self, AllocError>
        ensures { IfOk result (λ epochs. epochs ≡ replicate len 0) }
    {
        let entries = Vec::with_capacity(alloc, len)?;
        Ok(Epochs {
            entries,
            len,
            epoch: 0,
        })
    }

    /// Makes all numbers 0, by starting a new epoch.
    pub fn restart(&mut self)
        ensures { self.new ≡ replicate (length self.old) 0 }
    {
        if self.epoch == u32::MAX {
            self.entries.clear();
            self.epoch = 0;
        }
        self.epoch += 1;
    }

    /// The number at a place, 0 past the end.
    pub fn get(&self, place: usize) -> u32
        ensures { result ≡ slice_index self.now place }
    {
        match self.entries.get(place) {
            Some(entry) if entry.epoch == self.epoch => entry.number,
            _ => 0,
        }
    }

    /// Writes a number.
    pub fn set(&mut self, place: usize, number: u32)
        requires { place < length self.old }
        ensures { self.new ≡ slice_set self.old place number }
    {
        if self.entries.len() <= place {
            fill(&mut self.entries, place + 1);
        }
        self.entries[place] = EpochEntry {
            epoch: self.epoch,
            number,
        };
    }

    /// How many numbers there are.
    pub fn len(&self) -> usize
        ensures { result ≡ length self.now }
    {
        self.len
    }

    /// Adds zeros, up to `len` numbers. It changes nothing where the allocation fails.
    pub fn extend(&mut self, len: usize) -> Result<(), AllocError>
        requires { length self.old ≤ len }
        ensures ok { OnOk result (self.new ≡ self.old ++ replicate (len - length self.old) 0) }
        ensures err { OnErr result (self.new ≡ self.old) }
    {
        self.entries.reserve(len - self.entries.len())?;
        self.len = len;
        Ok(())
    }
}
