//! Counting the records of a trace.
ghost use Rattle.std.specs.Prelude.{◌≡◌};

use cops_types::{Format, MAX_CLIENT_OPS, MAX_OPS, Memory};
use std::alloc::Global;
use std::marker::Model;

/// The counts of a trace so far: the format that the head names, the index of each client's next record, and the number
/// of all records.
#[derive(Debug, Drop)]
pub(crate) struct Counts {
    format: Format,
    next: Vec<u32>,
    total: u32,
}

impl Model for Counts {
    ghost use Rattle.std.specs.Prelude.{◌<◌, ◌^◌, length};
    ghost use Rattle.cops_trace.specs.Counts.{ACounts};

    ghost Value = { ACounts };

    ghost view = { λ c. record { format = c.format; next = c.next.items; total = c.total } };

    ghost invariant = { λ c. length c.next.items < 2 ^ 16 };
}

impl Counts {
    ghost use Rattle.std.specs.Prelude.{◌≡◌, ◌<◌, ◌^◌, ◌↔◌, length, IfOk, IsTrue};
    ghost use Rattle.cops_trace.specs.Counts.{HasTurn, counted, next_of, nothing};

    /// The counts of no records, with `clients` clients. Fails if memory runs out.
    pub(crate) fn new(format: Format, alloc: Global, clients: u16) -> Result<Counts, Memory>
        ensures { IfOk result (λ counts. counts ≡ nothing format clients) }
    {
        let next = vec![in alloc; 0u32; usize::from(clients)]?;
        Ok(Counts {
            format,
            next,
            total: 0,
        })
    }

    /// The format that the head names.
    pub(crate) fn format(&self) -> Format
        ensures { result ≡ self.now.format }
    {
        self.format
    }

    /// How many clients there are.
    pub(crate) fn clients(&self) -> u16
        ensures { result ≡ length self.now.next }
    {
        self.next.len() as u16
    }

    /// The index of a client's next record, or 0 if there is no such client.
    pub(crate) fn next(&self, client: u16) -> u32
        ensures { result ≡ next_of self.now client }
    {
        match self.next.get(usize::from(client)) {
            Some(next) => *next,
            None => 0,
        }
    }

    /// Whether there is such a client, and neither the client nor the trace has the most records allowed.
    pub(crate) fn has_turn(&self, client: u16) -> bool
        ensures { IsTrue result ↔ HasTurn self.now client }
    {
        client < self.clients()
            && (self.next(client) as usize) < MAX_CLIENT_OPS
            && (self.total as usize) < MAX_OPS
    }

    /// How many records there are in all.
    pub(crate) fn total(&self) -> u32
        ensures { result ≡ self.now.total }
    {
        self.total
    }

    /// Counts one more record of a client.
    pub(crate) fn add(&mut self, client: u16)
        requires { HasTurn self.old client }
        ensures { self.new ≡ counted self.old client }
    {
        self.next[usize::from(client)] += 1;
        self.total += 1;
    }
}
