//! The records, and the reserved slots.
ghost use Rattle.std.specs.Prelude.{◌≡◌};

use crate::fault::RecordFault;
use cops_trace::{Record, Trace};
use cops_types::{Format, MAX_CLIENT_OPS, MAX_OPS, Memory, Op, TypeFault};
use std::alloc::Global;
use std::marker::Model;

/// The number of a client's records, and of the slots that are reserved for it.
#[derive(Clone, Copy, Debug, PartialEq, Eq)]
pub(crate) struct Seat {
    filled: u32,
    reserved: u32,
}

/// The records in order of arrival, each an operation of the format, with room for all reserved slots, and a seat for
/// each client.
#[derive(Drop)]
pub(crate) struct Records {
    format: Format,
    seats: Vec<Seat>,
    records: Vec<Record>,
    reserved: usize,
}

impl Model for Records {
    ghost use Rattle.std.specs.Prelude.{vec_capacity};
    ghost use Rattle.cops_record.specs.Records.{State, IsKept};

    ghost Value = { State };

    ghost view = { λ r. record { format = r.format; records = r.records.items; seats = r.seats.items } };

    ghost invariant = { λ r. IsKept r.format r.seats.items r.records.items r.reserved (vec_capacity r.records) };
}

impl Records {
    ghost use Rattle.std.specs.Prelude.{◌≡◌, ◌+◌, ◌<◌, ◌≤◌, ◌↔◌, [], drop, length, replicate, IfNone, IfOk, IfSome, IsErrOf, OnOk, OnErr};
    ghost use Rattle.cops_types.specs.Format.{IsInFormat};
    ghost use Rattle.cops_types.specs.Operations.{operation_of};
    ghost use Rattle.cops_record.specs.Records.{State, IsFull, recorded, seat_of, seat, slots, with_slot, without_slot, with_op};

    /// No records and no slots, for `clients` clients. Returns `Memory` when memory runs out.
    pub(crate) fn new(format: Format, alloc: Global, clients: u16) -> Result<Records, Memory>
        ensures { IfOk result (λ r. r ≡ record { format = format; records = []; seats = replicate clients (seat 0 0) }) }
    {
        let empty = Seat {
            filled: 0,
            reserved: 0,
        };
        Ok(Records {
            format,
            seats: vec![in alloc; empty; usize::from(clients)]?,
            records: Vec::new(alloc),
            reserved: 0,
        })
    }

    /// Reserves a slot. An error leaves everything unchanged.
    ///
    /// Errors: `UnknownClient` where there is no such client; then `SessionFull` where the client has 1,000,000 records
    /// and slots, or all clients together have 16,000,000; `Memory` when memory runs out.
    pub(crate) fn reserve(&mut self, client: u16) -> Result<(), RecordFault>
        ensures ok { OnOk result (self.new ≡ with_slot self.old client) }
        ensures known { OnOk result (client < length self.old.seats) }
        ensures unknown { IsErrOf result RecordFault.UnknownClient ↔ (length self.old.seats ≤ client) }
        ensures full { IsErrOf result RecordFault.SessionFull ↔ ((client < length self.old.seats) × IsFull self.old client) }
        ensures err { OnErr result (self.new ≡ self.old) }
    {
        let place = usize::from(client);
        if place >= self.seats.len() {
            return Err(RecordFault::UnknownClient);
        }
        let seat = self.seats[place];
        if (seat.filled + seat.reserved) as usize >= MAX_CLIENT_OPS {
            return Err(RecordFault::SessionFull);
        }
        if self.records.len() + self.reserved >= MAX_OPS {
            return Err(RecordFault::SessionFull);
        }
        if self.records.reserve(self.reserved + 1).is_err() {
            return Err(RecordFault::Memory);
        }
        self.seats[place] = Seat {
            filled: seat.filled,
            reserved: seat.reserved + 1,
        };
        self.reserved += 1;
        Ok(())
    }

    /// The index of the client's seat, where a slot is reserved for the client.
    fn place_with_slot(&self, client: u16) -> Option<usize>
        ensures some { IfSome result (λ place. (place ≡ client) × (client < length self.now.seats) × (0 < (seat_of self.now client).reserved)) }
        ensures none { IfNone result ((seat_of self.now client).reserved ≡ 0) }
    {
        let place = usize::from(client);
        if place < self.seats.len() && self.seats[place].reserved > 0 {
            Some(place)
        } else {
            None
        }
    }

    /// Fills a slot of the client, or cancels it where the operation is not in the format. Where no slot is reserved
    /// for the client, nothing changes.
    pub(crate) fn fill(&mut self, client: u16, op: Op)
        ensures filled { 0 < (seat_of self.old client).reserved → IsInFormat self.old.format (operation_of op) → self.new ≡ with_op self.old client op }
        ensures given { 0 < (seat_of self.old client).reserved → ¬ IsInFormat self.old.format (operation_of op) → self.new ≡ without_slot self.old client }
        ensures idle { (seat_of self.old client).reserved ≡ 0 → self.new ≡ self.old }
    {
        if !op.in_format(self.format) {
            drop(op);
            return self.cancel(client);
        }
        let Some(place) = self.place_with_slot(client) else {
            return;
        };
        let seat = self.seats[place];
        self.seats[place] = Seat {
            filled: seat.filled + 1,
            reserved: seat.reserved - 1,
        };
        self.reserved -= 1;
        self.records.push_reserved(Record { client, op });
    }

    /// Cancels a slot of the client. Where no slot is reserved for it, nothing changes.
    pub(crate) fn cancel(&mut self, client: u16)
        ensures given { 0 < (seat_of self.old client).reserved → self.new ≡ without_slot self.old client }
        ensures idle { (seat_of self.old client).reserved ≡ 0 → self.new ≡ self.old }
    {
        let Some(place) = self.place_with_slot(client) else {
            return;
        };
        let seat = self.seats[place];
        self.seats[place] = Seat {
            filled: seat.filled,
            reserved: seat.reserved - 1,
        };
        self.reserved -= 1;
    }

    /// A copy of the records from `place` on. It is empty, and allocates no memory, where there are no records from
    /// there on. Returns `Memory` when memory runs out.
    pub(crate) fn copy_from(&self, alloc: Global, place: usize) -> Result<Vec<Record>, Memory>
        ensures ok { IfOk result (λ copies. copies.items ≡ drop place self.now.records) }
        ensures err { OnErr result (place < length self.now.records) }
    {
        let rest = &self.records[place.min(self.records.len())..];
        let mut copies = Vec::new(alloc);
        copies.reserve(rest.len())?;
        for record in rest {
            copies.push(record.clone()?)?;
        }
        Ok(copies)
    }

    /// The trace of the records. Returns `Memory` when memory runs out.
    pub(crate) fn trace(&self, alloc: Global) -> Result<Trace, Memory>
        ensures { IfOk result (λ trace. trace ≡ recorded self.now) }
    {
        let mut trace = Trace::new_in(self.format, alloc, self.seats.len() as u16)?;
        for record in &self.records {
            match trace.push(record.client, record.op.clone()?) {
                Ok(()) => {}
                Err(fault) => return Err(out_of_memory(fault)),
            }
        }
        Ok(trace)
    }
}

/// The only fault that a trace can have that has the client and has room: out of memory.
fn out_of_memory(fault: TypeFault) -> Memory
    requires { fault ≡ TypeFault.Memory }
{
    match fault {
        TypeFault::Memory => Memory,
        _ => unreachable!(),
    }
}
