//! A recorder that threads share.
ghost use Rattle.std.specs.Prelude.{◌≡◌, IfOk};

use crate::fault::{IntoTraceFault, RecordFault};
use crate::records::Records;
use cops_trace::{Record, Trace};
use cops_types::{Format, Memory, Op};
use std::alloc::Global;
use std::fmt;
use std::sync::{Mutex, Wait};

/// The records of what clients saw, under one lock: in order of arrival, each with its client, and within a trace's
/// limits. The number of clients is outside the lock, since it never changes.
#[derive(Drop)]
pub struct Recorder {
    clients: u16,
    records: Mutex<Records>,
    alloc: Global,
}

impl fmt::Debug for Recorder {
    fn fmt<W: fmt::Write>(&self, f: &mut fmt::Formatter<W>) -> fmt::Result {
        f.write_str("Recorder { .. }")
    }
}

/// A place reserved for an operation of a client, until it is filled or cancelled.
#[must_use]
pub struct Slot {
    client: u16,
}

impl Recorder {
    ghost use Rattle.std.specs.Prelude.{◌≡◌, ◌≤◌, ◌↔◌, IfErr, IfOk, IsErrOf};
    ghost use Rattle.cops_record.specs.Back.{IsBack};

    /// A recorder of format 1 for `clients` clients, without records. Returns `Memory` when memory runs out.
    pub fn new(alloc: Global, clients: u16) -> Result<Recorder, Memory>
        ensures { IfOk result (λ r. r.clients ≡ clients) }
    {
        Recorder::new_in(Format::One, alloc, clients)
    }

    /// A recorder of a format for `clients` clients, without records. Returns `Memory` when memory runs out.
    pub fn new_in(format: Format, alloc: Global, clients: u16) -> Result<Recorder, Memory>
        ensures { IfOk result (λ r. r.clients ≡ clients) }
    {
        let records = Mutex::new(Records::new(format, alloc, clients)?);
        Ok(Recorder {
            clients,
            records,
            alloc,
        })
    }

    /// Reserves a slot, which counts against the limits.
    ///
    /// Errors: `UnknownClient` where there is no such client; then `SessionFull` where the client has 1,000,000 records
    /// and slots, or all clients together have 16,000,000; `Memory` when memory runs out.
    pub fn reserve<R: Wait>(&self, rt: &R, client: u16) -> Result<Slot, RecordFault>
        ensures slot { IfOk result (λ slot. slot.client ≡ client) }
        ensures unknown { IsErrOf result RecordFault.UnknownClient ↔ (self.now.clients ≤ client) }
    {
        if client >= self.clients {
            return Err(RecordFault::UnknownClient);
        }
        match self.records.lock(rt).reserve(client) {
            Ok(()) => Ok(Slot { client }),
            Err(RecordFault::Memory) => Err(RecordFault::Memory),
            // (the records have a seat for each client; a client without one could reserve no slot)
            Err(RecordFault::UnknownClient | RecordFault::SessionFull) => {
                Err(RecordFault::SessionFull)
            }
        }
    }

    /// Fills the slot: its operation becomes the next record. Where the operation is not in the recorder's format, the
    /// slot is cancelled instead. It never fails. Where no slot is reserved here for the slot's client, as for a slot
    /// of another recorder, nothing changes.
    pub fn fill<R: Wait>(&self, rt: &R, slot: Slot, op: Op) {
        let Slot { client } = slot;
        self.records.lock(rt).fill(client, op);
    }

    /// Cancels the slot, which frees its place. It never fails. Where no slot is reserved here for the slot's client,
    /// nothing changes.
    pub fn cancel<R: Wait>(&self, rt: &R, slot: Slot) {
        let Slot { client } = slot;
        self.records.lock(rt).cancel(client);
    }

    /// A copy of the records from `place` on. Returns `Memory` when memory runs out.
    pub fn copy_from<R: Wait>(&self, rt: &R, place: usize) -> Result<Vec<Record>, Memory> {
        self.records.lock(rt).copy_from(self.alloc, place)
    }

    /// Turns the records into a trace, once no other thread records. On `Memory` the recorder is returned.
    pub fn into_trace(self) -> Result<Trace, IntoTraceFault>
        ensures { IfErr result (IsBack self) }
    {
        let Recorder {
            clients,
            records,
            alloc,
        } = self;
        let records = records.into_inner();
        match records.trace(alloc) {
            Ok(trace) => Ok(trace),
            Err(Memory) => Err(IntoTraceFault::Memory(Recorder {
                clients,
                records: Mutex::new(records),
                alloc,
            })),
        }
    }
}
