//! Messages from a reader.
ghost use Rattle.std.specs.Prelude.{◌≡◌, ◌≢◌, ◌++◌, ◌+◌, ◌<◌, ◌^◌, ◌⊎◌, List, ℕ, length, None, Ok, Err, IsErrOf, OnOk, OnErr};
ghost use Rattle.std.specs.Io.KnownBytes.{Consumes, IsAtEnd};
ghost use Rattle.cops_types.specs.Failures.{Failed};
ghost use Rattle.cops_types.specs.Counted.{failures, inner};
ghost use Rattle.cops_net.specs.Turns.{IsTaken, IsPrefix};

use crate::fault::NetFault;
use cops_types::{Counted, Format, Memory};
use cops_wire::{Feeder, Message, WireFault, body_len};
use std::alloc::Global;
use std::io::Read;

/// The number of bytes that one read asks for.
const PIECE: usize = 4096;

/// The bytes that came from a reader and are not taken yet.
#[derive(Drop)]
pub(crate) struct Incoming {
    feeder: Feeder,
    waiting: usize,
    ghost counts: { waiting ≡ length feeder.rest },
}

impl Incoming {
    ghost use Rattle.std.specs.Prelude.{[]};

    /// A new `Incoming`, to which nothing came yet.
    pub(crate) fn new(alloc: Global) -> Incoming
        ensures rest { result.feeder.rest ≡ [] }
        ensures whole { result.feeder.fault ≡ None }
    {
        Incoming {
            feeder: Feeder::new(alloc),
            waiting: 0,
        }
    }

    /// Takes the message at the start of what came; `None` while there is no whole frame.
    ///
    /// Errors: `Memory` when memory runs out; `Wire` where the bytes have a fault.
    fn front(&mut self) -> Result<Option<Message>, NetFault>
        ensures front { IsPrefix self.old.feeder.format self.old.feeder.rest result self.new.feeder.rest }
        ensures kept { self.new.feeder.format ≡ self.old.feeder.format }
        ensures whole { OnOk result (self.new.feeder.fault ≡ None) }
    {
        match self.feeder.next() {
            Ok(Some(message)) => {
                self.waiting = self.waiting - body_len(&message) - 4;
                Ok(Some(message))
            }
            Ok(None) => Ok(None),
            Err(WireFault::Memory) => Err(NetFault::Memory),
            Err(fault) => Err(NetFault::Wire(fault)),
        }
    }

    /// Takes the next message, which is read in this format; `None` where the reader's bytes ended after the last one.
    /// Reads pieces of at most 4,096 bytes, and only while there is no whole message. No fault of the bytes may have
    /// been met before.
    ///
    /// Errors: `Memory` when memory runs out; `Wire` where the bytes have a fault, which is `Short` where they end
    /// inside a frame; `ReadFailed` where a read failed, which is not tried again.
    pub(crate) fn next<I: Read>(
        &mut self,
        format: Format,
        reader: &mut Counted<I>,
    ) -> Result<Option<Message>, NetFault>
        requires { self.old.feeder.fault ≡ None }
        ensures next { (came : List ℕ) × Consumes (I.remaining (inner reader.old)) (I.remaining (inner reader.new)) came
            × IsTaken format (IsAtEnd (I.remaining (inner reader.new))) (self.old.feeder.rest ++ came) result self.new.feeder.rest }
        ensures whole { OnOk result (self.new.feeder.fault ≡ None) }
        ensures failed { IsErrOf result NetFault.ReadFailed → Failed (failures reader.old) (failures reader.new) }
        ensures heard { IsErrOf result NetFault.ReadFailed ⊎ (failures reader.new ≡ failures reader.old) }
    {
        self.feeder.set_format(format);
        let mut piece = [0u8; PIECE];
        loop {
            if let Some(message) = self.front()? {
                return Ok(Some(message));
            }
            let count = match reader.read(&mut piece) {
                Ok(count) => count,
                Err(_) => return Err(NetFault::ReadFailed),
            };
            if count == 0 {
                return at_end(self.waiting);
            }
            let Ok(()) = self.feed(&piece[..count]) else {
                return Err(NetFault::Memory);
            };
        }
    }

    /// Appends the next piece. An error, which is `Memory`, leaves everything unchanged.
    fn feed(&mut self, piece: &[u8]) -> Result<(), Memory>
        requires { length self.old.feeder.rest + length piece.now < 2 ^ 63 }
        ensures ok { OnOk result (self.new.feeder.rest ≡ self.old.feeder.rest ++ piece.now) }
        ensures err { OnErr result (self.new.feeder.rest ≡ self.old.feeder.rest) }
        ensures kept { self.new.feeder.format ≡ self.old.feeder.format }
        ensures whole { self.new.feeder.fault ≡ self.old.feeder.fault }
    {
        self.feeder.feed(piece)?;
        self.waiting += piece.len();
        Ok(())
    }
}

/// The result where the reader's bytes ended and `waiting` of them were not taken.
fn at_end(waiting: usize) -> Result<Option<Message>, NetFault>
    ensures none { waiting ≡ 0 → result ≡ Ok None }
    ensures some { waiting ≢ 0 → result ≡ Err (NetFault.Wire WireFault.Short) }
{
    if waiting == 0 {
        Ok(None)
    } else {
        Err(NetFault::Wire(WireFault::Short))
    }
}
