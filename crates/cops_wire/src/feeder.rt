//! Decoding messages from a stream that comes in pieces.
ghost use Rattle.std.specs.Prelude.{◌≡◌};

use crate::buffer::Buffer;
use crate::decoding::decode_in;
use crate::fault::WireFault;
use crate::message::Message;
use cops_types::{Format, Memory};
use std::alloc::Global;
use std::marker::Model;

/// Decodes messages of a format from a stream that comes in pieces. The bytes that came and are not decoded yet are the
/// rest.
#[derive(Debug, Drop)]
pub struct Feeder {
    alloc: Global,
    format: Format,
    buffer: Buffer,
    fault: Option<WireFault>,
}

impl Model for Feeder {
    ghost use Rattle.cops_wire.specs.Grammar.{grammar};
    ghost use Rattle.cops_wire.specs.Feeding.{Fed, IsStoppedBy};

    ghost Value = { Fed };

    ghost view = { λ f. record { format = f.format; rest = f.buffer; fault = f.fault } };

    ghost invariant = { λ f. IsStoppedBy (grammar f.format) f.buffer f.fault };
}

impl Feeder {
    ghost use Rattle.std.specs.Prelude.{◌≡◌, ◌++◌, ◌↔◌, [], None, OnOk, OnErr, IfSome, Ok, Err};
    ghost use Rattle.cops_wire.specs.Grammar.{grammar};
    ghost use Rattle.cops_wire.specs.Answer.{IsShort};
    ghost use Rattle.cops_wire.specs.Feeding.{IsNext, in_format};

    /// A feeder for format 1, which was fed nothing. Allocates nothing.
    pub fn new(alloc: Global) -> Self
        ensures { result ≡ record { format = Format.One; rest = []; fault = None } }
    {
        Feeder {
            alloc,
            format: Format::One,
            buffer: Buffer::new(alloc),
            fault: None,
        }
    }

    /// Appends a piece to the rest. Changes nothing if memory runs out.
    pub fn feed(&mut self, piece: &[u8]) -> Result<(), Memory>
        ensures ok { OnOk result (self.new ≡ record self.old { rest = self.old.rest ++ piece.now }) }
        ensures err { OnErr result (self.new ≡ self.old) }
    {
        self.buffer.feed(piece)?;
        Ok(())
    }

    /// Sets the format in which the rest is decoded. Changes nothing after `next` returned a fault other than `Memory`.
    pub fn set_format(&mut self, format: Format)
        ensures { self.new ≡ in_format self.old self.old.fault format }
    {
        if self.fault.is_none() {
            self.format = format;
        }
    }

    /// Removes the message at the front of the rest and returns it, or returns nothing if the rest begins with no whole
    /// frame. A fault other than `Memory` is returned again by every later call, which then allocates nothing. `Memory`
    /// comes only if decoding reaches a legal key or value, or dependencies whose count is legal.
    pub fn next(&mut self) -> Result<Option<Message>, WireFault>
        ensures next { IsNext self.old result self.new }
        ensures again { IfSome self.old.fault (λ fault. result ≡ Err fault) }
        ensures waits { (result ≡ Ok None) ↔ IsShort (grammar self.old.format) self.old.rest }
    {
        if let Some(fault) = self.fault {
            return Err(fault);
        }
        match decode_in(self.format, self.alloc, self.buffer.rest()) {
            Ok(decoded) => {
                self.buffer.take(decoded.used);
                Ok(Some(decoded.message))
            }
            Err(fault) => match fault {
                WireFault::Short => Ok(None),
                WireFault::Memory => Err(WireFault::Memory),
                _ => {
                    self.fault = Some(fault);
                    Err(fault)
                }
            },
        }
    }
}
