//! What a link carries.
ghost use Rattle.std.specs.Prelude.{◌≡◌, IfOk};
ghost use Rattle.cops_wire.specs.Replicated.{put_after};
ghost use Rattle.cops_link.specs.Frame.{encoded};

use cops_types::{Format, Memory, PutRecord};
use cops_wire::{Message, WireFault, decode_in, encode_put_after};
use rtrb::Protocol;
use std::alloc::Global;
use std::marker::Model;

/// The frame of the message that replicates one put or one deletion.
#[derive(Debug, Drop)]
pub struct Frame {
    bytes: Vec<u8>,
}

impl Model for Frame {
    ghost use Rattle.std.specs.Prelude.{List, ℕ};
    ghost use Rattle.cops_link.specs.Frame.{IsPutAfter};

    ghost Value = { List ℕ };

    ghost view = { λ f. f.bytes.items };

    ghost invariant = { λ f. IsPutAfter f.bytes.items };
}

impl Frame {
    ghost use Rattle.std.specs.Prelude.{◌≡◌, IfOk};
    ghost use Rattle.cops_wire.specs.Replicated.{put_after};
    ghost use Rattle.cops_link.specs.Frame.{encoded, IsPutAfter};

    /// Encodes the message of a put, or of a deletion where the put has no value, always in format 2. Returns `Memory`
    /// when memory runs out.
    pub fn of(alloc: Global, put: &PutRecord) -> Result<Frame, Memory>
        ensures { IfOk result (λ frame. frame ≡ encoded put.now) }
    {
        let mut bytes = Vec::new(alloc);
        encode_put_after(put, &mut bytes)?;
        Ok(Frame { bytes })
    }

    /// States the type's invariant for the prover: the frame encodes the message of a put or a deletion.
    pub(crate) fn encodes_a_put(&self)
        ensures { IsPutAfter self.now }
    {
        let _bytes = &self.bytes;
    }

    /// Decodes the frame's message, which replicates a put or a deletion. Returns `Memory` when memory runs out.
    pub(crate) fn message(&self, alloc: Global) -> Result<Message, Memory>
        ensures { IfOk result (λ m. (put : PutRecord) × (m ≡ put_after put) × (encoded put ≡ self.now)) }
    {
        match decode_in(Format::Two, alloc, &self.bytes) {
            Ok(decoded) => Ok(decoded.message),
            Err(fault) => Err(out_of_memory(fault)),
        }
    }
}

/// The only fault that decoding a frame can have: out of memory.
fn out_of_memory(fault: WireFault) -> Memory
    requires { fault ≡ WireFault.Memory }
{
    match fault {
        WireFault::Memory => Memory,
        _ => unreachable!(),
    }
}

/// The protocol of a link's queue: each item is the frame of the message of a put or a deletion.
pub struct PutAfters;

impl Protocol<Frame> for PutAfters {
    ghost use Rattle.cops_link.specs.Frame.{IsPutAfter};

    ghost allows = { λ _ frame. IsPutAfter frame };
}
