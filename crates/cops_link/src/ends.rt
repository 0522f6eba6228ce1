//! The two ends of a link.
ghost use Rattle.std.specs.Prelude.{◌≡◌, ◌<◌, ◌⊎◌, ◌↔◌, ℕ, List, [], ◌∷◌, ◌++◌, length, IsOk, IfOk, IfErr, IsErrOf, OnOk, OnErr, IfSome, MatchOption};
ghost use Rattle.cops_types.specs.declared.put_record.PutRecord.{PutRecord};
ghost use Rattle.cops_wire.specs.Replicated.{put_after};
ghost use Rattle.cops_link.specs.declared.ends.TheConstants.{MAX_CAPACITY};
ghost use Rattle.cops_link.specs.Frame.{encoded};
ghost use Rattle.cops_link.specs.Link.{sent, taken, seen, known_room, all_sent, IsLink, IsFinishedOf, SameIn, SameOut, Finishes};

use crate::fault::{LinkFault, SendFault};
use crate::frame::{Frame, PutAfters};
use cops_types::Memory;
use cops_wire::Message;
use rtrb::{Consumer, Producer, PushError, RingBuffer};
use std::alloc::Global;

/// The greatest number of frames that a link can hold.
pub const MAX_CAPACITY: usize = 1024;

/// The sending end of a link.
#[derive(Drop)]
pub struct LinkIn {
    producer: Producer<Frame, Global, PutAfters>,
}

/// The taking end of a link.
#[derive(Drop)]
pub struct LinkOut {
    consumer: Consumer<Frame, Global, PutAfters>,
    alloc: Global,
}

/// What is left of a sending end that has finished.
#[derive(Drop)]
pub struct Finished {
    ring: rtrb::Finished<Frame, Global, PutAfters>,
}

/// Makes a link that holds up to `capacity` frames, and returns its two ends.
///
/// Errors: `BadCapacity` unless the capacity is 1 to 1,024; `Memory` when memory runs out.
pub fn link(alloc: Global, capacity: usize) -> Result<(LinkIn, LinkOut), LinkFault>
    ensures ok { IfOk result (λ r. IsLink r.0 r.1 × (sent r.0 ≡ []) × (taken r.1 ≡ []) × (known_room r.0 ≡ capacity)) }
    ensures bad { IsErrOf result LinkFault.BadCapacity ↔ ((capacity < 1) ⊎ (MAX_CAPACITY < capacity)) }
{
    if capacity < 1 || capacity > MAX_CAPACITY {
        return Err(LinkFault::BadCapacity);
    }
    let Ok((producer, consumer)) = RingBuffer::with_protocol::<Global, PutAfters>(alloc, capacity)
    else {
        return Err(LinkFault::Memory);
    };
    Ok((LinkIn { producer }, LinkOut { consumer, alloc }))
}

impl LinkIn {
    /// Sends a frame. It allocates no memory. Returns `Full` with the frame where the link has no room.
    pub fn send(&mut self, frame: Frame) -> Result<(), SendFault>
        ensures same { SameIn self.old self.new }
        ensures ok { OnOk result (sent self.new ≡ sent self.old ++ frame ∷ []) }
        ensures full { IfErr result (λ e. (e ≡ SendFault.Full frame) × (sent self.new ≡ sent self.old) × (known_room self.new ≡ 0)) }
        ensures room { 0 < known_room self.old → IsOk result }
    {
        frame.encodes_a_put();
        match self.producer.push(frame) {
            Ok(()) => Ok(()),
            Err(PushError::Full(back)) => Err(SendFault::Full(back)),
        }
    }

    /// Closes the sending end. If this returns `None`, the end is gone, and it is not known what was sent.
    pub fn finish(self) -> Option<Finished>
        ensures { IfSome result (λ finished. Finishes self finished) }
    {
        let LinkIn { producer } = self;
        let ring = producer.finish()?;
        Some(Finished { ring })
    }
}

impl LinkOut {
    /// Takes the oldest frame in the link and returns its message, which replicates a put or a deletion; `None` where
    /// the link is empty. It allocates memory only for a frame that is there; on `Memory` nothing is taken.
    pub fn take(&mut self) -> Result<Option<Message>, Memory>
        ensures same { SameOut self.old self.new }
        ensures none { IfOk result (λ o. MatchOption o ((taken self.new ≡ taken self.old) × (seen self.new ≡ [])) (λ _. Unit {0})) }
        ensures some { IfOk result (λ o. MatchOption o (Unit {0}) (λ m. (put : PutRecord) × (m ≡ put_after put) × (taken self.new ≡ taken self.old ++ encoded put ∷ []))) }
        ensures err { OnErr result (taken self.new ≡ taken self.old) }
        ensures memory { OnErr result (0 < length (seen self.new)) }
    {
        if self.consumer.is_empty() {
            return Ok(None);
        }
        let message = self.consumer.peek_known().message(self.alloc)?;
        let _taken = self.consumer.pop_known();
        Ok(Some(message))
    }

    /// The number of frames that are left after the sender has finished. `finished` must belong to the same link.
    pub fn after(&mut self, finished: &mut Finished) -> usize
        requires { IsFinishedOf finished.old self.old }
        ensures same { SameOut self.old self.new × (taken self.new ≡ taken self.old) }
        ensures finished { IsFinishedOf finished.new self.new × (all_sent finished.new ≡ all_sent finished.old) }
        ensures left { (rest : List (List ℕ)) × (length rest ≡ result) × (taken self.new ++ rest ≡ all_sent finished.old) }
    {
        self.consumer.slots_after(&mut finished.ring)
    }
}
