use crate::feed_fault::FeedFault;
use crate::flat::FlatSummaries;
use crate::judged::Judged;
use crate::judging::judge_in_order;
use crate::room::Scratch;
use crate::verdict::{SoFar, Verdict};
use cops_types::{History, Memory, Op, OpView};
use std::alloc::Global;
use std::marker::Model;

/// An auditor that takes operations one by one: the clients in any order, and each client's operations in their own.
/// Besides what was fed it reserves the memory for an answer, some hundred bytes for each operation, which is not
/// touched before.
#[derive(Drop)]
pub struct Online {
    alloc: Global,
    history: History,
    room: Scratch,
    summaries: FlatSummaries,
}

impl Model for Online {
    ghost use Rattle.cops_types.specs.Histories.{Sessions};
    ghost use Rattle.cops_audit.specs.Rooms.{Fits};

    ghost Value = { Sessions };

    ghost view = { λ a. a.history.sessions };

    ghost invariant = { λ a. Fits a.history.sessions a.room a.summaries };
}

impl Online {
    ghost use Rattle.std.specs.Prelude.{◌≡◌, ◌≤◌, ◌<◌, ◌↔◌, length, [], replicate, IfOk, IsErrOf, OnOk, OnErr};
    ghost use Rattle.cops_types.specs.Recorded.{IsFull};
    ghost use Rattle.cops_types.specs.OpViews.{viewed};
    ghost use Rattle.cops_types.specs.Histories.{with_op};
    ghost use Rattle.cops_types.specs.Operations.{operation_of};
    ghost use Rattle.cops_audit.specs.Judged.{IsJudged};
    ghost use Rattle.cops_audit.specs.SoFar.{IsSoFar};
    ghost use Rattle.cops_audit.specs.Verdicts.{IsVerdict};

    /// An auditor of `clients` clients that has no operations yet. The only error is `Memory`, where memory runs out.
    pub fn new(alloc: Global, clients: u16) -> Result<Self, Memory>
        ensures { IfOk result (λ online. online ≡ replicate clients []) }
    {
        let history = History::new(alloc, clients)?;
        let room = Scratch::new(alloc, clients)?;
        let summaries = FlatSummaries::new(alloc, clients as usize)?;
        Ok(Online {
            alloc,
            history,
            room,
            summaries,
        })
    }

    /// Takes a client's next operation. The errors, in this order: `UnknownClient` where there is no such client,
    /// `TooManyOps` where the client has 1,000,000 operations or there are 16,000,000, and `Memory` where memory runs
    /// out. An error changes nothing.
    #[inline(always)]
    pub fn feed(&mut self, client: u16, op: Op) -> Result<(), FeedFault>
        ensures ok { OnOk result (self.new ≡ with_op self.old client (operation_of op)) }
        ensures err { OnErr result (self.new ≡ self.old) }
        ensures unknown { IsErrOf result FeedFault.UnknownClient ↔ (length self.old ≤ client) }
        ensures too_many { IsErrOf result FeedFault.TooManyOps ↔ (client < length self.old × IsFull self.old client) }
    {
        if let Err(fault) = self.history.reserve(client) {
            drop(op);
            return Err(FeedFault::of(fault));
        }
        if self.room.grow(&mut self.summaries, &self.history).is_err() {
            drop(op);
            return Err(FeedFault::Memory);
        }
        match self.history.push(client, op) {
            Ok(()) => Ok(()),
            Err(_) => unreachable!(),
        }
    }

    /// Like `feed`, but takes a borrowed operation and copies only what of it is new. The errors are those of `feed`.
    #[inline(always)]
    pub fn feed_borrowed(&mut self, client: u16, op: &OpView<'_>) -> Result<(), FeedFault>
        ensures ok { OnOk result (self.new ≡ with_op self.old client (viewed op.now)) }
        ensures err { OnErr result (self.new ≡ self.old) }
        ensures unknown { IsErrOf result FeedFault.UnknownClient ↔ (length self.old ≤ client) }
        ensures too_many { IsErrOf result FeedFault.TooManyOps ↔ (client < length self.old × IsFull self.old client) }
    {
        if let Err(fault) = self.history.reserve(client) {
            return Err(FeedFault::of(fault));
        }
        if self.room.grow(&mut self.summaries, &self.history).is_err() {
            return Err(FeedFault::Memory);
        }
        match self.history.push_borrowed(client, op) {
            Ok(()) => {}
            Err(Memory) => return Err(FeedFault::Memory),
        }
        Ok(())
    }

    /// Whether it is worth prefetching operations with `prefetch`.
    pub fn looks_ahead(&self) -> bool {
        self.history.looks_ahead()
    }

    /// Prefetches the memory that the coming operations will need, if they are fed next and in this order. It changes
    /// no answer.
    pub fn prefetch(&mut self, coming: &[OpView<'_>])
        ensures { self.new ≡ self.old }
    {
        self.history.prefetch(coming);
    }

    /// The history of what was fed.
    pub fn into_history(self) -> History
        ensures { result.sessions ≡ self }
    {
        let Online { mut history, .. } = self;
        history.forget_candidates();
        history
    }

    /// The verdict so far on what was fed. It allocates nothing, and takes about as long as judging the history.
    pub fn so_far(&mut self) -> SoFar
        ensures so_far { IsSoFar self.old result }
        ensures same { self.new ≡ self.old }
    {
        match self.room.assess(&mut self.summaries, &self.history) {
            Ok(so_far) => so_far,
            Err(_) => unreachable!(),
        }
    }

    /// The verdict on what was fed. The only error is `Memory`, where memory runs out.
    pub fn finish(self) -> Result<Verdict, Memory>
        ensures { IfOk result (IsVerdict self) }
    {
        let judged = self.close()?;
        Ok(judged.into_verdict())
    }

    /// The verdict on what was fed, with the history. The only error is `Memory`, where memory runs out.
    pub fn close(self) -> Result<Judged, Memory>
        ensures { IfOk result (IsJudged self) }
    {
        // The reserved memory is freed only after the judgement: an allocator that gets large blocks back may keep the
        // next ones for reuse, and then more memory is in use. What is reserved was not touched, unless `so_far` was
        // asked.
        let Online {
            alloc,
            mut history,
            room: _room,
            summaries: _summaries,
        } = self;
        history.forget_candidates();
        let ordered = judge_in_order(alloc, &history)?;
        Ok(Judged::new(history, ordered))
    }
}
