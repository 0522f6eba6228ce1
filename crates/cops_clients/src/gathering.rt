//! What the threads of a run returned.
use crate::ends::{End, Owed, Returned};
use crate::fault::ThreadFault;
use cops_cluster::Share;
use cops_core::Setting;
use cops_tie::ClientOutcome;
use cops_types::Gate;
use std::alloc::Global;
use std::thread::{JoinHandle, PromisedHandle, Threads};

/// What the threads returned: all shares, and the clients' outcomes in order.
#[derive(Drop)]
pub(crate) struct Gathered {
    pub(crate) shares: Vec<Share>,
    pub(crate) outcomes: Vec<ClientOutcome>,
    /// The gate held a step.
    held: bool,
    /// A loop made all its turns without finishing.
    limit: bool,
    /// Memory ran out for what the threads returned.
    lost: bool,
}

impl Gathered {
    ghost use Rattle.std.specs.Prelude.{◌≡◌, ◌⊎◌, ◌↔◌, Err, [], ◌∷◌, ◌++◌, All, IfOk, IsErrOf, IsTrue, OnOk, map};
    ghost use Rattle.cops_clients.specs.Gates.{MayHold};
    ghost use Rattle.cops_cluster.specs.Close.{holders};

    pub(crate) fn new(alloc: Global) -> Gathered
        ensures held { ¬ IsTrue result.held }
        ensures shares { result.shares.items ≡ [] }
    {
        Gathered {
            shares: Vec::new(alloc),
            outcomes: Vec::new(alloc),
            held: false,
            limit: false,
            lost: false,
        }
    }

    /// Joins clients or receivers, and adds what they return.
    pub(crate) fn join<R: Threads, G: Gate>(
        &mut self,
        rt: &R,
        setting: &Setting,
        gate: &G,
        handles: Vec<PromisedHandle<Returned, Owed<G>>>,
    )
        requires promised { All (λ (h : _). (h.promise.gate.value ≡ gate.now) × (h.promise.setting.value ≡ setting.now)) handles.items }
        requires held { IsTrue self.old.held → MayHold setting.now (G.may_hold gate.now) }
        ensures shares { IsTrue self.new.lost ⊎ (holders self.new.shares.items ≡ holders self.old.shares.items ++ map (λ (h : _). h.promise.owner) handles.items) }
        ensures lost { IsTrue self.old.lost → IsTrue self.new.lost }
        ensures held { IsTrue self.new.held → MayHold setting.now (G.may_hold gate.now) }
    {
        for handle in handles {
            self.add(handle.join(rt));
        }
    }

    /// Adds what one thread returned.
    fn add(&mut self, returned: Returned)
        ensures shares { IsTrue self.new.lost ⊎ (self.new.shares.items ≡ self.old.shares.items ++ returned.share ∷ []) }
        ensures lost { IsTrue self.old.lost → IsTrue self.new.lost }
        ensures held { IsTrue self.new.held → IsTrue self.old.held ⊎ (returned.end ≡ End.Held) }
    {
        let Returned { share, end } = returned;
        if self.shares.push(share).is_err() {
            self.lost = true;
        }
        match end {
            End::Client(outcome) => {
                if self.outcomes.push(outcome).is_err() {
                    self.lost = true;
                }
            }
            End::TurnLimit => self.limit = true,
            End::Held => self.held = true,
            End::Drained | End::Broken => {}
        }
    }

    /// Joins senders. Each returns whether it finished within its turns.
    pub(crate) fn join_senders<R: Threads>(&mut self, rt: &R, handles: Vec<JoinHandle<bool>>)
        ensures held { self.new.held ≡ self.old.held }
        ensures lost { self.new.lost ≡ self.old.lost }
        ensures shares { self.new.shares ≡ self.old.shares }
    {
        for handle in handles {
            if !handle.join(rt) {
                self.limit = true;
            }
        }
    }

    /// Returns everything that was gathered.
    ///
    /// Errors: `Held` where the gate held a step; then `TurnLimit` where a loop did not finish within its turns; then
    /// `Memory` where there was none for what the threads returned.
    pub(crate) fn whole(self) -> Result<Gathered, ThreadFault>
        ensures ok { IfOk result (λ g. g ≡ self) }
        ensures kept { OnOk result (¬ IsTrue self.lost) }
        ensures held { IsErrOf result ThreadFault.Held ↔ IsTrue self.held }
        ensures limit { IsErrOf result ThreadFault.TurnLimit ↔ (¬ IsTrue self.held × IsTrue self.limit) }
        ensures lost { IsErrOf result ThreadFault.Memory ↔ (¬ IsTrue self.held × (¬ IsTrue self.limit × IsTrue self.lost)) }
    {
        if self.held {
            return Err(ThreadFault::Held);
        }
        if self.limit {
            return Err(ThreadFault::TurnLimit);
        }
        if self.lost {
            return Err(ThreadFault::Memory);
        }
        Ok(self)
    }
}
