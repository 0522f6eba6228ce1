//! What a thread of a run returns.
use cops_cluster::{Holder, Share};
use cops_core::Setting;
use cops_tie::ClientOutcome;
use cops_types::Gate;
use std::snapshot::Snapshot;
use std::thread::Promise;

/// How a client's or a receiver's thread ended.
#[derive(Clone, Copy, Debug, PartialEq, Eq)]
pub(crate) enum End {
    /// The client finished its script, or was refused.
    Client(ClientOutcome),
    /// The senders were joined, and the receiver has nothing pending.
    Drained,
    /// The receiver made all its turns before it was drained.
    TurnLimit,
    /// The gate held a step.
    Held,
    /// The thread stopped because the run was broken off.
    Broken,
}

/// What a client's or a receiver's thread returns.
#[derive(Drop)]
pub(crate) struct Returned {
    pub(crate) share: Share,
    pub(crate) end: End,
}

/// The promise that a thread returns this holder's share, and ends with `Held` only where this gate may hold a step in
/// this setting.
pub(crate) struct Owed<G: Gate> {
    owner: Holder,
    gate: Snapshot<G>,
    setting: Snapshot<Setting>,
}

impl<G: Gate> Owed<G> {
    ghost use Rattle.std.specs.Prelude.{◌≡◌};

    /// The promise of this holder's thread.
    pub(crate) fn of(owner: Holder, setting: &Setting, gate: &G) -> Self
        ensures owner { result.owner ≡ owner }
        ensures gate { result.gate.value ≡ gate.now }
        ensures setting { result.setting.value ≡ setting.now }
    {
        Owed {
            owner,
            gate: Snapshot::of(gate),
            setting: Snapshot::of(setting),
        }
    }
}

impl<G: Gate> Drop for Owed<G> {
    fn drop(self) {
        let Owed {
            owner: _owner,
            gate: _gate,
            setting: _setting,
        } = self;
    }
}

impl<G: Gate> Promise<Returned> for Owed<G> {
    ghost use Rattle.std.specs.Prelude.{◌≡◌};
    ghost use Rattle.cops_clients.specs.declared.ends.End.TheVariants.{Held};
    ghost use Rattle.cops_clients.specs.Gates.{MayHold};

    ghost kept_by = { λ p r. (r.share.holder ≡ p.owner) × (r.end ≡ Held → MayHold p.setting.value (G.may_hold p.gate.value)) };
}
