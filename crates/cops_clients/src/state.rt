use cops_cluster::Cluster;
use std::sync::Wait;
use std::sync::atomic::{AtomicBool, AtomicU64, Ordering};
use std::time::Duration;

/// How long an idle loop rests before its next turn, in microseconds.
const REST: u64 = 50;

/// The state that the threads of a run share: the cluster; how many turns a loop may make; how often an operation is
/// tried again; how many turns of a receiver come late; and flags that stop the loops.
#[derive(Drop)]
pub(crate) struct RunState {
    cluster: Cluster,
    turns: u32,
    retries: u8,
    hold: u16,
    /// What idle loops park on. It is always 0 and never notified, so a park lasts its whole time.
    resting: AtomicU64,
    broken: AtomicBool,
    clients_joined: AtomicBool,
    senders_joined: AtomicBool,
}

impl RunState {
    ghost use Rattle.std.specs.Prelude.{◌≡◌};

    /// A state with this cluster and these numbers of turns, retries and late turns. Nothing has been joined or broken
    /// off.
    pub(crate) fn new(cluster: Cluster, turns: u32, retries: u8, hold: u16) -> RunState
        ensures cluster { result.cluster ≡ cluster }
        ensures turns { result.turns ≡ turns }
        ensures retries { result.retries ≡ retries }
        ensures hold { result.hold ≡ hold }
    {
        RunState {
            cluster,
            turns,
            retries,
            hold,
            resting: AtomicU64::new(0),
            broken: AtomicBool::new(false),
            clients_joined: AtomicBool::new(false),
            senders_joined: AtomicBool::new(false),
        }
    }

    pub(crate) fn cluster(&self) -> &Cluster
        ensures { result.now ≡ self.now.cluster }
    {
        &self.cluster
    }

    pub(crate) fn into_cluster(self) -> Cluster
        ensures { result ≡ self.cluster }
    {
        let RunState { cluster, .. } = self;
        cluster
    }

    /// How many turns a loop may make once the clients are joined.
    pub(crate) fn turns(&self) -> u32
        ensures { result ≡ self.now.turns }
    {
        self.turns
    }

    /// How often an operation is tried again after memory ran out.
    pub(crate) fn retries(&self) -> u8
        ensures { result ≡ self.now.retries }
    {
        self.retries
    }

    /// How many turns of a receiver come late.
    pub(crate) fn hold(&self) -> u16
        ensures { result ≡ self.now.hold }
    {
        self.hold
    }

    /// Rests in an idle loop, which leaves the processor and the locks to other threads for a while.
    pub(crate) fn rest<R: Wait>(&self, rt: &R) {
        self.resting
            .park_timeout(rt, 0, Duration::from_micros(REST));
    }

    /// Breaks off the run: all threads are to end.
    pub(crate) fn break_off(&self) {
        self.broken.store(true, Ordering::SeqCst);
    }

    pub(crate) fn is_broken(&self) -> bool {
        self.broken.load(Ordering::SeqCst)
    }

    /// Records that the clients' threads were joined.
    pub(crate) fn join_clients(&self) {
        self.clients_joined.store(true, Ordering::SeqCst);
    }

    /// Whether the clients' threads were joined, or the run was broken off.
    pub(crate) fn are_clients_joined(&self) -> bool {
        self.is_broken() || self.clients_joined.load(Ordering::SeqCst)
    }

    /// Records that the senders' threads were joined.
    pub(crate) fn join_senders(&self) {
        self.senders_joined.store(true, Ordering::SeqCst);
    }

    /// Whether the senders' threads were joined, or the run was broken off.
    pub(crate) fn are_senders_joined(&self) -> bool {
        self.is_broken() || self.senders_joined.load(Ordering::SeqCst)
    }
}
