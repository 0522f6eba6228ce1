//! Why there is no run, and why the threads of a run did not all start, or not all end well.
use thiserror::Error;

/// Why there is no run. The numbers are the faults' codes. Where several faults apply, the first of `NoThread`, `Held`,
/// `TurnLimit`, `WriteFailed`, `Untied` is reported.
#[derive(Clone, Copy, Debug, PartialEq, Eq, Error)]
pub enum RunFault {
    /// 0: out of memory.
    #[error("out of memory")]
    Memory,
    /// 1: what the threads left is not a run of the world. `ticket` is the least one whose entry does not continue
    /// the world's run, or whose entries in the nodes' logs differ from those in the callers' shares. Where only the
    /// sessions differ from the trace's, a client's outcome does not fit its session, or a data centre has not settled
    /// a put, it is one more than the greatest ticket: 0 where there is no entry, and the greatest `u64` where that is
    /// a ticket.
    #[error("untied at ticket {ticket}")]
    Untied { ticket: u64 },
    /// 2: the gate held a step.
    #[error("held")]
    Held,
    /// 3: after the clients were joined, a sender or a receiver made the scenario's number of turns without
    /// finishing: it had something pending, or more could still arrive.
    #[error("turn limit")]
    TurnLimit,
    /// 4: a write of the trace failed, after exactly `written` bytes. Only a run whose trace is written has this fault.
    #[error("write")]
    WriteFailed { written: usize },
    /// 5: the system refused to create a thread. The threads that had been created were ended and joined.
    #[error("no thread")]
    NoThread,
}

/// Why not all threads of a run started.
#[derive(Clone, Copy)]
pub(crate) enum StartFault {
    /// Out of memory.
    Memory,
    /// The system refused to create a thread.
    NoThread,
}

/// Why not all threads of a run ended well.
#[derive(Clone, Copy)]
pub(crate) enum ThreadFault {
    /// Out of memory.
    Memory,
    /// The gate held a step.
    Held,
    /// A sender or a receiver did not finish within its turns.
    TurnLimit,
    /// The system refused to create a thread.
    NoThread,
}
