//! Why an event, or a client's message, was refused.

/// Why an event, or a client's message, was refused. The numbers are its codes, in outcomes and in messages: those up
/// to `NotInFormat` are the cluster's, and the others are those of the front door (`cops_net`).
#[derive(Clone, Copy, Debug, PartialEq, Eq)]
pub enum Refusal {
    /// The clock can rise no further.
    ClockExhausted = 1,
    /// The context of the client holds as many pairs as its format allows.
    ContextFull = 2,
    /// There is no such client.
    UnknownClient = 3,
    /// No put has the version.
    NeverSent = 4,
    /// No put with the version is held.
    NotHeld = 5,
    /// The put has no such dependency.
    NoSuchDep = 6,
    /// No ask for that pair was answered Yes in that data centre.
    NoYes = 7,
    /// Not all dependencies are marked.
    DepsOpen = 8,
    /// Memory ran out.
    Memory = 9,
    /// There is no such data centre.
    UnknownDc = 10,
    /// The client has 1,000,000 operations, or there are 16,000,000.
    SessionFull = 11,
    /// The format has no such write: it has no deletions, or no value of that many bytes.
    NotInFormat = 12,
    /// No greeting of the session has been answered yet.
    NotGreeted = 16,
    /// The greeting names another profile.
    BadProfile = 17,
    /// A client may not send a message of this kind.
    WrongKind = 18,
    /// There is no such node.
    NoSuchNode = 19,
}

impl Refusal {
    ghost use Rattle.std.specs.Prelude.{◌≡◌, ◌<◌};
    ghost use Rattle.cops_types.specs.Refusal.{code_of};

    /// The refusal's code, which is not 0.
    pub fn code(self) -> u8
        ensures code { result ≡ code_of self }
        ensures range { 0 < result }
    {
        self as u8
    }
}
