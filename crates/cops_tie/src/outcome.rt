use cops_types::Refusal;

/// How a scripted client ended.
#[derive(Clone, Copy, Debug, PartialEq, Eq)]
pub enum ClientOutcome {
    /// Each operation of the client's script was answered.
    Done,
    /// An operation was refused for this reason, and those before it were answered. The reason is `ClockExhausted`
    /// where the clock of the key's node can rise no further, `ContextFull`, or `Memory`.
    Stopped(Refusal),
}
