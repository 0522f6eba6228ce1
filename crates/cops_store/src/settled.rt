/// The result of settling a pair.
#[derive(Clone, Copy, Debug, PartialEq, Eq)]
pub enum Settled {
    /// The pair is now what its key shows.
    Shown,
    /// The key still shows a greater version; the pair is recorded as settled.
    Older,
    /// The pair was settled before; nothing changed.
    Repeat,
}
