/// The result of holding a put.
#[derive(Clone, Copy, Debug, PartialEq, Eq)]
pub enum Taken {
    /// The put waits from now on, with no dependency marked.
    New,
    /// A put with its version waits already; it and its marks do not change.
    Repeat,
}
