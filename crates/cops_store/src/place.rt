use cops_types::Version;

/// A settled pair: the place of its key among the keys, and its version.
#[derive(Clone, Copy, Debug, PartialEq, Eq, Hash)]
pub(crate) struct KeyPlace {
    pub(crate) key: usize,
    pub(crate) version: Version,
}
