//! Copies of what clients saw.
use cops_trace::Record;

/// Copies of the records of what clients saw, in order of arrival, starting at a place.
#[derive(Drop)]
pub struct Tail {
    pub(crate) place: usize,
    pub(crate) records: Vec<Record>,
}

impl Tail {
    ghost use Rattle.std.specs.Prelude.{◌≡◌};

    /// The place of the first record: the number of records before it.
    pub fn place(&self) -> usize
        ensures { result ≡ self.now.place }
    {
        self.place
    }

    pub fn records(&self) -> &[Record]
        ensures { result.now ≡ self.now.records.items }
    {
        &self.records
    }
}
