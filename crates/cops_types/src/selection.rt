/// Which of a report's faults are explained.
#[derive(Clone, Copy, Debug, PartialEq, Eq)]
pub enum Selection {
    /// The first ones, and the number of the others.
    First,
    /// All.
    All,
    /// The one of this number, counted from 1 in the order of the report.
    One(u32),
}
