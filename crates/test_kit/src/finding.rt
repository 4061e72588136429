//! How a test case with closures was played differently from what it says.

/// What is found of a row whose closures note what they are shown.
#[derive(Clone, Copy, Debug, PartialEq, Eq)]
pub enum Finding {
    /// It was played as it says.
    AsTheRow,
    /// It was not played: the number of its letters does not fit its map, or the run had a fault.
    NotPlayed,
    /// Closures were shown something else, more or less often, or in another order.
    Views,
    /// A stamp is not its closure's own.
    Stamps,
    /// A robot went another way than its own ranks lead.
    Ways,
}
