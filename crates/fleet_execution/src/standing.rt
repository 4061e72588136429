//! Where a robot is.

/// Where a robot is, and what is planned for it.
#[derive(Clone, Copy, Debug, PartialEq, Eq)]
pub struct Standing {
    /// The cell that it reached last: it stands there, or is leaving it.
    pub cell: u32,
    /// The cell to which it is under way.
    pub bound_for: Option<u32>,
    /// How many planned moves it has still to begin.
    pub left: u32,
}
