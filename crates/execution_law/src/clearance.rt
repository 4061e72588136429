//! When a cell is clear.

/// When a robot's visit of a cell ends, so that the next robot may begin to move there.
#[derive(Clone, Copy, Debug, PartialEq, Eq)]
pub enum Clearance {
    /// When it has reached its next cell.
    Arrived,
    /// When it has begun to move to its next cell.
    Started,
}
