//! How ticks are planned.

/// How the ticks of a fleet are planned.
#[derive(Clone, Copy, Debug, PartialEq, Eq)]
pub enum Manner {
    /// By priority inheritance with backtracking alone: an errand to a cell that is not roomy may block all robots.
    Plain,
    /// In turns: one robot may be lent the turn of the eldest, and one door shut, so that errands to all served cells arrive. A map
    /// without bridges is planned plainly all the same: it has no rooms.
    Turns,
}
