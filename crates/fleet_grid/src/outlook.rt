//! What is seen from a cell on the way to a goal.

use crate::ways::Ways;

/// The ways out of a cell, for a robot with a goal.
#[derive(Clone, Copy, Debug, PartialEq, Eq)]
pub struct Outlook {
    /// The ways that lead nearer to the goal.
    pub nearer: Ways,
    /// The ways to floor neighbours.
    pub exits: Ways,
}
