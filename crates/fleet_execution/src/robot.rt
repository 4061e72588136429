//! A robot and its planned moves, as the execution keeps them.

/// How far a robot has come with its plan. Steps of the plan are numbered from 1; 0 stands for no move.
#[derive(Clone, Copy)]
pub(crate) struct Robot {
    /// The cell that it reached last.
    pub(crate) cell: u32,
    /// The cell for which it is bound: that of its last move that was returned.
    pub(crate) bound: u32,
    /// The cell of the last planned step.
    pub(crate) last: u32,
    /// The step of its last move that was returned.
    pub(crate) returned: u64,
    /// The step of the last move that it has reached.
    pub(crate) reached: u64,
    /// The step of the last move that was returned in which it turned in a cycle.
    pub(crate) turned: u64,
}

/// The end of a robot's stay on a cell: it leaves in this step of the plan.
#[derive(Clone, Copy)]
pub(crate) struct Leave {
    pub(crate) robot: u32,
    pub(crate) step: u64,
}

/// What a step of the plan has for a robot.
#[derive(Clone, Copy)]
pub(crate) struct Planned {
    /// Its cell after the step.
    pub(crate) to: u32,
    /// If it changes its cell: who leaves the new cell last up to this step.
    pub(crate) after: Option<Leave>,
    /// If it changes its cell: who enters the old cell next.
    pub(crate) follower: Option<u32>,
}

/// A cycle whose moves have begun, and were not all returned.
#[derive(Clone, Copy)]
pub(crate) struct Turning {
    pub(crate) step: u64,
    /// The robot whose move was returned first.
    pub(crate) first: u32,
    /// The robot whose move is returned next.
    pub(crate) next: u32,
}
