//! What is recorded of a run.

/// What a tick shows.
#[derive(Clone, Copy)]
pub(crate) struct TickRow {
    /// Its number: the clock after it.
    pub(crate) tick: u64,
    /// The robots that arrived.
    pub(crate) arrivals: u64,
    /// The robots that changed their cell.
    pub(crate) moves: u64,
    /// The robots that had no errand when it was made.
    pub(crate) idle: u64,
    /// The longest that a robot with an errand had waited when it was made.
    pub(crate) waited: u64,
}

/// A robot's way since it began its front errand, or since the last tick if it has none.
#[derive(Clone, Copy)]
pub(crate) struct Leg {
    /// The cell on which it began.
    pub(crate) from: u32,
    /// The ticks in which it changed its cell.
    pub(crate) steps: u64,
}

/// An errand that was done.
#[derive(Clone, Copy)]
pub(crate) struct Landed {
    pub(crate) client: u32,
    /// The number among the client's accepted errands.
    pub(crate) number: u64,
    pub(crate) robot: u32,
    pub(crate) cell: u32,
    /// The clock when the robot began it: when it was accepted, or when the robot arrived before, whichever is later.
    pub(crate) begun: u64,
    /// The tick in which the robot arrived.
    pub(crate) arrived: u64,
    /// The robot's way.
    pub(crate) leg: Leg,
}

/// An acceptance.
#[derive(Clone, Copy)]
pub(crate) struct Taken {
    pub(crate) client: u32,
    /// The clock then.
    pub(crate) tick: u64,
}

/// An errand that is in a robot's queue at the end of a run.
#[derive(Clone, Copy)]
pub(crate) struct Left {
    pub(crate) client: u32,
    pub(crate) number: u64,
    pub(crate) robot: usize,
    pub(crate) cell: u32,
}

/// An errand that was accepted and done.
#[derive(Clone, Copy)]
pub(crate) struct Served {
    /// The clock when it was accepted.
    pub(crate) accepted: u64,
    pub(crate) done: Landed,
}

/// The same, with its distance.
#[derive(Clone, Copy)]
pub(crate) struct ErrandRow {
    /// The clock when it was accepted.
    pub(crate) accepted: u64,
    pub(crate) done: Landed,
    /// The distance from the cell on which its robot began it; `None` if no walk leads there.
    pub(crate) distance: Option<u32>,
}

/// An errand that is in a robot's queue at the end.
#[derive(Clone, Copy)]
pub(crate) struct LeftRow {
    /// The clock when the run accepted it; `None` if it was accepted before.
    pub(crate) accepted: Option<u64>,
    pub(crate) left: Left,
}
