//! What is told of one run.

use fleet_stats::{LaterFigures, Ranks};

/// How long the steps of a run took, in nanoseconds.
#[derive(Clone, Copy, Debug)]
pub struct Times {
    /// The times of its steps.
    pub steps: Ranks,
    /// The time of its ticks: of the planning, without the orders.
    pub planning: u64,
}

/// The figures of a run, and its times where they are told.
#[derive(Clone, Copy, Debug)]
pub struct Run {
    pub figures: LaterFigures,
    pub times: Option<Times>,
}
