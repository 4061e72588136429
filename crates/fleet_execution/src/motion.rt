//! A move of a robot.

/// A planned move: a step of the plan in which the robot changes its cell.
#[derive(Clone, Copy, Debug, PartialEq, Eq)]
pub struct Move {
    /// The robot, from 0.
    pub robot: u32,
    /// The cell that it leaves.
    pub from: u32,
    /// The cell to which it moves.
    pub to: u32,
    /// The step of the plan, from 1.
    pub tick: u64,
}

/// The robot is not under way, or there is no robot with this number.
#[derive(Clone, Copy, Debug, PartialEq, Eq)]
pub struct NotUnderWay;
