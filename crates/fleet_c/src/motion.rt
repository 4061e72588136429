//! A move of a robot in an execution.

ghost use Rattle.std.specs.Prelude.{◌≡◌};
ghost use Rattle.fleet_c.specs.Executions.{move_of};

use fleet_execution::Move;

/// A step of a plan in which a robot changes its cell.
#[repr(C)]
#[derive(Clone, Copy)]
pub struct Motion {
    /// The step, from 1.
    pub tick: u64,
    /// The robot, from 0.
    pub robot: u32,
    /// The cell that it leaves.
    pub from: u32,
    /// The cell to which it moves.
    pub to: u32,
}

impl Motion {
    /// Of a move.
    pub(crate) fn of(begun: Move) -> Motion
        ensures { move_of result ≡ begun }
    {
        Motion {
            tick: begun.tick,
            robot: begun.robot,
            from: begun.from,
            to: begun.to,
        }
    }
}
