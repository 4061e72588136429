//! Why a step is refused.

ghost use Rattle.std.specs.Prelude.{◌≡◌};
ghost use Rattle.fleet_c.specs.Maps.{step_fault_of};

use crate::codes::{
    FROM_BLOCKED, FROM_SHARED, NO_MEMORY, NOT_ADJACENT, OFF_FLOOR, SWAPPING_CONFLICT, TO_LENGTH,
    TOO_MANY, VERTEX_CONFLICT,
};
use crate::fault::Fault;
use crate::refusal::two;
use fleet_check::StepFault;

/// Why a step is refused; the first reason that holds is returned.
#[derive(Clone, Copy)]
pub enum StepRefusal {
    /// Memory ran out.
    NoMemory,
    /// More robots are named than the map has cells.
    TooMany,
    /// Before the step, this is the lowest robot that is not on floor.
    FromBlocked(u32),
    /// Before the step, these are the first two robots on one cell.
    FromShared(u32, u32),
    /// The step's first fault.
    Step(StepFault),
}

fn step_fault(why: StepFault) -> Fault
    ensures { result ≡ step_fault_of (StepRefusal.Step why) }
{
    match why {
        StepFault::Length => two(TO_LENGTH, 0, 0),
        StepFault::OffFloor(robot) => two(OFF_FLOOR, u64::from(robot), 0),
        StepFault::NotAdjacent(robot) => two(NOT_ADJACENT, u64::from(robot), 0),
        StepFault::NoMemory => two(NO_MEMORY, 0, 0),
        StepFault::Vertex(a, b) => two(VERTEX_CONFLICT, u64::from(a), u64::from(b)),
        StepFault::Swap(a, b) => two(SWAPPING_CONFLICT, u64::from(a), u64::from(b)),
    }
}

impl StepRefusal {
    /// For C.
    pub(crate) fn fault(self) -> Fault
        ensures { result ≡ step_fault_of self }
    {
        match self {
            StepRefusal::NoMemory => two(NO_MEMORY, 0, 0),
            StepRefusal::TooMany => two(TOO_MANY, 0, 0),
            StepRefusal::FromBlocked(robot) => two(FROM_BLOCKED, u64::from(robot), 0),
            StepRefusal::FromShared(a, b) => two(FROM_SHARED, u64::from(a), u64::from(b)),
            StepRefusal::Step(why) => step_fault(why),
        }
    }
}
