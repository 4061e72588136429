//! The first fault of a placement of robots, as a start or as a step from the one before.

ghost use Rattle.std.specs.Prelude.{◌≡◌, ◌<◌, ◌^◌, Some, length, slice_index, IfOk, MatchOption};
ghost use Rattle.fleet_check.specs.Fault.{IsPlacementFault, IsFirstFault};
ghost use Rattle.fleet_grid.specs.Step.{IsPlacement, IsConflictFree};
ghost use Rattle.fleet_plans.specs.Answer.{fault_text};
ghost use Rattle.fleet_plans.specs.Valid.{robot_at_fault, fault_between};

use fleet_check::{StepChecker, StepFault, check_placement};
use fleet_grid::Grid;
use std::alloc::{AllocError, Allocator};
use std::fmt;

/// The first placement of a plan that is at fault.
#[derive(Clone, Copy, Debug, PartialEq, Eq)]
pub struct PlanFault {
    /// Its time: 0 if the robots cannot start where they are, otherwise the number of the step that leads to it.
    pub time: u32,
    /// What is wrong with it.
    pub fault: StepFault,
    /// The cell of the first robot at fault at the time before; at time 0 the same as `to`. 0 if it has none.
    pub from: u32,
    /// Its cell at this time; `u32::MAX` outside of the map, 0 if it has none.
    pub to: u32,
}

/// The first robot at fault; 0 if none is.
fn robot_at_fault(fault: StepFault) -> usize
    ensures { result ≡ robot_at_fault fault }
{
    match fault {
        StepFault::Length | StepFault::NoMemory => 0,
        StepFault::OffFloor(robot) | StepFault::NotAdjacent(robot) => robot as usize,
        StepFault::Vertex(first, _) | StepFault::Swap(first, _) => first as usize,
    }
}

/// The robot's cell in a placement; 0 if it has none.
fn cell_of(place: &[u32], robot: usize) -> u32
    ensures { result ≡ slice_index place.now robot }
{
    if robot < place.len() { place[robot] } else { 0 }
}

/// The fault of the placement `to` at this time, which comes after the placement `from`.
pub(crate) fn fault_between(time: u32, fault: StepFault, from: &[u32], to: &[u32]) -> PlanFault
    ensures { result ≡ fault_between time fault from.now to.now }
{
    let robot = robot_at_fault(fault);
    PlanFault {
        time,
        fault,
        from: cell_of(from, robot),
        to: cell_of(to, robot),
    }
}

/// The first fault of cells on which robots are to start; an error if memory runs out.
pub(crate) fn first_fault<A: Allocator + Copy, B: Allocator + Copy>(
    alloc: A,
    grid: &Grid<B>,
    cells: &[u32],
) -> Result<Option<StepFault>, AllocError>
    requires { length cells.now < 2 ^ 32 }
    ensures { IfOk result (λ fault. MatchOption fault (IsPlacement grid.now cells.now) (λ f. IsPlacementFault grid.now cells.now f)) }
{
    match check_placement(alloc, grid, cells) {
        Ok(()) => Ok(None),
        Err(StepFault::NoMemory) => Err(AllocError),
        Err(fault) => Ok(Some(fault)),
    }
}

/// The first fault of a step; an error if memory runs out.
pub(crate) fn step_fault<A: Allocator + Copy, B: Allocator + Copy>(
    checker: &mut StepChecker<A>,
    grid: &Grid<B>,
    from: &[u32],
    to: &[u32],
) -> Result<Option<StepFault>, AllocError>
    requires { IsPlacement grid.now from.now }
    ensures { IfOk result (λ fault. MatchOption fault (IsConflictFree grid.now from.now to.now) (λ f. IsFirstFault grid.now from.now to.now f)) }
{
    match checker.check(grid, from, to) {
        Ok(()) => Ok(None),
        Err(StepFault::NoMemory) => Err(AllocError),
        Err(fault) => Ok(Some(fault)),
    }
}

/// A step's fault as it is printed: its kind, and its robots.
#[derive(Clone, Copy)]
pub struct FaultText(pub StepFault);

impl fmt::Display for FaultText {
    ghost output = { λ t. Some (fault_text t.0) };

    fn fmt<W: fmt::Write>(&self, f: &mut fmt::Formatter<W>) -> fmt::Result {
        match self.0 {
            StepFault::Length => f.write_str("length"),
            StepFault::OffFloor(robot) => write!(f, "off-floor {robot}"),
            StepFault::NotAdjacent(robot) => write!(f, "not-adjacent {robot}"),
            StepFault::NoMemory => f.write_str("no-memory"),
            StepFault::Vertex(first, second) => write!(f, "vertex {first} {second}"),
            StepFault::Swap(first, second) => write!(f, "swap {first} {second}"),
        }
    }
}
