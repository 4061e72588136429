//! The step of a tick.

ghost use Rattle.std.specs.Prelude.{◌≡◌, ℕ, ◌≤◌, length, map, IfOk, OnOk};
ghost use Rattle.fleet_grid.specs.Step.{IsPlacement, IsConflictFree};
ghost use Rattle.fleet_pibt.specs.Goals.{AreGoals};
ghost use Rattle.fleet_planner.specs.Courses.{goals_of, goal, away, AreOn, AreStill};
ghost use Rattle.fleet_planner.specs.Planned.{IsPlannedBy};

use crate::courses::Courses;
use fleet_grid::Grid;
use fleet_hooks::TieHook;
use fleet_pibt::Stepper;
use std::alloc::{AllocError, Allocator};

/// The state before a tick, robot by robot.
#[derive(Clone, Copy, Debug)]
pub(crate) struct TickInput<'a> {
    /// The robots' cells.
    pub(crate) cells: &'a [u32],
    /// How long each robot has waited.
    pub(crate) waits: &'a [Option<u64>],
    /// The tick that is being made.
    pub(crate) tick: u64,
}

/// Writes to `to` where the robots go from their cells. Their goals stay as they are.
fn step_into<A: Allocator + Copy>(
    grid: &Grid<A>,
    input: TickInput<'_>,
    aims: &mut Courses<A>,
    stepper: &mut Stepper<A>,
    ties: &[TieHook],
    to: &mut [u32],
) -> Result<(), AllocError>
    requires placed { IsPlacement grid.now input.cells.now }
    requires few { length input.cells.now ≤ 512 }
    requires waited { length input.waits.now ≡ length input.cells.now }
    requires tied { length ties.now ≡ length input.cells.now }
    requires room { length to.old ≡ length input.cells.now }
    requires made { stepper.old ≡ record { cells = length grid.now.letters; robots = length input.cells.now } }
    requires goals { AreGoals grid.now input.cells.now input.waits.now (goal aims.old) (away aims.old grid.now) }
    requires on { AreOn grid.now aims.old }
    ensures made { stepper.new ≡ stepper.old }
    ensures still { AreStill aims.old aims.new }
    ensures on { AreOn grid.now aims.new }
    ensures conflict_free { OnOk result (IsConflictFree grid.now input.entry.cells.now to.new) }
    ensures planned { OnOk result (IsPlannedBy grid.now (map (λ h. h.law) ties.now) input.entry.waits.now (goals_of aims.old) input.entry.cells.now to.new) }
{
    let TickInput { cells, waits, tick } = input;
    stepper.step_by(grid, cells, waits, aims, ties, tick, to)
}

/// Where the robots go from their cells in the tick that is being made, by priority inheritance with backtracking.
/// Their goals stay as they are. The only error is out of memory.
pub(crate) fn plan<A: Allocator + Copy>(
    alloc: A,
    grid: &Grid<A>,
    input: TickInput<'_>,
    aims: &mut Courses<A>,
    stepper: &mut Stepper<A>,
    ties: &[TieHook],
) -> Result<Vec<u32, A>, AllocError>
    requires placed { IsPlacement grid.now input.cells.now }
    requires few { length input.cells.now ≤ 512 }
    requires waited { length input.waits.now ≡ length input.cells.now }
    requires tied { length ties.now ≡ length input.cells.now }
    requires made { stepper.old ≡ record { cells = length grid.now.letters; robots = length input.cells.now } }
    requires goals { AreGoals grid.now input.cells.now input.waits.now (goal aims.old) (away aims.old grid.now) }
    requires on { AreOn grid.now aims.old }
    ensures made { stepper.new ≡ stepper.old }
    ensures still { AreStill aims.old aims.new }
    ensures on { AreOn grid.now aims.new }
    ensures conflict_free { IfOk result (λ to. IsConflictFree grid.now input.entry.cells.now to.items) }
    ensures planned { IfOk result (λ to. IsPlannedBy grid.now (map (λ h. h.law) ties.now) input.entry.waits.now (goals_of aims.old) input.entry.cells.now to.items) }
{
    let mut to = Vec::from_slice(alloc, input.cells)?;
    step_into(grid, input, aims, stepper, ties, to.as_mut_slice())?;
    Ok(to)
}
