//! The rules of a tick.

ghost use Rattle.std.specs.Prelude.{◌≡◌, ◌↔◌, List, IsTrue, IfOk, length, map, MatchOption, MatchResult};
ghost use Rattle.fleet_grid.specs.Step.{IsConflictFree};
ghost use Rattle.fleet_history.specs.declared.history.Arrival.{Arrival};
ghost use Rattle.fleet_history.specs.History.{History, place};
ghost use Rattle.fleet_history.specs.Legal.{due_of, due, IsTickAfter};
ghost use Rattle.fleet_state.specs.State.{IsStateOf, Of, robot_count};
ghost use Rattle.fleet_trace.specs.Judged.{ShowsDue, ShowsLeaving, AreStamps, ShownBreaks, IsOf};

use super::stamps::{are_last_stamps, are_stamps};
use fleet_check::{StepFault, check_step};
use fleet_grid::Grid;
use fleet_history::{Arrival, Bye, RobotState};
use fleet_state::FleetState;
use std::alloc::{AllocError, Allocator};

/// Whether the step from where the robots stand is conflict-free.
pub(crate) fn is_step<A: Allocator + Copy>(
    alloc: A,
    grid: &Grid<A>,
    state: &FleetState<A>,
    to: &[u32],
) -> Result<bool, AllocError>
    requires { (h : History A) × IsStateOf grid.now h state.now }
    ensures { IfOk result (λ step. (h : History A) → IsStateOf grid.now h state.now → IsTrue step ↔ IsConflictFree grid.now (place h) to.now) }
{
    match check_step(alloc, grid, state.place(), to) {
        Ok(()) => Ok(true),
        Err(StepFault::NoMemory) => Err(AllocError),
        Err(_) => Ok(false),
    }
}

fn is_same_due(a: &Arrival, b: &Arrival) -> bool
    ensures { IsTrue result ↔ (due_of a.now ≡ due_of b.now) }
{
    a.robot == b.robot && a.client == b.client && a.number == b.number
}

/// Whether the arrivals are of the same robots, clients and errands.
fn are_same_dues(arrived: &[Arrival], others: &[Arrival]) -> bool
    ensures { IsTrue result ↔ (map due_of arrived.now ≡ map due_of others.now) }
{
    if arrived.len() != others.len() {
        return false;
    }
    for i in 0..arrived.len() {
        if !is_same_due(&arrived[i], &others[i]) {
            return false;
        }
    }
    true
}

fn are_same_robots(farewells: &[Bye], others: &[Bye]) -> bool
    ensures { IsTrue result ↔ (map (λ b. b.robot) farewells.now ≡ map (λ b. b.robot) others.now) }
{
    if farewells.len() != others.len() {
        return false;
    }
    for i in 0..farewells.len() {
        if farewells[i].robot != others[i].robot {
            return false;
        }
    }
    true
}

/// The first rule that what a tick shows breaks.
pub(crate) fn broken_shown<A: Allocator + Copy>(
    alloc: A,
    robots: &[RobotState<A>],
    state: &FleetState<A>,
    to: &[u32],
    arrived: &[Arrival],
    farewells: &[Bye],
) -> Result<Option<u8>, AllocError>
    requires { length to.now ≡ robot_count state.now }
    ensures { IfOk result (λ rule. Of state.now (λ h. h.opening.robots ≡ robots.now → MatchOption rule (ShowsDue h to.now arrived.now × ShowsLeaving h to.now arrived.now farewells.now × AreStamps h arrived.now farewells.now) (λ n. ShownBreaks h to.now arrived.now farewells.now n))) }
{
    let landings = state.landings(alloc, to)?;
    if !are_same_dues(arrived, &landings.arrived) {
        return Ok(Some(5));
    }
    if !are_same_robots(farewells, &landings.leaving) {
        return Ok(Some(6));
    }
    if !are_stamps(robots, arrived) || !are_last_stamps(robots, farewells) {
        return Ok(Some(7));
    }
    Ok(None)
}
