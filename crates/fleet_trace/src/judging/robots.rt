//! Which robot of an opening is not in order.

ghost use Rattle.std.specs.Prelude.{◌≡◌, ◌↔◌, ◌<◌, ◌≤◌, All, IsTrue, IfOk, MatchOption, length, map, not};
ghost use Rattle.fleet_grid.specs.Floor.{IsFloor};
ghost use Rattle.fleet_grid.specs.Step.{IsPlacement};
ghost use Rattle.fleet_hooks.specs.Law.{IsStampLaw};
ghost use Rattle.fleet_history.specs.Legal.{IsRobotInOrder};
ghost use Rattle.fleet_trace.specs.inside.Opened.{IsErrandInOrder, IsWaitInOrder};
ghost use Rattle.fleet_trace.specs.OutOfOrder.{IsFirstRobot};

use fleet_grid::{Grid, is_placement};
use fleet_history::{ClientState, Opening, RobotState};
use fleet_hooks::StampLaw;
use fleet_queue::Errand;
use std::alloc::{AllocError, Allocator};

/// The robots' cells.
fn cells_of<A: Allocator + Copy>(
    alloc: A,
    robots: &[RobotState<A>],
) -> Result<Vec<u32, A>, AllocError>
    ensures { IfOk result (λ cells. cells.items ≡ map (λ x. x.cell) robots.now) }
{
    let mut cells = Vec::new(alloc);
    for robot in robots {
        cells.push(robot.cell)?;
    }
    Ok(cells)
}

/// Whether the robots stand on a placement.
pub(crate) fn is_placed<A: Allocator + Copy, B: Allocator + Copy>(
    alloc: A,
    grid: &Grid<B>,
    robots: &[RobotState<A>],
) -> Result<bool, AllocError>
    ensures { IfOk result (λ placed. IsTrue placed ↔ IsPlacement grid.now (map (λ x. x.cell) robots.now)) }
{
    let cells = cells_of(alloc, robots)?;
    Ok(is_placement(grid, &cells))
}

/// Whether the errand of a robot on the cell is in order.
fn is_errand_in_order<B: Allocator + Copy>(
    grid: &Grid<B>,
    clients: &[ClientState],
    cell: u32,
    errand: &Errand,
) -> bool
    requires { IsFloor grid.now cell }
    ensures { IsTrue result ↔ IsErrandInOrder grid.now clients.now cell errand.now }
{
    let client = errand.client as usize;
    if client >= clients.len() {
        return false;
    }
    if errand.number < 1 || errand.number > clients[client].accepted {
        return false;
    }
    grid.is_floor(errand.cell) && grid.same_part(cell, errand.cell)
}

fn are_errands_in_order<B: Allocator + Copy>(
    grid: &Grid<B>,
    clients: &[ClientState],
    cell: u32,
    errands: &[Errand],
) -> bool
    requires { IsFloor grid.now cell }
    ensures { IsTrue result ↔ All (IsErrandInOrder grid.now clients.now cell) errands.now }
{
    for errand in errands {
        if !is_errand_in_order(grid, clients, cell, errand) {
            return false;
        }
    }
    true
}

fn is_law_in_order(law: &StampLaw) -> bool
    ensures { IsTrue result ↔ IsStampLaw law.now }
{
    law.low <= law.high
}

/// Whether a wait is there exactly where errands are, and no longer than the clock.
fn is_wait_in_order(wait: Option<u64>, idle: bool, tick: u64) -> bool
    ensures { IsTrue result ↔ IsWaitInOrder wait idle tick }
{
    match wait {
        None => idle,
        Some(wait) => !idle && wait <= tick,
    }
}

fn is_robot_in_order<A: Allocator + Copy, B: Allocator + Copy>(
    grid: &Grid<B>,
    opening: &Opening<A>,
    robot: &RobotState<A>,
) -> bool
    requires { IsFloor grid.now robot.now.cell }
    ensures { IsTrue result ↔ IsRobotInOrder grid.now opening.now robot.now }
{
    if !is_law_in_order(&robot.arrival_law) || !is_law_in_order(&robot.farewell_law) {
        return false;
    }
    let errands = robot.errands.as_slice();
    if errands.len() > opening.queue as usize {
        return false;
    }
    if !is_wait_in_order(robot.wait, errands.is_empty(), opening.tick) {
        return false;
    }
    are_errands_in_order(grid, opening.clients.as_slice(), robot.cell, errands)
}

/// The first of the robots, which stand on a placement, that is not in order.
pub(crate) fn robot_fault<A: Allocator + Copy, B: Allocator + Copy>(
    grid: &Grid<B>,
    opening: &Opening<A>,
) -> Option<u32>
    requires few { length opening.now.robots ≤ 512 }
    requires placed { IsPlacement grid.now (map (λ x. x.cell) opening.now.robots) }
    ensures { MatchOption result (All (IsRobotInOrder grid.now opening.now) opening.now.robots) (IsFirstRobot grid.now opening.now) }
{
    let robots = opening.robots.as_slice();
    for r in 0..robots.len() {
        if !is_robot_in_order(grid, opening, &robots[r]) {
            return Some(r as u32);
        }
    }
    None
}
