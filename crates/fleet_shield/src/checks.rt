//! The faults of what a step is asked for.

ghost use Rattle.std.specs.Prelude.{◌≡◌, ◌⊎◌, ◌↔◌, ℕ, ◌*◌, ◌<◌, ◌≤◌, length, slice_index, IsTrue, MatchOption, OnOk, IfErr};
ghost use Rattle.fleet_grid.specs.Floor.{IsFloor, IsNeighbour};
ghost use Rattle.fleet_shield.specs.Wishes.{wishes, IsNear, AreSound};
ghost use Rattle.fleet_shield.specs.Fault.{IsFirstNot, IsKnown, AllNear, IsFault};
ghost use Rattle.fleet_shield.specs.declared.refusal.Refusal.TheVariants.{Outside, Wall};
ghost use Rattle.fleet_shield.specs.inside.Entered.{IsEntered};

use crate::preferences::Preferences;
use crate::refusal::Refusal;
use crate::seats::enter_all;
use fleet_grid::Grid;
use std::alloc::Allocator;

/// The first robot that is not on the floor.
fn first_off_floor<A: Allocator + Copy>(grid: &Grid<A>, from: &[u32]) -> Option<u32>
    requires { length from.now ≤ 4294967295 }
    ensures { MatchOption result
        ((r : ℕ) → r < length from.now → IsFloor grid.now (slice_index from.now r))
        (λ r. IsFirstNot (λ k. IsFloor grid.now (slice_index from.now k)) (length from.now) r) }
{
    for robot in 0..from.len() as u32 {
        if !grid.is_floor(from[robot as usize]) {
            return Some(robot);
        }
    }
    None
}

/// Why the robot, which stands on this cell, is not on the floor.
fn off_floor<A: Allocator + Copy>(grid: &Grid<A>, robot: u32, cell: u32) -> Refusal
    ensures wall { cell < length grid.now.letters → result ≡ Wall robot }
    ensures outside { length grid.now.letters ≤ cell → result ≡ Outside robot }
{
    if cell < grid.cell_count() {
        Refusal::Wall(robot)
    } else {
        Refusal::Outside(robot)
    }
}

/// The first place of the order that names no robot.
fn first_unknown(order: &[u32]) -> Option<u32>
    requires { length order.now ≤ 4294967295 }
    ensures { MatchOption result
        ((k : ℕ) → k < length order.now → IsKnown order.now k)
        (λ k. IsFirstNot (IsKnown order.now) (length order.now) k) }
{
    for place in 0..order.len() as u32 {
        if order[place as usize] as usize >= order.len() {
            return Some(place);
        }
    }
    None
}

/// Whether a robot on the one cell may go to the other.
fn is_near<A: Allocator + Copy>(grid: &Grid<A>, from: u32, to: u32) -> bool
    ensures { IsTrue result ↔ ((to ≡ from) ⊎ IsNeighbour grid.now from to) }
{
    to == from || grid.has_edge(from, to)
}

/// The place of the robot's first preference that it cannot go to.
fn first_far_of<A: Allocator + Copy>(
    grid: &Grid<A>,
    from: &[u32],
    preferences: &Preferences,
    robot: u32,
) -> Option<u32>
    requires lists { length preferences.now.cells.now ≡ length from.now * preferences.now.each }
    requires known { robot < length from.now }
    ensures { let w = wishes from.now preferences.now in
        MatchOption result (AllNear grid.now w robot) (λ k. IsFirstNot (IsNear grid.now w robot) w.each k) }
{
    for place in 0..u32::from(preferences.each) {
        if !is_near(grid, from[robot as usize], preferences.get(robot, place)) {
            return Some(place);
        }
    }
    None
}

/// The first robot with a preference that it cannot go to, and the place of its first such.
fn first_far<A: Allocator + Copy>(
    grid: &Grid<A>,
    from: &[u32],
    preferences: &Preferences,
) -> Option<(u32, u32)>
    requires few { length from.now ≤ 4294967295 }
    requires lists { length preferences.now.cells.now ≡ length from.now * preferences.now.each }
    ensures { let w = wishes from.now preferences.now in
        MatchOption result
        ((r : ℕ) → r < length from.now → AllNear grid.now w r)
        (λ p. IsFirstNot (AllNear grid.now w) (length from.now) p.0 × IsFirstNot (IsNear grid.now w p.0) w.each p.1) }
{
    for robot in 0..from.len() as u32 {
        if let Some(place) = first_far_of(grid, from, preferences, robot) {
            return Some((robot, place));
        }
    }
    None
}

/// The first fault apart from those of lengths. Without one, the first table has the robot on each cell.
pub(crate) fn check<A: Allocator + Copy>(
    grid: &Grid<A>,
    from: &[u32],
    order: &[u32],
    preferences: &Preferences,
    standing: &mut [u32],
    places: &mut [u32],
) -> Result<(), Refusal>
    requires few { length from.now ≤ 4294967295 }
    requires cells { length standing.old ≡ length grid.now.letters }
    requires robots { length places.old ≡ length from.now }
    requires listed { length order.now ≡ length from.now }
    requires lists { length preferences.now.cells.now ≡ length from.now * preferences.now.each }
    ensures cells { length standing.new ≡ length standing.old }
    ensures robots { length places.new ≡ length places.old }
    ensures sound { OnOk result (AreSound grid.now order.now (wishes from.now preferences.now)) }
    ensures entered { OnOk result (IsEntered from.now standing.new) }
    ensures fault { IfErr result (λ why. IsFault grid.now order.now (wishes from.now preferences.now) why) }
{
    if let Some(robot) = first_off_floor(grid, from) {
        return Err(off_floor(grid, robot, from[robot as usize]));
    }
    if let Err((lower, upper)) = enter_all(from, standing) {
        return Err(Refusal::Shared(lower, upper));
    }
    if let Some(place) = first_unknown(order) {
        return Err(Refusal::Unknown(place));
    }
    if let Err((_before, place)) = enter_all(order, places) {
        return Err(Refusal::Twice(place));
    }
    match first_far(grid, from, preferences) {
        Some((robot, place)) => Err(Refusal::Far(robot, place)),
        None => Ok(()),
    }
}
