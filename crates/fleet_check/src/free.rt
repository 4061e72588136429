//! Whether a step is free of conflicts, in three passes over its robots.

ghost use Rattle.std.specs.Prelude.{◌≡◌, ◌<◌, ◌⊎◌, ◌↔◌, ℕ, false, length, slice_index, IfSome, IsTrue, MatchOption};
ghost use Rattle.fleet_grid.specs.declared.dir.Dir.{Dir};
ghost use Rattle.fleet_grid.specs.Floor.{IsFloor, IsBeside, IsNeighbour, cell_across};
ghost use Rattle.fleet_grid.specs.Step.{IsPlacement, IsConflictFree};
ghost use Rattle.fleet_check.specs.inside.Slots.{AreFound, is_swap};

use crate::slots::{find, seat_all};
use fleet_grid::{Dir, Grid};
use std::alloc::Allocator;

/// The direction in which the second cell lies, if it can be next to the first on a map of that width. A map of one
/// column has cells to the south and to the north only.
#[tactic(auto, using(crate::proofs::Found::south_by, crate::proofs::Found::east_by, crate::proofs::Found::north_by, crate::proofs::Found::west_by, crate::proofs::Found::not_after, crate::proofs::Found::not_before))]
fn direction(width: u32, from: u32, to: u32) -> Option<Dir>
    ensures across { IfSome result (λ dir. to ≡ cell_across width from dir) }
    ensures each { MatchOption result ((dir : Dir) → IsBeside width dir from to → ⊥) (λ found. (dir : Dir) → IsBeside width dir from to → IsBeside width found from to) }
{
    if from < to {
        match to - from {
            steps if steps == width => Some(Dir::South),
            1 => Some(Dir::East),
            _ => None,
        }
    } else {
        match from - to {
            steps if steps == width => Some(Dir::North),
            1 => Some(Dir::West),
            _ => None,
        }
    }
}

/// Whether an edge leads from a floor cell to the other cell, by one look at the ways of the first.
#[tactic(auto, using(crate::proofs::Found::edge_by, crate::proofs::Found::way_by))]
fn crosses<B: Allocator + Copy>(grid: &Grid<B>, from: u32, to: u32) -> bool
    requires { IsFloor grid.now from }
    ensures { IsTrue result ↔ IsNeighbour grid.now from to }
{
    match direction(grid.width(), from, to) {
        Some(dir) => grid.exits(from).has(dir),
        None => false,
    }
}

/// Whether a robot stays on its floor cell or crosses an edge.
fn moves<B: Allocator + Copy>(grid: &Grid<B>, from: u32, to: u32) -> bool
    requires { IsFloor grid.now from }
    ensures { IsTrue result → (to ≡ from) ⊎ IsNeighbour grid.now from to }
{
    to == from || crosses(grid, from, to)
}

/// Whether each robot stays or crosses an edge.
fn are_moves<B: Allocator + Copy>(grid: &Grid<B>, from: &[u32], to: &[u32]) -> bool
    requires equal { length to.now ≡ length from.now }
    requires floor { (r : ℕ) → r < length from.now → IsFloor grid.now (slice_index from.now r) }
    ensures { IsTrue result → (r : ℕ) → r < length from.now → (slice_index to.now r ≡ slice_index from.now r) ⊎ IsNeighbour grid.now (slice_index from.now r) (slice_index to.now r) }
{
    for robot in 0..from.len() {
        if !moves(grid, from[robot], to[robot]) {
            return false;
        }
    }
    true
}

/// Whether each robot is found for the cell to which it moves.
fn are_found(slots: &[u32], to: &[u32]) -> bool
    ensures { IsTrue result → AreFound slots.now to.now (length to.now) }
{
    for robot in 0..to.len() {
        if find(slots, to, to[robot]) != robot {
            return false;
        }
    }
    true
}

/// Whether the robot exchanges its cell with a robot with a lower number.
fn is_swap(slots: &[u32], from: &[u32], to: &[u32], robot: usize) -> bool
    requires equal { length to.now ≡ length from.now }
    requires inside { robot < length from.now }
    ensures { result ≡ is_swap slots.now from.now to.now robot }
{
    let other = find(slots, to, from[robot]);
    other < robot && to[other] == from[robot] && from[other] == to[robot]
}

/// Whether no robot exchanges its cell with a robot with a lower number.
fn is_without_swap(slots: &[u32], from: &[u32], to: &[u32]) -> bool
    requires { length to.now ≡ length from.now }
    ensures { IsTrue result → (r : ℕ) → r < length from.now → is_swap slots.now from.now to.now r ≡ false }
{
    for robot in 0..from.len() {
        if is_swap(slots, from, to, robot) {
            return false;
        }
    }
    true
}

/// Whether a step is free of conflicts. What the table has before does not matter. The result may be `false` for a step
/// without a conflict, if the table is too small.
pub(crate) fn is_free<B: Allocator + Copy>(
    grid: &Grid<B>,
    slots: &mut [u32],
    from: &[u32],
    to: &[u32],
) -> bool
    requires { IsPlacement grid.now from.now }
    ensures { IsTrue result → IsConflictFree grid.now from.now to.now }
{
    if to.len() != from.len() || !are_moves(grid, from, to) || !seat_all(slots, to) {
        return false;
    }
    are_found(slots, to) && is_without_swap(slots, from, to)
}
