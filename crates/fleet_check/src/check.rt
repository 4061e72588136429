//! The first fault of a step, looked for in the order of the faults.

ghost use Rattle.std.specs.Prelude.{◌≡◌, ◌≢◌, ◌≤◌, ◌<◌, ◌⊎◌, ℕ, ◌↔◌, ◌^◌, length, slice_index, OnOk, IfErr, IsTrue, MatchOption, MatchResult};
ghost use Rattle.fleet_grid.specs.Floor.{IsFloor, IsNeighbour};
ghost use Rattle.fleet_grid.specs.Step.{IsPlacement, IsConflictFree};
ghost use Rattle.fleet_check.specs.Fault.{IsFirst, IsFirstPair, IsRefusal, Moves, ShareCell, Exchange};
ghost use Rattle.fleet_check.specs.inside.Seats.{AreSeats, IsPartner, IsSeatFault};
ghost use Rattle.std.specs.Ordering.{nat_cmp};
ghost use Rattle.std.specs.BTreeMap.{get};

use crate::fault::StepFault;
use fleet_grid::Grid;
use std::alloc::{Allocator, Global};
use std::collections::BTreeMap;

/// The first robot whose new cell is not floor.
pub(crate) fn first_off_floor<B: Allocator + Copy>(grid: &Grid<B>, to: &[u32]) -> Option<usize>
    ensures { MatchOption result ((r : ℕ) → r < length to.now → IsFloor grid.now (slice_index to.now r)) (λ r. IsFirst (λ r. IsFloor grid.now (slice_index to.now r) → ⊥) (length to.now) r) }
{
    for (robot, cell) in to.iter().enumerate() {
        if !grid.is_floor(*cell) {
            return Some(robot);
        }
    }
    None
}

/// Whether a robot stays or crosses an edge.
fn moves<B: Allocator + Copy>(grid: &Grid<B>, from: u32, to: u32) -> bool
    ensures { IsTrue result ↔ ((to ≡ from) ⊎ IsNeighbour grid.now from to) }
{
    to == from || grid.has_edge(from, to)
}

/// The first robot that neither stays nor crosses an edge.
fn first_not_adjacent<B: Allocator + Copy>(
    grid: &Grid<B>,
    from: &[u32],
    to: &[u32],
) -> Option<usize>
    requires { length to.now ≡ length from.now }
    ensures { MatchOption result ((r : ℕ) → r < length to.now → Moves grid.now from.now to.now r) (λ r. IsFirst (λ r. Moves grid.now from.now to.now r → ⊥) (length to.now) r) }
{
    for robot in 0..to.len() {
        if !moves(grid, from[robot], to[robot]) {
            return Some(robot);
        }
    }
    None
}

/// For each cell the robot that moves to it; or the first two robots that move to one cell.
pub(crate) fn seats_of<A: Allocator + Copy>(
    alloc: A,
    to: &[u32],
) -> Result<BTreeMap<u32, u32, A>, StepFault>
    requires { length to.now < 2 ^ 32 }
    ensures { MatchResult result (λ seats. AreSeats to.now (get nat_cmp seats)) (λ fault. IsSeatFault to.now fault) }
{
    let mut seats = BTreeMap::new(alloc);
    let mut shared = None;
    let mut robot = to.len();
    while robot > 0 {
        robot -= 1;
        let Ok(other) = seats.insert(to[robot], robot as u32) else {
            return Err(StepFault::NoMemory);
        };
        if let Some(other) = other {
            shared = Some((robot as u32, other));
        }
    }
    match shared {
        Some((first, second)) => Err(StepFault::Vertex(first, second)),
        None => Ok(seats),
    }
}

/// The robot that moves to the cell.
fn seat_at<A: Allocator + Copy>(seats: &BTreeMap<u32, u32, A>, cell: u32) -> Option<u32>
    ensures { result ≡ get nat_cmp seats.now cell }
{
    seats.get(&cell).copied()
}

/// The robot with a higher number with which this one exchanges cells.
fn partner_of<A: Allocator + Copy>(
    seats: &BTreeMap<u32, u32, A>,
    from: &[u32],
    to: &[u32],
    robot: usize,
) -> Option<u32>
    requires equal { length to.now ≡ length from.now }
    requires seats { AreSeats to.now (get nat_cmp seats.now) }
    requires inside { robot < length to.now }
    ensures { MatchOption result ((j : ℕ) → robot < j → j < length to.now → Exchange from.now to.now robot j → ⊥) (λ k. IsPartner from.now to.now (get nat_cmp seats.now) robot k) }
{
    match seat_at(seats, from[robot]) {
        Some(other) => {
            let at = other as usize;
            if robot < at && from[at] == to[robot] {
                Some(other)
            } else {
                None
            }
        }
        None => None,
    }
}

/// The first two robots that exchange their cells.
fn first_exchange<A: Allocator + Copy>(
    seats: &BTreeMap<u32, u32, A>,
    from: &[u32],
    to: &[u32],
) -> Option<(u32, u32)>
    requires equal { length to.now ≡ length from.now }
    requires few { length to.now < 2 ^ 32 }
    requires seats { AreSeats to.now (get nat_cmp seats.now) }
    ensures { MatchOption result ((i j : ℕ) → i < j → j < length to.now → Exchange from.now to.now i j → ⊥) (λ p. IsFirstPair (Exchange from.now to.now) (length to.now) p.0 p.1) }
{
    for robot in 0..from.len() {
        if let Some(other) = partner_of(seats, from, to, robot) {
            return Some((robot as u32, other));
        }
    }
    None
}

/// The first fault of a step, in the order of `StepFault`. For each cell a tree keeps the robot that moves to it.
pub(crate) fn first_fault<A: Allocator + Copy, B: Allocator + Copy>(
    alloc: A,
    grid: &Grid<B>,
    from: &[u32],
    to: &[u32],
) -> Result<(), StepFault>
    requires { IsPlacement grid.now from.now }
    ensures ok { OnOk result (IsConflictFree grid.now from.now to.now) }
    ensures fault { IfErr result (λ fault. IsRefusal grid.now from.now to.now fault) }
{
    // So a placement has no more robots than a map has cells.
    let _cells = grid.cell_count();
    if to.len() != from.len() {
        return Err(StepFault::Length);
    }
    if let Some(robot) = first_off_floor(grid, to) {
        return Err(StepFault::OffFloor(robot as u32));
    }
    if let Some(robot) = first_not_adjacent(grid, from, to) {
        return Err(StepFault::NotAdjacent(robot as u32));
    }
    let seats = seats_of(alloc, to)?;
    match first_exchange(&seats, from, to) {
        Some((first, second)) => Err(StepFault::Swap(first, second)),
        None => Ok(()),
    }
}
