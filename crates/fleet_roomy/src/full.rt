//! Whether a robot stands on each cell beyond a bridge.

ghost use Rattle.std.specs.Prelude.{◌≡◌, ◌≢◌, ◌<◌, ◌≤◌, ◌↔◌, ℕ, true, false, IfOk, OnOk, IsTrue, MatchOption, length, slice_index, slice_index_or, slice_set, replicate, List, [], ◌∷◌, ◌++◌};
ghost use Rattle.fleet_grid.specs.Floor.{IsNeighbour, IsNeighbourIn};
ghost use Rattle.fleet_grid.specs.Walk.{Besides, IsOnSide};
ghost use Rattle.fleet_pibt.specs.Advancing.{IsFullBeyond};
ghost use Rattle.fleet_roomy.specs.inside.Found.{AreFound, AreMore, Has};

use fleet_grid::{Dir, Grid};
use std::alloc::{AllocError, Allocator};

/// An edge of a map, from one side.
#[derive(Clone, Copy)]
struct Edge {
    from: u32,
    to: u32,
}

/// Robots that were found beyond an edge.
#[derive(Drop)]
struct Found<A: Allocator + Copy> {
    /// By each robot whether it was found.
    seen: Vec<bool, A>,
    /// The robots that were found, in order.
    robots: Vec<usize, A>,
}

/// A robot on the cell.
fn robot_on(cells: &[u32], cell: u32) -> Option<usize>
    ensures { MatchOption result ((r : ℕ) → r < length cells.now → slice_index cells.now r ≢ cell) (λ r. (r < length cells.now) × (slice_index cells.now r ≡ cell)) }
{
    for robot in 0..cells.len() {
        if cells[robot] == cell {
            return Some(robot);
        }
    }
    None
}

/// Whether the robot was found.
fn is_found<A: Allocator + Copy>(found: &Found<A>, robot: usize) -> bool
    requires { robot < length found.now.seen.items }
    ensures { result ≡ slice_index_or found.now.seen.items robot false }
{
    found.seen[robot]
}

/// Notes a robot that was not found yet.
fn note<A: Allocator + Copy>(found: &mut Found<A>, robot: usize) -> Result<(), AllocError>
    requires { robot < length found.old.seen.items }
    ensures seen { OnOk result (found.new.seen.items ≡ slice_set found.old.seen.items robot true) }
    ensures robots { OnOk result (found.new.robots.items ≡ found.old.robots.items ++ robot ∷ []) }
{
    found.robots.push(robot)?;
    found.seen[robot] = true;
    Ok(())
}

/// Goes on from the cell of a robot that was found, in one direction. Returns whether a robot was found there, or there is
/// nothing to find; else the side is not full, or the edge is no bridge.
fn spread<A: Allocator + Copy, B: Allocator + Copy>(
    grid: &Grid<B>,
    cells: &[u32],
    edge: Edge,
    cell: u32,
    dir: Dir,
    found: &mut Found<A>,
) -> Result<bool, AllocError>
    requires found { AreFound grid.now cells.now edge.from edge.to found.old.seen.items found.old.robots.items }
    requires at { Has cells.now found.old.robots.items cell }
    ensures found { OnOk result (AreFound grid.now cells.now edge.from edge.to found.new.seen.items found.new.robots.items) }
    ensures more { OnOk result (AreMore found.old.robots.items found.new.robots.items) }
    ensures on { IfOk result (λ goes_on. goes_on ≡ true → (y : ℕ) → IsNeighbourIn grid.now dir cell y → (cell ≡ edge.to → y ≡ edge.from → ⊥) → Has cells.now found.new.robots.items y) }
    ensures open { IfOk result (λ goes_on. goes_on ≡ false → IsFullBeyond grid.now cells.now edge.from edge.to → ⊥) }
{
    let Some(next) = grid.neighbour(cell, dir) else {
        return Ok(true);
    };
    if next == edge.from {
        if cell == edge.to {
            return Ok(true);
        }
        // The other end is reached by another way: the edge is no bridge.
        return Ok(false);
    }
    let Some(robot) = robot_on(cells, next) else {
        return Ok(false);
    };
    if is_found(found, robot) {
        return Ok(true);
    }
    note(found, robot)?;
    Ok(true)
}

/// Goes on from the cell in all directions, as `spread` does in one.
fn spread_all<A: Allocator + Copy, B: Allocator + Copy>(
    grid: &Grid<B>,
    cells: &[u32],
    edge: Edge,
    cell: u32,
    found: &mut Found<A>,
) -> Result<bool, AllocError>
    requires found { AreFound grid.now cells.now edge.from edge.to found.old.seen.items found.old.robots.items }
    requires at { Has cells.now found.old.robots.items cell }
    ensures found { OnOk result (AreFound grid.now cells.now edge.from edge.to found.new.seen.items found.new.robots.items) }
    ensures more { OnOk result (AreMore found.old.robots.items found.new.robots.items) }
    ensures on { IfOk result (λ goes_on. goes_on ≡ true → (y : ℕ) → Besides (IsNeighbour grid.now) edge.from edge.to cell y → Has cells.now found.new.robots.items y) }
    ensures open { IfOk result (λ goes_on. goes_on ≡ false → IsFullBeyond grid.now cells.now edge.from edge.to → ⊥) }
{
    if !spread(grid, cells, edge, cell, Dir::North, found)? {
        return Ok(false);
    }
    if !spread(grid, cells, edge, cell, Dir::East, found)? {
        return Ok(false);
    }
    if !spread(grid, cells, edge, cell, Dir::South, found)? {
        return Ok(false);
    }
    spread(grid, cells, edge, cell, Dir::West, found)
}

/// Marks of this many robots, none of which was found.
fn no_marks<A: Allocator + Copy>(alloc: A, robots: usize) -> Result<Vec<bool, A>, AllocError>
    ensures { IfOk result (λ seen. seen.items ≡ replicate robots false) }
{
    let mut seen = Vec::with_capacity(alloc, robots)?;
    for _robot in 0..robots {
        seen.push_reserved(false);
    }
    Ok(seen)
}

/// The robot that stands on the first cell beyond the edge, found.
fn first_found<A: Allocator + Copy>(
    alloc: A,
    robots: usize,
    first: usize,
) -> Result<Found<A>, AllocError>
    requires { first < robots }
    ensures seen { IfOk result (λ found. found.seen.items ≡ slice_set (replicate robots false) first true) }
    ensures robots { IfOk result (λ found. found.robots.items ≡ first ∷ []) }
{
    let mut found = Found {
        seen: no_marks(alloc, robots)?,
        robots: Vec::with_capacity(alloc, robots)?,
    };
    note(&mut found, first)?;
    Ok(found)
}

/// The robot that was found at this place.
fn robot_at<A: Allocator + Copy>(found: &Found<A>, at: usize) -> usize
    requires { at < length found.now.robots.items }
    ensures { result ≡ slice_index found.now.robots.items at }
{
    found.robots[at]
}

/// The cell of a robot.
fn cell_of(cells: &[u32], robot: usize) -> u32
    requires { robot < length cells.now }
    ensures { result ≡ slice_index cells.now robot }
{
    cells[robot]
}

/// Whether the edge of two neighbours is a bridge, and a robot stands on each cell beyond it, that is, on the side of
/// `to`. `AllocError` if memory runs out.
pub fn is_full_beyond<A: Allocator + Copy, B: Allocator + Copy>(
    alloc: A,
    grid: &Grid<B>,
    cells: &[u32],
    from: u32,
    to: u32,
) -> Result<bool, AllocError>
    requires { IsNeighbour grid.now from to }
    ensures { IfOk result (λ is_full. IsTrue is_full ↔ IsFullBeyond grid.now cells.now from to) }
{
    let Some(first) = robot_on(cells, to) else {
        return Ok(false);
    };
    if from == to {
        return Ok(false);
    }
    let mut found = first_found(alloc, cells.len(), first)?;
    for at in 0..cells.len() {
        if at >= found.robots.len() {
            return Ok(true);
        }
        let cell = cell_of(cells, robot_at(&found, at));
        if !spread_all(grid, cells, Edge { from, to }, cell, &mut found)? {
            return Ok(false);
        }
    }
    Ok(true)
}
