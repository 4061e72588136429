//! Which dead end a robot stands before, if each cell there holds a robot.

ghost use Rattle.std.specs.Prelude.{◌≡◌, ◌<◌, ℕ, None, IfOk, IfSome, MatchOption, length, slice_index};
ghost use Rattle.fleet_grid.specs.Floor.{IsFloor, IsNeighbour, IsNeighbourIn};
ghost use Rattle.fleet_grid.specs.Ways.{IsWay};
ghost use Rattle.fleet_grid.specs.declared.dir.Dir.{Dir};
ghost use Rattle.fleet_pibt.specs.Advancing.{HasWayAhead, IsFullBeyond};
ghost use Rattle.fleet_pibt.specs.Goals.{IsNearer};

use crate::full::is_full_beyond;
use fleet_field::Field;
use fleet_grid::{Dir, Grid, Ways};
use std::alloc::{AllocError, Allocator};

/// The cell next to this one in a direction, if that is one of these ways and leads over a bridge to a full side.
fn full_in<A: Allocator + Copy, B: Allocator + Copy>(
    alloc: A,
    grid: &Grid<B>,
    cells: &[u32],
    cell: u32,
    ways: Ways,
    dir: Dir,
) -> Result<Option<u32>, AllocError>
    ensures none { IfOk result (λ found. found ≡ None → (w : ℕ) → IsNeighbourIn grid.now dir cell w → IsWay ways.byte dir → IsFullBeyond grid.now cells.now cell w → ⊥) }
    ensures some { IfOk result (λ found. IfSome found (λ w. IsNeighbourIn grid.now dir cell w × IsWay ways.byte dir × IsFullBeyond grid.now cells.now cell w)) }
{
    if !ways.has(dir) {
        return Ok(None);
    }
    let Some(next) = grid.neighbour(cell, dir) else {
        return Ok(None);
    };
    if is_full_beyond(alloc, grid, cells, cell, next)? {
        Ok(Some(next))
    } else {
        Ok(None)
    }
}

/// The first cell to which one of these ways leads over a bridge to a full side.
fn full_ahead<A: Allocator + Copy, B: Allocator + Copy>(
    alloc: A,
    grid: &Grid<B>,
    cells: &[u32],
    cell: u32,
    ways: Ways,
) -> Result<Option<u32>, AllocError>
    ensures none { IfOk result (λ found. found ≡ None → (dir : Dir) (w : ℕ) → IsNeighbourIn grid.now dir cell w → IsWay ways.byte dir → IsFullBeyond grid.now cells.now cell w → ⊥) }
    ensures some { IfOk result (λ found. IfSome found (λ w. (dir : Dir) × IsNeighbourIn grid.now dir cell w × IsWay ways.byte dir × IsFullBeyond grid.now cells.now cell w)) }
{
    if let Some(next) = full_in(alloc, grid, cells, cell, ways, Dir::North)? {
        return Ok(Some(next));
    }
    if let Some(next) = full_in(alloc, grid, cells, cell, ways, Dir::East)? {
        return Ok(Some(next));
    }
    if let Some(next) = full_in(alloc, grid, cells, cell, ways, Dir::South)? {
        return Ok(Some(next));
    }
    full_in(alloc, grid, cells, cell, ways, Dir::West)
}

/// The cell next to a robot that is nearer to its goal, if it lies beyond a bridge and a robot stands on each cell there: then no
/// step without conflicts brings the robot nearer. `None` if the robot's way is free, and if its cell or its goal is not
/// floor. `AllocError` if memory runs out.
pub fn blocked_at<A: Allocator + Copy, B: Allocator + Copy>(
    alloc: A,
    grid: &Grid<B>,
    cells: &[u32],
    robot: u32,
    goal: u32,
) -> Result<Option<u32>, AllocError>
    requires { robot < length cells.now }
    ensures free { IfOk result (λ found. found ≡ None → HasWayAhead grid.now cells.now goal (slice_index cells.now robot)) }
    ensures blocked { IfOk result (λ found. IfSome found (λ w. IsNeighbour grid.now (slice_index cells.now robot) w × IsNearer grid.now goal w (slice_index cells.now robot) × IsFullBeyond grid.now cells.now (slice_index cells.now robot) w)) }
{
    let cell = cells[robot as usize];
    if !grid.is_floor(cell) {
        return Ok(None);
    }
    if !grid.is_floor(goal) {
        return Ok(None);
    }
    let field = Field::from(alloc, grid, goal)?;
    full_ahead(alloc, grid, cells, cell, field.ways(grid, cell))
}
