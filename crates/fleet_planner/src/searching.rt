//! Which robots' own fields are still to be searched.

ghost use Rattle.std.specs.Prelude.{◌≡◌, ℕ, ◌<◌, ◌≤◌, None, Some, true, false, length, map, slice_index_or, IfSome, OnOk};
ghost use Rattle.fleet_field.specs.Growing.{Growth, IsGrown};
ghost use Rattle.fleet_grid.specs.Floor.{IsFloor};
ghost use Rattle.fleet_planner.specs.Courses.{growth_in, own_goal};
ghost use Rattle.fleet_planner.specs.Searched.{AreGrown, AreTold, IsTold, IsUntold, IsUntoldAt};

use fleet_field::GrowingField;
use fleet_grid::Grid;
use std::alloc::{AllocError, Allocator};

/// Whether a field, if there is one, is still to be searched for a floor cell.
fn lacks<A: Allocator + Copy, B: Allocator + Copy>(
    own: &Option<GrowingField<A>>,
    grid: &Grid<B>,
    cell: u32,
) -> bool
    requires grown { (field : Growth) → growth_in own.now ≡ Some field → IsGrown grid.now field }
    ensures told { result ≡ false → IsTold grid.now (growth_in own.now) cell }
    ensures untold { result ≡ true → IsUntold grid.now (growth_in own.now) cell }
{
    let Some(field) = own else {
        return false;
    };
    if !grid.is_floor(cell) {
        return false;
    }
    !field.tells(grid, cell)
}

/// Whether a robot's own field is still to be searched for a floor cell.
fn lacks_at<A: Allocator + Copy, B: Allocator + Copy>(
    own: &[Option<GrowingField<A>>],
    grid: &Grid<B>,
    robot: usize,
    cell: u32,
) -> bool
    requires { AreGrown grid.now (map growth_in own.now) }
    ensures told { result ≡ false → IsTold grid.now (slice_index_or (map growth_in own.now) robot None) cell }
    ensures untold { result ≡ true → IsUntold grid.now (slice_index_or (map growth_in own.now) robot None) cell }
    ensures known { result ≡ true → robot < length own.now }
{
    if robot >= own.len() {
        return false;
    }
    lacks(&own[robot], grid, cell)
}

/// The first robot whose own field is still to be searched for its cell.
pub(crate) fn first_lacking<A: Allocator + Copy, B: Allocator + Copy>(
    own: &[Option<GrowingField<A>>],
    grid: &Grid<B>,
    cells: &[u32],
) -> Option<usize>
    requires { AreGrown grid.now (map growth_in own.now) }
    ensures none { result ≡ None → AreTold grid.now (map growth_in own.now) cells.now }
    ensures some { IfSome result (λ r. IsUntoldAt grid.now (map growth_in own.now) cells.now r) }
    ensures known { IfSome result (λ r. r < length own.now) }
{
    for robot in 0..cells.len() {
        if lacks_at(own, grid, robot, cells[robot]) {
            return Some(robot);
        }
    }
    None
}

/// How many robots' own fields are still to be searched for their cells.
pub(crate) fn count_lacking<A: Allocator + Copy, B: Allocator + Copy>(
    own: &[Option<GrowingField<A>>],
    grid: &Grid<B>,
    cells: &[u32],
) -> usize
    requires { AreGrown grid.now (map growth_in own.now) }
    ensures none { result ≡ 0 → AreTold grid.now (map growth_in own.now) cells.now }
    ensures some { 0 < result → (r : ℕ) × IsUntoldAt grid.now (map growth_in own.now) cells.now r }
    ensures few { result ≤ length cells.now }
{
    let mut count = 0;
    for robot in 0..cells.len() {
        if lacks_at(own, grid, robot, cells[robot]) {
            count += 1;
        }
    }
    count
}

/// Searches a field, if there is one, until it tells the ways from a floor cell.
pub(crate) fn search_own<A: Allocator + Copy, B: Allocator + Copy>(
    own: &mut Option<GrowingField<A>>,
    grid: &Grid<B>,
    cell: u32,
) -> Result<(), AllocError>
    requires grown { (field : Growth) → growth_in own.old ≡ Some field → IsGrown grid.now field }
    requires floor { IsFloor grid.now cell }
    ensures told { OnOk result (IsTold grid.now (growth_in own.new) cell) }
    ensures grown { (field : Growth) → growth_in own.new ≡ Some field → IsGrown grid.now field }
    ensures goal { own_goal (growth_in own.new) ≡ own_goal (growth_in own.old) }
{
    match own {
        Some(field) => field.search(grid, cell),
        None => Ok(()),
    }
}
