//! How far the cells of a map are from the cores of their parts. The list is made by a search whose code is proved safe, and then
//! checked cell by cell.

ghost use Rattle.std.specs.Prelude.{◌≡◌, ℕ, length, slice_index, IfOk, IfSome, true};
ghost use Rattle.fleet_grid.specs.Floor.{IsFloor, IsNeighbour};
ghost use Rattle.fleet_grid.specs.Walk.{AreJoined};
ghost use Rattle.fleet_grid.specs.declared.dir.Dir.{Dir};
ghost use Rattle.turns_law.specs.Turns.{AreAway};
ghost use Rattle.fleet_turns.specs.inside.Checked.{IsEven, IsOneNearer, IsAwayAt};

use crate::to_core::read;
use fleet_grid::{Dir, FAR, Grid};
use std::alloc::{AllocError, Allocator};

/// Puts a number at a place, if the list has it.
fn write(list: &mut [u32], at: u32, value: u32)
    ensures { length list.new ≡ length list.old }
{
    if (at as usize) < list.len() {
        list[at as usize] = value;
    }
}

/// A search from all cores at once: the cells that were reached, in the order in which they were, and the distance of each cell.
#[derive(Drop)]
struct Spread<A: Allocator + Copy> {
    order: Vec<u32, A>,
    away: Vec<u32, A>,
}

/// Puts the cell behind the others, if it was not reached and there is room.
fn reach<A: Allocator + Copy>(spread: &mut Spread<A>, cell: u32, away: u32) {
    if read(&spread.away, cell) == FAR && spread.order.len() < spread.order.capacity() {
        write(&mut spread.away, cell, away);
        spread.order.push_reserved(cell);
    }
}

/// Reaches the neighbours of a cell.
fn reach_on<A: Allocator + Copy, B: Allocator + Copy>(
    grid: &Grid<B>,
    spread: &mut Spread<A>,
    cell: u32,
) {
    let away = read(&spread.away, cell).saturating_add(1);
    if let Some(next) = grid.neighbour(cell, Dir::North) {
        reach(spread, next, away);
    }
    if let Some(next) = grid.neighbour(cell, Dir::East) {
        reach(spread, next, away);
    }
    if let Some(next) = grid.neighbour(cell, Dir::South) {
        reach(spread, next, away);
    }
    if let Some(next) = grid.neighbour(cell, Dir::West) {
        reach(spread, next, away);
    }
}

/// The distances of all cells, as the search found them.
fn spread_all<A: Allocator + Copy, B: Allocator + Copy>(
    alloc: A,
    grid: &Grid<B>,
    core: &[u32],
) -> Result<Vec<u32, A>, AllocError> {
    let count = grid.cell_count();
    let mut spread = Spread {
        order: Vec::with_capacity(alloc, count as usize)?,
        away: vec![in alloc; FAR; count as usize]?,
    };
    for cell in 0..count {
        if grid.is_floor(cell) && read(core, cell) == cell {
            reach(&mut spread, cell, 0);
        }
    }
    for place in 0..count {
        if (place as usize) < spread.order.len() {
            let cell = spread.order[place as usize];
            reach_on(grid, &mut spread, cell);
        }
    }
    let Spread { order: _, away } = spread;
    Ok(away)
}

/// Whether the cell beyond a way, if there is one, has the same core and is nearer by one at most.
fn is_even<B: Allocator + Copy>(
    grid: &Grid<B>,
    core: &[u32],
    away: &[u32],
    cell: u32,
    dir: Dir,
) -> bool
    ensures { result ≡ true → IsEven grid.now core.now away.now cell dir }
{
    let Some(next) = grid.neighbour(cell, dir) else {
        return true;
    };
    read(core, cell) == read(core, next) && read(away, cell) <= read(away, next).saturating_add(1)
}

/// Whether all of the cell's neighbours have the same core and are nearer by one at most.
fn are_even<B: Allocator + Copy>(grid: &Grid<B>, core: &[u32], away: &[u32], cell: u32) -> bool
    ensures { result ≡ true → (dir : Dir) → IsEven grid.now core.now away.now cell dir }
{
    is_even(grid, core, away, cell, Dir::North)
        && is_even(grid, core, away, cell, Dir::East)
        && is_even(grid, core, away, cell, Dir::South)
        && is_even(grid, core, away, cell, Dir::West)
}

/// Whether the cell beyond a way is nearer by one.
fn is_nearer<B: Allocator + Copy>(grid: &Grid<B>, away: &[u32], cell: u32, dir: Dir) -> bool
    ensures { result ≡ true → IsOneNearer grid.now away.now cell dir }
{
    let Some(next) = grid.neighbour(cell, dir) else {
        return false;
    };
    let (near, far) = (read(away, next), read(away, cell));
    near < far && near + 1 == far
}

/// Whether one of the cell's neighbours is nearer by one.
fn has_nearer<B: Allocator + Copy>(grid: &Grid<B>, away: &[u32], cell: u32) -> bool
    ensures { result ≡ true → (dir : Dir) × IsOneNearer grid.now away.now cell dir }
{
    is_nearer(grid, away, cell, Dir::North)
        || is_nearer(grid, away, cell, Dir::East)
        || is_nearer(grid, away, cell, Dir::South)
        || is_nearer(grid, away, cell, Dir::West)
}

/// Whether a cell passes the check: it is a core and 0 away, or a neighbour is nearer by one; and none is nearer by more.
fn is_away<B: Allocator + Copy>(grid: &Grid<B>, core: &[u32], away: &[u32], cell: u32) -> bool
    ensures { result ≡ true → IsAwayAt grid.now core.now away.now cell }
{
    if !are_even(grid, core, away, cell) {
        return false;
    }
    if read(core, cell) == cell {
        read(away, cell) == 0
    } else {
        has_nearer(grid, away, cell)
    }
}

/// Whether a cell passes the check, or is a wall.
fn passes<B: Allocator + Copy>(grid: &Grid<B>, core: &[u32], away: &[u32], cell: u32) -> bool
    ensures { result ≡ true → IsFloor grid.now cell → IsAwayAt grid.now core.now away.now cell }
{
    !grid.is_floor(cell) || is_away(grid, core, away, cell)
}

/// Whether all floor cells pass the check.
fn are_away<B: Allocator + Copy>(grid: &Grid<B>, core: &[u32], away: &[u32]) -> bool
    ensures { result ≡ true → (c : ℕ) → IsFloor grid.now c → IsAwayAt grid.now core.now away.now c }
{
    let count = grid.cell_count();
    for cell in 0..count {
        if !passes(grid, core, away, cell) {
            return false;
        }
    }
    true
}

/// The distance of each cell from the core of its part, where `core` tells the core by each cell. `None` if the search did not pass
/// its check. `AllocError` if memory runs out.
pub(crate) fn distances<A: Allocator + Copy, B: Allocator + Copy>(
    alloc: A,
    grid: &Grid<B>,
    core: &[u32],
) -> Result<Option<Vec<u32, A>>, AllocError>
    requires joined { (c : ℕ) → IsFloor grid.now c → AreJoined (IsNeighbour grid.now) c (slice_index core.now c) }
    ensures { IfOk result (λ found. IfSome found (λ away. AreAway grid.now core.now away.items)) }
{
    let away = spread_all(alloc, grid, core)?;
    if are_away(grid, core, &away) {
        Ok(Some(away))
    } else {
        Ok(None)
    }
}
