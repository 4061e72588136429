//! Walls that, opened, make cells roomy. They are found by a rule of thumb: of each dead end the wall that joins the cell
//! farthest from the mouth, of those that have one, to a cell outside of it; a dead end to which such a wall leads needs
//! none.

ghost use Rattle.std.specs.Prelude.{◌≡◌, IfOk, OnOk};
ghost use Rattle.std.specs.List.{All};
ghost use Rattle.fleet_survey.specs.Mended.{IsMending, IsWall};

use crate::chosen::unroomy_list;
use crate::ends::{DeadEnd, take_all};
use crate::opened::opened;
use crate::owners::{Owners, owners_of};
use crate::survey::{Survey, survey_of};
use fleet_grid::{Dir, Grid};
use std::alloc::{AllocError, Global};

/// How often walls are looked for at most, each time in the map with those open that were found before.
const ROUNDS: u32 = 8;

/// Walls, and how many cells are not roomy once they are open.
#[derive(Debug, Drop)]
pub struct Mending {
    pub walls: Vec<u32>,
    pub unroomy: usize,
}

/// The cell next to a cell in a direction, whether floor or not.
fn beside(grid: &Grid, cell: u32, dir: Dir) -> Option<u32> {
    let (width, count) = (grid.width(), grid.cell_count());
    if width == 0 || cell >= count {
        return None;
    }
    match dir {
        Dir::North => cell.checked_sub(width),
        Dir::West => {
            if cell % width > 0 {
                Some(cell - 1)
            } else {
                None
            }
        }
        Dir::East => {
            if cell % width < width - 1 {
                Some(cell + 1)
            } else {
                None
            }
        }
        Dir::South => {
            if cell < count - width {
                Some(cell + width)
            } else {
                None
            }
        }
    }
}

/// A wall of a dead end, and the cell outside to which it leads.
#[derive(Clone, Copy, Debug)]
struct Way {
    wall: u32,
    to: u32,
}

/// The first floor cell next to a wall, other than the mouth, of another dead end or of none.
fn way_out(grid: &Grid, owners: &Owners, number: u32, mouth: u32, wall: u32) -> Option<Way> {
    for dir in Dir::ALL {
        if let Some(to) = beside(grid, wall, dir)
            && grid.is_floor(to)
            && to != mouth
            && owners.of(to) != number
        {
            return Some(Way { wall, to });
        }
    }
    None
}

/// The first way out of a dead end by a wall next to a cell of it.
fn way_at(grid: &Grid, owners: &Owners, number: u32, mouth: u32, cell: u32) -> Option<Way> {
    for dir in Dir::ALL {
        if let Some(wall) = beside(grid, cell, dir)
            && !grid.is_floor(wall)
            && let Some(way) = way_out(grid, owners, number, mouth, wall)
        {
            return Some(way);
        }
    }
    None
}

/// The way out at the last of these cells that has one.
fn last_way(grid: &Grid, owners: &Owners, number: u32, mouth: u32, cells: &[u32]) -> Option<Way> {
    for cell in cells.iter().rev() {
        if let Some(way) = way_at(grid, owners, number, mouth, *cell) {
            return Some(way);
        }
    }
    None
}

/// The cell of a dead end next to its mouth.
fn first_of(grid: &Grid, owners: &Owners, number: u32, mouth: u32) -> Option<u32> {
    for dir in Dir::ALL {
        if let Some(next) = grid.neighbour(mouth, dir)
            && owners.of(next) == number
        {
            return Some(next);
        }
    }
    None
}

/// The wall that is to be opened for the dead end of this number, if there is one. `left` has the cells of the dead ends
/// that were not looked at; where the wall leads to another one, that is open too then.
fn wall_for(
    alloc: Global,
    grid: &Grid,
    owners: &Owners,
    number: u32,
    mouth: u32,
    left: &mut Vec<bool>,
) -> Result<Option<u32>, AllocError> {
    let Some(first) = first_of(grid, owners, number, mouth) else {
        return Ok(None);
    };
    let cells = take_all(alloc, grid, left, first)?;
    match last_way(grid, owners, number, mouth, &cells) {
        Some(way) => {
            take_all(alloc, grid, left, way.to)?;
            Ok(Some(way.wall))
        }
        None => Ok(None),
    }
}

/// Adds a wall, if it is one and was not found before.
fn push_wall(grid: &Grid, walls: &mut Vec<u32>, found: Option<u32>) -> Result<(), AllocError>
    requires { All (IsWall grid.now) walls.old.items }
    ensures { OnOk result (All (IsWall grid.now) walls.new.items) }
{
    if let Some(wall) = found
        && !grid.is_floor(wall)
        && !walls.contains(&wall)
    {
        walls.push(wall)?;
    }
    Ok(())
}

/// Adds a wall for each dead end of a map that has one. The walls that are added are walls of `grid` too.
fn add_walls(
    alloc: Global,
    grid: &Grid,
    map: &Grid,
    found: &Survey,
    walls: &mut Vec<u32>,
) -> Result<(), AllocError>
    requires { All (IsWall grid.now) walls.old.items }
    ensures { OnOk result (All (IsWall grid.now) walls.new.items) }
{
    let owners = owners_of(alloc, map, &found.ends)?;
    let mut left = owners.marks(alloc)?;
    let mut number = 0u32;
    for end in found.ends.iter() {
        number = number.saturating_add(1);
        if let Some(mouth) = end.mouth {
            let wall = wall_for(alloc, map, &owners, number, mouth, &mut left)?;
            push_wall(grid, walls, wall)?;
        }
    }
    Ok(())
}

/// Walls of a map that, opened, make cells roomy for this many robots, and how many cells are not roomy then. They are
/// found by a rule of thumb: other walls may do with fewer, or make more cells roomy. `AllocError` if memory runs out.
pub fn mended(alloc: Global, grid: &Grid, robots: u32) -> Result<Mending, AllocError>
    ensures { IfOk result (IsMending grid.now robots) }
{
    let mut walls = Vec::new(alloc);
    for _ in 0..ROUNDS {
        let map = opened(alloc, grid, &walls)?;
        let found = survey_of(alloc, &map, robots)?;
        add_walls(alloc, grid, &map, &found, &mut walls)?;
    }
    let map = opened(alloc, grid, &walls)?;
    let unroomy = unroomy_list(alloc, &map, robots)?;
    Ok(Mending {
        walls,
        unroomy: unroomy.len(),
    })
}
