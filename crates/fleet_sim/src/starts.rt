//! The cells on which robots start.

ghost use Rattle.std.specs.Prelude.{◌≡◌, IfOk, length};
ghost use Rattle.fleet_grid.specs.Floor.{IsFloor};

use crate::draw::below;
use crate::setting::Setting;
use fleet_grid::Grid;
use rand_xoshiro::Xoshiro256PlusPlus;
use std::alloc::{AllocError, Global};

/// The floor cells, by number.
pub(crate) fn floor_cells(alloc: Global, grid: &Grid) -> Result<Vec<u32>, AllocError> {
    (0..grid.cell_count())
        .filter(|cell| grid.is_floor(*cell))
        .collect(alloc)
}

/// Exchanges the cell at a place with a random one from there on.
fn exchange(cells: &mut [u32], place: usize, random: &mut Xoshiro256PlusPlus)
    ensures { length cells.new ≡ length cells.old }
{
    if place < cells.len() {
        let other = place + below(random, cells.len() - place);
        cells.swap(place, other);
    }
}

/// The first cells of a random order of these, as many as asked for, or all if there are fewer.
fn some_of(cells: Vec<u32>, count: usize, random: &mut Xoshiro256PlusPlus) -> Vec<u32> {
    let mut cells = cells;
    for place in 0..count {
        exchange(cells.as_mut_slice(), place, random);
    }
    cells.truncate(count);
    cells
}

/// Whether the first cells of a list, this many, are distinct floor cells.
pub(crate) fn are_starts(grid: &Grid, cells: &[u32], robots: usize) -> bool {
    if cells.len() < robots {
        return false;
    }
    (0..robots).all(|place| grid.is_floor(cells[place]) && !cells[..place].contains(&cells[place]))
}

/// The first cells of a list, at most this many.
fn first_of(alloc: Global, cells: &[u32], robots: usize) -> Result<Vec<u32>, AllocError> {
    let mut starts = Vec::from_slice(alloc, cells)?;
    starts.truncate(robots);
    Ok(starts)
}

/// The start cells of the robots: those that are given, or distinct random floor cells.
pub(crate) fn starts_of(
    alloc: Global,
    grid: &Grid,
    setting: Setting<'_>,
    random: &mut Xoshiro256PlusPlus,
) -> Result<Vec<u32>, AllocError> {
    let robots = setting.robots as usize;
    match setting.starts {
        Some(cells) => first_of(alloc, cells, robots),
        None => Ok(some_of(floor_cells(alloc, grid)?, robots, random)),
    }
}
