//! The warehouse: aisles round shelves.

ghost use Rattle.std.specs.Prelude.{◌≡◌, ◌*◌, ◌≤◌, length, IfOk};

use fleet_grid::Grid;
use fleet_map::MapText;
use std::alloc::{AllocError, Global};

const HEIGHT: u32 = 33;

const WIDTH: u32 = 61;

/// What is in that row and column: shelves of one row by four columns, with an aisle on each side.
fn letter_at(row: u32, col: u32) -> u8 {
    if row % 2 == 1 && col % 5 != 0 {
        b'@'
    } else {
        b'.'
    }
}

/// The warehouse's letters, row by row.
fn letters(alloc: Global) -> Result<Vec<u8>, AllocError>
    ensures { IfOk result (λ letters. length letters.items ≡ HEIGHT * WIDTH) }
{
    (0..HEIGHT * WIDTH)
        .map(|cell| letter_at(cell / WIDTH, cell % WIDTH))
        .collect(alloc)
}

/// The warehouse. Its map has no bridge.
pub(crate) fn warehouse(alloc: Global) -> Result<Grid, AllocError> {
    Grid::new(MapText {
        height: HEIGHT,
        width: WIDTH,
        cells: letters(alloc)?,
    })
}

/// The floor cells, by number.
pub(crate) fn floor_of(alloc: Global, grid: &Grid) -> Result<Vec<u32>, AllocError> {
    (0..grid.cell_count())
        .filter(|cell| grid.is_floor(*cell))
        .collect(alloc)
}

/// The start cells of this many robots: spread over the cells.
pub(crate) fn starts_on(alloc: Global, cells: &[u32], robots: u32) -> Result<Vec<u32>, AllocError> {
    let robots = robots as usize;
    (0..robots)
        .filter_map(|robot| cells.get(robot.saturating_mul(cells.len()) / robots.max(1)))
        .copied()
        .collect(alloc)
}
