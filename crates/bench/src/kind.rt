//! The kinds of maps.

ghost use Rattle.std.specs.Prelude.{◌<◌, ◌≤◌, IfOk};
ghost use Rattle.fleet_map.specs.Form.{HasSides};
ghost use Rattle.fleet_map.specs.Grammar.{view};

use fleet_grid::Grid;
use fleet_map::MapText;
use std::alloc::{AllocError, Global};

/// A kind of map.
#[derive(Clone, Copy, Debug, PartialEq, Eq)]
pub(crate) enum Kind {
    /// Floor everywhere, 1,024 by 1,024.
    Open,
    /// 20 columns and 40 rows of shelves of two by ten cells, 164 by 340, like `warehouse-20-40-10-2-2` of MovingAI.
    Warehouse,
    /// A maze of 512 by 512 without cycles.
    Maze,
    /// One corridor that winds to the middle, 511 by 511.
    Spiral,
    /// Floor with an obstacle on about a fifth of the cells, 512 by 512, like `random-512-512-20` of MovingAI.
    Random,
}

impl Kind {
    /// All kinds.
    pub(crate) const ALL: [Kind; 5] = [
        Kind::Open,
        Kind::Warehouse,
        Kind::Maze,
        Kind::Spiral,
        Kind::Random,
    ];

    /// Its name in a printed line.
    pub(crate) fn name(self) -> &'static str {
        match self {
            Kind::Open => "open",
            Kind::Warehouse => "warehouse",
            Kind::Maze => "maze",
            Kind::Spiral => "spiral",
            Kind::Random => "random",
        }
    }

    /// The number of rows.
    pub(crate) fn height(self) -> u32
        ensures some { 0 < result }
        ensures few { result ≤ 1024 }
    {
        match self {
            Kind::Open => 1024,
            Kind::Warehouse => 164,
            Kind::Maze => 512,
            Kind::Spiral => 511,
            Kind::Random => 512,
        }
    }

    /// The number of columns.
    pub(crate) fn width(self) -> u32
        ensures some { 0 < result }
        ensures few { result ≤ 1024 }
    {
        match self {
            Kind::Open => 1024,
            Kind::Warehouse => 340,
            Kind::Maze => 512,
            Kind::Spiral => 511,
            Kind::Random => 512,
        }
    }

    /// Whether the cell in that row and column is floor.
    fn has_floor(self, row: u32, col: u32) -> bool
        requires low { row < 1024 }
        requires slim { col < 1024 }
    {
        match self {
            Kind::Open => true,
            Kind::Warehouse => !is_outer_wall(row, col) && !is_shelf(row, col),
            Kind::Maze => is_passage(row, col),
            Kind::Spiral => is_corridor(511, row, col),
            Kind::Random => !is_obstacle(row, col),
        }
    }
}

/// Whether a warehouse's outer wall is there.
fn is_outer_wall(row: u32, col: u32) -> bool {
    row == 0 || row == 163 || col == 0 || col == 339
}

/// Whether a shelf is there: two rows by ten columns, with aisles of two cells between shelves.
fn is_shelf(row: u32, col: u32) -> bool {
    if row < 2 || row >= 162 || col < 50 || col >= 290 {
        return false;
    }
    (row - 2) % 4 < 2 && (col - 50) % 12 < 10
}

/// Whether a maze is open there. Each cell of even row and column is joined to the one above it or to the one before
/// it.
fn is_passage(row: u32, col: u32) -> bool
    requires low { row < 1024 }
    requires slim { col < 1024 }
{
    match (row % 2, col % 2) {
        (0, 0) => true,
        (1, 0) => joins_north(row + 1, col),
        (0, 1) => col < 511 && !joins_north(row, col + 1),
        _ => false,
    }
}

/// Whether the cell of even row and column is joined to the one above it; a cell of the first column always is, and one
/// of the first row never.
fn joins_north(row: u32, col: u32) -> bool {
    if row == 0 {
        return false;
    }
    if row > 510 {
        return false;
    }
    col == 0 || mixed(row, col) >> 31 == 1
}

/// Whether a random map has an obstacle there: on one cell in five.
fn is_obstacle(row: u32, col: u32) -> bool {
    (mixed(row, col) >> 8) % 5 == 0
}

/// A number that looks random, the same for each row and column in each run.
fn mixed(row: u32, col: u32) -> u32 {
    let sum = row
        .wrapping_mul(2654435761)
        .wrapping_add(col.wrapping_mul(2246822519));
    (sum ^ (sum >> 15)).wrapping_mul(3266489917)
}

/// Whether the corridor of a spiral of this many rows and columns passes there. The corridor consists of rings. Each
/// ring is cut before its first cell, and joined there to the next ring, if there is one.
pub(crate) fn is_corridor(side: u32, row: u32, col: u32) -> bool
    requires low { row < 1024 }
    requires slim { col < 1024 }
{
    let last = side.saturating_sub(1);
    let ring = row
        .min(col)
        .min(last.saturating_sub(row))
        .min(last.saturating_sub(col));
    let is_turn = row == ring + 1 && col == ring && ring < last / 2;
    (ring % 2 == 0) != is_turn
}

/// The map of a kind.
pub(crate) fn map_of(alloc: Global, kind: Kind) -> Result<MapText, AllocError>
    ensures { IfOk result (λ map. HasSides (view map)) }
{
    let (height, width) = (kind.height(), kind.width());
    let mut cells = Vec::with_capacity(alloc, height as usize * width as usize)?;
    for cell in 0..height * width {
        let is_floor = kind.has_floor(cell / width, cell % width);
        cells.push_reserved(if is_floor { b'.' } else { b'@' });
    }
    Ok(MapText {
        height,
        width,
        cells,
    })
}

/// The floor of the map of a kind.
pub(crate) fn grid_of(alloc: Global, kind: Kind) -> Result<Grid, AllocError> {
    Grid::new(map_of(alloc, kind)?)
}
