//! The ways from each cell to its floor neighbours, found in one pass over the map, so that no later look at a cell
//! reads letters of three rows.

ghost use Rattle.std.specs.Prelude.{◌≡◌, ℕ, ◌+◌, ◌*◌, ◌%◌, ◌<◌, ◌≤◌, ◌↔◌, length, IfOk, IsTrue, MatchOption};
ghost use Rattle.fleet_grid.specs.Floor.{HasForm, IsFloor, IsBeside, IsNeighbourIn, cell_across};
ghost use Rattle.fleet_grid.specs.Ways.{IsWay, AreOpen, AreWays};
ghost use Rattle.fleet_grid.specs.declared.dir.Dir.TheVariants.{North, East, South, West};

use crate::cells::Cells;
use crate::dir::Dir;
use std::alloc::{AllocError, Allocator};

/// Some of the four ways from a cell.
#[derive(Clone, Copy, Debug, PartialEq, Eq)]
pub struct Ways {
    /// Bit `dir.number()` stands for the way in that direction.
    pub byte: u8,
}

impl Ways {
    /// No way.
    pub const NONE: Ways = Ways { byte: 0 };

    /// The ways in those of the four directions for which this is said.
    pub fn of(north: bool, east: bool, south: bool, west: bool) -> Ways
        ensures north { IsWay result.byte North ↔ IsTrue north }
        ensures east { IsWay result.byte East ↔ IsTrue east }
        ensures south { IsWay result.byte South ↔ IsTrue south }
        ensures west { IsWay result.byte West ↔ IsTrue west }
        ensures low { result.byte < 16 }
    {
        Ways {
            byte: u8::from(north) + 2 * u8::from(east) + 4 * u8::from(south) + 8 * u8::from(west),
        }
    }

    /// Whether the way in a direction is one of these.
    #[inline(always)]
    pub fn has(self, dir: Dir) -> bool
        ensures { IsTrue result ↔ IsWay self.byte dir }
    {
        match dir {
            Dir::North => self.byte % 2 == 1,
            Dir::East => self.byte / 2 % 2 == 1,
            Dir::South => self.byte / 4 % 2 == 1,
            Dir::West => self.byte / 8 % 2 == 1,
        }
    }
}

/// Whether a map of that width has a cell next to a cell of that column in a direction; below a cell it always has.
#[tactic(auto, using(crate::proofs::Columns::north_side, crate::proofs::Columns::east_side, crate::proofs::Columns::south_side, crate::proofs::Columns::west_side))]
fn has_side(width: u32, cell: u32, column: u32, dir: Dir) -> bool
    requires wide { 0 < width }
    requires slim { width ≤ 1024 }
    requires column { column ≡ cell % width }
    ensures { IsTrue result ↔ IsBeside width dir cell (cell_across width cell dir) }
{
    match dir {
        Dir::North => width <= cell,
        Dir::East => column + 1 < width,
        Dir::South => true,
        Dir::West => 0 < column,
    }
}

/// Whether there is a cell next to a floor cell of that column in a direction, and it is floor.
#[tactic(auto, using(crate::proofs::Opens::leads_on, crate::proofs::Opens::leads_nowhere))]
fn leads<A: Allocator + Copy>(cells: &Cells<A>, cell: u32, column: u32, dir: Dir) -> bool
    requires floor { IsFloor cells.now cell }
    requires column { column ≡ cell % cells.now.width }
    ensures { IsTrue result ↔ ((w : ℕ) × IsNeighbourIn cells.now dir cell w) }
{
    let (_count, width) = (cells.count(), cells.width());
    if !has_side(width, cell, column, dir) {
        return false;
    }
    cells.is_floor(dir.across(width, cell))
}

/// The ways from a cell of that column.
fn open_ways<A: Allocator + Copy>(cells: &Cells<A>, cell: u32, column: u32) -> Ways
    requires inside { cell < length cells.now.letters }
    requires column { column ≡ cell % cells.now.width }
    ensures open { AreOpen cells.now cell result.byte }
    ensures low { result.byte < 16 }
{
    if !cells.is_floor(cell) {
        return Ways::NONE;
    }
    Ways::of(
        leads(cells, cell, column, Dir::North),
        leads(cells, cell, column, Dir::East),
        leads(cells, cell, column, Dir::South),
        leads(cells, cell, column, Dir::West),
    )
}

/// The column of the cell after a cell of that column.
#[tactic(auto, using(crate::proofs::Columns::next_column, crate::proofs::Columns::last_column))]
fn next_column(width: u32, cell: u32, column: u32) -> u32
    requires wide { 0 < width }
    requires column { column ≡ cell % width }
    requires slim { width ≤ 1024 }
    ensures { result ≡ (cell + 1) % width }
{
    if column + 1 < width { column + 1 } else { 0 }
}

/// The ways from each cell, with one byte for each cell. No cell needs a division: the column is counted.
pub(crate) fn ways_of<A: Allocator + Copy>(
    alloc: A,
    cells: &Cells<A>,
) -> Result<Vec<u8, A>, AllocError>
    ensures { IfOk result (λ ways. AreWays cells.now ways.items) }
{
    let (count, width) = (cells.count(), cells.width());
    let mut ways = Vec::with_capacity(alloc, count as usize)?;
    let mut column = 0;
    for cell in 0..count {
        ways.push_reserved(open_ways(cells, cell, column).byte);
        column = next_column(width, cell, column);
    }
    Ok(ways)
}
