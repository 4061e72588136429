//! A map's sides and letters: which cells are floor, and which of them is next to which.

ghost use Rattle.std.specs.Prelude.{◌≡◌, ℕ, ◌*◌, ◌<◌, ◌≤◌, ◌↔◌, IsTrue, length, MatchOption};
ghost use Rattle.fleet_grid.specs.Floor.{floor_of, is_floor, HasForm, IsFloor, IsBeside, IsNeighbourIn, cell_across};

use crate::dir::Dir;
use crate::letters::is_floor_byte;
use fleet_map::MapText;
use std::alloc::{Allocator, Global};
use std::marker::Model;

/// The sides of a map, 1,024 at most, and a letter for each cell. Contracts see the map.
#[derive(Drop)]
pub(crate) struct Cells<A: Allocator + Copy = Global> {
    height: u32,
    width: u32,
    letters: Vec<u8, A>,
}

impl<A: Allocator + Copy> Model for Cells<A> {
    ghost use Rattle.fleet_grid.specs.Floor.{Floor, HasForm, floor_of};

    ghost Value = { Floor };

    ghost view = { λ c. floor_of c.height c.width c.letters.items };

    ghost invariant = { λ c. HasForm (floor_of c.height c.width c.letters.items) };
}

/// Whether a map of that width has a cell next to a cell in a direction; below a cell it always has.
#[tactic(auto, using(crate::proofs::Columns::north_side, crate::proofs::Columns::east_end, crate::proofs::Columns::south_side, crate::proofs::Columns::west_end))]
fn has_side(width: u32, cell: u32, dir: Dir) -> bool
    requires wide { 0 < width }
    requires small { cell < 1048576 }
    ensures { IsTrue result ↔ IsBeside width dir cell (cell_across width cell dir) }
{
    match dir {
        Dir::North => width <= cell,
        Dir::East => (cell + 1) % width != 0,
        Dir::South => true,
        Dir::West => cell % width != 0,
    }
}

impl<A: Allocator + Copy> Cells<A> {
    /// The cells of a map.
    pub(crate) fn new(map: MapText<A>) -> Cells<A>
        requires low { map.height ≤ 1024 }
        requires slim { map.width ≤ 1024 }
        requires covered { length map.cells.items ≡ map.height * map.width }
        ensures { result ≡ floor_of map.height map.width map.cells.items }
    {
        let MapText {
            height,
            width,
            cells,
        } = map;
        Cells {
            height,
            width,
            letters: cells,
        }
    }

    /// The number of rows.
    pub(crate) fn height(&self) -> u32
        ensures value { result ≡ self.now.height }
        ensures form { HasForm self.now }
    {
        self.height
    }

    /// The number of columns.
    pub(crate) fn width(&self) -> u32
        ensures value { result ≡ self.now.width }
        ensures form { HasForm self.now }
    {
        self.width
    }

    /// The number of cells: height times width.
    pub(crate) fn count(&self) -> u32
        ensures value { result ≡ length self.now.letters }
        ensures form { HasForm self.now }
    {
        self.height * self.width
    }

    /// The letters, row by row.
    pub(crate) fn letters(&self) -> &[u8]
        ensures { result.now ≡ self.now.letters }
    {
        self.letters.as_slice()
    }

    /// Whether the cell is floor. A number beyond the last cell is not.
    pub(crate) fn is_floor(&self, cell: u32) -> bool
        ensures { result ≡ is_floor self.now cell }
    {
        let at = cell as usize;
        at < self.letters.len() && is_floor_byte(self.letters[at])
    }

    /// The floor cell, which is below the number of cells.
    fn small(&self, cell: u32) -> u32
        requires { IsFloor self.now cell }
        ensures same { result ≡ cell }
        ensures small { result < 1024 * 1024 }
        ensures wide { 0 < self.now.width }
        ensures form { HasForm self.now }
    {
        let _width = self.width;
        cell
    }

    /// The cell on the other side of one of the floor cell's sides.
    fn beside(&self, cell: u32, dir: Dir) -> Option<u32>
        requires { IsFloor self.now cell }
        ensures { MatchOption result ((b : ℕ) → IsBeside self.now.width dir cell b → ⊥) (λ b. IsBeside self.now.width dir cell b) }
    {
        let small = self.small(cell);
        if has_side(self.width, small, dir) {
            Some(dir.across(self.width, small))
        } else {
            None
        }
    }

    /// The floor cell next to a cell in a direction; `None` if either of the two is not floor.
    pub(crate) fn neighbour(&self, cell: u32, dir: Dir) -> Option<u32>
        ensures { MatchOption result ((b : ℕ) → IsNeighbourIn self.now dir cell b → ⊥) (λ b. IsNeighbourIn self.now dir cell b) }
    {
        if !self.is_floor(cell) {
            return None;
        }
        let other = self.beside(cell, dir)?;
        if self.is_floor(other) {
            Some(other)
        } else {
            None
        }
    }
}
