//! One byte for each cell, which says which ways lead nearer to a goal.

ghost use Rattle.std.specs.Prelude.{◌≡◌, ℕ, ◌<◌, ◌≤◌, ◌==◌, ◌↔◌, IsTrue, length, IfOk, None, slice_index, slice_index_or};
ghost use Rattle.std.specs.Int.{bit_at};
ghost use Rattle.fleet_grid.specs.Floor.{IsFloor, IsNeighbourIn};
ghost use Rattle.fleet_grid.specs.Ways.{AreNearer, AreOpen, IsLess};
ghost use Rattle.fleet_field.specs.Field.{IsField};
ghost use Rattle.fleet_field.specs.Compass.{next_cell, steps_down, low};

use crate::bits::{pointed, unseen};
use crate::columns::Columns;
use crate::search::search;
use crate::ways::is_less;
use fleet_grid::{Dir, Grid, Outlook, Ways};
use std::alloc::{AllocError, Allocator, Global};
use std::marker::Model;

/// The ways of a map's cells that lead nearer to a goal, in the low halves of their bytes, and the ways to floor
/// neighbours in the high halves. Contracts see the goal, and the distances and exits cell by cell.
#[derive(Drop)]
pub struct Compass<A: Allocator + Copy = Global> {
    height: u32,
    width: u32,
    goal: u32,
    ways: Vec<u8, A>,
}

impl<A: Allocator + Copy> Model for Compass<A> {
    ghost use Rattle.fleet_field.specs.Field.{Aim};
    ghost use Rattle.fleet_field.specs.Compass.{IsCompass, aim_by};

    ghost Value = { Aim };

    ghost view = { λ c. aim_by c.height c.width c.goal c.ways.items };

    ghost invariant = { λ c. IsCompass c.height c.width c.goal c.ways.items };
}

/// The cell that the first of a cell's ways leads to.
fn next_cell(width: u32, ways: Ways, cell: u32) -> Option<u32>
    requires slim { width ≤ 1048576 }
    requires few { cell < 1048576 }
    ensures { result ≡ next_cell width ways.byte cell }
{
    if ways.has(Dir::North) {
        return Some(Dir::North.across(width, cell));
    }
    if ways.has(Dir::East) {
        return Some(Dir::East.across(width, cell));
    }
    if ways.has(Dir::South) {
        return Some(Dir::South.across(width, cell));
    }
    if ways.has(Dir::West) {
        return Some(Dir::West.across(width, cell));
    }
    None
}

/// The ways of a cell that lead nearer; past the last cell there are none.
fn ways_in(ways: &[u8], cell: u32) -> Ways
    ensures { result.byte ≡ low (slice_index ways.now cell) }
{
    if (cell as usize) < ways.len() {
        Ways {
            byte: ways[cell as usize] & 15,
        }
    } else {
        Ways::NONE
    }
}

/// The number of steps down to the goal.
fn steps_down(width: u32, ways: &[u8], goal: u32, cell: u32) -> Option<u32>
    requires slim { width ≤ 1024 }
    requires few { length ways.now ≤ 1048576 }
    ensures { result ≡ steps_down width ways.now goal (length ways.now) 0 cell }
{
    let mut cell = cell;
    for taken in 0..ways.len() as u32 {
        if cell == goal {
            return Some(taken);
        }
        if cell as usize >= ways.len() {
            return None;
        }
        let here = Ways {
            byte: ways[cell as usize],
        };
        match next_cell(width, here, cell) {
            Some(next) => cell = next,
            None => return None,
        }
    }
    None
}

impl<A: Allocator + Copy> Compass<A> {
    /// Searches the map from a goal, a floor cell.
    pub fn from<B: Allocator + Copy>(
        alloc: A,
        grid: &Grid<B>,
        goal: u32,
    ) -> Result<Compass<A>, AllocError>
        requires { IsFloor grid.now goal }
        ensures { IfOk result (λ compass. IsField grid.now goal compass) }
    {
        Compass::over(Vec::new(alloc), grid, goal)
    }

    /// Searches the map anew, in the memory of a compass that is no longer needed.
    pub(crate) fn from_spare<B: Allocator + Copy>(
        spare: Compass<A>,
        grid: &Grid<B>,
        goal: u32,
    ) -> Result<Compass<A>, AllocError>
        requires { IsFloor grid.now goal }
        ensures { IfOk result (λ compass. IsField grid.now goal compass) }
    {
        Compass::over(spare.ways, grid, goal)
    }

    /// Searches the map in the memory of a list that is no longer needed.
    fn over<B: Allocator + Copy>(
        spare: Vec<u8, A>,
        grid: &Grid<B>,
        goal: u32,
    ) -> Result<Compass<A>, AllocError>
        requires { IsFloor grid.now goal }
        ensures { IfOk result (λ compass. IsField grid.now goal compass) }
    {
        let alloc = *spare.allocator();
        let height = grid.height();
        let columns = Columns::new(grid.width());
        let (stride, _blank) = grid.padded();
        let start = columns.place(stride, goal) as u32;
        let exits = grid.ways();
        let fresh = unseen(alloc, height, columns.width, stride, exits)?;
        let labels = search(alloc, fresh, stride as usize, start, grid.is_ragged())?;
        let ways = pointed(spare, &labels, height, columns.width, stride, exits)?;
        Ok(Compass {
            height,
            width: columns.width,
            goal,
            ways,
        })
    }

    /// The least number of edges of a walk from the cell to the goal, counted by steps; `None` if no walk leads there.
    pub fn at(&self, cell: u32) -> Option<u32>
        ensures { result ≡ slice_index_or self.now.away cell None }
    {
        if cell >= self.height * self.width {
            return None;
        }
        steps_down(self.width, &self.ways, self.goal, cell)
    }

    /// Whether the neighbour in a direction is nearer to the goal than the cell.
    fn is_nearer<B: Allocator + Copy>(&self, grid: &Grid<B>, cell: u32, dir: Dir) -> bool
        ensures { (w : ℕ) → IsNeighbourIn grid.now dir cell w → IsTrue result ↔ IsLess (slice_index_or self.now.away w None) (slice_index_or self.now.away cell None) }
    {
        match grid.neighbour(cell, dir) {
            Some(next) => is_less(self.at(next), self.at(cell)),
            None => false,
        }
    }

    /// The ways from a cell of a map that is not this one's. Kept out of the calls that ask it, which no world lets
    /// come here.
    #[inline(never)]
    fn ways_elsewhere<B: Allocator + Copy>(&self, grid: &Grid<B>, cell: u32) -> Ways
        ensures { AreNearer grid.now (λ c. slice_index_or self.now.away c None) cell result.byte }
    {
        Ways::of(
            self.is_nearer(grid, cell, Dir::North),
            self.is_nearer(grid, cell, Dir::East),
            self.is_nearer(grid, cell, Dir::South),
            self.is_nearer(grid, cell, Dir::West),
        )
    }

    /// The ways from a cell of the map that lead nearer to the goal.
    pub fn ways<B: Allocator + Copy>(&self, grid: &Grid<B>, cell: u32) -> Ways
        ensures { AreNearer grid.now (λ c. slice_index_or self.now.away c None) cell result.byte }
    {
        if grid.width() != self.width {
            return self.ways_elsewhere(grid, cell);
        }
        ways_in(&self.ways, cell)
    }

    /// The ways from a floor cell of the map: those that lead nearer to the goal, and all exits. One byte tells both.
    #[inline(always)]
    pub fn outlook<B: Allocator + Copy>(&self, grid: &Grid<B>, cell: u32) -> Outlook
        requires field { IsField grid.now self.now.goal self.now }
        requires floor { IsFloor grid.now cell }
        ensures nearer { AreNearer grid.now (λ c. slice_index_or self.now.away c None) cell result.nearer.byte }
        ensures exits { AreOpen grid.now cell result.exits.byte }
    {
        let byte = self.ways[cell as usize];
        let exits = Ways { byte: byte >> 4 };
        if grid.width() != self.width {
            return Outlook {
                nearer: self.ways_elsewhere(grid, cell),
                exits,
            };
        }
        Outlook {
            nearer: Ways { byte: byte & 15 },
            exits,
        }
    }

    /// How many cells the map has, which is the number of bytes of the compass.
    pub(crate) fn cells(&self) -> usize
        ensures { result ≡ length self.now.away }
    {
        self.ways.len()
    }

    /// The goal.
    pub fn goal(&self) -> u32
        ensures { result ≡ self.now.goal }
    {
        self.goal
    }
}
