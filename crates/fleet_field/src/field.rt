//! The distances of all cells to one goal.

ghost use Rattle.std.specs.Prelude.{◌≡◌, ℕ, ◌↔◌, IfOk, IsTrue, slice_index_or};
ghost use Rattle.fleet_grid.specs.Floor.{IsFloor, IsNeighbourIn};
ghost use Rattle.fleet_grid.specs.Ways.{AreNearer, IsLess};
ghost use Rattle.fleet_field.specs.Field.{IsField};

use crate::columns::Columns;
use crate::flood::flood;
use crate::ways::is_less;
use fleet_grid::{Dir, Grid, WALL, Ways};
use std::alloc::{AllocError, Allocator, Global};
use std::marker::Model;

/// The distances of a map's cells to a goal. Contracts see the goal and the distances, cell by cell.
#[derive(Drop)]
pub struct Field<A: Allocator + Copy = Global> {
    height: u32,
    columns: Columns,
    stride: u32,
    goal: u32,
    dist: Vec<u32, A>,
}

impl<A: Allocator + Copy> Model for Field<A> {
    ghost use Rattle.fleet_field.specs.Field.{Aim, aim_of};
    ghost use Rattle.fleet_field.specs.Kept.{IsLaidOut, aways};

    ghost Value = { Aim };

    ghost view = { λ f. aim_of f.goal (aways f.height f.columns.width f.stride f.dist.items) };

    ghost invariant = { λ f. IsLaidOut f.height f.columns.width f.stride f.dist.items };
}

impl<A: Allocator + Copy> Field<A> {
    /// Searches the map from a goal, a floor cell.
    pub fn from<B: Allocator + Copy>(
        alloc: A,
        grid: &Grid<B>,
        goal: u32,
    ) -> Result<Field<A>, AllocError>
        requires { IsFloor grid.now goal }
        ensures { IfOk result (λ field. IsField grid.now goal field) }
    {
        let height = grid.height();
        let columns = Columns::new(grid.width());
        let (stride, blank) = grid.padded();
        let start = columns.place(stride, goal) as u32;
        let dist = flood(alloc, blank, stride as usize, start)?;
        Ok(Field {
            height,
            columns,
            stride,
            goal,
            dist,
        })
    }

    /// The least number of edges of a walk from the cell to the goal; `None` if no walk leads there.
    pub fn at(&self, cell: u32) -> Option<u32>
        ensures { result ≡ slice_index_or self.now.away cell None }
    {
        if cell >= self.height * self.columns.width {
            return None;
        }
        let dist = self.dist[self.columns.place(self.stride, cell)];
        if dist < WALL { Some(dist) } else { None }
    }

    /// Whether the neighbour in a direction is nearer to the goal than the cell.
    fn is_nearer<B: Allocator + Copy>(&self, grid: &Grid<B>, cell: u32, dir: Dir) -> bool
        ensures { (w : ℕ) → IsNeighbourIn grid.now dir cell w → IsTrue result ↔ IsLess (slice_index_or self.now.away w None) (slice_index_or self.now.away cell None) }
    {
        match grid.neighbour(cell, dir) {
            Some(next) => is_less(self.at(next), self.at(cell)),
            None => false,
        }
    }

    /// The ways from a cell of the map that lead nearer to the goal.
    pub fn ways<B: Allocator + Copy>(&self, grid: &Grid<B>, cell: u32) -> Ways
        ensures { AreNearer grid.now (λ c. slice_index_or self.now.away c None) cell result.byte }
    {
        Ways::of(
            self.is_nearer(grid, cell, Dir::North),
            self.is_nearer(grid, cell, Dir::East),
            self.is_nearer(grid, cell, Dir::South),
            self.is_nearer(grid, cell, Dir::West),
        )
    }

    /// The goal.
    pub fn goal(&self) -> u32
        ensures { result ≡ self.now.goal }
    {
        self.goal
    }
}
