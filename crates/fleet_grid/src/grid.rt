//! A map's floor, with the facts about it that the crates above need.

ghost use Rattle.std.specs.Prelude.{◌≡◌, ℕ, ◌*◌, ◌<◌, ◌≤◌, ◌↔◌, length, IfOk, IsTrue, MatchOption};
ghost use Rattle.fleet_grid.specs.Floor.{floor_of, HasForm, IsFloor, IsNeighbour, IsNeighbourIn};
ghost use Rattle.fleet_grid.specs.Padded.{IsPadded};
ghost use Rattle.fleet_grid.specs.Ways.{AreOpen, AreWays};
ghost use Rattle.fleet_grid.specs.Walk.{AreJoined};
ghost use Rattle.fleet_grid.specs.Counts.{floor_count, edge_count};
ghost use Rattle.fleet_grid.specs.Turns.{IsRagged};

use crate::cells::Cells;
use crate::counts::{edge_count_of, floor_count_of};
use crate::dir::Dir;
use crate::padded::{blank_of, stride_of};
use crate::parts::{is_same_part, parts_of};
use crate::turns;
use crate::ways::{Ways, ways_of};
use fleet_map::MapText;
use std::alloc::{AllocError, Allocator, Global};
use std::marker::Model;

/// The floor of a map. Contracts see its sides and its letters.
#[derive(Drop)]
pub struct Grid<A: Allocator + Copy = Global> {
    cells: Cells<A>,
    stride: u32,
    blank: Vec<u32, A>,
    ways: Vec<u8, A>,
    parts: Vec<u32, A>,
    floor_count: u32,
    is_ragged: bool,
}

impl<A: Allocator + Copy> Model for Grid<A> {
    ghost use Rattle.fleet_grid.specs.Floor.{Floor};
    ghost use Rattle.fleet_grid.specs.inside.Kept.{IsKept};

    ghost Value = { Floor };

    ghost view = { λ g. g.cells };

    ghost invariant = { λ g. IsKept g.cells g.stride g.blank.items g.ways.items g.parts.items g.floor_count g.is_ragged };
}

impl<A: Allocator + Copy> Grid<A> {
    /// The grid of a map.
    pub fn new(map: MapText<A>) -> Result<Grid<A>, AllocError>
        requires low { map.height ≤ 1024 }
        requires slim { map.width ≤ 1024 }
        requires covered { length map.cells.items ≡ map.height * map.width }
        ensures { IfOk result (λ grid. grid ≡ floor_of map.height map.width map.cells.items) }
    {
        let alloc = *map.cells.allocator();
        let cells = Cells::new(map);
        let stride = stride_of(cells.width());
        let blank = blank_of(alloc, &cells, stride)?;
        let ways = ways_of(alloc, &cells)?;
        let parts = parts_of(alloc, &cells)?;
        let floor_count = floor_count_of(&cells);
        let is_ragged = turns::is_ragged(&cells, &ways, floor_count);
        Ok(Grid {
            cells,
            stride,
            blank,
            ways,
            parts,
            floor_count,
            is_ragged,
        })
    }

    /// The number of rows, 1,024 at most.
    pub fn height(&self) -> u32
        ensures value { result ≡ self.now.height }
        ensures form { HasForm self.now }
    {
        self.cells.height()
    }

    /// The number of columns, 1,024 at most.
    pub fn width(&self) -> u32
        ensures value { result ≡ self.now.width }
        ensures form { HasForm self.now }
    {
        self.cells.width()
    }

    /// The number of cells: height times width.
    pub fn cell_count(&self) -> u32
        ensures value { result ≡ length self.now.letters }
        ensures form { HasForm self.now }
    {
        self.cells.count()
    }

    /// Whether the cell is floor. A number beyond the last cell is not.
    pub fn is_floor(&self, cell: u32) -> bool
        ensures { IsTrue result ↔ IsFloor self.now cell }
    {
        self.cells.is_floor(cell)
    }

    /// The floor cell next to a cell in a direction; `None` if either of the two is not floor.
    pub fn neighbour(&self, cell: u32, dir: Dir) -> Option<u32>
        ensures { MatchOption result ((b : ℕ) → IsNeighbourIn self.now dir cell b → ⊥) (λ b. IsNeighbourIn self.now dir cell b) }
    {
        self.cells.neighbour(cell, dir)
    }

    /// Whether the floor cell next to a cell in that direction is this one.
    fn leads(&self, dir: Dir, from: u32, to: u32) -> bool
        ensures { IsTrue result ↔ IsNeighbourIn self.now dir from to }
    {
        match self.neighbour(from, dir) {
            Some(next) => next == to,
            None => false,
        }
    }

    /// Whether an edge leads from the one cell to the other: they are floor and share a side.
    pub fn has_edge(&self, from: u32, to: u32) -> bool
        ensures { IsTrue result ↔ IsNeighbour self.now from to }
    {
        self.leads(Dir::North, from, to)
            || self.leads(Dir::East, from, to)
            || self.leads(Dir::South, from, to)
            || self.leads(Dir::West, from, to)
    }

    /// The padded form, in which a search needs no test for the edges of the map: the length of its rows, and its
    /// places.
    pub fn padded(&self) -> (u32, &[u32])
        ensures padded { IsPadded self.now result.0 result.1.now }
        ensures form { HasForm self.now }
    {
        (self.stride, self.blank.as_slice())
    }

    /// The ways from each cell to its floor neighbours, with one byte for each cell: bit `dir.number()` stands for the
    /// way in that direction.
    pub fn ways(&self) -> &[u8]
        ensures ways { AreWays self.now result.now }
        ensures form { HasForm self.now }
    {
        self.ways.as_slice()
    }

    /// The ways from a floor cell to its floor neighbours.
    pub fn exits(&self, cell: u32) -> Ways
        requires { IsFloor self.now cell }
        ensures { AreOpen self.now cell result.byte }
    {
        let ways = self.ways();
        Ways {
            byte: ways[cell as usize],
        }
    }

    /// Whether a walk joins two floor cells.
    pub fn same_part(&self, a: u32, b: u32) -> bool
        requires a { IsFloor self.now a }
        requires b { IsFloor self.now b }
        ensures { IsTrue result ↔ AreJoined (IsNeighbour self.now) a b }
    {
        is_same_part(&self.cells, self.parts.as_slice(), a, b)
    }

    /// The number of floor cells.
    pub fn floor_count(&self) -> u32
        ensures { result ≡ floor_count self.now }
    {
        self.floor_count
    }

    /// Whether the ways change in more than 11 of 20 floor cells, from one to the next. On such a map no processor can
    /// predict which ways a search finds open.
    pub fn is_ragged(&self) -> bool
        ensures { IsTrue result ↔ IsRagged self.now }
    {
        self.is_ragged
    }

    /// The number of edges: pairs of floor cells that share a side.
    pub fn edge_count(&self) -> u32
        ensures { result ≡ edge_count self.now }
    {
        edge_count_of(&self.cells)
    }
}
