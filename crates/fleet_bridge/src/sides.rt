//! A map with the ways of its cells at hand, so that no look-up of a neighbour divides.

ghost use Rattle.std.specs.Prelude.{◌≡◌, ℕ, MatchOption};
ghost use Rattle.fleet_grid.specs.Floor.{IsNeighbourIn};

use fleet_grid::{Dir, Grid, Ways};
use std::alloc::Allocator;
use std::marker::Model;

/// A map with the ways of its cells. Contracts see the map.
#[derive(Drop)]
pub(crate) struct Sides<'a, B: Allocator + Copy> {
    grid: &'a Grid<B>,
    width: u32,
    ways: &'a [u8],
}

impl<'a, B: Allocator + Copy> Model for Sides<'a, B> {
    ghost use Rattle.fleet_grid.specs.Floor.{Floor};
    ghost use Rattle.fleet_bridge.specs.inside.Sides.{AreSides};

    ghost Value = { Floor };

    ghost view = { λ s. s.grid.now };

    ghost invariant = { λ s. AreSides s.grid.now s.width s.ways.now };
}

impl<'a, B: Allocator + Copy> Sides<'a, B> {
    /// The ways of a map's cells.
    pub(crate) fn new(grid: &'a Grid<B>) -> Sides<'a, B>
        ensures { result ≡ grid.now }
    {
        Sides {
            grid,
            width: grid.width(),
            ways: grid.ways(),
        }
    }

    /// The map.
    pub(crate) fn grid(&self) -> &Grid<B>
        ensures { result.now ≡ self.now }
    {
        self.grid
    }

    /// The map's width.
    #[inline(always)]
    pub(crate) fn width(&self) -> u32 {
        self.width
    }

    /// The ways of each cell, as bytes of `Ways`.
    #[inline(always)]
    pub(crate) fn ways(&self) -> &[u8] {
        self.ways
    }

    /// The ways from a cell, as a byte of `Ways`; none past the last cell.
    #[inline(always)]
    pub(crate) fn ways_from(&self, cell: u32) -> u8 {
        let at = cell as usize;
        if at < self.ways.len() {
            self.ways[at]
        } else {
            0
        }
    }

    /// The floor cell next to a cell in a direction; `None` if either of the two is not floor.
    #[inline(always)]
    pub(crate) fn beside(&self, cell: u32, dir: Dir) -> Option<u32>
        ensures { MatchOption result ((b : ℕ) → IsNeighbourIn self.now dir cell b → ⊥) (λ b. IsNeighbourIn self.now dir cell b) }
    {
        let at = cell as usize;
        if at >= self.ways.len() {
            return None;
        }
        let ways = Ways {
            byte: self.ways[at],
        };
        if ways.has(dir) {
            Some(dir.across(self.width, cell))
        } else {
            None
        }
    }
}
