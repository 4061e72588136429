//! Goals beside the map, which tells the exits of each cell.

ghost use Rattle.fleet_grid.specs.Floor.{Floor};

use crate::goals::{Goals, Guide};
use fleet_grid::{Grid, Outlook};
use std::alloc::Allocator;
use std::convert::Infallible;

/// Any goals; the exits of a cell are read from the map.
#[derive(Drop)]
pub(crate) struct OnMap<'a, G> {
    pub(crate) goals: &'a G,
}

impl<'a, G: Goals> Guide for OnMap<'a, G> {
    type Fault = Infallible;

    ghost goal_of = { λ s. G.goal_of s.goals.now };

    ghost distance = { λ s _. G.distance s.goals.now };

    ghost shows = { λ _ _. Unit {0} };

    ghost stays = { λ _ _. Unit {0} };

    ghost stays_same = { λ _. tt };

    ghost stays_on = { λ _ _ _ _ _. tt };

    fn outlook<A: Allocator + Copy>(
        &mut self,
        grid: &Grid<A>,
        robot: u32,
        cell: u32,
    ) -> Result<Outlook, Infallible> {
        Ok(Outlook {
            nearer: self.goals.ways(grid, robot, cell),
            exits: grid.exits(cell),
        })
    }
}
