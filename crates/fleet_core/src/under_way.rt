//! The map of a world, and the errands that its robots are under way to.

ghost use Rattle.std.specs.Prelude.{◌≡◌, ◌<◌};
ghost use Rattle.fleet_history.specs.History.{front, robots};

use crate::kernel::Core;
use crate::world::World;
use fleet_grid::Grid;
use fleet_queue::Errand;
use std::alloc::Allocator;

impl<A: Allocator + Copy> Core<A> {
    /// The map.
    pub fn grid(&self) -> &Grid<A>
        ensures { result.now ≡ self.now.floor }
    {
        &self.grid
    }

    /// The robot's first unfinished errand, to which it is under way.
    pub fn front(&self, robot: u32) -> Option<Errand>
        requires { robot < robots self.now.history }
        ensures { result ≡ front self.now.history robot }
    {
        self.state.front(robot)
    }
}

impl<A: Allocator + Copy> World<A> {
    /// The map.
    pub fn grid(&self) -> &Grid<A>
        ensures { result.now ≡ self.now.core.floor }
    {
        self.core.grid()
    }

    /// The robot's first unfinished errand, to which it is under way.
    pub fn front(&self, robot: u32) -> Option<Errand>
        requires { robot < robots self.now.core.history }
        ensures { result ≡ front self.now.core.history robot }
    {
        self.core.front(robot)
    }
}
