//! What the plan of the next tick would have to search.

ghost use Rattle.std.specs.Prelude.{◌≡◌, IfOk};
ghost use Rattle.fleet_planner.specs.Courses.{goals_of, AreOn};
ghost use Rattle.fleet_planner.specs.Searched.{AreMissing, IsSearch};

use crate::planner::Planner;
use fleet_grid::Grid;
use fleet_state::FleetState;
use std::alloc::{AllocError, Allocator};

impl<A: Allocator + Copy> Planner<A> {
    /// Searches one robot's own field as far as the plan of the next tick will ask it, and returns whether some robot's
    /// field was not searched so far. The only error is out of memory.
    pub fn search_one(&mut self, grid: &Grid<A>, state: &FleetState<A>) -> Result<bool, AllocError>
        requires { AreOn grid.now self.old.aims }
        ensures search { IfOk result (λ searched. IsSearch grid.now state.now.cells self.old.aims self.new.aims searched) }
        ensures goals { goals_of self.new.aims ≡ goals_of self.old.aims }
        ensures on { AreOn grid.now self.new.aims }
        ensures size { self.new.size ≡ self.old.size }
        ensures bridge { self.new.bridgeless ≡ self.old.bridgeless }
        ensures kept { self.new.kept ≡ self.old.kept }
    {
        self.aims.search_one(grid, state.place())
    }

    /// How many robots' own fields are not searched yet as far as the plan of the next tick will ask them.
    pub fn missing(&self, grid: &Grid<A>, state: &FleetState<A>) -> usize
        requires { AreOn grid.now self.now.aims }
        ensures { AreMissing grid.now self.now.aims state.now.cells result }
    {
        self.aims.missing(grid, state.place())
    }
}
