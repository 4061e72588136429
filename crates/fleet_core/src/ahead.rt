//! Searches fields before they are needed.

ghost use Rattle.std.specs.Prelude.{◌≡◌, ◌≤◌, false, IfOk};
ghost use Rattle.fleet_history.specs.History.{robots};
ghost use Rattle.fleet_planner.specs.Aimed.{IsIdle};

use crate::kernel::Core;
use crate::world::World;
use std::alloc::{AllocError, Allocator};
use std::thread::Threads;

impl<A: Allocator + Copy + Send + Sync> World<A> {
    /// Searches, in parallel, the fields of the robots' next errands to cells that were robots' goals lately and are
    /// none now, and keeps as many as fit. Fields of other goals grow when they are needed. This changes only the time
    /// and the memory that a take or a tick needs.
    pub fn search_ahead(&mut self, rt: &(impl Threads + Sync)) -> Result<(), AllocError>
        // Of each call: the checker lets closures go to another crate only in a call with a `requires`.
        requires { 0 ≤ self.old.core.number }
        ensures { self.new.core ≡ self.old.core }
    {
        self.core.search_ahead(rt)
    }
}

impl<A: Allocator + Copy> Core<A> {
    /// Searches the field of one robot's goal as far as the next tick will ask it, and returns whether some robot's field
    /// was not searched so far. This changes only the time and the memory that a take or a tick needs. The only error is
    /// out of memory; then the search goes on from there.
    pub fn search_one(&mut self) -> Result<bool, AllocError>
        ensures same { self.new ≡ self.old }
        ensures idle { IsIdle self.old.history → IfOk result (λ searched. searched ≡ false) }
    {
        self.planner.search_one(&self.grid, &self.state)
    }

    /// How many robots' fields are not searched yet as far as the next tick may ask them: after 0 it is planned without a
    /// search. For a robot that arrives in the tick a new search begins.
    pub fn missing(&self) -> usize
        ensures idle { IsIdle self.now.history → result ≡ 0 }
        ensures few { result ≤ robots self.now.history }
    {
        self.planner.missing(&self.grid, &self.state)
    }
}
