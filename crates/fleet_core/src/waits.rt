//! How long a world's robots wait.

ghost use Rattle.std.specs.Prelude.{◌≡◌, ◌<◌, ◌↔◌, None, IsTrue, IsSome, IfSome, MatchOption};
ghost use Rattle.fleet_bound.specs.Arriving.{IsIdleWithin};
ghost use Rattle.fleet_bound.specs.Bound.{wait_bound};
ghost use Rattle.fleet_bound.specs.Idle.{idle_ticks, longest_after};
ghost use Rattle.fleet_bound.specs.Roomy.{HasBound};
ghost use Rattle.fleet_grid.specs.Counts.{floor_count};
ghost use Rattle.fleet_grid.specs.Floor.{IsNeighbour};
ghost use Rattle.fleet_grid.specs.Walk.{IsBridgeless};
ghost use Rattle.fleet_history.specs.History.{robots};
ghost use Rattle.fleet_history.specs.Waits.{wait};
ghost use Rattle.fleet_pibt.specs.Eldest.{IsEldest};
ghost use Rattle.fleet_planner.specs.Planned.{waits};
ghost use Rattle.fleet_planner.specs.Aimed.{IsIdle};

use crate::world::World;
use std::alloc::Allocator;

impl<A: Allocator + Copy> World<A> {
    /// How many ticks the robot has waited for the arrival at its front errand's cell; `None` if it has no errand. It is
    /// below the bound if all errands go to cells that are roomy for all robots, as all cells of a bridgeless map are.
    pub fn wait_of(&self, robot: u32) -> Option<u64>
        requires { robot < robots self.now.core.history }
        ensures wait { result ≡ wait self.now.core.history robot }
        ensures bounded { self.now.core.turns ≡ None → HasBound self.now.core.floor self.now.core.history → IfSome result (λ w. w < wait_bound self.now.core.floor self.now.core.history) }
    {
        self.core.wait_of(robot)
    }

    /// The robot with the longest wait; on a tie, the one with the lowest number; `None` if no robot has an errand.
    pub fn eldest(&self) -> Option<u32>
        ensures { MatchOption result (IsIdle self.now.core.history) (λ e. IsEldest (waits self.now.core.history) e) }
    {
        self.core.eldest()
    }

    /// Whether no robot has an errand.
    pub fn is_idle(&self) -> bool
        ensures { IsTrue result ↔ IsIdle self.now.core.history }
    {
        self.core.is_idle()
    }

    /// The number of ticks after which no robot has an errand, if no order is taken meanwhile: (length of the longest
    /// queue) times (number of robots) times (the most edges that a walk can have). `None` on a map with a bridge.
    pub fn idle_within(&self) -> Option<u64>
        ensures told { IsSome result ↔ IsBridgeless (IsNeighbour self.now.core.floor) }
        ensures exact { IfSome result (λ ticks. ticks ≡ idle_ticks (longest_after self.now.core.history) (robots self.now.core.history) (floor_count self.now.core.floor)) }
        ensures idle { IfSome result (λ ticks. IsIdleWithin self.now.core.floor self.now.core.history ticks) }
    {
        self.core.idle_within()
    }
}
