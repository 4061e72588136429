//! The longest wait of a core's robots, and a limit that no wait reaches.

ghost use Rattle.std.specs.Prelude.{◌≡◌, ℕ, ◌<◌, ◌↔◌, Some, IsSome, IfSome, MatchOption};
ghost use Rattle.fleet_bound.specs.Idle.{wait_limit};
ghost use Rattle.fleet_grid.specs.Counts.{floor_count};
ghost use Rattle.fleet_grid.specs.Floor.{IsNeighbour};
ghost use Rattle.fleet_grid.specs.Walk.{IsBridgeless};
ghost use Rattle.fleet_history.specs.History.{robots};
ghost use Rattle.fleet_history.specs.Waits.{wait};
ghost use Rattle.fleet_pibt.specs.Eldest.{IsEldest};
ghost use Rattle.fleet_planner.specs.Aimed.{IsIdle};
ghost use Rattle.fleet_planner.specs.Planned.{waits};

use crate::kernel::Core;
use fleet_bound::idle_within;
use std::alloc::Allocator;

impl<A: Allocator + Copy> Core<A> {
    /// How many ticks the eldest robot has waited; `None` if no robot has an errand.
    pub fn longest_wait(&self) -> Option<u64>
        ensures { MatchOption result (IsIdle self.now.history) (λ w. (r : ℕ) × IsEldest (waits self.now.history) r × (wait self.now.history r ≡ Some w)) }
    {
        self.wait_of(self.eldest()?)
    }

    /// A number of ticks that no wait reaches, whatever is posted: (number of robots) times (the most edges that a walk
    /// can have, at least 1). `None` on a map with a bridge.
    pub fn wait_limit(&self) -> Option<u64>
        ensures told { IsSome result ↔ IsBridgeless (IsNeighbour self.now.floor) }
        ensures exact { IfSome result (λ most. most ≡ wait_limit (robots self.now.history) (floor_count self.now.floor)) }
        ensures above { IfSome result (λ most. (r w : ℕ) → r < robots self.now.history → wait self.now.history r ≡ Some w → w < most) }
    {
        idle_within(
            1,
            self.state.robots(),
            self.grid.floor_count(),
            self.planner.is_bridgeless(),
        )
    }
}
