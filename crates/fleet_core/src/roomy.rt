//! What a world says of its waits on maps with bridges, where its errands go to roomy cells.

ghost use Rattle.std.specs.Prelude.{◌≡◌, ℕ, ◌<◌, ◌↔◌, None, Some, IsTrue, IsSome, IfSome};
ghost use Rattle.std.specs.List.{list_all};
ghost use Rattle.fleet_bound.specs.Idle.{idle_ticks, longest_after, wait_limit};
ghost use Rattle.fleet_bound.specs.Roomy.{AreOpenRoomy, HasBound, IsIdleByPlan};
ghost use Rattle.fleet_bridge.specs.Roominess.{AreRoomyFor};
ghost use Rattle.fleet_grid.specs.Counts.{floor_count};
ghost use Rattle.fleet_history.specs.History.{robots};
ghost use Rattle.fleet_history.specs.Waits.{wait};
ghost use Rattle.fleet_core.specs.inside.Roomy.{has_room, have_room};

use crate::kernel::Core;
use crate::world::World;
use fleet_bound::{idle_ticks, longest_queue};
use fleet_queue::{Errand, ErrandQueue};
use std::alloc::Allocator;

/// Whether the errand's cell is roomy for this many robots. A cell past the end of the list is for none.
fn has_room(roominess: &[u32], robots: usize, errand: Errand) -> bool
    ensures { result ≡ has_room roominess.now robots errand }
{
    let most = roominess.get(errand.cell as usize).copied().unwrap_or(0);
    robots <= most as usize
}

/// Whether the cell of each errand in the queue is.
fn have_room<A: Allocator + Copy>(roominess: &[u32], robots: usize, queue: &ErrandQueue<A>) -> bool
    ensures { result ≡ have_room roominess.now robots queue.now }
{
    for place in 0..queue.len() {
        if let Some(errand) = queue.get(place) {
            if !has_room(roominess, robots, errand) {
                return false;
            }
        }
    }
    true
}

/// Whether that of each errand in these queues is.
fn all_have_room<A: Allocator + Copy>(
    roominess: &[u32],
    robots: usize,
    queues: &[ErrandQueue<A>],
) -> bool
    ensures { result ≡ list_all (have_room roominess.now robots) queues.now }
{
    queues
        .iter()
        .all(|queue| have_room(roominess, robots, queue))
}

impl<A: Allocator + Copy> Core<A> {
    /// Whether each unfinished errand goes to a cell that is roomy for all robots, by what `fleet_bridge::roominess`
    /// returned for the map. A cell that the list does not have is roomy for no robot.
    pub fn are_roomy(&self, roominess: &[u32]) -> bool
        ensures { AreRoomyFor self.now.floor roominess.now → (IsTrue result ↔ AreOpenRoomy self.now.floor self.now.history) }
    {
        all_have_room(roominess, self.state.robots(), self.state.queues())
    }

    /// The number of ticks after which no robot has an errand, if no order is taken meanwhile: that of `idle_within`, on
    /// maps with bridges too. `None` if an unfinished errand goes to a cell that is not roomy for all robots.
    pub fn roomy_within(&self, roominess: &[u32]) -> Option<u64>
        ensures told { AreRoomyFor self.now.floor roominess.now → (IsSome result ↔ AreOpenRoomy self.now.floor self.now.history) }
        ensures exact { IfSome result (λ ticks. ticks ≡ idle_ticks (longest_after self.now.history) (robots self.now.history) (floor_count self.now.floor)) }
        ensures idle { AreRoomyFor self.now.floor roominess.now → IfSome result (λ ticks. IsIdleByPlan self.now.floor self.now.ties self.now.history ticks) }
    {
        if !self.are_roomy(roominess) {
            return None;
        }
        let longest = longest_queue(self.state.queues());
        Some(idle_ticks(longest, self.state.robots(), self.grid.floor_count()))
    }

    /// A number of ticks that no wait reaches if all errands of the chapter went to roomy cells, and the waits at its
    /// opening left room for the bound (`HasBound`): that of `wait_limit`, on maps with bridges too. `None` if an
    /// unfinished errand goes to a cell that is not roomy for all robots.
    pub fn roomy_wait_limit(&self, roominess: &[u32]) -> Option<u64>
        ensures told { AreRoomyFor self.now.floor roominess.now → (IsSome result ↔ AreOpenRoomy self.now.floor self.now.history) }
        ensures exact { IfSome result (λ most. most ≡ wait_limit (robots self.now.history) (floor_count self.now.floor)) }
        ensures above { self.now.turns ≡ None → HasBound self.now.floor self.now.history →
            IfSome result (λ most. (r w : ℕ) → r < robots self.now.history → wait self.now.history r ≡ Some w → w < most) }
    {
        if !self.are_roomy(roominess) {
            return None;
        }
        Some(idle_ticks(1, self.state.robots(), self.grid.floor_count()))
    }
}

impl<A: Allocator + Copy> World<A> {
    /// Whether each unfinished errand goes to a cell that is roomy for all robots, by what `fleet_bridge::roominess`
    /// returned for the map. A cell that the list does not have is roomy for no robot.
    pub fn are_roomy(&self, roominess: &[u32]) -> bool
        ensures { AreRoomyFor self.now.core.floor roominess.now → (IsTrue result ↔ AreOpenRoomy self.now.core.floor self.now.core.history) }
    {
        self.core.are_roomy(roominess)
    }

    /// The number of ticks after which no robot has an errand, if no order is taken meanwhile: that of `idle_within`, on
    /// maps with bridges too. `None` if an unfinished errand goes to a cell that is not roomy for all robots.
    pub fn roomy_within(&self, roominess: &[u32]) -> Option<u64>
        ensures told { AreRoomyFor self.now.core.floor roominess.now → (IsSome result ↔ AreOpenRoomy self.now.core.floor self.now.core.history) }
        ensures exact { IfSome result (λ ticks. ticks ≡ idle_ticks (longest_after self.now.core.history) (robots self.now.core.history) (floor_count self.now.core.floor)) }
        ensures idle { AreRoomyFor self.now.core.floor roominess.now →
            IfSome result (λ ticks. IsIdleByPlan self.now.core.floor self.now.core.ties self.now.core.history ticks) }
    {
        self.core.roomy_within(roominess)
    }
}
