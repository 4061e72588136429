//! What a look at an office shows.

ghost use Rattle.std.specs.Prelude.{◌≡◌, ◌≤◌, ◌↔◌, length, IfOk, IfSome, IsSome, IsTrue, MatchOption};
ghost use Rattle.fleet_bound.specs.Arriving.{IsIdleWithin};
ghost use Rattle.fleet_bound.specs.Idle.{idle_ticks, longest_after};
ghost use Rattle.fleet_grid.specs.Counts.{floor_count};
ghost use Rattle.fleet_grid.specs.Floor.{IsNeighbour};
ghost use Rattle.fleet_grid.specs.Walk.{IsBridgeless};
ghost use Rattle.fleet_history.specs.History.{clock, place, robots};
ghost use Rattle.fleet_planner.specs.Planned.{waits};
ghost use Rattle.fleet_pibt.specs.Eldest.{IsEldest};
ghost use Rattle.fleet_planner.specs.Aimed.{IsIdle};
ghost use Rattle.fleet_office.specs.Shown.{Shows};

use crate::hall_state::HallState;
use crate::names::OfficeName;
use std::alloc::{AllocError, Allocator, Global};

/// What a look at an office shows.
#[derive(Drop)]
pub struct Look<A: Allocator + Copy = Global> {
    /// The ticks made so far.
    pub tick: u64,
    /// The robots' cells, by number.
    pub placement: Vec<u32, A>,
    /// The robot that has waited longest, where one has an errand.
    pub eldest: Option<u32>,
    /// Whether no robot has an errand.
    pub idle: bool,
    /// The chapter's number.
    pub chapter: u32,
    /// How many entries the chapter has.
    pub entries: u32,
    /// The number of ticks after which no robot has an errand, if no order is taken meanwhile. `None` on a map with a
    /// bridge.
    pub idle_within: Option<u64>,
}

impl<N: OfficeName<A>, A: Allocator + Copy> HallState<N, A> {
    /// The current state, as a look shows it.
    pub fn look(&self, alloc: A) -> Result<Look<A>, AllocError>
        ensures tick { IfOk result (λ l. l.tick ≡ clock self.now.world.history) }
        ensures placement { IfOk result (λ l. l.placement.items ≡ place self.now.world.history) }
        ensures eldest { IfOk result (λ l. MatchOption l.eldest (IsIdle self.now.world.history) (λ e. IsEldest (waits self.now.world.history) e)) }
        ensures idle { IfOk result (λ l. IsTrue l.idle ↔ IsIdle self.now.world.history) }
        ensures chapter { IfOk result (λ l. l.chapter ≡ self.now.world.number) }
        ensures entries { IfOk result (λ l. l.entries ≡ length self.now.world.history.entries) }
        ensures told { IfOk result (λ l. IsSome l.idle_within ↔ IsBridgeless (IsNeighbour self.now.world.floor)) }
        ensures idle_within { IfOk result (λ l. IfSome l.idle_within (λ ticks.
            ticks ≡ idle_ticks (longest_after self.now.world.history) (robots self.now.world.history) (floor_count self.now.world.floor))) }
        ensures within { IfOk result (λ l. IfSome l.idle_within (λ ticks. IsIdleWithin self.now.world.floor self.now.world.history ticks)) }
    {
        let chapter = self.core.chapter();
        // A chapter has fewer entries, so no call ends here.
        let Ok(entries) = u32::try_from(chapter.entries.len()) else {
            return Err(AllocError);
        };
        Ok(Look {
            tick: self.core.clock(),
            placement: Vec::from_slice(alloc, self.core.placement())?,
            eldest: self.core.eldest(),
            idle: self.core.is_idle(),
            chapter: chapter.number,
            entries,
            idle_within: self.core.idle_within(),
        })
    }

    /// The current state, with a clock that is not below an earlier one.
    pub(crate) fn look_from(&self, alloc: A, seen: u64) -> Result<Look<A>, AllocError>
        ensures tick { IfOk result (λ look. seen ≤ look.tick) }
        ensures shown { IfOk result (Shows self.now.world) }
    {
        self.recall_laws();
        let look = self.look(alloc)?;
        // The ledger shows that no call ends here.
        if look.tick < seen {
            return Err(AllocError);
        }
        Ok(look)
    }
}
