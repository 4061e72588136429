//! Moves begin that may begin.

ghost use Rattle.std.specs.Prelude.{◌≡◌, ◌<◌, ℕ, None, IfSome, OnOk, length, slice_set, string_bytes};
ghost use Rattle.execution_law.specs.Rule.{MayBegin};
ghost use Rattle.fleet_execution.specs.Course.{Course};
ghost use Rattle.fleet_execution.specs.Desk.{steps_left};
ghost use Rattle.fleet_execution.specs.Executes.{AreReturned};
ghost use Rattle.fleet_execution.specs.Kept.{desk};
ghost use Rattle.live_vehicles.specs.Begun.{HasBegun, HasReturned};
ghost use Rattle.live_vehicles.specs.Follows.{Follows};
ghost use Rattle.live_vehicles.specs.Places.{place_of};

use crate::place::{Place, place_of};
use crate::print::tell_move;
use crate::vehicles::Vehicles;
use fleet_execution::Move;
use std::alloc::AllocError;

/// Notes that a move of a robot has begun.
fn note_begun(places: &mut Vec<Place>, robot: u32, step: u64)
    ensures { robot < length places.old.items → places.new.items ≡ slice_set places.old.items robot (record (place_of places.old.items robot) { begun = step }) }
{
    if (robot as usize) < places.len() {
        let mut place = place_of(places, robot);
        place.begun = step;
        places[robot as usize] = place;
    }
}

impl Vehicles {
    /// The next move that may begin; it begins with this call. `None` if no move may begin.
    pub(crate) fn begin(&mut self) -> Option<Move>
        ensures none { result ≡ None → (o : Course) → Follows self.old o → AreReturned o × ((r t : ℕ) → r < o.run.plan.robots → MayBegin o.run r t → ⊥) × Follows self.new o }
        ensures some { IfSome result (λ m. (o : Course) → Follows self.old o → HasReturned o m self.new) }
        ensures fewer { IfSome result (λ _. steps_left (desk self.new.run) < steps_left (desk self.old.run)) }
        ensures first { self.new.first ≡ self.old.first }
        ensures waits { self.new.waits ≡ self.old.waits }
    {
        let begun = self.run.begin()?;
        note_begun(&mut self.places, begun.robot, begun.tick);
        Some(begun)
    }

    /// Begins all moves that may begin, and writes a line for each: `move ROBOT FROM TO TICK`.
    pub fn begin_all(&mut self, told: &mut String) -> Result<(), AllocError>
        ensures begun { OnOk result ((o : Course) → Follows self.old o → HasBegun o (string_bytes told.old) (string_bytes told.new) self.new) }
        ensures first { self.new.first ≡ self.old.first }
        ensures waits { self.new.waits ≡ self.old.waits }
    {
        while let Some(begun) = self.begin() {
            tell_move(told, self.first, begun)?;
        }
        Ok(())
    }
}
