//! A turn is planned.

ghost use Rattle.std.specs.Prelude.{◌≡◌, ◌++◌, ◌≤◌, ◌<◌, ◌⊎◌, ℕ, Ok, true, false, IfOk, length, map, slice_index};
ghost use Rattle.std.specs.List.{filter};
ghost use Rattle.fleet_execution.specs.Course.{Course, with_step};
ghost use Rattle.fleet_execution.specs.Executes.{IsStep};
ghost use Rattle.fleet_execution.specs.Kept.{desk};
ghost use Rattle.fleet_execution.specs.Stepped.{HasRoom};
ghost use Rattle.live_vehicles.specs.Follows.{AreOn, Follows, IsNoTurn};
ghost use Rattle.live_vehicles.specs.Places.{is_late, is_there, place_of, stand_of, stepped};

use crate::place::{Place, stand_of, stepped};
use crate::sorting::sort_out;
use crate::stand::{Arrived, Stand};
use crate::vehicles::Vehicles;
use std::alloc::{AllocError, Global};

/// Notes a step.
fn note_step(places: &mut Vec<Place>, step: u64, to: &[u32])
    requires { length to.now ≡ length places.old.items }
    ensures length { length places.new.items ≡ length places.old.items }
    ensures stepped { (r : ℕ) → r < length places.old.items → place_of places.new.items r ≡ stepped step (slice_index to.now r) (place_of places.old.items r) }
{
    for robot in 0..places.len() {
        places[robot] = stepped(places[robot], step, to[robot]);
    }
}

/// Where the robots of these arrivals are to stand.
fn stands_of(
    alloc: Global,
    places: &[Place],
    step: u64,
    arrived: &[Arrived],
) -> Result<Vec<Stand>, AllocError>
    ensures { IfOk result (λ stands. stands.items ≡ map (stand_of places.now step) arrived.now) }
{
    arrived
        .iter()
        .map(|one| stand_of(places, step, *one))
        .collect(alloc)
}

impl Vehicles {
    /// Plans a turn that was made: item r of `to` is the cell of robot r after it, and these errands were done in it. Those
    /// whose robot is there already are added to `due`; the others wait. `false`, and nothing is planned, if there is no
    /// room for a turn, or these cells are no step from the placement that was planned last.
    pub fn plan(
        &mut self,
        alloc: Global,
        to: &[u32],
        arrived: &[Arrived],
        due: &mut Vec<Stand>,
    ) -> Result<bool, AllocError>
        ensures refused { result ≡ Ok false → IsNoTurn self.old to.now × (self.new ≡ self.old) × (due.new ≡ due.old) }
        ensures planned { result ≡ Ok true → (o : Course) → Follows self.old o → Follows self.new (with_step o to.now) × AreOn (with_step o to.now) due.old.items due.new.items }
        ensures due { result ≡ Ok true → due.new.items ≡ due.old.items ++ filter (is_there self.new.places.items) (map (stand_of self.new.places.items (desk self.new.run).steps) arrived.now) }
        ensures waits { result ≡ Ok true → self.new.waits.items ≡ self.old.waits.items ++ filter (is_late self.new.places.items) (map (stand_of self.new.places.items (desk self.new.run).steps) arrived.now) }
        ensures first { self.new.first ≡ self.old.first }
    {
        if to.len() != self.places.len() || !self.run.has_room() || !self.run.is_step(to) {
            return Ok(false);
        }
        self.run.plan(to);
        let step = self.run.steps();
        note_step(&mut self.places, step, to);
        let stands = stands_of(alloc, &self.places, step, arrived)?;
        sort_out(&self.places, &stands, due, &mut self.waits)?;
        Ok(true)
    }
}
