//! A robot reports that it has reached its cell.

ghost use Rattle.std.specs.Prelude.{◌≡◌, ◌++◌, ◌<◌, ℕ, Ok, true, false, IfOk, IfErr, length, slice_set};
ghost use Rattle.std.specs.List.{filter};
ghost use Rattle.fleet_execution.specs.Course.{Course};
ghost use Rattle.live_vehicles.specs.Follows.{Follows, HasReached, HasTaken, IsIdle, Tracks};
ghost use Rattle.live_vehicles.specs.Places.{is_late, is_there, place_of};

use crate::place::{Place, place_of};
use crate::sorting::sort_out;
use crate::stand::Stand;
use crate::vehicles::Vehicles;
use fleet_execution::{Execution, Move, NotUnderWay};
use std::alloc::{AllocError, Global};
use std::mem;

/// Notes that a robot has reached the cell of a move.
fn note_reached(places: &mut Vec<Place>, robot: u32, step: u64)
    ensures { robot < length places.old.items → places.new.items ≡ slice_set places.old.items robot (record (place_of places.old.items robot) { reached = step }) }
{
    if (robot as usize) < places.len() {
        let mut place = place_of(places, robot);
        place.reached = step;
        places[robot as usize] = place;
    }
}

/// Takes the report that a robot has reached the cell to which it is under way.
fn take(run: &mut Execution, places: &mut Vec<Place>, robot: u32) -> Result<Move, NotUnderWay>
    ensures refused { IfErr result (λ _. (run.new ≡ run.old) × (places.new ≡ places.old) × ((o : Course) → Tracks run.old places.old.items o → IsIdle o robot)) }
    ensures taken { IfOk result (λ m. (m.robot ≡ robot) × ((o : Course) → Tracks run.old places.old.items o → HasTaken o robot m.tick run.new places.new.items)) }
{
    let reached = run.reached(robot)?;
    note_reached(places, robot, reached.tick);
    Ok(reached)
}

impl Vehicles {
    /// Takes the report that a robot has reached the cell to which it is under way. The arrivals that waited for this
    /// are added to `due`, in the order in which they were planned. `false`, and nothing changes, if the robot is not
    /// under way, or there is none with this number.
    pub fn reached(
        &mut self,
        alloc: Global,
        robot: u32,
        due: &mut Vec<Stand>,
    ) -> Result<bool, AllocError>
        ensures refused { result ≡ Ok false → (self.new ≡ self.old) × (due.new ≡ due.old) × ((o : Course) → Follows self.old o → IsIdle o robot) }
        ensures reached { result ≡ Ok true → (o : Course) → Follows self.old o → HasReached o robot due.old.items due.new.items self.new }
        ensures due { result ≡ Ok true → due.new.items ≡ due.old.items ++ filter (is_there self.new.places.items) self.old.waits.items }
        ensures waits { result ≡ Ok true → self.new.waits.items ≡ filter (is_late self.new.places.items) self.old.waits.items }
        ensures first { self.new.first ≡ self.old.first }
    {
        match take(&mut self.run, &mut self.places, robot) {
            Err(_) => Ok(false),
            Ok(_) => {
                let waits = mem::replace(&mut self.waits, Vec::new(alloc));
                sort_out(&self.places, &waits, due, &mut self.waits)?;
                Ok(true)
            }
        }
    }
}
