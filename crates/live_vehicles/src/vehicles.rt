//! Vehicles, and how far they have come with a fleet's turns.

ghost use Rattle.std.specs.Prelude.{◌≡◌, ◌↔◌, ◌≤◌, ◌<◌, ℕ, None, IsTrue, IfSome};
ghost use Rattle.fleet_execution.specs.Course.{Course};
ghost use Rattle.fleet_execution.specs.Executes.{Executes};
ghost use Rattle.fleet_execution.specs.Given.{HasRoomFor, IsBehind, IsStanding};
ghost use Rattle.fleet_execution.specs.Kept.{desk};

use crate::place::Place;
use crate::stand::Stand;
use fleet_execution::{Execution, Standing};

/// Vehicles, and how far they have come with a fleet's turns.
#[derive(Drop)]
pub struct Vehicles {
    pub run: Execution,
    /// By robot.
    pub places: Vec<Place>,
    /// The arrivals whose robots are not there yet, in the order in which they were planned.
    pub waits: Vec<Stand>,
    /// The tick of the placement from which the vehicles set out.
    pub first: u64,
}

impl Vehicles {
    /// Whether a further turn may be made: each move of the step that lies as many steps before it as the window has is
    /// reached.
    pub fn has_room(&self) -> bool
        ensures { (o : Course) → Executes (desk self.now.run) o → IsTrue result ↔ HasRoomFor o (desk self.now.run).ahead }
    {
        self.run.has_room()
    }

    /// Where a robot is; `None` if there is none with this number.
    pub fn standing(&self, robot: u32) -> Option<Standing>
        ensures none { result ≡ None → (o : Course) → Executes (desk self.now.run) o → o.run.plan.robots ≤ robot }
        ensures some { IfSome result (λ s. (o : Course) → Executes (desk self.now.run) o → IsStanding o robot s) }
    {
        self.run.standing(robot)
    }

    /// How many turns there are from the first with a move that is not reached; 0 if all are reached.
    pub fn behind(&self) -> u32
        ensures { (o : Course) → Executes (desk self.now.run) o → IsBehind o result }
    {
        self.run.behind()
    }
}
