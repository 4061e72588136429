//! What follows from a turn, and from a report: moves begin, and robots stand where they are to.

ghost use Rattle.std.specs.Prelude.{◌≡◌, ◌⊎◌, Ok, true, false, OnOk, string_bytes};
ghost use Rattle.fleet_execution.specs.Course.{Course, with_step};
ghost use Rattle.live_vehicles.specs.Answers.{HasAnswered, HasTurned};
ghost use Rattle.live_vehicles.specs.Follows.{Follows, IsNoTurn};

use crate::print::tell_refused;
use crate::stand::{Arrived, Stand};
use crate::vehicles::Vehicles;
use std::alloc::{AllocError, Global};

/// What is said to vehicles, and to clients.
#[derive(Drop)]
pub struct Out {
    /// Lines to vehicles.
    pub told: String,
    /// The arrivals whose robots stand where they are to.
    pub due: Vec<Stand>,
}

impl Vehicles {
    /// Plans a turn that was made, as `plan` does, and begins all moves that may begin. `false`, and nothing is planned, if
    /// no turn can be planned with these cells now.
    pub fn turn(
        &mut self,
        alloc: Global,
        to: &[u32],
        arrived: &[Arrived],
        out: &mut Out,
    ) -> Result<bool, AllocError>
        ensures refused { result ≡ Ok false → IsNoTurn self.old to.now × (self.new ≡ self.old) × (out.new ≡ out.old) }
        ensures turned { result ≡ Ok true → (o : Course) → Follows self.old o → HasTurned (with_step o to.now) out.old out.new self.new }
    {
        if !self.plan(alloc, to, arrived, &mut out.due)? {
            return Ok(false);
        }
        self.begin_all(&mut out.told)?;
        Ok(true)
    }

    /// Answers the report that a robot has reached the cell of its move: with the moves that may begin then, and with
    /// `not-under-way ROBOT` if it is not under way.
    pub fn answer(&mut self, alloc: Global, robot: u32, out: &mut Out) -> Result<(), AllocError>
        ensures { OnOk result ((o : Course) → Follows self.old o → HasAnswered o robot out.old out.new self.new) }
    {
        if !self.reached(alloc, robot, &mut out.due)? {
            return tell_refused(&mut out.told, robot);
        }
        self.begin_all(&mut out.told)
    }
}
