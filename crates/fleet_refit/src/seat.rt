//! A robot's number, and what is known of the robot that has it.

ghost use Rattle.std.specs.Prelude.{◌≡◌};
ghost use Rattle.fleet_refit.specs.Site.{is_held, is_moving};

use fleet_history::RobotState;
use std::alloc::{Allocator, Global};

/// How a robot takes part.
#[derive(Clone, Copy, Debug, PartialEq, Eq)]
pub enum Standing {
    /// It moves with the fleet.
    Moving,
    /// It stands still, and the others go round it.
    Held,
    /// It was taken away.
    Gone,
}

/// What is known of the robot of a number.
#[derive(Drop)]
pub struct Seat<A: Allocator + Copy = Global> {
    pub standing: Standing,
    pub robot: RobotState<A>,
}

/// Whether a robot that takes part in this way moves.
pub(crate) fn is_moving(standing: Standing) -> bool
    ensures { result ≡ is_moving standing }
{
    match standing {
        Standing::Moving => true,
        Standing::Held | Standing::Gone => false,
    }
}

/// Whether a robot that takes part in this way is held.
pub(crate) fn is_held(standing: Standing) -> bool
    ensures { result ≡ is_held standing }
{
    match standing {
        Standing::Held => true,
        Standing::Moving | Standing::Gone => false,
    }
}
