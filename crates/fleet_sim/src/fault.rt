//! Why there is no run.

use std::alloc::AllocError;

/// Why a run does not begin, or does not go on; the first reason that holds is returned.
#[derive(Clone, Copy, Debug, PartialEq, Eq)]
pub enum SimFault {
    /// There are not 1 to 512 robots.
    Robots,
    /// The map has fewer floor cells than robots.
    Floor,
    /// The starts that are given are not distinct floor cells, one for each robot.
    Starts,
    /// The robots cannot take turns: the rooms of the map do not pass their checks.
    Turns,
    /// The run has all the ticks and orders that a history may have.
    Full,
    /// Memory ran out.
    NoMemory,
}

impl From<AllocError> for SimFault {
    ghost use Rattle.std.specs.Prelude.{◌≡◌};
    ghost use Rattle.fleet_sim.specs.declared.fault.SimFault.TheVariants.{NoMemory};

    ghost from_gives = { λ _ e. e ≡ NoMemory };

    fn from(_error: AllocError) -> SimFault {
        SimFault::NoMemory
    }
}
