//! Why a shield makes no step.

ghost use Rattle.std.specs.Prelude.{◌≡◌};
ghost use Rattle.fleet_c.specs.Shields.{shield_fault_of};

use crate::codes::{
    SHIELD_FAR, SHIELD_LENGTH, SHIELD_MAP, SHIELD_OUTSIDE, SHIELD_SHARED, SHIELD_TWICE,
    SHIELD_UNKNOWN, SHIELD_WALL,
};
use crate::fault::Fault;
use crate::refusal::two;
use fleet_shield::Refusal;

/// The refusal for C.
pub(crate) fn shield_fault(why: Refusal) -> Fault
    ensures { result ≡ shield_fault_of why }
{
    match why {
        Refusal::Map => two(SHIELD_MAP, 0, 0),
        Refusal::Length => two(SHIELD_LENGTH, 0, 0),
        Refusal::Outside(robot) => two(SHIELD_OUTSIDE, u64::from(robot), 0),
        Refusal::Wall(robot) => two(SHIELD_WALL, u64::from(robot), 0),
        Refusal::Shared(a, b) => two(SHIELD_SHARED, u64::from(a), u64::from(b)),
        Refusal::Unknown(place) => two(SHIELD_UNKNOWN, u64::from(place), 0),
        Refusal::Twice(place) => two(SHIELD_TWICE, u64::from(place), 0),
        Refusal::Far(robot, place) => two(SHIELD_FAR, u64::from(robot), u64::from(place)),
    }
}
