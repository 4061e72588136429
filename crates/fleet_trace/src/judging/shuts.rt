//! The rules of a shut.

ghost use Rattle.std.specs.Prelude.{◌≡◌, MatchOption};
ghost use Rattle.fleet_history.specs.Legal.{IsShutAfter};
ghost use Rattle.fleet_state.specs.State.{Of};
ghost use Rattle.fleet_trace.specs.Judged.{ShutBreaks};

use super::stamps::is_last_stamp;
use fleet_history::RobotState;
use fleet_state::FleetState;
use std::alloc::Allocator;

/// The first rule that a shut breaks.
pub(crate) fn broken_shut<A: Allocator + Copy>(
    robots: &[RobotState<A>],
    state: &FleetState<A>,
    robot: u32,
    farewell: Option<u32>,
) -> Option<u8>
    ensures { Of state.now (λ h. h.opening.robots ≡ robots.now → MatchOption result (IsShutAfter h robot farewell) (λ rule. ShutBreaks h robot farewell rule)) }
{
    if robot as usize >= state.robots() {
        return Some(8);
    }
    if state.is_shut(robot) {
        return Some(8);
    }
    if farewell.is_some() != state.front(robot).is_none() {
        return Some(6);
    }
    if let Some(stamp) = farewell {
        if !is_last_stamp(robots, robot, stamp) {
            return Some(7);
        }
    }
    None
}
