//! Whether stamps lie within the laws of their robots.

ghost use Rattle.std.specs.Prelude.{◌≡◌, ◌↔◌, All, IsTrue, map};
ghost use Rattle.std.specs.List.{slice_index_or};
ghost use Rattle.fleet_hooks.specs.Law.{IsStamp};
ghost use Rattle.fleet_history.specs.Legal.{no_law};

use fleet_history::{Arrival, Bye, RobotState};
use fleet_hooks::StampLaw;
use std::alloc::Allocator;

const NO_LAW: StampLaw = StampLaw { low: 0, high: 0 };

fn arrival_law_of<A: Allocator + Copy>(robots: &[RobotState<A>], robot: u32) -> StampLaw
    ensures { result ≡ slice_index_or (map (λ x. x.arrival_law) robots.now) robot no_law }
{
    let r = robot as usize;
    if r < robots.len() {
        robots[r].arrival_law
    } else {
        NO_LAW
    }
}

fn farewell_law_of<A: Allocator + Copy>(robots: &[RobotState<A>], robot: u32) -> StampLaw
    ensures { result ≡ slice_index_or (map (λ x. x.farewell_law) robots.now) robot no_law }
{
    let r = robot as usize;
    if r < robots.len() {
        robots[r].farewell_law
    } else {
        NO_LAW
    }
}

fn is_stamp(law: StampLaw, stamp: u32) -> bool
    ensures { IsTrue result ↔ IsStamp law stamp }
{
    law.low <= stamp && stamp <= law.high
}

/// Whether the stamp of an arrival lies within its robot's law.
fn is_arrival_stamp<A: Allocator + Copy>(robots: &[RobotState<A>], robot: u32, stamp: u32) -> bool
    ensures { IsTrue result ↔ IsStamp (slice_index_or (map (λ x. x.arrival_law) robots.now) robot no_law) stamp }
{
    is_stamp(arrival_law_of(robots, robot), stamp)
}

/// Whether the stamps of arrivals lie within the laws of their robots.
pub(crate) fn are_stamps<A: Allocator + Copy>(robots: &[RobotState<A>], arrived: &[Arrival]) -> bool
    ensures { IsTrue result ↔ All (λ a. IsStamp (slice_index_or (map (λ x. x.arrival_law) robots.now) a.robot no_law) a.stamp) arrived.now }
{
    for arrival in arrived {
        if !is_arrival_stamp(robots, arrival.robot, arrival.stamp) {
            return false;
        }
    }
    true
}

/// Whether the stamp of a farewell lies within its robot's law.
pub(crate) fn is_last_stamp<A: Allocator + Copy>(
    robots: &[RobotState<A>],
    robot: u32,
    stamp: u32,
) -> bool
    ensures { IsTrue result ↔ IsStamp (slice_index_or (map (λ x. x.farewell_law) robots.now) robot no_law) stamp }
{
    is_stamp(farewell_law_of(robots, robot), stamp)
}

/// Whether the stamps of farewells lie within the laws of their robots.
pub(crate) fn are_last_stamps<A: Allocator + Copy>(
    robots: &[RobotState<A>],
    farewells: &[Bye],
) -> bool
    ensures { IsTrue result ↔ All (λ b. IsStamp (slice_index_or (map (λ x. x.farewell_law) robots.now) b.robot no_law) b.stamp) farewells.now }
{
    for bye in farewells {
        if !is_last_stamp(robots, bye.robot, bye.stamp) {
            return false;
        }
    }
    true
}
