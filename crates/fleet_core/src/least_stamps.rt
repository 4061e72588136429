//! The least stamps that the robots' laws allow, for ticks without closures.

ghost use Rattle.std.specs.Prelude.{◌≡◌, ◌<◌, All, length, map, vec_len};
ghost use Rattle.fleet_history.specs.Legal.{due_of};
ghost use Rattle.fleet_core.specs.Hooks.{law_at};

use fleet_history::{Arrival, Bye, RobotState};
use std::alloc::Allocator;

/// Gives each arrival the least stamp that its robot's law allows.
pub(crate) fn arrive<A: Allocator + Copy>(arrived: &mut Vec<Arrival, A>, robots: &[RobotState<A>])
    requires { All (λ a. a.robot < length robots.now) arrived.old.items }
    ensures shows { map due_of arrived.new.items ≡ map due_of arrived.old.items }
    ensures stamps { All (λ a. a.stamp ≡ (law_at (map (λ x. x.arrival_law) robots.now) a.robot).low) arrived.new.items }
{
    stamp_arrivals(arrived.as_mut_slice(), robots);
}

/// Gives each farewell the least stamp that its robot's law allows.
pub(crate) fn take_leave<A: Allocator + Copy>(leaving: &mut Vec<Bye, A>, robots: &[RobotState<A>])
    requires { All (λ b. b.robot < length robots.now) leaving.old.items }
    ensures robots { map (λ b. b.robot) leaving.new.items ≡ map (λ b. b.robot) leaving.old.items }
    ensures stamps { All (λ b. b.stamp ≡ (law_at (map (λ x. x.farewell_law) robots.now) b.robot).low) leaving.new.items }
{
    stamp_farewells(leaving.as_mut_slice(), robots);
}

fn stamp_arrivals<A: Allocator + Copy>(arrived: &mut [Arrival], robots: &[RobotState<A>])
    requires { All (λ a. a.robot < length robots.now) arrived.old }
    ensures shows { map due_of arrived.new ≡ map due_of arrived.old }
    ensures stamps { All (λ a. a.stamp ≡ (law_at (map (λ x. x.arrival_law) robots.now) a.robot).low) arrived.new }
{
    for j in 0..arrived.len() {
        let arrival = arrived[j];
        let stamp = least_arrival(robots, arrival.robot);
        arrived[j] = Arrival { stamp, ..arrival };
    }
}

fn stamp_farewells<A: Allocator + Copy>(leaving: &mut [Bye], robots: &[RobotState<A>])
    requires { All (λ b. b.robot < length robots.now) leaving.old }
    ensures robots { map (λ b. b.robot) leaving.new ≡ map (λ b. b.robot) leaving.old }
    ensures stamps { All (λ b. b.stamp ≡ (law_at (map (λ x. x.farewell_law) robots.now) b.robot).low) leaving.new }
{
    for j in 0..leaving.len() {
        let robot = leaving[j].robot;
        let stamp = least_farewell(robots, robot);
        leaving[j] = Bye { robot, stamp };
    }
}

/// The least stamp of the robot's arrivals.
fn least_arrival<A: Allocator + Copy>(robots: &[RobotState<A>], robot: u32) -> u32
    requires { robot < length robots.now }
    ensures { result ≡ (law_at (map (λ x. x.arrival_law) robots.now) robot).low }
{
    robots[robot as usize].arrival_law.low
}

/// The least stamp of the robot's farewell.
fn least_farewell<A: Allocator + Copy>(robots: &[RobotState<A>], robot: u32) -> u32
    requires { robot < length robots.now }
    ensures { result ≡ (law_at (map (λ x. x.farewell_law) robots.now) robot).low }
{
    robots[robot as usize].farewell_law.low
}
