//! Measures the tick of a world whose robots get a new errand when they have none.

ghost use Rattle.std.specs.Prelude.{◌<◌, length};

use crate::kind::Kind;
use crate::measure::Measure;
use crate::site::Site;
use crate::steps::FLEETS;
use crate::worlds::{LIMITS, MOST_ROBOTS, Task, Work, give_one, measure_fleets, order_one};
use fleet_world::World;
use std::alloc::{Alloc, Global};
use std::fs::Files;
use std::io;
use std::thread::Threads;
use std::time::{Clock, Instant};
use test_kit::Random;

/// The number of cells from which robots take their goals.
const GOALS: usize = 64;

/// How many ticks are timed, each one separately.
const TICKS: u32 = 200;

/// A tick for each number of robots: the time for each robot.
pub(crate) fn measure_tick<R: Alloc<A = Global> + Clock + Files + Print + Threads + Sync>(
    rt: &R,
    kind: Kind,
    site: &Site,
) -> io::Result<()> {
    let mut random = Random::from_seed(11);
    let goals = site.goals(rt.alloc(), GOALS, &mut random)?;
    let task = Task {
        map: kind.name(),
        work: Work::Ticks,
        goals: &goals,
    };
    measure_fleets(rt, kind, site, task, &FLEETS, &mut random)
}

/// Ticks of a world, each timed separately. What clients do between ticks is not timed.
pub(crate) fn time_ticks<R: Alloc<A = Global> + Clock + Threads + Sync>(
    rt: &R,
    world: &mut World,
    goals: &[u32],
    random: &mut Random,
) -> io::Result<Measure>
    requires { 0 < length goals.now }
{
    let mut found = Measure::NONE;
    for _ in 0..TICKS {
        order_all(world, goals, random);
        let start = Instant::now(rt)?;
        let _report = world.tick(rt);
        found = found.with(start.elapsed(rt)?.as_nanos());
        collect_all(world);
    }
    Ok(found)
}

/// Gives each robot without an errand a new one.
fn order_all(world: &mut World, goals: &[u32], random: &mut Random)
    requires { 0 < length goals.now }
{
    for robot in 0..MOST_ROBOTS {
        let cell = goals[random.below(goals.len())];
        order_idle(world, robot, cell);
    }
}

/// Sends the robot to the cell, if it has no errand.
fn order_idle(world: &mut World, robot: u32, cell: u32) {
    if (robot as usize) < world.robots() && world.wait_of(robot).is_none() {
        order_one(world, robot, cell);
    }
}

/// Empties the mailbox.
fn collect_all(world: &mut World) {
    for _ in 0..LIMITS.mailbox {
        if give_one(world).is_none() {
            break;
        }
    }
}
