//! Measures the time from the opening of a world to its first tick.

use crate::kind::{Kind, grid_of};
use crate::site::Site;
use crate::worlds::{Ground, MOST_ROBOTS, Task, Work, measure_world, order_one};
use fleet_world::World;
use std::alloc::{Alloc, Global};
use std::fs::Files;
use std::io;
use std::thread::Threads;
use std::time::{Clock, Instant};
use test_kit::Random;

/// How many robots there are.
const ROBOTS: usize = 512;

/// The first tick of a world in which each robot has a goal: the time for each robot. All fields are searched in one
/// thread.
pub(crate) fn measure_open<R: Alloc<A = Global> + Clock + Files + Print + Threads + Sync>(
    rt: &R,
    kind: Kind,
    site: &Site,
) -> io::Result<()> {
    let goals = site.goals(rt.alloc(), ROBOTS, &mut Random::from_seed(13))?;
    let mut random = Random::from_seed(11);
    let mut ground = Some(Ground {
        starts: site.starts(rt.alloc(), ROBOTS, &mut random)?,
        grid: grid_of(rt.alloc(), kind)?,
    });
    let task = Task {
        map: kind.name(),
        work: Work::Open {
            start: Instant::now(rt)?,
        },
        goals: &goals,
    };
    measure_world(rt, task, &mut ground, ROBOTS, &mut random)
}

/// Gives each robot a goal, and makes the first tick.
pub(crate) fn first_tick<R: Alloc<A = Global>>(rt: &R, world: &mut World, goals: &[u32]) {
    for robot in 0..MOST_ROBOTS {
        let Some(cell) = goals.get(robot as usize) else {
            break;
        };
        order_one(world, robot, *cell);
    }
    let _report = world.tick(rt);
}
