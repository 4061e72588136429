//! The world on which ticks or a long run are measured.

ghost use Rattle.std.specs.Prelude.{◌<◌, length};

use crate::kind::{Kind, grid_of};
use crate::lifelong::{print_run, time_run};
use crate::measure::{Measure, print_measure};
use crate::opens::first_tick;
use crate::site::Site;
use crate::ticks::time_ticks;
use crate::traces::time_trace;
use fleet_grid::Grid;
use fleet_hooks::{
    ArrivalHook, ArrivalView, Farewell, FarewellView, Hooks, StampLaw, TieHook, TieLaw, TieView,
};
use fleet_world::{Limits, Notice, Order, World};
use std::alloc::{Alloc, Global};
use std::fs::Files;
use std::io::{self, ErrorKind};
use std::mem;
use std::thread::Threads;
use std::time::{Clock, Instant};
use test_kit::Random;

/// The mailbox has room for the notices of two errands of each robot, and for those errands. The chapter has room for
/// all ticks of several long runs.
pub const LIMITS: Limits = Limits {
    mailbox: 4_096,
    chapter: 1_048_576,
    ..Limits::DEFAULT
};

/// How many bytes of fields are kept: those of all stations of the largest map.
const KEPT: usize = 1 << 29;

/// No world has more robots.
pub const MOST_ROBOTS: u32 = 512;

/// What is measured on a world.
#[derive(Clone, Copy)]
pub enum Work {
    /// Each tick separately.
    Ticks,
    /// A long run with this name, after a number of runs of the same length that are not counted.
    Run { name: &'static str, before: u32 },
    /// A number of ticks in which the first robot goes to the first goal. The caller measures the time.
    Way { ticks: u32 },
    /// The time since the start, when the first tick was made.
    Open { start: Instant },
    /// The chapter of a long run.
    Trace,
}

/// What is measured on a map with this name, and the goals of its robots.
#[derive(Clone, Copy)]
pub(crate) struct Task<'a> {
    pub(crate) map: &'a str,
    pub(crate) work: Work,
    pub(crate) goals: &'a [u32],
}

/// A map, and where robots start on it.
#[derive(Drop)]
pub(crate) struct Ground {
    pub(crate) grid: Grid,
    pub(crate) starts: Vec<u32>,
}

/// Measures a world for each of these numbers of robots.
pub(crate) fn measure_fleets<R: Alloc<A = Global> + Clock + Files + Print + Threads + Sync>(
    rt: &R,
    kind: Kind,
    site: &Site,
    task: Task<'_>,
    fleets: &[usize],
    random: &mut Random,
) -> io::Result<()>
    requires { 0 < length task.goals.now }
{
    for robots in fleets {
        let mut ground = Some(Ground {
            starts: site.starts(rt.alloc(), *robots, random)?,
            grid: grid_of(rt.alloc(), kind)?,
        });
        measure_world(rt, task, &mut ground, *robots, random)?;
    }
    Ok(())
}

/// Measures a world with one client and this many robots on the ground, which is taken out of the `Option`. The
/// closures return 0.
pub(crate) fn measure_world<R: Alloc<A = Global> + Clock + Files + Print + Threads + Sync>(
    rt: &R,
    task: Task<'_>,
    ground: &mut Option<Ground>,
    robots: usize,
    random: &mut Random,
) -> io::Result<()>
    requires { 0 < length task.goals.now }
{
    let alloc = rt.alloc();
    let mut hooks = Hooks::new(alloc);
    for _robot in 0..robots {
        let tie = TieHook::new(TieLaw::ANY, Box::new(alloc, |_view: TieView| 0)?);
        let arrival = ArrivalHook::new(StampLaw::ANY, Box::new(alloc, |_view: ArrivalView| 0)?);
        let farewell = Farewell::new(StampLaw::ANY, Box::new(alloc, |_view: FarewellView| 0)?);
        hooks.push(tie, arrival, farewell)?;
    }
    measure_hooked(rt, task, ground, hooks, random)
}

/// Measures a world with these closures.
fn measure_hooked<R: Alloc<A = Global> + Clock + Files + Print + Threads + Sync>(
    rt: &R,
    task: Task<'_>,
    ground: &mut Option<Ground>,
    hooks: Hooks,
    random: &mut Random,
) -> io::Result<()>
    requires { 0 < length task.goals.now }
{
    match ground.take() {
        Some(Ground { grid, starts }) => {
            match World::open(rt.alloc(), grid, starts, 1, LIMITS, hooks) {
                Ok(mut world) => {
                    let worked = work_on(rt, task, &mut world, random);
                    let _ended = world.finish();
                    worked
                }
                Err(_) => Err(io::Error::from(ErrorKind::OutOfMemory)),
            }
        }
        None => {
            mem::drop(hooks);
            Err(io::Error::from(ErrorKind::OutOfMemory))
        }
    }
}

/// Measures a world, and prints the line.
fn work_on<R: Alloc<A = Global> + Clock + Files + Print + Threads + Sync>(
    rt: &R,
    task: Task<'_>,
    world: &mut World,
    random: &mut Random,
) -> io::Result<()>
    requires { 0 < length task.goals.now }
{
    let count = world.robots();
    match task.work {
        Work::Ticks => {
            world.keep(KEPT);
            let found = time_ticks(rt, world, task.goals, random)?;
            print_measure(rt, "tick", task.map, count, count as u64, found)
        }
        Work::Run { name, before } => {
            world.keep(KEPT);
            let run = time_run(rt, world, before, task.goals, random)?;
            print_run(rt, name, task.map, count, run)
        }
        Work::Way { ticks } => {
            order_one(world, 0, task.goals[0]);
            for _tick in 0..ticks {
                let _report = world.tick(rt);
            }
            Ok(())
        }
        Work::Open { start } => {
            first_tick(rt, world, task.goals);
            let found = Measure::NONE.with(start.elapsed(rt)?.as_nanos());
            print_measure(rt, "open", task.map, count, count as u64, found)
        }
        Work::Trace => {
            world.keep(KEPT);
            time_trace(rt, task.map, world, task.goals, random)
        }
    }
}

/// Sends the robot to the cell.
pub(crate) fn order_one(world: &mut World, robot: u32, cell: u32) {
    if world.clients() > 0 {
        let _verdict = world.take(0, Order::Go { robot, cell });
    }
}

/// Takes the first notice out of the mailbox.
pub(crate) fn give_one(world: &mut World) -> Option<Notice> {
    if world.clients() == 0 {
        return None;
    }
    world.give(0)
}
