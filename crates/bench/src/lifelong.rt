//! Measures long runs of a world whose robots always have two errands.

ghost use Rattle.std.specs.Prelude.{◌<◌, length};

use crate::kind::Kind;
use crate::site::Site;
use crate::steps::FLEETS;
use crate::worlds::{LIMITS, MOST_ROBOTS, Task, Work, give_one, measure_fleets, order_one};
use fleet_world::{Notice, World};
use std::alloc::{Alloc, Global};
use std::fs::Files;
use std::io;
use std::thread::Threads;
use std::time::{Clock, Instant};
use test_kit::Random;

/// How long a run is: the number of its ticks times the number of its robots.
const ROBOT_TICKS: usize = 256_000;

/// With goals from all cells, one run is made before the run that counts.
const CELLS: Work = Work::Run {
    name: "lifelong_cells",
    before: 1,
};

/// With goals from stations, enough runs are made before the one that counts that each station was a goal twice, and
/// has a whole field: the C++ program has the stations' fields before its first tick.
const STATIONS: Work = Work::Run {
    name: "lifelong_stations",
    before: 12,
};

/// The number of stations.
const STATION_COUNT: usize = 400;

/// The result of a run: its ticks, their nanoseconds with all takes and gives, its arrivals, and its greatest wait.
#[derive(Clone, Copy)]
pub struct Run {
    pub ticks: u64,
    pub nanos: u128,
    pub arrivals: u64,
    pub greatest_wait: u64,
}

impl Run {
    /// Before the first tick.
    pub const NONE: Run = Run {
        ticks: 0,
        nanos: 0,
        arrivals: 0,
        greatest_wait: 0,
    };

    /// With one tick more.
    fn with(self, nanos: u128, arrived: u32, wait: u64) -> Run {
        Run {
            ticks: self.ticks.saturating_add(1),
            nanos: self.nanos.saturating_add(nanos),
            arrivals: self.arrivals.saturating_add(u64::from(arrived)),
            greatest_wait: self.greatest_wait.max(wait),
        }
    }
}

/// Runs for each number of robots, with goals from all cells of the part, and from some stations in it.
pub(crate) fn measure_lifelong<R: Alloc<A = Global> + Clock + Files + Print + Threads + Sync>(
    rt: &R,
    kind: Kind,
    site: &Site,
) -> io::Result<()> {
    measure_run(rt, kind, site, CELLS, &site.cells)?;
    let stations = site.goals(rt.alloc(), STATION_COUNT, &mut Random::from_seed(13))?;
    measure_run(rt, kind, site, STATIONS, &stations)
}

/// A run for each number of robots.
fn measure_run<R: Alloc<A = Global> + Clock + Files + Print + Threads + Sync>(
    rt: &R,
    kind: Kind,
    site: &Site,
    work: Work,
    goals: &[u32],
) -> io::Result<()>
    requires { 0 < length goals.now }
{
    let map = kind.name();
    let task = Task { map, work, goals };
    measure_fleets(rt, kind, site, task, &FLEETS, &mut Random::from_seed(11))
}

/// Several runs of a world, of which only the last counts.
pub(crate) fn time_run<R: Alloc<A = Global> + Clock + Threads + Sync>(
    rt: &R,
    world: &mut World,
    before: u32,
    goals: &[u32],
    random: &mut Random,
) -> io::Result<Run>
    requires { 0 < length goals.now }
{
    for robot in 0..MOST_ROBOTS {
        if robot as usize >= world.robots() {
            break;
        }
        for _ in 0..2 {
            order_one(world, robot, goals[random.below(goals.len())]);
        }
    }
    for _ in 0..before {
        let _uncounted = time_turns(rt, world, goals, random)?;
    }
    time_turns(rt, world, goals, random)
}

/// A run of a world. What is asked of it between the ticks is not timed.
fn time_turns<R: Alloc<A = Global> + Clock + Threads + Sync>(
    rt: &R,
    world: &mut World,
    goals: &[u32],
    random: &mut Random,
) -> io::Result<Run>
    requires { 0 < length goals.now }
{
    let mut run = Run::NONE;
    for _ in 0..ROBOT_TICKS / world.robots().max(1) {
        let start = Instant::now(rt)?;
        let arrived = turn(rt, world, goals, random);
        let nanos = start.elapsed(rt)?.as_nanos();
        run = run.with(nanos, arrived, greatest_wait(world));
    }
    Ok(run)
}

/// Makes one tick, and does what the client does after it: it takes all notices, and gives each robot that arrived a
/// new errand. Returns how many robots arrived.
fn turn<R: Alloc<A = Global> + Threads + Sync>(
    rt: &R,
    world: &mut World,
    goals: &[u32],
    random: &mut Random,
) -> u32
    requires { 0 < length goals.now }
{
    let arrived = match world.tick(rt) {
        Ok(report) => report.arrived,
        Err(_) => 0,
    };
    for _ in 0..LIMITS.mailbox {
        match give_one(world) {
            Some(Notice::Arrived { robot, .. }) => {
                order_one(world, robot, goals[random.below(goals.len())]);
            }
            Some(_) => {}
            None => break,
        }
    }
    arrived
}

/// The greatest wait of all robots now.
fn greatest_wait(world: &World) -> u64 {
    let mut greatest = 0;
    for robot in 0..MOST_ROBOTS {
        if robot as usize >= world.robots() {
            break;
        }
        greatest = greatest.max(world.wait_of(robot).unwrap_or(0));
    }
    greatest
}

/// Prints a line about the run: its name, the map, the robots, the ticks, the arrivals, the ticks per second, the
/// greatest wait, and the nanoseconds per tick and robot.
pub(crate) fn print_run(
    rt: &impl Print,
    name: &str,
    map: &str,
    fleet: usize,
    run: Run,
) -> io::Result<()> {
    let Run {
        ticks,
        nanos,
        arrivals,
        greatest_wait,
    } = run;
    let rate = u128::from(ticks).saturating_mul(1_000_000_000) / nanos.max(1);
    let things = u128::from(ticks).saturating_mul(fleet as u128).max(1);
    let each = nanos.saturating_mul(100) / things;
    println!(rt;
        "{name} map={map} fleet={fleet} ticks={ticks} arrivals={arrivals} ticks_a_second={rate} greatest_wait={greatest_wait} least_ns={}.{:02}",
        each / 100,
        each % 100
    )
}
