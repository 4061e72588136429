//! Measures the step of all robots.

ghost use Rattle.std.specs.Prelude.{◌≡◌, ℕ, ◌<◌, ◌≤◌, length, vec_len};
ghost use Rattle.fleet_grid.specs.Step.{IsPlacement};
ghost use Rattle.bench.specs.Fleet.{AreWithin, Serves, IsUnderWay};

use crate::checks::check_fleet;
use crate::fleet::Fleet;
use crate::kernel::Kernel;
use crate::measure::{Measure, print_measure};
use crate::site::Site;
use fleet_field::Compass;
use fleet_hooks::{TieHook, TieLaw, TieView};
use fleet_pibt::Stepper;
use std::alloc::{Alloc, Global};
use std::io;
use std::time::{Clock, Instant};
use test_kit::Random;

/// How many robots there are.
pub const FLEETS: [usize; 3] = [16, 128, 512];

/// No fleet has more.
pub const MOST: usize = 512;

/// The number of fields from which robots take theirs.
const FIELDS: usize = 64;

/// How many ticks are timed together, and how many times.
const TICKS: u32 = 20;

const REPEATS: u32 = 100;

/// What is measured on a map with this name.
#[derive(Clone, Copy)]
struct Subject<'a> {
    kernel: Kernel,
    map: &'a str,
}

/// A step for each number of robots, or the check of one: the time for each robot.
pub(crate) fn measure_steps<R: Alloc<A = Global> + Clock + Print>(
    rt: &R,
    kernel: Kernel,
    map: &str,
    site: &Site,
) -> io::Result<()> {
    let alloc = rt.alloc();
    let mut ties = Vec::with_capacity(alloc, MOST)?;
    for _ in 0..MOST {
        ties.push(TieHook::new(TieLaw::ANY, Box::new(alloc, |_view: TieView| 0)?))?;
    }
    let mut random = Random::from_seed(11);
    let fields = site.fields(alloc, FIELDS, &mut random)?;
    let subject = Subject { kernel, map };
    measure_each(rt, subject, site, &fields, &ties, &mut random)
}

/// A step for each number of robots, or the check of one: the time for each robot.
fn measure_each<R: Alloc<A = Global> + Clock + Print>(
    rt: &R,
    subject: Subject<'_>,
    site: &Site,
    fields: &[Compass],
    ties: &[TieHook],
    random: &mut Random,
) -> io::Result<()>
    requires some { 0 < length fields.now }
    requires serves { Serves site.now.grid site.now.home fields.now }
    requires tied { length ties.now ≡ MOST }
{
    for robots in FLEETS {
        let starts = site.starts(rt.alloc(), robots.min(MOST), random)?;
        if subject.kernel == Kernel::Check {
            check_fleet(rt, subject.map, site, fields, starts, ties)?;
        } else {
            let count = starts.len();
            let found = time_fleet(rt, site, fields, starts, ties, random)?;
            let things = u64::from(TICKS).saturating_mul(count as u64);
            print_measure(rt, "step", subject.map, count, things, found)?;
        }
    }
    Ok(())
}

/// Steps of a fleet, some ticks at a time.
fn time_fleet<R: Alloc<A = Global> + Clock>(
    rt: &R,
    site: &Site,
    fields: &[Compass],
    starts: Vec<u32>,
    ties: &[TieHook],
    random: &mut Random,
) -> io::Result<Measure>
    requires some { 0 < length fields.now }
    requires serves { Serves site.now.grid site.now.home fields.now }
    requires tied { length ties.now ≡ MOST }
    requires few { vec_len starts ≤ MOST }
    requires placed { IsPlacement site.now.grid starts.items }
    requires within { AreWithin site.now.grid site.now.home starts.items }
{
    let robots = starts.len();
    let ties = &ties[..robots];
    let mut fleet = Fleet::new(rt.alloc(), site, starts, fields.len())?;
    let mut stepper = Stepper::new(rt.alloc(), site.grid.cell_count(), robots as u32)?;
    let mut found = Measure::NONE;
    for _ in 0..REPEATS {
        let nanos = time_ticks(rt, site, fields, &mut fleet, &mut stepper, ties, random)?;
        found = found.with(nanos);
    }
    Ok(found)
}

/// The nanoseconds that some ticks take.
fn time_ticks<R: Alloc<A = Global> + Clock>(
    rt: &R,
    site: &Site,
    fields: &[Compass],
    fleet: &mut Fleet,
    stepper: &mut Stepper,
    ties: &[TieHook],
    random: &mut Random,
) -> io::Result<u128>
    requires some { 0 < length fields.now }
    requires serves { Serves site.now.grid site.now.home fields.now }
    requires way { IsUnderWay site.now.grid site.now.home (length fields.now) fleet.old.from.items fleet.old.to.items fleet.old.waits.items fleet.old.aims.items }
    requires tied { length ties.now ≡ vec_len fleet.old.from }
    requires made { stepper.old ≡ record { cells = length site.now.grid.letters; robots = vec_len fleet.old.from } }
    ensures way { IsUnderWay site.now.grid site.now.home (length fields.now) fleet.new.from.items fleet.new.to.items fleet.new.waits.items fleet.new.aims.items }
    ensures robots { vec_len fleet.new.from ≡ vec_len fleet.old.from }
    ensures made { stepper.new ≡ stepper.old }
{
    let start = Instant::now(rt)?;
    for tick in 0..u64::from(TICKS) {
        fleet.step(site, fields, stepper, ties, tick);
        fleet.arrive(site, fields, random);
    }
    Ok(start.elapsed(rt)?.as_nanos())
}
