//! Measures the check of a step.

ghost use Rattle.std.specs.Prelude.{◌≡◌, ◌<◌, ◌≤◌, length, vec_len};
ghost use Rattle.fleet_grid.specs.Step.{IsPlacement};
ghost use Rattle.bench.specs.Fleet.{AreWithin, Serves};

use crate::fleet::Fleet;
use crate::measure::{Measure, print_measure};
use crate::site::Site;
use crate::steps::MOST;
use fleet_check::StepChecker;
use fleet_field::Compass;
use fleet_grid::Grid;
use fleet_hooks::TieHook;
use fleet_pibt::Stepper;
use std::alloc::{Alloc, Global};
use std::io;
use std::time::{Clock, Instant};

/// How often a step is checked.
const REPEATS: u32 = 200;

/// The check of a fleet's first step, in which nearly all robots move, and of one in which all stay.
pub(crate) fn check_fleet<R: Alloc<A = Global> + Clock + Print>(
    rt: &R,
    map: &str,
    site: &Site,
    fields: &[Compass],
    starts: Vec<u32>,
    ties: &[TieHook],
) -> io::Result<()>
    requires some { 0 < length fields.now }
    requires serves { Serves site.now.grid site.now.home fields.now }
    requires tied { length ties.now ≡ MOST }
    requires few { vec_len starts ≤ MOST }
    requires placed { IsPlacement site.now.grid starts.items }
    requires within { AreWithin site.now.grid site.now.home starts.items }
{
    let count = starts.len();
    let ties = &ties[..count];
    let mut fleet = Fleet::new(rt.alloc(), site, starts, fields.len())?;
    let mut stepper = Stepper::new(rt.alloc(), site.grid.cell_count(), count as u32)?;
    fleet.step(site, fields, &mut stepper, ties, 0);
    let moved = time_checks(rt, &site.grid, &fleet.to, &fleet.from)?;
    print_measure(rt, "check", map, count, count as u64, moved)?;
    let stood = time_checks(rt, &site.grid, &fleet.to, &fleet.to)?;
    print_measure(rt, "check_still", map, count, count as u64, stood)
}

/// The check of a step from these cells to those, several times.
fn time_checks<R: Alloc<A = Global> + Clock>(
    rt: &R,
    grid: &Grid,
    from: &[u32],
    to: &[u32],
) -> io::Result<Measure>
    requires { IsPlacement grid.now from.now }
{
    let mut found = Measure::NONE;
    let mut checker = StepChecker::new(rt.alloc(), to.len());
    for _ in 0..REPEATS {
        let start = Instant::now(rt)?;
        let _fault = checker.check(grid, from, to);
        found = found.with(start.elapsed(rt)?.as_nanos());
    }
    Ok(found)
}
