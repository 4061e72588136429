//! A full map, on which each step is checked.

ghost use Rattle.std.specs.Prelude.{◌≡◌, ◌<◌, ◌≤◌, length, vec_len};
ghost use Rattle.fleet_grid.specs.Step.{IsPlacement};
ghost use Rattle.bench.specs.Fleet.{AreWithin, Serves, IsUnderWay};

use crate::fleet::Fleet;
use crate::site::Site;
use fleet_check::check_step;
use fleet_field::Compass;
use fleet_grid::Grid;
use fleet_hooks::{TieHook, TieLaw, TieView};
use fleet_map::MapText;
use fleet_pibt::Stepper;
use std::alloc::{Alloc, AllocError, Global};
use std::io;
use test_kit::Random;

/// How many robots there are: one for each cell.
const ROBOTS: usize = 512;

/// How many steps are made.
const STEPS: u32 = 200;

/// The result of the steps.
#[derive(Clone, Copy)]
struct Steps {
    /// Steps without a conflict.
    free: u32,
    /// Steps in which some robot moved.
    moved: u32,
}

/// A map of 16 by 32 cells, all floor.
fn hall(alloc: Global) -> Result<Grid, AllocError> {
    let cells = vec![in alloc; b'.'; ROBOTS]?;
    Grid::new(MapText {
        height: 16,
        width: 32,
        cells,
    })
}

/// Makes the steps; a robot that reaches its goal gets a new one.
fn count_steps(
    alloc: Global,
    site: &Site,
    fields: &[Compass],
    fleet: &mut Fleet,
    stepper: &mut Stepper,
    ties: &[TieHook],
) -> Steps
    requires some { 0 < length fields.now }
    requires serves { Serves site.now.grid site.now.home fields.now }
    requires way { IsUnderWay site.now.grid site.now.home (length fields.now) fleet.old.from.items fleet.old.to.items fleet.old.waits.items fleet.old.aims.items }
    requires tied { length ties.now ≡ vec_len fleet.old.from }
    requires made { stepper.old ≡ record { cells = length site.now.grid.letters; robots = vec_len fleet.old.from } }
{
    let mut random = Random::from_seed(5);
    let mut steps = Steps { free: 0, moved: 0 };
    for tick in 0..STEPS {
        fleet.step(site, fields, stepper, ties, u64::from(tick));
        let is_free = check_step(alloc, &site.grid, &fleet.to, &fleet.from) == Ok(());
        steps.free = steps.free.saturating_add(u32::from(is_free));
        steps.moved = steps
            .moved
            .saturating_add(u32::from(fleet.to != fleet.from));
        fleet.arrive(site, fields, &mut random);
    }
    steps
}

/// The steps of a fleet with these starts.
fn steps_from(
    alloc: Global,
    site: &Site,
    fields: &[Compass],
    starts: Vec<u32>,
    ties: &[TieHook],
) -> Result<Steps, AllocError>
    requires some { 0 < length fields.now }
    requires serves { Serves site.now.grid site.now.home fields.now }
    requires tied { length ties.now ≡ ROBOTS }
    requires full { vec_len starts ≡ ROBOTS }
    requires placed { IsPlacement site.now.grid starts.items }
    requires within { AreWithin site.now.grid site.now.home starts.items }
{
    let mut fleet = Fleet::new(alloc, site, starts, fields.len())?;
    let mut stepper = Stepper::new(alloc, site.grid.cell_count(), ROBOTS as u32)?;
    Ok(count_steps(alloc, site, fields, &mut fleet, &mut stepper, ties))
}

/// A robot on each cell of the site, each with one of 32 goals; `None` if the starts do not fill the map.
fn crowd_on(alloc: Global, site: &Site) -> Result<Option<Steps>, AllocError> {
    let mut ties = Vec::with_capacity(alloc, ROBOTS)?;
    for _ in 0..ROBOTS {
        ties.push(TieHook::new(TieLaw::ANY, Box::new(alloc, |_view: TieView| 0)?))?;
    }
    let mut random = Random::from_seed(3);
    let fields = site.fields(alloc, 32, &mut random)?;
    let starts = site.starts(alloc, ROBOTS, &mut random)?;
    if starts.len() != ROBOTS || ties.len() != ROBOTS {
        return Ok(None);
    }
    let steps = steps_from(alloc, site, &fields, starts, &ties)?;
    Ok(Some(steps))
}

/// A crowd in the hall; `None` if the starts do not fill the map.
fn crowd(alloc: Global) -> Result<Option<Steps>, AllocError> {
    match Site::new(alloc, hall(alloc)?)? {
        Some(site) => crowd_on(alloc, &site),
        None => Ok(None),
    }
}

/// Prints a line about the steps: how many have no conflict, and whether some robot moved in at least three quarters of
/// them.
pub(crate) fn tell_crowd<R: Alloc<A = Global> + Print>(rt: &R) -> io::Result<()> {
    match crowd(rt.alloc())? {
        Some(Steps { free, moved }) => {
            let moves = moved >= STEPS / 4 * 3;
            println!(rt; "crowd fleet={ROBOTS} steps={STEPS} free={free} moves={moves}")
        }
        None => println!(rt; "crowd: the map is not full"),
    }
}
