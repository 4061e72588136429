//! Measures distance fields, and the compasses that a world uses.

ghost use Rattle.std.specs.Prelude.{ℕ, ◌<◌, length, slice_index};
ghost use Rattle.fleet_grid.specs.Floor.{IsFloor};

use crate::measure::{Measure, print_measure};
use crate::site::Site;
use fleet_field::{Compass, Field, fields};
use fleet_grid::Grid;
use std::alloc::{Alloc, Global};
use std::io;
use std::thread::Threads;
use std::time::{Clock, Instant};
use test_kit::Random;

/// How often one field is searched on each map.
const REPEATS: u32 = 48;

/// How many fields are searched together.
const MANY: usize = 3000;

/// What is searched from a goal.
#[derive(Clone, Copy)]
enum Search {
    Field,
    Compass,
}

/// One field, and one compass: the time for each cell that it reaches.
pub(crate) fn measure_field<R: Alloc<A = Global> + Clock + Print>(
    rt: &R,
    map: &str,
    site: &Site,
) -> io::Result<()> {
    let things = site.cells.len() as u64;
    let fields = time_goals(rt, site, Search::Field)?;
    print_measure(rt, "field", map, 0, things, fields)?;
    let compasses = time_goals(rt, site, Search::Compass)?;
    print_measure(rt, "compass", map, 0, things, compasses)
}

/// The searches from several goals, one after another.
fn time_goals<R: Alloc<A = Global> + Clock>(
    rt: &R,
    site: &Site,
    search: Search,
) -> io::Result<Measure> {
    let mut random = Random::from_seed(7);
    let mut found = Measure::NONE;
    for _ in 0..REPEATS {
        let goal = site.cell(&mut random);
        found = found.with(time_search(rt, &site.grid, goal, search)?);
    }
    Ok(found)
}

/// The nanoseconds that the search from a goal takes.
fn time_search<R: Alloc<A = Global> + Clock>(
    rt: &R,
    grid: &Grid,
    goal: u32,
    search: Search,
) -> io::Result<u128>
    requires { IsFloor grid.now goal }
{
    let start = Instant::now(rt)?;
    match search {
        Search::Field => {
            let _field = Field::from(rt.alloc(), grid, goal)?;
        }
        Search::Compass => {
            let _compass = Compass::from(rt.alloc(), grid, goal)?;
        }
    }
    Ok(start.elapsed(rt)?.as_nanos())
}

/// Many fields, one after another and on all processors: the time for each cell that they reach.
pub(crate) fn measure_fields<R: Alloc<A = Global> + Clock + Print + Threads + Sync>(
    rt: &R,
    map: &str,
    site: &Site,
) -> io::Result<()> {
    let goals = site.goals(rt.alloc(), MANY, &mut Random::from_seed(7))?;
    let things = (site.cells.len() as u64).saturating_mul(MANY as u64);
    let in_turn = Measure::NONE.with(time_in_turn(rt, &site.grid, &goals)?);
    print_measure(rt, "fields_in_turn", map, 0, things, in_turn)?;
    let together = Measure::NONE.with(time_together(rt, &site.grid, &goals)?);
    print_measure(rt, "fields", map, 0, things, together)
}

/// The nanoseconds that the fields of all goals take, one after another.
fn time_in_turn<R: Alloc<A = Global> + Clock>(
    rt: &R,
    grid: &Grid,
    goals: &[u32],
) -> io::Result<u128>
    requires { (k : ℕ) → k < length goals.now → IsFloor grid.now (slice_index goals.now k) }
{
    let start = Instant::now(rt)?;
    let mut made = Vec::with_capacity(rt.alloc(), goals.len())?;
    for goal in goals {
        made.push(Field::from(rt.alloc(), grid, *goal)?)?;
    }
    Ok(start.elapsed(rt)?.as_nanos())
}

/// The nanoseconds that the fields of all goals take together.
fn time_together<R: Alloc<A = Global> + Clock + Threads + Sync>(
    rt: &R,
    grid: &Grid,
    goals: &[u32],
) -> io::Result<u128>
    requires { (k : ℕ) → k < length goals.now → IsFloor grid.now (slice_index goals.now k) }
{
    let start = Instant::now(rt)?;
    let _made = fields(rt, rt.alloc(), grid, goals)?;
    Ok(start.elapsed(rt)?.as_nanos())
}
