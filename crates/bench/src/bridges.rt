//! Measures the search of the first bridge.

use crate::measure::{Measure, print_measure};
use fleet_bridge::first_bridge;
use fleet_grid::Grid;
use std::alloc::{Alloc, Global};
use std::io;
use std::time::{Clock, Instant};

/// How often the bridge is searched on each map.
const REPEATS: u32 = 8;

/// The first bridge of a map: the time for each cell.
pub(crate) fn measure_bridge<R: Alloc<A = Global> + Clock + Print>(
    rt: &R,
    map: &str,
    grid: &Grid,
) -> io::Result<()> {
    let found = time_bridges(rt, grid)?;
    let things = u64::from(grid.cell_count());
    print_measure(rt, "bridge", map, 0, things, found)
}

/// The first bridge, several times.
fn time_bridges<R: Alloc<A = Global> + Clock>(rt: &R, grid: &Grid) -> io::Result<Measure> {
    let mut found = Measure::NONE;
    for _ in 0..REPEATS {
        let start = Instant::now(rt)?;
        let _bridge = first_bridge(rt.alloc(), grid)?;
        found = found.with(start.elapsed(rt)?.as_nanos());
    }
    Ok(found)
}
