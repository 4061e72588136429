//! The kernels that are measured on one map after another.

use crate::bridges::measure_bridge;
use crate::fields::{measure_field, measure_fields};
use crate::kernel::Kernel;
use crate::kind::{Kind, grid_of};
use crate::lifelong::measure_lifelong;
use crate::opens::measure_open;
use crate::site::Site;
use crate::steps::measure_steps;
use crate::ticks::measure_tick;
use crate::traces::measure_trace;
use std::alloc::{Alloc, Global};
use std::fs::Files;
use std::io;
use std::thread::Threads;
use std::time::Clock;

/// Measures the kernel on each kind of map.
pub(crate) fn measure_kinds<R: Alloc<A = Global> + Clock + Files + Print + Threads + Sync>(
    rt: &R,
    kernel: Kernel,
    kinds: &[Kind],
) -> io::Result<()> {
    for kind in kinds {
        measure_kind(rt, kernel, *kind)?;
    }
    Ok(())
}

fn measure_kind<R: Alloc<A = Global> + Clock + Files + Print + Threads + Sync>(
    rt: &R,
    kernel: Kernel,
    kind: Kind,
) -> io::Result<()> {
    let grid = grid_of(rt.alloc(), kind)?;
    match Site::new(rt.alloc(), grid)? {
        Some(site) => measure_on(rt, kernel, kind, &site),
        None => Ok(()),
    }
}

/// Measures the kernel on a site. Kernels that need no site (hostile shapes, counts of maps) do nothing here.
fn measure_on<R: Alloc<A = Global> + Clock + Files + Print + Threads + Sync>(
    rt: &R,
    kernel: Kernel,
    kind: Kind,
    site: &Site,
) -> io::Result<()> {
    match kernel {
        Kernel::Field => measure_field(rt, kind.name(), site),
        Kernel::Fields => measure_fields(rt, kind.name(), site),
        Kernel::Bridge => measure_bridge(rt, kind.name(), &site.grid),
        Kernel::Check | Kernel::Step => measure_steps(rt, kernel, kind.name(), site),
        Kernel::Tick => measure_tick(rt, kind, site),
        Kernel::Lifelong => measure_lifelong(rt, kind, site),
        Kernel::Open => measure_open(rt, kind, site),
        Kernel::Trace { robots } => measure_trace(rt, kind, site, robots),
        Kernel::Hostile | Kernel::Maps => Ok(()),
    }
}
