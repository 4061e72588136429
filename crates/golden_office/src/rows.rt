//! The results of an office's calls in test cases worked out by hand, with a line for each call: the call, its result,
//! and, if the call may change the office, what a look shows afterwards. Then test cases in which each allocation of a
//! call is refused in turn and the call is made again, and whether everything went on as without the refusal.

mod calls;
mod case;
mod faults;
mod hall;
mod live;
mod meter;
mod onward;
mod opening;
mod plan;
mod play;
mod refused;
mod stage;
mod table;

use case::Case;
use meter::Meter;
use opening::perform;
use plan::Plan;
use refused::{find_lanes, tell_refused, tell_spared};
use std::alloc::{Alloc, AllocError, Global};
use std::fmt::Write;
use std::sync::Wait;
use std::thread::Threads;
use table::{refused_rows, rows};

/// Prints a test case, after its name.
fn tell_row<R: Alloc<A = Global> + Threads + Sync + Wait>(
    rt: &R,
    meter: &Meter<Global>,
    case: &Case<'_>,
    told: &mut String,
) -> Result<(), AllocError> {
    writeln!(told, "= {}", case.name)?;
    perform(rt, case, Plan::none(meter), told)
}

/// Prints all cases.
fn tell_rows<R: Alloc<A = Global> + Threads + Sync + Wait>(
    rt: &R,
    meter: &Meter<Global>,
    told: &mut String,
) -> Result<(), AllocError> {
    for case in rows() {
        tell_row(rt, meter, case, told)?;
    }
    Ok(())
}

/// Prints the cases in which allocations are refused.
fn tell_refused_rows<R: Alloc<A = Global> + Threads + Sync + Wait>(
    rt: &R,
    meter: &Meter<Global>,
    told: &mut String,
) -> Result<(), AllocError> {
    for case in refused_rows() {
        tell_refused(rt, meter, case, told)?;
    }
    Ok(())
}

/// What is printed of the cases over this heap.
fn tell_over<R: Alloc<A = Global> + Threads + Sync + Wait>(
    rt: &R,
    meter: &Meter<Global>,
    told: &mut String,
) -> Result<(), AllocError> {
    tell_rows(rt, meter, told)?;
    tell_refused_rows(rt, meter, told)?;
    let finding = find_lanes(meter);
    writeln!(told, "= refused lane_pair\n{finding:?}")?;
    tell_spared(rt, meter, told)
}

/// What is printed of the cases.
pub(crate) fn tell<R: Alloc<A = Global> + Threads + Sync + Wait>(
    rt: &R,
    told: &mut String,
) -> Result<(), AllocError> {
    tell_over(rt, &Meter::new(rt.alloc()), told)
}
