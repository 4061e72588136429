//! Rows in which allocations are refused.

ghost use Rattle.std.specs.Prelude.{◌≡◌};

use crate::rows::case::{Case, Step};
use crate::rows::meter::Meter;
use crate::rows::onward::{SEARCHED_AHEAD, SEARCHED_LATE};
use crate::rows::opening::perform;
use crate::rows::plan::{Call, Plan};
use fleet_book::{Limits, Order};
use fleet_lanes::lane_pair;
use std::alloc::{Alloc, AllocError, Global};
use std::fmt::Write;
use std::sync::Wait;
use std::thread::Threads;

/// No call of a case has more allocations.
const MOST: u64 = 1_000;

/// What became of a call whose allocations were refused, each in a play of its own.
#[derive(Clone, Copy, Debug)]
pub(crate) enum Finding {
    /// The call takes no memory there.
    NoGrowth,
    /// Each play ended as the case.
    AsTheRow,
    /// A play ended otherwise.
    Otherwise,
}

/// The finding after this many refused allocations, with which all was as the case.
fn found(before: u64) -> Finding {
    if before == 0 {
        Finding::NoGrowth
    } else {
        Finding::AsTheRow
    }
}

/// Whether a play with this refusal prints what the case prints without one.
fn is_as<R: Alloc<A = Global> + Threads + Sync + Wait>(
    rt: &R,
    case: &Case<'_>,
    plan: Plan<'_>,
    row: &str,
) -> Result<bool, AllocError> {
    let mut told = String::new(rt.alloc());
    perform(rt, case, plan, &mut told)?;
    Ok(told.as_str() == row)
}

/// Plays a case with each allocation of a call refused in turn, and made again. The result is how many these are, where
/// each play ended as the case.
fn growths<R: Alloc<A = Global> + Threads + Sync + Wait>(
    rt: &R,
    meter: &Meter<Global>,
    case: &Case<'_>,
    call: Call,
    row: &str,
) -> Result<Option<u64>, AllocError> {
    for before in 0..MOST {
        meter.forget();
        let plan = Plan {
            meter,
            call,
            before,
        };
        if !is_as(rt, case, plan, row)? {
            return Ok(None);
        }
        if !meter.has_refused() {
            return Ok(Some(before));
        }
    }
    Ok(None)
}

/// What becomes of a case with each allocation of a call refused in turn.
fn find<R: Alloc<A = Global> + Threads + Sync + Wait>(
    rt: &R,
    meter: &Meter<Global>,
    case: &Case<'_>,
    call: Call,
    row: &str,
) -> Result<Finding, AllocError> {
    match growths(rt, meter, case, call, row)? {
        Some(before) => Ok(found(before)),
        None => Ok(Finding::Otherwise),
    }
}

/// Prints each call of a case that took memory, and was refused it.
fn tell_findings<R: Alloc<A = Global> + Threads + Sync + Wait>(
    rt: &R,
    meter: &Meter<Global>,
    case: &Case<'_>,
    row: &str,
    told: &mut String,
) -> Result<(), AllocError> {
    let desk = find(rt, meter, case, Call::Desk, row)?;
    let open = find(rt, meter, case, Call::Open, row)?;
    write!(told, "Desk: {desk:?}\nOpen: {open:?}\n")?;
    for (number, step) in case.steps.iter().enumerate() {
        if step.grows() {
            match find(rt, meter, case, Call::Step(number), row)? {
                Finding::NoGrowth => {}
                finding => writeln!(told, "{step:?}: {finding:?}")?,
            }
        }
    }
    Ok(())
}

/// What a case prints without a refusal.
fn text_of<R: Alloc<A = Global> + Threads + Sync + Wait>(
    rt: &R,
    meter: &Meter<Global>,
    case: &Case<'_>,
) -> Result<String, AllocError> {
    let mut row = String::new(rt.alloc());
    meter.forget();
    perform(rt, case, Plan::none(meter), &mut row)?;
    Ok(row)
}

/// Plays a case, and prints its calls whose allocations are refused, after its name.
pub(crate) fn tell_refused<R: Alloc<A = Global> + Threads + Sync + Wait>(
    rt: &R,
    meter: &Meter<Global>,
    case: &Case<'_>,
    told: &mut String,
) -> Result<(), AllocError> {
    writeln!(told, "= refused {}", case.name)?;
    let row = text_of(rt, meter, case)?;
    tell_findings(rt, meter, case, &row, told)
}

/// The allocations of the case's last turn.
fn growths_of_turn<R: Alloc<A = Global> + Threads + Sync + Wait>(
    rt: &R,
    meter: &Meter<Global>,
    case: &Case<'_>,
) -> Result<Option<u64>, AllocError> {
    let row = text_of(rt, meter, case)?;
    let mut last = None;
    for (number, step) in case.steps.iter().enumerate() {
        if matches!(step, Step::Turn(_)) {
            last = Some(number);
        }
    }
    match last {
        Some(number) => growths(rt, meter, case, Call::Step(number), &row),
        None => Ok(None),
    }
}

/// Prints whether a turn allocates less where the field that it needs was searched before.
pub(crate) fn tell_spared<R: Alloc<A = Global> + Threads + Sync + Wait>(
    rt: &R,
    meter: &Meter<Global>,
    told: &mut String,
) -> Result<(), AllocError> {
    let late = growths_of_turn(rt, meter, &SEARCHED_LATE)?;
    let ahead = growths_of_turn(rt, meter, &SEARCHED_AHEAD)?;
    let finding = match (late, ahead) {
        (Some(late), Some(ahead)) if ahead < late => "fewer",
        (Some(_), Some(_)) => "no fewer",
        _ => "unknown",
    };
    writeln!(told, "= a turn after a search ahead\n{finding} growths")
}

/// Whether a lane is made, and takes its first order.
fn is_laned(meter: &Meter<Global>, limits: Limits) -> bool {
    if !limits.is_valid() {
        return false;
    }
    match lane_pair(meter, 0, limits) {
        Ok((mut client, _end)) => client.post(Order::Go { robot: 0, cell: 1 }) == Ok(1),
        Err(AllocError) => false,
    }
}

/// Makes a lane with each allocation refused in turn, and made again.
pub(crate) fn find_lanes(meter: &Meter<Global>) -> Finding {
    for before in 0..MOST {
        meter.forget();
        meter.refuse(before);
        let first = is_laned(meter, Limits::DEFAULT);
        meter.rest();
        if !meter.has_refused() {
            return if first {
                found(before)
            } else {
                Finding::Otherwise
            };
        }
        if first || !is_laned(meter, Limits::DEFAULT) {
            return Finding::Otherwise;
        }
    }
    Finding::Otherwise
}
