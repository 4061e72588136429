//! The opening of a test case: its floor, its robots with their closures, and the type that names its office.

ghost use Rattle.std.specs.Prelude.{◌≡◌};

use crate::floor::grid_of;
use crate::rows::case::Case;
use crate::rows::meter::Meter;
use crate::rows::plan::{Call, Plan};
use crate::rows::play::play;
use crate::rows::stage::Fleet;
use fleet_core::OpenFault;
use fleet_grid::Grid;
use fleet_hooks::{
    ArrivalHook, ArrivalView, Farewell, FarewellView, Hooks, StampLaw, TieHook, TieLaw, TieView,
};
use fleet_office::{Desk, OfficeName};
use std::alloc::{Alloc, AllocError, Allocator, Global};
use std::fmt::Write;
use std::marker::Brand;
use std::mem;
use std::sync::Wait;
use std::thread::Threads;

/// What all of an office lies on.
type Heap<'a> = &'a Meter<Global>;

impl<'a> OfficeName<Heap<'a>> for Brand {
    ghost use Rattle.std.specs.Prelude.{[]};
    ghost use Rattle.fleet_office.specs.Since.{no_world};

    ghost rings = { [] };

    ghost start = { no_world };
}

/// A case's desk.
fn desk_of<A: Allocator + Copy>(
    heap: A,
    case: &Case<'_>,
    plan: Plan<'_>,
) -> Result<Desk<A>, OpenFault> {
    plan.begin(Call::Desk);
    let desk = Desk::new(heap, case.clients, case.limits);
    plan.end();
    desk
}

/// A case's desk, its grid, and where its robots start.
fn site_of<A: Allocator + Copy>(
    heap: A,
    case: &Case<'_>,
    plan: Plan<'_>,
) -> Result<(Desk<A>, Grid<A>, Vec<u32, A>), OpenFault> {
    let grid = grid_of(heap, case.sides, case.letters)?;
    let starts = Vec::from_slice(heap, case.starts)?;
    Ok((desk_of(heap, case, plan)?, grid, starts))
}

/// Plays a case with these closures, or says why its office was not opened.
fn play_with<'a, R: Threads + Sync + Wait>(
    rt: &'a R,
    hooks: Hooks<Heap<'a>>,
    case: &Case<'_>,
    plan: Plan<'a>,
    told: &mut String,
) -> Result<Result<(), OpenFault>, AllocError> {
    match site_of(plan.meter, case, plan) {
        Ok((desk, grid, starts)) => {
            let lent = (rt, plan.meter);
            let fleet = Fleet {
                grid,
                starts,
                hooks,
            };
            play::<Brand, Heap<'_>, (&R, Heap<'_>)>(&lent, desk, fleet, case, plan, told)
        }
        Err(fault) => {
            mem::drop(hooks);
            Ok(Err(fault))
        }
    }
}

/// Plays a case with closures that return 0, or says why it was not opened.
fn opened_play<'a, R: Alloc<A = Global> + Threads + Sync + Wait>(
    rt: &'a R,
    case: &Case<'_>,
    plan: Plan<'a>,
    told: &mut String,
) -> Result<Result<(), OpenFault>, AllocError> {
    let alloc = rt.alloc();
    let mut hooks = Hooks::new(plan.meter);
    for _robot in case.starts {
        let tie = TieHook::new(TieLaw::ANY, Box::new(alloc, |_view: TieView| 0)?);
        let arrival = ArrivalHook::new(StampLaw::ANY, Box::new(alloc, |_view: ArrivalView| 0)?);
        let farewell = Farewell::new(StampLaw::ANY, Box::new(alloc, |_view: FarewellView| 0)?);
        hooks.push(tie, arrival, farewell)?;
    }
    play_with(rt, hooks, case, plan, told)
}

/// Plays a case; if memory runs out at its opening, plays it once more.
pub(crate) fn perform<R: Alloc<A = Global> + Threads + Sync + Wait>(
    rt: &R,
    case: &Case<'_>,
    plan: Plan<'_>,
    told: &mut String,
) -> Result<(), AllocError> {
    let played = match opened_play(rt, case, plan, told)? {
        Err(OpenFault::NoMemory) => opened_play(rt, case, plan, told)?,
        played => played,
    };
    match played {
        Ok(()) => Ok(()),
        Err(fault) => writeln!(told, "not opened: {fault:?}"),
    }
}
