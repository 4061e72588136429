//! A case in a hall, without its lock: event by event.

ghost use Rattle.std.specs.Prelude.{◌≡◌};
ghost use Rattle.fleet_core.specs.Hooks.{laws_of};
ghost use Rattle.fleet_office.specs.Views.{IsNamed, world_at};

use crate::rows::calls::tell_client;
use crate::rows::case::{HallStep, Step};
use crate::rows::stage::Fleet;
use fleet_core::OpenFault;
use fleet_office::{Desk, Guest, Hall, OfficeName, Ticker, guests_of};
use std::alloc::{Alloc, AllocError, Allocator};
use std::fmt::Write;
use std::mem;

/// Makes a call on a hall, or on its first client, and prints its result.
fn play_step<N: OfficeName<A>, A: Allocator + Copy, R: Alloc<A = A>>(
    rt: &R,
    hall: &mut Hall<N, A>,
    ticker: &mut Ticker<N>,
    guests: &mut Vec<Guest<N, A>, A>,
    step: &HallStep,
    told: &mut String,
) -> Result<(), AllocError> {
    match *step {
        HallStep::Post(order) => tell_client(guests, &Step::Post(0, order), 0, told),
        HallStep::Collect => tell_client(guests, &Step::Collect(0), 0, told),
        HallStep::Take if hall.state.clients() > 0 => {
            let taken = hall.take_one(0);
            write!(told, "{taken:?}")
        }
        HallStep::Take => told.push_str("nobody"),
        HallStep::Tick => {
            let ticked = hall.tick_with(rt, ticker);
            write!(told, "{ticked:?}")
        }
        HallStep::Give => {
            let given = hall.give_all();
            write!(told, "{given}")
        }
    }
}

/// Makes these calls on a hall with these clients.
fn play_steps<N: OfficeName<A>, A: Allocator + Copy, R: Alloc<A = A>>(
    rt: &R,
    hall: &mut Hall<N, A>,
    ticker: &mut Ticker<N>,
    guests: &mut Vec<Guest<N, A>, A>,
    steps: &[HallStep],
    told: &mut String,
) -> Result<(), AllocError> {
    for step in steps {
        write!(told, "{step:?}: ")?;
        play_step(rt, hall, ticker, guests, step, told)?;
        told.push_str("\n")?;
    }
    Ok(())
}

/// Opens a hall over the desk, and makes these calls.
pub(crate) fn play_hall<N: OfficeName<A>, A: Allocator + Copy, R: Alloc<A = A>>(
    rt: &R,
    desk: Desk<A>,
    fleet: Fleet<A>,
    steps: &[HallStep],
    told: &mut String,
) -> Result<Result<(), OpenFault>, AllocError>
    requires named { IsNamed desk N.name N.parts N.rings }
    requires start { N.start ≡ world_at desk fleet.grid fleet.starts.items (laws_of fleet.hooks) }
{
    let Fleet {
        grid,
        starts,
        hooks,
    } = fleet;
    match Hall::<N, A>::open(rt.alloc(), desk, grid, starts, hooks) {
        Ok((mut hall, clients, mut ticker)) => {
            let played = match guests_of::<N, A>(rt.alloc(), clients) {
                Ok(mut guests) => play_steps(rt, &mut hall, &mut ticker, &mut guests, steps, told),
                Err(_clients) => Err(AllocError),
            };
            mem::drop(hall);
            Ok(Ok(played?))
        }
        Err(fault) => Ok(Err(fault)),
    }
}
