//! A row through the calls of a world.

use crate::answers::busy::greatest_wait;
use crate::answers::row::{Call, Row, go};
use crate::answers::show::{tell_busy, tell_give, tell_shut, tell_take, tell_tick, tell_world};
use crate::site::site_of;
use fleet_hooks::{
    ArrivalHook, ArrivalView, Farewell, FarewellView, Hooks, StampLaw, TieHook, TieLaw, TieView,
};
use fleet_world::{OpenFault, World};
use std::alloc::{Alloc, AllocError, Allocator, Global};
use std::fmt::Write;
use std::mem;

/// The lines of this many ticks.
fn tell_ticks<A: Allocator + Copy, R: Alloc<A = A>>(
    rt: &R,
    world: &mut World<A>,
    count: u32,
    told: &mut String,
) -> Result<(), AllocError> {
    for _tick in 0..count {
        tell_tick(told, world.tick(rt))?;
    }
    Ok(())
}

/// The lines of a call. A world without clients takes and gives nothing.
fn tell_answer<A: Allocator + Copy, R: Alloc<A = A>>(
    rt: &R,
    world: &mut World<A>,
    call: Call,
    told: &mut String,
) -> Result<(), AllocError> {
    match call {
        Call::Go(robot, cell) if world.clients() > 0 => {
            tell_take(told, world.take(0, go(robot, cell)))
        }
        Call::Give if world.clients() > 0 => tell_give(told, world.give(0)),
        Call::Go(..) | Call::Give => Ok(()),
        Call::Tick(count) => tell_ticks(rt, world, count, told),
        Call::Shut(robot) => tell_shut(told, world.shut(robot)),
        Call::Show => tell_world(told, world),
        Call::Busy(count, bound) => {
            let (greatest, arrivals) = greatest_wait(rt, world, count);
            tell_busy(told, greatest, bound, arrivals)
        }
    }
}

/// The name of a row, and the lines of its calls.
fn tell_answers<A: Allocator + Copy, R: Alloc<A = A>>(
    rt: &R,
    row: &Row,
    world: &mut World<A>,
    told: &mut String,
) -> Result<(), AllocError> {
    writeln!(told, "{}", row.name)?;
    for call in row.calls {
        tell_answer(rt, world, *call, told)?;
    }
    Ok(())
}

/// Plays a row in its world, where that was opened.
fn play_opened<A: Allocator + Copy, R: Alloc<A = A>>(
    rt: &R,
    row: &Row,
    opened: Result<World<A>, OpenFault>,
    told: &mut String,
) -> Result<(), AllocError> {
    match opened {
        Ok(mut world) => {
            let answered = tell_answers(rt, row, &mut world, told);
            let _ended = world.finish();
            answered
        }
        Err(fault) => writeln!(told, "{}: {fault:?}", row.name),
    }
}

/// Plays a row with these closures.
fn play_hooked<A: Allocator + Copy, R: Alloc<A = A>>(
    rt: &R,
    row: &Row,
    hooks: Hooks<A>,
    told: &mut String,
) -> Result<(), AllocError> {
    match site_of(rt.alloc(), row.sides, row.letters, row.starts) {
        Ok(Some((grid, starts))) => {
            let opened = World::open(rt.alloc(), grid, starts, 1, row.limits, hooks);
            play_opened(rt, row, opened, told)
        }
        Ok(None) => {
            mem::drop(hooks);
            writeln!(told, "{}: no map", row.name)
        }
        Err(AllocError) => {
            mem::drop(hooks);
            Err(AllocError)
        }
    }
}

/// Plays a row over the runtime's heap, and prints its name and the lines of its calls.
pub(crate) fn play<A: Allocator + Copy, R: Alloc<A = A>>(
    alloc: Global,
    rt: &R,
    row: &Row,
    told: &mut String,
) -> Result<(), AllocError> {
    let mut hooks = Hooks::new(rt.alloc());
    for _robot in 0..row.hooked {
        let tie = TieHook::new(TieLaw::ANY, Box::new(alloc, |_view: TieView| 0)?);
        let arrival = ArrivalHook::new(
            StampLaw::ANY,
            Box::new(alloc, |view: ArrivalView| view.cell)?,
        );
        let farewell = Farewell::new(
            StampLaw::ANY,
            Box::new(alloc, |view: FarewellView| view.cell)?,
        );
        hooks.push(tie, arrival, farewell)?;
    }
    play_hooked(rt, row, hooks, told)
}
