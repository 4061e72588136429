//! The closures of a row, and the world or the run that they are made for.

ghost use Rattle.std.specs.Prelude.{◌≡◌};

use crate::refusals::calls::Call;
use crate::refusals::case::Row;
use crate::refusals::play::{Played, Setting, play_calls};
use crate::refusals::runs::{Run, end_run};
use crate::refusals::stage::{Stage, read};
use fleet_hooks::{
    ArrivalHook, ArrivalView, Farewell, FarewellView, Hooks, StampLaw, TieHook, TieLaw, TieView,
};
use fleet_world::{Event, OpenFault, World, run};
use std::alloc::{Alloc, AllocError, Allocator, Global};
use std::sync::Arc;
use std::sync::atomic::{AtomicU64, Ordering};
use std::thread::Threads;
use test_kit::Refusing;

const ALIKE: TieLaw = TieLaw {
    low: [0, 0, 0, 0],
    high: [0, 0, 0, 0],
};

const NOUGHT: StampLaw = StampLaw { low: 0, high: 0 };

/// Plays the first `last` calls of a row, of which the allocation after `before` others is refused.
pub(crate) fn play<R: Alloc<A = Global> + Threads + Sync>(
    rt: &R,
    row: Row<'_, Call>,
    before: u64,
    last: usize,
) -> Result<Result<Played, Stage>, AllocError> {
    let alloc = rt.alloc();
    let stamped = Arc::new(alloc, AtomicU64::new(0))?;
    let heap = Refusing::after(alloc, before);
    play_over(alloc, &(rt, &heap), &heap, row, last, &stamped)
}

/// A counter of stamps, for the arrivals and for the farewells of a robot.
fn counters(stamped: &Arc<AtomicU64>) -> Result<(Arc<AtomicU64>, Arc<AtomicU64>), AllocError> {
    Ok((Arc::try_clone(stamped)?, Arc::try_clone(stamped)?))
}

/// Plays the first `last` calls of a row, all of whose memory is the runtime's, with closures that count their stamps.
fn play_over<A: Allocator + Copy + Send + Sync, R: Alloc<A = A> + Threads + Sync>(
    alloc: Global,
    rt: &R,
    heap: &Refusing<Global>,
    row: Row<'_, Call>,
    last: usize,
    stamped: &Arc<AtomicU64>,
) -> Result<Result<Played, Stage>, AllocError> {
    let mut hooks = Hooks::new(rt.alloc());
    for _robot in 0..row.robots {
        let (arrivals, farewells) = counters(stamped)?;
        let tie = |_view: TieView| -> u8
            ensures { result ≡ 0 }
        { 0 };
        let arrival = move |_view: ArrivalView| -> u32
            ensures { result ≡ 0 }
        { count(&arrivals) };
        let farewell = move |_view: FarewellView| -> u32
            ensures { result ≡ 0 }
        { count(&farewells) };
        let tie = TieHook::new(ALIKE, Box::new(alloc, tie)?);
        let arrival = ArrivalHook::new(NOUGHT, Box::new(alloc, arrival)?);
        let farewell = Farewell::new(NOUGHT, Box::new(alloc, farewell)?);
        if hooks.push(tie, arrival, farewell).is_err() {
            return Ok(Err(Stage::Lists));
        }
    }
    let setting = Setting {
        alloc,
        rt,
        heap,
        stamped,
    };
    play_hooked(&setting, row, last, hooks)
}

/// Plays the first `last` calls of a row with these closures.
fn play_hooked<A: Allocator + Copy + Send + Sync, R: Alloc<A = A> + Threads + Sync>(
    setting: &Setting<'_, R>,
    row: Row<'_, Call>,
    last: usize,
    hooks: Hooks<A>,
) -> Result<Result<Played, Stage>, AllocError> {
    let heap = setting.rt.alloc();
    match read(heap, row.case) {
        Ok((grid, script)) => {
            let (starts, clients, limits) = (script.starts, script.clients, script.limits);
            let opened = World::open(heap, grid, starts, clients, limits, hooks);
            play_opened(setting, row, last, opened)
        }
        Err(stage) => Ok(Err(stage)),
    }
}

/// Plays the first `last` calls of a row in its world, where that was opened.
fn play_opened<A: Allocator + Copy + Send + Sync, R: Alloc<A = A> + Threads + Sync>(
    setting: &Setting<'_, R>,
    row: Row<'_, Call>,
    last: usize,
    opened: Result<World<A>, OpenFault>,
) -> Result<Result<Played, Stage>, AllocError> {
    match opened {
        Ok(mut world) => {
            let played = play_calls(setting, &mut world, row.calls, last);
            let _ended = world.finish();
            Ok(Ok(played?))
        }
        Err(fault) => Ok(Err(stage_of(fault))),
    }
}

/// Where a row ends whose world is not opened.
fn stage_of(fault: OpenFault) -> Stage {
    match fault {
        OpenFault::NoMemory => Stage::Open,
        _ => Stage::Faulty,
    }
}

/// Counts the call of a closure. The result is its stamp.
fn count(stamped: &AtomicU64) -> u32
    ensures { result ≡ 0 }
{
    stamped.fetch_add(1, Ordering::SeqCst);
    0
}

/// Runs the events of a row's script, of which the allocation after `before` others is refused. The result is how it
/// ended, and how many allocations are left before the one to refuse.
pub(crate) fn run_row<R: Alloc<A = Global>>(
    rt: &R,
    row: Row<'_, Event>,
    before: u64,
) -> Result<(Result<Run, Stage>, u64), AllocError> {
    let heap = Refusing::after(rt.alloc(), before);
    let ended = run_over(rt.alloc(), &(rt, &heap), row)?;
    Ok((ended, heap.left()))
}

/// Runs the events of a row's script, all of whose memory is the runtime's.
fn run_over<A: Allocator + Copy, R: Alloc<A = A>>(
    alloc: Global,
    rt: &R,
    row: Row<'_, Event>,
) -> Result<Result<Run, Stage>, AllocError> {
    let mut hooks = Hooks::new(rt.alloc());
    for _robot in 0..row.robots {
        let tie = |_view: TieView| -> u8
            ensures { result ≡ 0 }
        { 0 };
        let arrival = |_view: ArrivalView| -> u32
            ensures { result ≡ 0 }
        { 0 };
        let farewell = |_view: FarewellView| -> u32
            ensures { result ≡ 0 }
        { 0 };
        let tie = TieHook::new(ALIKE, Box::new(alloc, tie)?);
        let arrival = ArrivalHook::new(NOUGHT, Box::new(alloc, arrival)?);
        let farewell = Farewell::new(NOUGHT, Box::new(alloc, farewell)?);
        if hooks.push(tie, arrival, farewell).is_err() {
            return Ok(Err(Stage::Lists));
        }
    }
    run_hooked(alloc, rt, row, hooks)
}

/// Runs the events of a row's script with these closures.
fn run_hooked<A: Allocator + Copy, R: Alloc<A = A>>(
    alloc: Global,
    rt: &R,
    row: Row<'_, Event>,
    hooks: Hooks<A>,
) -> Result<Result<Run, Stage>, AllocError> {
    match read(rt.alloc(), row.case) {
        Ok((grid, script)) => {
            let (starts, clients, limits) = (script.starts, script.clients, script.limits);
            let ended = run(rt, grid, starts, clients, limits, hooks, row.calls);
            Ok(Ok(end_run(alloc, rt.alloc(), ended)?))
        }
        Err(stage) => Ok(Err(stage)),
    }
}
