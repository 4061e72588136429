//! The depot's opening: its warehouse, its robots with their closures, and the names of its office.

ghost use Rattle.std.specs.Prelude.{◌≡◌};

use crate::depot::{DepotFault, DepotReport, spend_day};
use crate::settings::Settings;
use crate::work::Shift;
use crate::yard::{floor_of, starts_on, warehouse};
use fleet_book::Limits;
use fleet_core::OpenFault;
use fleet_grid::Grid;
use fleet_hooks::{
    ArrivalHook, ArrivalView, Farewell, FarewellView, Hooks, StampLaw, TieHook, TieLaw, TieView,
};
use fleet_office::Desk;
use std::alloc::{Alloc, AllocError, Global};
use std::marker::Brand;
use std::mem;
use std::sync::Wait;
use std::sync::atomic::AtomicU64;
use std::thread::Threads;

/// A robot's queue has room for all errands that the clients' mailboxes allow at once, and one chapter has room for all
/// entries.
const LIMITS: Limits = Limits {
    queue: 4_096,
    mailbox: 64,
    life: 1_000_000,
    orders: 1_000_002,
    clock: 16_000_000,
    chapter: 16_777_216,
    ..Limits::DEFAULT
};

/// What the threads share, if there is a robot and a cell to which it can be sent.
fn shift_of(settings: &Settings, cells: Vec<u32>) -> Result<Shift, OpenFault> {
    if settings.robots == 0 || cells.is_empty() {
        return Err(OpenFault::NoRobots);
    }
    Ok(Shift {
        robots: settings.robots,
        cells,
        orders: settings.turns,
        seed: settings.seed,
        turns: settings.turns,
        clients: u64::from(settings.clients),
        done: AtomicU64::new(0),
    })
}

/// The robots' start cells, and what the threads share.
fn starts_of(
    alloc: Global,
    grid: &Grid,
    settings: &Settings,
) -> Result<(Vec<u32>, Shift), OpenFault> {
    let cells = floor_of(alloc, grid)?;
    let starts = starts_on(alloc, &cells, settings.robots)?;
    Ok((starts, shift_of(settings, cells)?))
}

/// The desk, the warehouse, the robots' start cells in it, and what the threads share.
fn site_of(alloc: Global, settings: &Settings) -> Result<(Desk, Grid, Vec<u32>, Shift), OpenFault> {
    let grid = warehouse(alloc)?;
    let (starts, shift) = starts_of(alloc, &grid, settings)?;
    match Desk::new(alloc, settings.clients, LIMITS) {
        Ok(desk) => Ok((desk, grid, starts, shift)),
        Err(fault) => Err(fault),
    }
}

/// A day at the depot with these closures.
fn day_with<R: Alloc<A = Global> + Threads + Sync + Wait>(
    rt: &R,
    settings: &Settings,
    hooks: Hooks,
) -> Result<DepotReport, DepotFault> {
    match site_of(rt.alloc(), settings) {
        Ok((desk, grid, starts, shift)) => {
            spend_day::<Brand, R>(rt, desk, grid, starts, hooks, &shift)
        }
        Err(fault) => {
            mem::drop(hooks);
            Err(DepotFault::Opening(fault))
        }
    }
}

/// A day at the depot with these settings, or out of memory for its closures, which return 0.
fn hooked_day<R: Alloc<A = Global> + Threads + Sync + Wait>(
    rt: &R,
    settings: &Settings,
) -> Result<Result<DepotReport, DepotFault>, AllocError> {
    let alloc = rt.alloc();
    let mut hooks = Hooks::new(alloc);
    for _robot in 0..settings.robots {
        let tie = TieHook::new(TieLaw::ANY, Box::new(alloc, |_view: TieView| 0)?);
        let arrival = ArrivalHook::new(StampLaw::ANY, Box::new(alloc, |_view: ArrivalView| 0)?);
        let farewell = Farewell::new(StampLaw::ANY, Box::new(alloc, |_view: FarewellView| 0)?);
        hooks.push(tie, arrival, farewell)?;
    }
    Ok(day_with(rt, settings, hooks))
}

/// A day at the depot with these settings.
pub(crate) fn day_of<R: Alloc<A = Global> + Threads + Sync + Wait>(
    rt: &R,
    settings: &Settings,
) -> Result<DepotReport, DepotFault> {
    match hooked_day(rt, settings) {
        Ok(day) => day,
        Err(AllocError) => Err(DepotFault::NoMemory),
    }
}
