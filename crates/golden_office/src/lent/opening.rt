//! The opening of the test case: one robot, one client, and the type that names the office.

use crate::floor::grid_of;
use crate::lent::play::{Outcome, PlayFault, play};
use fleet_book::Limits;
use fleet_core::OpenFault;
use fleet_grid::Grid;
use fleet_hooks::{
    ArrivalHook, ArrivalView, Farewell, FarewellView, Hooks, StampLaw, TieHook, TieLaw, TieView,
};
use fleet_office::Desk;
use std::alloc::{Alloc, AllocError, Global};
use std::marker::Brand;
use std::mem;
use std::sync::Wait;
use std::thread::Threads;

/// The desk of one client, two cells next to each other, and the robot on the first.
fn site_of(alloc: Global) -> Result<(Desk, Grid, Vec<u32>), OpenFault> {
    let grid = grid_of(alloc, (1, 2), b"..")?;
    let starts = Vec::from_slice(alloc, &[0u32])?;
    Ok((Desk::new(alloc, 1, Limits::DEFAULT)?, grid, starts))
}

/// The result of the case whose robot has these closures.
fn play_with<R: Alloc<A = Global> + Threads + Sync + Wait + Copy + Send + Drop + 'static>(
    rt: &R,
    hooks: Hooks,
) -> Result<Outcome, PlayFault> {
    match site_of(rt.alloc()) {
        Ok((desk, grid, starts)) => play::<Brand, R>(rt, desk, grid, starts, hooks),
        Err(_fault) => {
            mem::drop(hooks);
            Err(PlayFault::Opening)
        }
    }
}

/// The result of the case, or out of memory for the closures. They return 0.
fn play_hooked<R: Alloc<A = Global> + Threads + Sync + Wait + Copy + Send + Drop + 'static>(
    rt: &R,
) -> Result<Result<Outcome, PlayFault>, AllocError> {
    let alloc = rt.alloc();
    let tie = TieHook::new(TieLaw::ANY, Box::new(alloc, |_view: TieView| 0)?);
    let arrival = ArrivalHook::new(StampLaw::ANY, Box::new(alloc, |_view: ArrivalView| 0)?);
    let farewell = Farewell::new(StampLaw::ANY, Box::new(alloc, |_view: FarewellView| 0)?);
    let mut hooks = Hooks::new(alloc);
    hooks.push(tie, arrival, farewell)?;
    Ok(play_with(rt, hooks))
}

/// The result of the case.
pub(crate) fn played<R: Alloc<A = Global> + Threads + Sync + Wait + Copy + Send + Drop + 'static>(
    rt: &R,
) -> Result<Outcome, PlayFault> {
    match play_hooked(rt) {
        Ok(played) => played,
        Err(AllocError) => Err(PlayFault::NoMemory),
    }
}
