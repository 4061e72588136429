//! The opening of a test case: one robot whose closure waits, and the type that names the office.

ghost use Rattle.std.specs.Prelude.{◌≡◌};

use crate::floor::grid_of;
use crate::waits::play::{Outcome, PlayFault, play};
use crate::waits::shared::Shared;
use fleet_book::Limits;
use fleet_core::OpenFault;
use fleet_grid::Grid;
use fleet_hooks::{
    ArrivalHook, ArrivalView, Farewell, FarewellView, Hooks, StampLaw, TieHook, TieLaw, TieView,
};
use fleet_office::Desk;
use std::alloc::{Alloc, AllocError, Global};
use std::marker::Brand;
use std::mem;
use std::sync::{Arc, Wait};
use std::thread::Threads;

/// A case: how many clients there are, how often each posts at most, and how many turns the other ticker makes.
#[derive(Clone, Copy)]
pub(crate) struct Case {
    pub(crate) name: &'static str,
    pub(crate) clients: u32,
    pub(crate) posts: u64,
    pub(crate) turns: u64,
}

/// The desk of this many clients, two cells next to each other, and the robot on the first.
fn site_of(alloc: Global, clients: u32) -> Result<(Desk, Grid, Vec<u32>), OpenFault> {
    let grid = grid_of(alloc, (1, 2), b"..")?;
    let starts = Vec::from_slice(alloc, &[0u32])?;
    Ok((Desk::new(alloc, clients, Limits::DEFAULT)?, grid, starts))
}

/// The result of a case whose robot has these closures.
fn play_with<R: Alloc<A = Global> + Threads + Sync + Wait>(
    rt: &R,
    case: &Case,
    hooks: Hooks,
    shared: &Shared,
) -> Result<Outcome, PlayFault> {
    match site_of(rt.alloc(), case.clients) {
        Ok((desk, grid, starts)) => play::<Brand, R>(rt, desk, grid, starts, hooks, shared),
        Err(fault) => {
            mem::drop(hooks);
            Err(PlayFault::Opening(fault))
        }
    }
}

/// The result of a case, or no memory to open it. The robot's closure waits for the clients at its first call, and the
/// closures return 0.
fn play_hooked<R: Alloc<A = Global> + Threads + Sync + Wait>(
    rt: &R,
    case: &Case,
    shared: &Arc<Shared>,
) -> Result<Result<Outcome, PlayFault>, AllocError> {
    let alloc = rt.alloc();
    let own = Arc::try_clone(shared)?;
    let waits = move |_view: TieView| {
        own.stand();
        0
    };
    let tie = TieHook::new(TieLaw::ANY, Box::new(alloc, waits)?);
    let arrival = ArrivalHook::new(StampLaw::ANY, Box::new(alloc, |_view: ArrivalView| 0)?);
    let farewell = Farewell::new(StampLaw::ANY, Box::new(alloc, |_view: FarewellView| 0)?);
    let mut hooks = Hooks::new(alloc);
    hooks.push(tie, arrival, farewell)?;
    Ok(play_with(rt, case, hooks, shared.as_ref()))
}

/// The result of a case, or no memory for what its threads share.
fn play_shared<R: Alloc<A = Global> + Threads + Sync + Wait>(
    rt: &R,
    case: &Case,
) -> Result<Result<Outcome, PlayFault>, AllocError> {
    let shared = Shared::new(case.clients, case.posts, case.turns);
    let shared = Arc::new(rt.alloc(), shared)?;
    play_hooked(rt, case, &shared)
}

/// The result of a case.
pub(crate) fn played<R: Alloc<A = Global> + Threads + Sync + Wait>(
    rt: &R,
    case: &Case,
) -> Result<Outcome, PlayFault> {
    match play_shared(rt, case) {
        Ok(played) => played,
        Err(AllocError) => Err(PlayFault::NoMemory),
    }
}
