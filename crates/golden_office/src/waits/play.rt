//! One case: an office whose robot's closure waits for the clients.

ghost use Rattle.std.specs.Prelude.{◌≡◌, IfOk};
ghost use Rattle.fleet_core.specs.Hooks.{laws_of};
ghost use Rattle.fleet_office.specs.Views.{IsNamed, AreOn, cores, world_at};

use crate::waits::shared::Shared;
use crate::waits::staff::work_all;
use fleet_core::OpenFault;
use fleet_grid::Grid;
use fleet_hooks::Hooks;
use fleet_lanes::Client;
use fleet_office::{ConcludeFault, Desk, Guest, Office, OfficeName, Ticker, clients_of, guests_of};
use std::alloc::{Alloc, AllocError, Global};
use std::mem;
use std::sync::Wait;
use std::sync::atomic::Ordering;
use std::thread::Threads;

/// The result of a case.
#[derive(Clone, Copy)]
pub(crate) struct Outcome {
    /// Whether the closure saw the clients' flag.
    pub(crate) seen: bool,
    /// Orders that the lanes took.
    pub(crate) posted: u64,
    /// Notices that were collected while the closure waited.
    pub(crate) collected: u64,
    /// The ticks made.
    pub(crate) tick: u64,
}

/// Why a case has no outcome.
#[derive(Clone, Copy, Debug)]
pub(crate) enum PlayFault {
    Opening(OpenFault),
    Turn,
    Conclude(ConcludeFault),
    NoMemory,
}

impl From<AllocError> for PlayFault {
    ghost use Rattle.std.specs.Prelude.{◌≡◌};
    ghost use Rattle.golden_office.specs.declared.waits.play.PlayFault.TheVariants.{NoMemory};

    ghost from_gives = { λ _ e. e ≡ NoMemory };

    fn from(_e: AllocError) -> PlayFault {
        PlayFault::NoMemory
    }
}

/// The outcome after this many ticks, where no turn was refused.
fn outcome_of(shared: &Shared, tick: u64) -> Result<Outcome, PlayFault> {
    if shared.refused.load(Ordering::SeqCst) > 0 {
        return Err(PlayFault::Turn);
    }
    Ok(Outcome {
        seen: shared.is_seen(),
        posted: shared.posted.load(Ordering::SeqCst),
        collected: shared.collected.load(Ordering::SeqCst),
        tick,
    })
}

/// Lets the guests and two tickers work in an office. The result is both tickers.
fn work_in<N: OfficeName<Global> + Send + Sync, R: Alloc<A = Global> + Threads + Sync + Wait>(
    rt: &R,
    office: &Office<N>,
    guests: &mut [Guest<N>],
    ticker: Ticker<N>,
    shared: &Shared,
) -> Result<Vec<Ticker<N>>, AllocError> {
    let mut first = ticker;
    let Some(second) = first.split() else {
        return Err(AllocError);
    };
    let (first, second) = work_all(rt, office, guests, first, second, shared);
    let mut tickers = Vec::with_capacity(rt.alloc(), 2)?;
    tickers.push_reserved(first);
    tickers.push_reserved(second);
    Ok(tickers)
}

/// Lets the clients and two tickers work in an office. All of them come home.
fn home_from<N: OfficeName<Global> + Send + Sync, R: Alloc<A = Global> + Threads + Sync + Wait>(
    rt: &R,
    office: &Office<N>,
    clients: Vec<Client>,
    ticker: Ticker<N>,
    shared: &Shared,
) -> Result<(Vec<Client>, Vec<Ticker<N>>), AllocError>
    requires { AreOn N.rings (cores clients.items) }
    ensures { IfOk result (λ home. AreOn N.rings (cores home.0.items)) }
{
    let Ok(mut guests) = guests_of::<N, Global>(rt.alloc(), clients) else {
        return Err(AllocError);
    };
    let tickers = work_in(rt, office, guests.as_mut_slice(), ticker, shared)?;
    match clients_of::<N, Global>(rt.alloc(), guests) {
        Ok(clients) => Ok((clients, tickers)),
        Err(_guests) => Err(AllocError),
    }
}

/// Lets the clients and two tickers work in an office, and concludes.
fn play_in<N: OfficeName<Global> + Send + Sync, R: Alloc<A = Global> + Threads + Sync + Wait>(
    rt: &R,
    office: Office<N>,
    clients: Vec<Client>,
    ticker: Ticker<N>,
    shared: &Shared,
) -> Result<Outcome, PlayFault>
    requires { AreOn N.rings (cores clients.items) }
{
    let Ok((clients, tickers)) = home_from(rt, &office, clients, ticker, shared) else {
        mem::drop(office);
        return Err(PlayFault::NoMemory);
    };
    match office.conclude(rt.alloc(), clients, tickers) {
        Ok(end) => {
            let tick = end.tick;
            mem::drop(end);
            outcome_of(shared, tick)
        }
        Err((fault, home)) => {
            mem::drop(home);
            Err(PlayFault::Conclude(fault))
        }
    }
}

/// Opens an office over the desk, lets one ticker make one turn and another its turns, with the clients, and concludes.
pub(crate) fn play<
    N: OfficeName<Global> + Send + Sync,
    R: Alloc<A = Global> + Threads + Sync + Wait,
>(
    rt: &R,
    desk: Desk,
    grid: Grid,
    starts: Vec<u32>,
    hooks: Hooks,
    shared: &Shared,
) -> Result<Outcome, PlayFault>
    requires named { IsNamed desk N.name N.parts N.rings }
    requires start { N.start ≡ world_at desk grid starts.items (laws_of hooks) }
{
    match Office::<N>::open(rt.alloc(), desk, grid, starts, hooks) {
        Ok((office, clients, ticker)) => play_in(rt, office, clients, ticker, shared),
        Err(fault) => Err(PlayFault::Opening(fault)),
    }
}
