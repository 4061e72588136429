//! The case: an office whose client posts from a thread, and which moves on by settles and turns.

ghost use Rattle.std.specs.Prelude.{◌≡◌, IfOk};
ghost use Rattle.fleet_core.specs.Hooks.{laws_of};
ghost use Rattle.fleet_office.specs.Views.{IsNamed, AreOn, cores, world_at};

use crate::lent::shared::{Lent, post_in_thread};
use crate::waiting::wait_for;
use fleet_book::Notice;
use fleet_grid::Grid;
use fleet_hooks::Hooks;
use fleet_lanes::Client;
use fleet_office::{Desk, Office, OfficeName, TickRecord, Ticker, clients_of, guests_of};
use std::alloc::{Alloc, AllocError, Global};
use std::mem;
use std::sync::atomic::Ordering;
use std::sync::{Arc, Wait};
use std::thread::Threads;

/// The result of the case.
#[derive(Clone, Copy)]
pub(crate) struct Outcome {
    /// Orders that the lane took from the thread.
    pub(crate) posted: u64,
    /// Orders that were taken before the tick.
    pub(crate) taken: u64,
    /// Robots that arrived in it.
    pub(crate) arrived: u64,
    /// Notices that were collected.
    pub(crate) collected: u64,
    /// Notices that were left at the end.
    pub(crate) rest: u64,
}

/// Why the case has no outcome.
#[derive(Clone, Copy, Debug)]
pub(crate) enum PlayFault {
    Opening,
    NoThread,
    Turn,
    Conclude,
    NoMemory,
}

impl From<AllocError> for PlayFault {
    ghost use Rattle.std.specs.Prelude.{◌≡◌};
    ghost use Rattle.golden_office.specs.declared.lent.play.PlayFault.TheVariants.{NoMemory};

    ghost from_gives = { λ _ e. e ≡ NoMemory };

    fn from(_e: AllocError) -> PlayFault {
        PlayFault::NoMemory
    }
}

/// Lets the guests post in a thread, takes their order without a tick, and makes a turn.
fn live_with<
    N: OfficeName<Global> + Send + Sync + 'static,
    R: Alloc<A = Global> + Threads + Sync + Wait + Copy + Send + Drop + 'static,
>(
    rt: &R,
    office: &Office<N>,
    ticker: &mut Ticker<N>,
    lent: &Arc<Lent<N>>,
) -> Result<Outcome, PlayFault> {
    let mut made = TickRecord::new(rt.alloc())?;
    if !post_in_thread(rt, lent)? || !wait_for(&lent.posted, 1) {
        return Err(PlayFault::NoThread);
    }
    let Ok(settled) = office.settle(rt) else {
        return Err(PlayFault::Turn);
    };
    office.search_ahead(rt)?;
    let Ok(_turned) = office.turn_into(rt, ticker, &mut made) else {
        return Err(PlayFault::Turn);
    };
    Ok(Outcome {
        posted: lent.posted.load(Ordering::SeqCst),
        taken: u64::from(settled.taken),
        arrived: made.arrived().len() as u64,
        collected: lent.collect(rt),
        rest: 0,
    })
}

/// Lets the clients live, and brings them home.
fn home_from<
    N: OfficeName<Global> + Send + Sync + 'static,
    R: Alloc<A = Global> + Threads + Sync + Wait + Copy + Send + Drop + 'static,
>(
    rt: &R,
    office: &Office<N>,
    clients: Vec<Client>,
    ticker: &mut Ticker<N>,
) -> Result<(Outcome, Vec<Client>), PlayFault>
    requires { AreOn N.rings (cores clients.items) }
    ensures { IfOk result (λ home. AreOn N.rings (cores home.1.items)) }
{
    let Ok(guests) = guests_of::<N, Global>(rt.alloc(), clients) else {
        return Err(PlayFault::NoMemory);
    };
    let Ok(lent) = Arc::new(rt.alloc(), Lent::new(guests)) else {
        return Err(PlayFault::NoMemory);
    };
    let outcome = live_with(rt, office, ticker, &lent)?;
    match clients_of::<N, Global>(rt.alloc(), lent.take_home(rt, rt.alloc())) {
        Ok(clients) => Ok((outcome, clients)),
        Err(_guests) => Err(PlayFault::NoMemory),
    }
}

/// The number of notices that were left, of all clients.
fn left_of(rest: &[Vec<Notice>]) -> u64 {
    let mut count = 0u64;
    for notices in rest {
        count = count.saturating_add(notices.len() as u64);
    }
    count
}

/// Lets the clients live, and concludes.
fn live_in<
    N: OfficeName<Global> + Send + Sync + 'static,
    R: Alloc<A = Global> + Threads + Sync + Wait + Copy + Send + Drop + 'static,
>(rt: &R, office: Office<N>, clients: Vec<Client>, ticker: Ticker<N>) -> Result<Outcome, PlayFault>
    requires { AreOn N.rings (cores clients.items) }
{
    let mut tickers = Vec::new(rt.alloc());
    let mut ticker = ticker;
    let (outcome, clients) = match home_from(rt, &office, clients, &mut ticker) {
        Ok(home) => home,
        Err(fault) => {
            mem::drop(office);
            return Err(fault);
        }
    };
    if let Err(_ticker) = tickers.push(ticker) {
        mem::drop(office);
        return Err(PlayFault::NoMemory);
    }
    match office.conclude(rt.alloc(), clients, tickers) {
        Ok(end) => {
            let rest = left_of(end.rest.as_slice());
            mem::drop(end);
            Ok(Outcome { rest, ..outcome })
        }
        Err((_fault, home)) => {
            mem::drop(home);
            Err(PlayFault::Conclude)
        }
    }
}

/// Opens an office over the desk, lets its client live, and concludes.
pub(crate) fn play<
    N: OfficeName<Global> + Send + Sync + 'static,
    R: Alloc<A = Global> + Threads + Sync + Wait + Copy + Send + Drop + 'static,
>(rt: &R, desk: Desk, grid: Grid, starts: Vec<u32>, hooks: Hooks) -> Result<Outcome, PlayFault>
    requires named { IsNamed desk N.name N.parts N.rings }
    requires start { N.start ≡ world_at desk grid starts.items (laws_of hooks) }
{
    match Office::<N>::open(rt.alloc(), desk, grid, starts, hooks) {
        Ok((office, clients, ticker)) => live_in(rt, office, clients, ticker),
        Err(_fault) => Err(PlayFault::Opening),
    }
}
