//! The depot: an office over the warehouse, its clients and its tickers.

ghost use Rattle.std.specs.Prelude.{◌≡◌, IfOk};
ghost use Rattle.fleet_core.specs.Hooks.{laws_of};
ghost use Rattle.fleet_office.specs.Views.{IsNamed, AreOn, cores, world_at};

use crate::account::Account;
use crate::tally::Tally;
use crate::work::{Shift, TickerEnd, Worker, work_all};
use fleet_core::OpenFault;
use fleet_grid::Grid;
use fleet_history::Chapter;
use fleet_hooks::Hooks;
use fleet_lanes::Client;
use fleet_office::{
    ConcludeFault, Desk, Final, Office, OfficeName, Ticker, TurnCause, clients_of, guests_of,
};
use std::alloc::{Alloc, AllocError, Global};
use std::mem;
use std::sync::Wait;
use std::thread::Threads;
use test_kit::Random;

/// How a day at the depot ended.
#[derive(Drop)]
pub(crate) struct DepotReport {
    pub(crate) account: Account,
    pub(crate) chapter: Chapter,
    pub(crate) tick: u64,
    /// The floor cells.
    pub(crate) floor: u32,
}

/// Why a day at the depot failed.
#[derive(Clone, Copy)]
pub(crate) enum DepotFault {
    Opening(OpenFault),
    Turn(TurnCause),
    Conclude(ConcludeFault),
    NoMemory,
}

impl From<AllocError> for DepotFault {
    ghost use Rattle.std.specs.Prelude.{◌≡◌};
    ghost use Rattle.depot.specs.declared.depot.DepotFault.TheVariants.{NoMemory};

    ghost from_gives = { λ _ e. e ≡ NoMemory };

    fn from(_e: AllocError) -> DepotFault {
        DepotFault::NoMemory
    }
}

/// The clients and tickers that come back from their work, and what each client collected.
type WorkEnd<N> = (Vec<Client>, Vec<Ticker<N>>, Vec<Tally>);

/// The clients at their work, each with a seed of its own.
fn workers_of<N: OfficeName<Global>>(
    alloc: Global,
    clients: Vec<Client>,
    seed: u64,
) -> Result<Vec<Worker<N>>, AllocError>
    requires { AreOn N.rings (cores clients.items) }
{
    let Ok(guests) = guests_of::<N, Global>(alloc, clients) else {
        return Err(AllocError);
    };
    let mut workers = Vec::with_capacity(alloc, guests.len())?;
    for guest in guests {
        let random = Random::from_seed(seed.wrapping_add(u64::from(guest.number())));
        workers.push_reserved(Worker {
            guest,
            random,
            tally: Tally::NONE,
        });
    }
    Ok(workers)
}

/// The clients that come back from their work, and what each one collected.
fn home_of<N: OfficeName<Global>>(
    alloc: Global,
    workers: Vec<Worker<N>>,
) -> Result<(Vec<Client>, Vec<Tally>), AllocError>
    ensures { IfOk result (λ home. AreOn N.rings (cores home.0.items)) }
{
    let mut guests = Vec::with_capacity(alloc, workers.len())?;
    let mut tallies = Vec::with_capacity(alloc, workers.len())?;
    for worker in workers {
        guests.push_reserved(worker.guest);
        tallies.push_reserved(worker.tally);
    }
    match clients_of::<N, Global>(alloc, guests) {
        Ok(clients) => Ok((clients, tallies)),
        Err(_guests) => Err(AllocError),
    }
}

/// What became of all orders.
fn account_of(end: &Final, tallies: &[Tally]) -> Account {
    let mut account = Account::NONE;
    for (client, tally) in tallies.iter().enumerate() {
        let mut tally = *tally;
        if let Some(rest) = end.rest.get(client) {
            for notice in rest {
                tally.note(*notice);
            }
        }
        account.add(&tally);
    }
    account.read(&end.chapter);
    account
}

/// Both tickers after their work, neither of which stopped early.
fn tickers_of<N: OfficeName<Global>>(
    alloc: Global,
    first: TickerEnd<N>,
    second: TickerEnd<N>,
) -> Result<Vec<Ticker<N>>, DepotFault> {
    if let Some(cause) = first.stopped.or(second.stopped) {
        return Err(DepotFault::Turn(cause));
    }
    let mut tickers = Vec::with_capacity(alloc, 2)?;
    tickers.push_reserved(first.ticker);
    tickers.push_reserved(second.ticker);
    Ok(tickers)
}

/// Lets the clients of an office that was just opened send their orders, with two tickers. Returns all of them.
fn work_in<N: OfficeName<Global> + Send + Sync, R: Alloc<A = Global> + Threads + Sync + Wait>(
    rt: &R,
    office: &Office<N>,
    clients: Vec<Client>,
    ticker: Ticker<N>,
    shift: &Shift,
) -> Result<WorkEnd<N>, DepotFault>
    requires { AreOn N.rings (cores clients.items) }
    ensures { IfOk result (λ home. AreOn N.rings (cores home.0.items)) }
{
    let mut first = ticker;
    // A ticker that was just opened has all parts of the ledger, so no call ends here.
    let Some(second) = first.split() else {
        return Err(DepotFault::NoMemory);
    };
    let mut workers = workers_of::<N>(rt.alloc(), clients, shift.seed)?;
    let (first, second) = work_all(rt, office, workers.as_mut_slice(), first, second, shift);
    let tickers = tickers_of(rt.alloc(), first, second)?;
    let (clients, tallies) = home_of(rt.alloc(), workers)?;
    Ok((clients, tickers, tallies))
}

/// The result of a day whose office ended in this way.
fn day_at(end: Final, tallies: &[Tally]) -> DepotReport {
    DepotReport {
        account: account_of(&end, tallies),
        tick: end.tick,
        floor: end.grid.floor_count(),
        chapter: end.chapter,
    }
}

/// Concludes an office with the clients and the tickers that came back.
fn conclude<N: OfficeName<Global>>(
    alloc: Global,
    office: Office<N>,
    home: WorkEnd<N>,
) -> Result<DepotReport, DepotFault>
    requires { AreOn N.rings (cores home.0.items) }
{
    let (clients, tickers, tallies) = home;
    match office.conclude(alloc, clients, tickers) {
        Ok(end) => Ok(day_at(end, &tallies)),
        Err((fault, home)) => {
            mem::drop(home);
            Err(DepotFault::Conclude(fault))
        }
    }
}

/// Opens an office over the desk, lets clients and tickers work in threads, and concludes it.
pub(crate) fn spend_day<
    N: OfficeName<Global> + Send + Sync,
    R: Alloc<A = Global> + Threads + Sync + Wait,
>(
    rt: &R,
    desk: Desk,
    grid: Grid,
    starts: Vec<u32>,
    hooks: Hooks,
    shift: &Shift,
) -> Result<DepotReport, DepotFault>
    requires named { IsNamed desk N.name N.parts N.rings }
    requires start { N.start ≡ world_at desk grid starts.items (laws_of hooks) }
{
    match Office::<N>::open(rt.alloc(), desk, grid, starts, hooks) {
        Ok((office, clients, ticker)) => {
            match work_in(rt, &office, clients, ticker, shift) {
                Ok(home) => conclude(rt.alloc(), office, home),
                Err(fault) => {
                    mem::drop(office);
                    Err(fault)
                }
            }
        }
        Err(fault) => Err(DepotFault::Opening(fault)),
    }
}
