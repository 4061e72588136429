//! An office with its clients and tickers.

ghost use Rattle.std.specs.Prelude.{◌≡◌, IfErr, IfOk};
ghost use Rattle.fleet_core.specs.Hooks.{laws_of};
ghost use Rattle.fleet_office.specs.Views.{IsNamed, AreOn, cores, world_at};

use crate::rows::plan::{Call, Plan};
use fleet_core::OpenFault;
use fleet_grid::Grid;
use fleet_hooks::Hooks;
use fleet_lanes::Client;
use fleet_office::{
    ConcludeFault, Desk, Final, Guest, Home, Office, OfficeName, Ticker, clients_of, guests_of,
};
use std::alloc::{AllocError, Allocator};
use std::mem;

/// An office until its end, its clients by number, and its tickers in the order in which they were made.
#[derive(Drop)]
pub(crate) struct Stage<N: OfficeName<A>, A: Allocator + Copy> {
    pub(crate) office: Option<Office<N, A>>,
    pub(crate) guests: Vec<Guest<N, A>, A>,
    pub(crate) tickers: Vec<Ticker<N>, A>,
}

/// A map, where robots start, and their closures.
#[derive(Drop)]
pub(crate) struct Fleet<A: Allocator + Copy> {
    pub(crate) grid: Grid<A>,
    pub(crate) starts: Vec<u32, A>,
    pub(crate) hooks: Hooks<A>,
}

/// The clients as guests, and a list of the ticker.
fn seated<N: OfficeName<A>, A: Allocator + Copy>(
    alloc: A,
    clients: Vec<Client<A>, A>,
    ticker: Ticker<N>,
) -> Result<(Vec<Guest<N, A>, A>, Vec<Ticker<N>, A>), AllocError>
    requires on { AreOn N.rings (cores clients.items) }
{
    let mut tickers = Vec::with_capacity(alloc, 1)?;
    tickers.push_reserved(ticker);
    match guests_of::<N, A>(alloc, clients) {
        Ok(guests) => Ok((guests, tickers)),
        Err(_clients) => Err(AllocError),
    }
}

/// Opens an office.
pub(crate) fn opened<N: OfficeName<A>, A: Allocator + Copy>(
    alloc: A,
    desk: Desk<A>,
    fleet: Fleet<A>,
    plan: Plan<'_>,
) -> Result<Result<Stage<N, A>, OpenFault>, AllocError>
    requires named { IsNamed desk N.name N.parts N.rings }
    requires start { N.start ≡ world_at desk fleet.grid fleet.starts.items (laws_of fleet.hooks) }
{
    let Fleet {
        grid,
        starts,
        hooks,
    } = fleet;
    plan.begin(Call::Open);
    let opened = Office::<N, A>::open(alloc, desk, grid, starts, hooks);
    plan.end();
    match opened {
        Ok((office, clients, ticker)) => match seated::<N, A>(alloc, clients, ticker) {
            Ok((guests, tickers)) => Ok(Ok(Stage {
                office: Some(office),
                guests,
                tickers,
            })),
            Err(AllocError) => {
                mem::drop(office);
                Err(AllocError)
            }
        },
        Err(fault) => Ok(Err(fault)),
    }
}

/// Moves the first ones out of a list, some or all.
fn taken_from<T: Drop, A: Allocator + Copy>(
    list: &mut Vec<T, A>,
    count: usize,
) -> Result<Vec<T, A>, AllocError> {
    let rest = list.split_off(count.min(list.len()))?;
    Ok(mem::replace(list, rest))
}

/// Puts these back before the others.
fn put_back<T: Drop, A: Allocator + Copy>(
    list: &mut Vec<T, A>,
    first: Vec<T, A>,
) -> Result<(), AllocError> {
    let mut all = first;
    all.append(list)?;
    *list = all;
    Ok(())
}

/// Concludes, and once more with what came home if memory runs out.
fn conclude_home<N: OfficeName<A>, A: Allocator + Copy>(
    alloc: A,
    home: Home<N, A>,
) -> Result<Final<A>, (ConcludeFault, Home<N, A>)>
    requires on { AreOn N.rings (cores home.clients.items) }
    ensures back { IfErr result (λ e. AreOn N.rings (cores e.1.clients.items)) }
{
    let Home {
        office,
        clients,
        tickers,
    } = home;
    let (fault, home) = match office.conclude(alloc, clients, tickers) {
        Ok(end) => return Ok(end),
        Err(back) => back,
    };
    if fault != ConcludeFault::NoMemory {
        return Err((fault, home));
    }
    let Home {
        office,
        clients,
        tickers,
    } = home;
    office.conclude(alloc, clients, tickers)
}

/// Brings what came home back to the stage.
fn come_back<N: OfficeName<A>, A: Allocator + Copy>(
    alloc: A,
    stage: &mut Stage<N, A>,
    home: Home<N, A>,
) -> Result<(), AllocError>
    requires on { AreOn N.rings (cores home.clients.items) }
{
    let Home {
        office,
        clients,
        tickers,
    } = home;
    mem::drop(stage.office.replace(office));
    put_back(&mut stage.tickers, tickers)?;
    match guests_of::<N, A>(alloc, clients) {
        Ok(guests) => put_back(&mut stage.guests, guests),
        Err(_clients) => Err(AllocError),
    }
}

/// The first n guests as clients, and the first n tickers.
fn handed_in<N: OfficeName<A>, A: Allocator + Copy>(
    alloc: A,
    stage: &mut Stage<N, A>,
    handed: (usize, usize),
) -> Result<(Vec<Client<A>, A>, Vec<Ticker<N>, A>), AllocError>
    ensures on { IfOk result (λ given. AreOn N.rings (cores given.0.items)) }
{
    let tickers = taken_from(&mut stage.tickers, handed.1)?;
    let guests = taken_from(&mut stage.guests, handed.0)?;
    match clients_of::<N, A>(alloc, guests) {
        Ok(clients) => Ok((clients, tickers)),
        Err(_guests) => Err(AllocError),
    }
}

/// Concludes with the first n clients and tickers. After a fault all is on the stage again.
pub(crate) fn concluded<N: OfficeName<A>, A: Allocator + Copy>(
    alloc: A,
    stage: &mut Stage<N, A>,
    handed: (usize, usize),
    call: Call,
    plan: Plan<'_>,
) -> Result<Result<Final<A>, ConcludeFault>, AllocError> {
    let (clients, tickers) = handed_in(alloc, stage, handed)?;
    // The office is there until its end, so no call ends here.
    let Some(office) = stage.office.take() else {
        return Err(AllocError);
    };
    let home = Home {
        office,
        clients,
        tickers,
    };
    plan.begin(call);
    let ended = conclude_home(alloc, home);
    plan.end();
    match ended {
        Ok(end) => Ok(Ok(end)),
        Err((fault, home)) => {
            come_back(alloc, stage, home)?;
            Ok(Err(fault))
        }
    }
}
