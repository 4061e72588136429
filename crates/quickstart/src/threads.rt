//! Two clients post errands from threads of their own while a ticker moves the robots. It is the shortest whole use of
//! an office: copy it. It prints the same under every schedule of the threads.

ghost use Rattle.std.specs.Prelude.{◌≡◌};
ghost use Rattle.fleet_core.specs.Hooks.{laws_of};
ghost use Rattle.fleet_office.specs.Views.{IsNamed, world_at};

use crate::MAP;
use anyhow::{Result, bail};
use fleet_book::{Limits, Notice, Order};
use fleet_grid::Grid;
use fleet_hooks::{ArrivalHook, Farewell, Hooks, StampLaw, TieHook, TieLaw};
use fleet_map::read_map;
use fleet_office::{Desk, Guest, Office, OfficeName, Ticker, clients_of, guests_of};
use std::alloc::{Alloc, Global};
use std::marker::Brand;
use std::sync::Wait;
use std::sync::atomic::{AtomicBool, AtomicU64, Ordering};
use std::thread::{Threads, for_each_mut, join, yield_now};

/// The cells to which each of the two clients sends a robot: client c sends robot c.
const ERRANDS: [u32; 3] = [5, 1, 3];

/// The errands of both clients.
const ALL: u64 = 6;

/// All loops end after this many rounds, since a proof needs a bound.
const ROUNDS: u64 = 1_000_000_000;

/// What the threads tell one another.
#[derive(Drop)]
struct Day {
    /// The errands that were posted.
    posted: AtomicU64,
    /// The arrivals that were collected.
    done: AtomicU64,
    /// Whether the ticker has ended.
    is_over: AtomicBool,
}

/// A client's thread: posts its errands, and collects until the ticker has ended and nothing is left.
fn work<N: OfficeName<Global>>(guest: &mut Guest<N>, day: &Day) {
    let robot = guest.number();
    for cell in ERRANDS {
        if guest.post(Order::Go { robot, cell }).is_ok() {
            day.posted.fetch_add(1, Ordering::SeqCst);
        }
    }
    for _ in 0..ROUNDS {
        let is_over = day.is_over.load(Ordering::SeqCst);
        match guest.collect() {
            Some(Notice::Verdict { .. }) => {}
            Some(Notice::Arrived { .. }) => {
                day.done.fetch_add(1, Ordering::SeqCst);
            }
            None if is_over => break,
            None => yield_now(),
        }
    }
}

/// The ticker's thread: makes turns while an errand that was posted has not arrived, until all have.
fn tick<N: OfficeName<Global>, R: Alloc<A = Global> + Wait>(
    rt: &R,
    office: &Office<N>,
    ticker: &mut Ticker<N>,
    day: &Day,
) {
    let mut arrived = 0u64;
    for _ in 0..ROUNDS {
        if arrived == ALL {
            break;
        }
        if arrived == day.posted.load(Ordering::SeqCst) {
            // (a turn would only add a tick to the chapter, which can get full)
            yield_now();
            continue;
        }
        match office.turn(rt, ticker) {
            Ok(turn) => arrived = arrived.saturating_add(u64::from(turn.arrived)),
            Err(_) => break,
        }
    }
    day.is_over.store(true, Ordering::SeqCst);
}

/// Lets each client and the ticker work in a thread of its own.
fn work_all<N: OfficeName<Global> + Send + Sync, R: Alloc<A = Global> + Threads + Sync + Wait>(
    rt: &R,
    office: &Office<N>,
    guests: &mut [Guest<N>],
    ticker: &mut Ticker<N>,
    day: &Day,
) {
    join(
        rt,
        || for_each_mut(
            rt,
            guests,
            2,
            &|_number: usize, guest: &mut Guest<N>| work(guest, day),
        ),
        || tick(rt, office, ticker, day),
    );
}

/// Opens an office over the desk, lets the clients and the ticker work, and ends it.
fn spend_day<
    N: OfficeName<Global> + Send + Sync,
    R: Alloc<A = Global> + Print + Threads + Sync + Wait,
>(rt: &R, desk: Desk, grid: Grid, starts: Vec<u32>, hooks: Hooks) -> Result<()>
    requires named { IsNamed desk N.name N.parts N.rings }
    requires start { N.start ≡ world_at desk grid starts.items (laws_of hooks) }
{
    let (office, clients, mut ticker) = Office::<N>::open(rt.alloc(), desk, grid, starts, hooks)?;
    let Ok(mut guests) = guests_of::<N, Global>(rt.alloc(), clients) else {
        bail!("out of memory")
    };
    let day = Day {
        posted: AtomicU64::new(0),
        done: AtomicU64::new(0),
        is_over: AtomicBool::new(false),
    };
    work_all(rt, &office, guests.as_mut_slice(), &mut ticker, &day);
    let Ok(clients) = clients_of::<N, Global>(rt.alloc(), guests) else {
        bail!("out of memory")
    };
    let Ok(end) = office.conclude(rt.alloc(), clients, vec![in rt.alloc(); ticker]?) else {
        bail!("the office did not end")
    };
    println!(rt; "{} errands are done", day.done.load(Ordering::SeqCst))?;
    for (client, rest) in end.rest.iter().enumerate() {
        println!(rt; "client {client} has {} notices left", rest.len())?;
    }
    Ok(())
}

/// Makes the hall, two robots and their closures, and spends a day there with two clients.
pub(crate) fn play<R: Alloc<A = Global> + Print + Threads + Sync + Wait>(rt: &R) -> Result<()> {
    let alloc = rt.alloc();
    let grid = Grid::new(read_map(alloc, MAP)?)?;
    let starts = Vec::from_slice(alloc, &[0, 2])?;
    let mut hooks = Hooks::new(alloc);
    for _robot in 0..starts.len() {
        hooks.push(
            TieHook::new(TieLaw::ANY, Box::new(alloc, |_| 0)?),
            ArrivalHook::new(StampLaw::ANY, Box::new(alloc, |_| 0)?),
            Farewell::new(StampLaw::ANY, Box::new(alloc, |_| 0)?),
        )?;
    }
    let desk = Desk::new(alloc, 2, Limits::DEFAULT)?;
    spend_day::<Brand, R>(rt, desk, grid, starts, hooks)
}
