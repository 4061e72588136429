//! Clients and tickers at work, each in its thread.

ghost use Rattle.std.specs.Prelude.{◌≡◌, ◌<◌, ◌^◌, vec_len};

use crate::tally::Tally;
use fleet_book::Order;
use fleet_lanes::PostFault;
use fleet_office::{Guest, Office, OfficeName, Ticker, TurnCause, side_by_side};
use std::alloc::{Alloc, Global};
use std::sync::Wait;
use std::sync::atomic::{AtomicU64, Ordering};
use std::thread;
use std::thread::{Threads, join};
use test_kit::Random;

/// The greatest number of times that a client looks for a free slot or a notice, and of turns that a ticker makes.
const MOST_TRIES: u64 = 200_000_000;

/// No office has more clients.
const MOST_CLIENTS: usize = 64;

/// The greatest number of notices that a client collects at once.
const HANDFUL: u32 = 64;

/// A client with what it sends and what it collected.
#[derive(Drop)]
pub(crate) struct Worker<N: OfficeName<Global>> {
    pub(crate) guest: Guest<N>,
    pub(crate) random: Random,
    pub(crate) tally: Tally,
}

/// The result of posting an errand.
#[derive(Clone, Copy, PartialEq, Eq)]
enum Posted {
    Sent,
    /// The lane has no room now; the same errand is posted again later.
    LaneFull,
    /// No further order can be sent.
    Refused,
}

/// What all threads share: how many robots there are; to which cells errands lead; how many orders each client sends,
/// and the seeds of its random errands; the least number of turns of each ticker; and how many clients have done their
/// work.
#[derive(Drop)]
pub(crate) struct Shift {
    pub(crate) robots: u32,
    pub(crate) cells: Vec<u32>,
    pub(crate) orders: u64,
    pub(crate) seed: u64,
    pub(crate) turns: u64,
    pub(crate) clients: u64,
    pub(crate) done: AtomicU64,
    ghost robots_there: { 0 < robots },
    ghost cells_there: { 0 < vec_len cells },
}

impl<N: OfficeName<Global>> Worker<N> {
    /// Collects what is on the outlet, at most 64 notices.
    fn collect(&mut self) {
        for _ in 0..HANDFUL {
            let Some(notice) = self.guest.collect() else {
                return;
            };
            self.tally.note(notice);
        }
    }

    /// Posts a random errand.
    fn post(&mut self, shift: &Shift) -> Posted {
        let mut random = self.random;
        let robot = random.below(shift.robots as usize) as u32;
        let cell = shift.cells[random.below(shift.cells.len())];
        match self.guest.post(Order::Go { robot, cell }) {
            Ok(number) => {
                self.random = random;
                self.tally.orders = number;
                Posted::Sent
            }
            Err(PostFault::LaneFull(_order)) => Posted::LaneFull,
            // Nobody closes, and there are numbers for all orders, so no call ends here.
            Err(PostFault::Closed) | Err(PostFault::NumbersSpent(_)) => Posted::Refused,
        }
    }
}

/// One client's work: it sends its orders as its lane takes them, and collects until each accepted errand has arrived.
fn work<N: OfficeName<Global>>(worker: &mut Worker<N>, shift: &Shift) {
    for _ in 0..MOST_TRIES {
        worker.collect();
        if worker.tally.orders < shift.orders {
            match worker.post(shift) {
                Posted::Sent => {}
                Posted::LaneFull => thread::yield_now(),
                Posted::Refused => break,
            }
        } else if worker.tally.is_settled() {
            break;
        } else {
            thread::yield_now();
        }
    }
    shift.done.fetch_add(1, Ordering::SeqCst);
}

/// A ticker, and why it stopped early.
#[derive(Drop)]
pub(crate) struct TickerEnd<N: OfficeName<Global>> {
    pub(crate) ticker: Ticker<N>,
    pub(crate) stopped: Option<TurnCause>,
}

/// One ticker's work: its turns, and further ones until all clients have done theirs.
fn tick<N: OfficeName<Global>, R: Alloc<A = Global> + Wait>(
    rt: &R,
    office: &Office<N>,
    ticker: Ticker<N>,
    shift: &Shift,
) -> TickerEnd<N> {
    let mut ticker = ticker;
    for turn in 0..MOST_TRIES {
        if turn >= shift.turns && shift.done.load(Ordering::SeqCst) >= shift.clients {
            break;
        }
        if let Err(fault) = office.turn(rt, &mut ticker) {
            return TickerEnd {
                ticker,
                stopped: Some(fault.cause),
            };
        }
    }
    TickerEnd {
        ticker,
        stopped: None,
    }
}

/// Two tickers in two threads.
fn tick_both<N: OfficeName<Global> + Send + Sync, R: Alloc<A = Global> + Threads + Sync + Wait>(
    rt: &R,
    office: &Office<N>,
    first: Ticker<N>,
    second: Ticker<N>,
    shift: &Shift,
) -> (TickerEnd<N>, TickerEnd<N>) {
    side_by_side(
        rt,
        office,
        first,
        second,
        &|office: &Office<N>, ticker: Ticker<N>| tick(rt, office, ticker, shift),
    )
}

/// All clients in parallel, with the tickers.
pub(crate) fn work_all<
    N: OfficeName<Global> + Send + Sync,
    R: Alloc<A = Global> + Threads + Sync + Wait,
>(
    rt: &R,
    office: &Office<N>,
    workers: &mut [Worker<N>],
    first: Ticker<N>,
    second: Ticker<N>,
    shift: &Shift,
) -> (TickerEnd<N>, TickerEnd<N>) {
    let ((), tickers) = join(
        rt,
        || {
            thread::for_each_mut(
                rt,
                workers,
                MOST_CLIENTS,
                &|_number: usize, worker: &mut Worker<N>| { work(worker, shift) },
            )
        },
        || tick_both(rt, office, first, second, shift),
    );
    tickers
}
