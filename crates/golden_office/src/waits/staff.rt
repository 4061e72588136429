//! Clients and tickers, each in its thread.

use crate::waits::shared::Shared;
use fleet_book::Order;
use fleet_office::{Guest, Office, OfficeName, Ticker, side_by_side};
use std::alloc::{Alloc, Global};
use std::sync::Wait;
use std::sync::atomic::Ordering;
use std::thread;
use std::thread::{Threads, join};

/// No office has more clients.
const MOST_CLIENTS: usize = 64;

/// One client's work: once the closure has begun it posts until its lane is full, and collects once.
fn work<N: OfficeName<Global>>(guest: &mut Guest<N>, shared: &Shared) {
    if !shared.wait_for_hook() {
        return;
    }
    for _ in 0..shared.posts {
        let Ok(_number) = guest.post(Order::Go { robot: 0, cell: 1 }) else {
            break;
        };
        shared.posted.fetch_add(1, Ordering::SeqCst);
    }
    if let Some(_notice) = guest.collect() {
        shared.collected.fetch_add(1, Ordering::SeqCst);
    }
    shared.done.fetch_add(1, Ordering::SeqCst);
}

/// One ticker's turns. The first ticker makes one at once, the other its turns once the closure has begun.
fn turn<N: OfficeName<Global>, R: Alloc<A = Global> + Wait>(
    rt: &R,
    office: &Office<N>,
    ticker: Ticker<N>,
    is_first: bool,
    shared: &Shared,
) -> Ticker<N> {
    let mut ticker = ticker;
    let turns = if is_first {
        1
    } else if shared.wait_for_hook() {
        shared.turns
    } else {
        0
    };
    for _ in 0..turns {
        if let Err(_fault) = office.turn(rt, &mut ticker) {
            shared.refused.fetch_add(1, Ordering::SeqCst);
        }
    }
    ticker
}

/// Two tickers side by side.
fn turn_both<N: OfficeName<Global> + Send + Sync, R: Alloc<A = Global> + Threads + Sync + Wait>(
    rt: &R,
    office: &Office<N>,
    first: Ticker<N>,
    second: Ticker<N>,
    shared: &Shared,
) -> (Ticker<N>, Ticker<N>) {
    side_by_side(
        rt,
        office,
        (first, true),
        (second, false),
        &|office: &Office<N>, turner: (Ticker<N>, bool)| {
            turn(rt, office, turner.0, turner.1, shared)
        },
    )
}

/// All clients in parallel, with the tickers.
pub(crate) fn work_all<
    N: OfficeName<Global> + Send + Sync,
    R: Alloc<A = Global> + Threads + Sync + Wait,
>(
    rt: &R,
    office: &Office<N>,
    guests: &mut [Guest<N>],
    first: Ticker<N>,
    second: Ticker<N>,
    shared: &Shared,
) -> (Ticker<N>, Ticker<N>) {
    let ((), tickers) = join(
        rt,
        || {
            thread::for_each_mut(
                rt,
                guests,
                MOST_CLIENTS,
                &|_number: usize, guest: &mut Guest<N>| { work(guest, shared) },
            )
        },
        || turn_both(rt, office, first, second, shared),
    );
    tickers
}
