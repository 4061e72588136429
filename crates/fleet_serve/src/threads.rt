//! Clients and tickers, each in a thread of its own.

ghost use Rattle.std.specs.Prelude.{IfErr};
ghost use Rattle.fleet_serve.specs.inside.Faults.{IsLater};

use crate::gate::Gate;
use crate::names::ScriptName;
use crate::new_client::NewClient;
use crate::served::ServeFault;
use crate::served_client::ServedClient;
use crate::shift::Shift;
use fleet_office::{Office, Ticker, TurnCause, side_by_side};
use std::alloc::{Alloc, AllocError, Global};
use std::sync::Wait;
use std::thread;
use std::thread::{Threads, join};

/// A ticker, and why it stopped early.
#[derive(Drop)]
pub struct TickerEnd<N: ScriptName> {
    pub ticker: Ticker<N>,
    pub stopped: Option<TurnCause>,
}

/// This many turns of a ticker, or those before the first that is refused.
fn tick<N: ScriptName, R: Alloc<A = Global> + Wait>(
    rt: &R,
    office: &Office<N>,
    ticker: Ticker<N>,
    turns: u32,
) -> TickerEnd<N> {
    let mut ticker = ticker;
    for _ in 0..turns {
        if let Err(fault) = office.turn(rt, &mut ticker) {
            return TickerEnd {
                ticker,
                stopped: Some(fault.cause),
            };
        }
    }
    TickerEnd {
        ticker,
        stopped: None,
    }
}

/// Two tickers side by side.
fn tick_both<N: ScriptName + Send + Sync, R: Alloc<A = Global> + Threads + Sync + Wait>(
    rt: &R,
    office: &Office<N>,
    first: Ticker<N>,
    second: Ticker<N>,
    turns: u32,
) -> (TickerEnd<N>, TickerEnd<N>) {
    side_by_side(
        rt,
        office,
        first,
        second,
        &|office: &Office<N>, ticker: Ticker<N>| tick(rt, office, ticker, turns),
    )
}

/// A thread for each client, which runs its lines. All threads that were started have ended when it returns, also where
/// one could not be started.
fn run_all<
    N: ScriptName + Send + Sync,
    R: Alloc<A = Global> + Threads + Sync + Wait,
    G: Gate + Sync,
>(
    rt: &R,
    new_clients: Vec<NewClient<N>>,
    shift: &Shift<'_, N, G>,
) -> Result<Vec<ServedClient<N>>, ServeFault>
    ensures { IfErr result (λ fault. IsLater fault) }
{
    let mut threads = Vec::new(rt.alloc());
    let started = thread::scope(thread::scope_env(), rt, |scope| {
        for new_client in new_clients {
            let Ok(thread) = scope.spawn(move || shift.run(new_client)) else {
                return Err(ServeFault::NoThread);
            };
            if let Err(refused) = threads.push(thread) {
                return Err(AllocError::from(refused).into());
            }
        }
        Ok(())
    });
    match started {
        Ok(()) => {}
        Err(ServeFault::NoMemory) => return Err(ServeFault::NoMemory),
        Err(_) => return Err(ServeFault::NoThread),
    }
    let mut ran = Vec::with_capacity(rt.alloc(), threads.len())?;
    for thread in threads {
        ran.push_reserved(thread.join(rt));
    }
    Ok(ran)
}

/// The clients that have run their lines.
pub(crate) type WorkEnd<N> = (Vec<ServedClient<N>>, TickerEnd<N>, TickerEnd<N>);

/// All clients in parallel, with both tickers.
pub(crate) fn work_all<
    N: ScriptName + Send + Sync,
    R: Alloc<A = Global> + Threads + Sync + Wait,
    G: Gate + Sync,
>(
    rt: &R,
    office: &Office<N>,
    new_clients: Vec<NewClient<N>>,
    tickers: (Ticker<N>, Ticker<N>),
    turns: u32,
    shift: &Shift<'_, N, G>,
) -> Result<WorkEnd<N>, ServeFault>
    ensures { IfErr result (λ fault. IsLater fault) }
{
    let (first, second) = tickers;
    let (ran, (first, second)) = join(
        rt,
        || run_all(rt, new_clients, shift),
        || tick_both(rt, office, first, second, turns),
    );
    Ok((ran?, first, second))
}
