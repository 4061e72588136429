//! The turns that a serve makes when its threads have ended.

ghost use Rattle.std.specs.Prelude.{◌≡◌, Some, Err, IfErr};
ghost use Rattle.fleet_office.specs.declared.report.TurnCause.{TurnCause};
ghost use Rattle.fleet_serve.specs.inside.Faults.{IsLater, fault_of};

use crate::names::ScriptName;
use crate::served::ServeFault;
use crate::served_client::ServedClient;
use fleet_office::{Office, Ticker, TurnCause, TurnFault, TurnReport};
use std::alloc::{Alloc, Global};
use std::sync::Wait;

/// How many turns may be made until the lanes are empty.
const MOST_TURNS: u32 = 1_000_000;

/// The fault of a serve for the cause for which a turn ended early.
fn fault_of(cause: TurnCause) -> ServeFault
    ensures value { result ≡ fault_of cause }
    ensures later { IsLater result }
{
    match cause {
        TurnCause::ClockSpent => ServeFault::ClockSpent,
        TurnCause::ChapterFull => ServeFault::ChapterFull,
        TurnCause::NoMemory => ServeFault::NoMemory,
    }
}

/// A turn, after which all clients collect.
fn turn<N: ScriptName, R: Alloc<A = Global> + Wait>(
    rt: &R,
    office: &Office<N>,
    ticker: &mut Ticker<N>,
    ran: &mut [ServedClient<N>],
) -> Result<TurnReport, ServeFault>
    ensures { IfErr result (λ fault. IsLater fault) }
{
    let report = match office.turn(rt, ticker) {
        Ok(report) => report,
        Err(TurnFault { cause, .. }) => return Err(fault_of(cause)),
    };
    for at in 0..ran.len() {
        ran[at].collect_all();
    }
    Ok(report)
}

/// Makes turns until one takes no order and holds no client; then the lanes are empty.
fn drain<N: ScriptName, R: Alloc<A = Global> + Wait>(
    rt: &R,
    office: &Office<N>,
    ticker: &mut Ticker<N>,
    ran: &mut [ServedClient<N>],
) -> Result<(), ServeFault>
    ensures { IfErr result (λ fault. IsLater fault) }
{
    for _ in 0..MOST_TURNS {
        let report = turn(rt, office, ticker, ran)?;
        if report.taken == 0 && report.held == 0 {
            return Ok(());
        }
    }
    Err(ServeFault::Drain)
}

/// On a bridgeless map, makes turns until no robot has an errand: at most as many turns as `idle_within` allows.
fn idle<N: ScriptName, R: Alloc<A = Global> + Wait>(
    rt: &R,
    office: &Office<N>,
    ticker: &mut Ticker<N>,
    ran: &mut [ServedClient<N>],
) -> Result<(), ServeFault>
    ensures { IfErr result (λ fault. IsLater fault) }
{
    let Some(ticks) = office.look(rt, ticker)?.idle_within else {
        return Ok(());
    };
    for _ in 0..ticks {
        if office.look(rt, ticker)?.idle {
            return Ok(());
        }
        turn(rt, office, ticker, ran)?;
    }
    Ok(())
}

/// If no ticker stopped early: turns until the lanes are empty, and no robot has an errand on a bridgeless map.
pub(crate) fn make_last_turns<N: ScriptName, R: Alloc<A = Global> + Wait>(
    rt: &R,
    office: &Office<N>,
    stopped: Option<TurnCause>,
    ticker: &mut Ticker<N>,
    ran: &mut [ServedClient<N>],
) -> Result<(), ServeFault>
    ensures later { IfErr result (λ fault. IsLater fault) }
    ensures stopped { (cause : TurnCause) → stopped ≡ Some cause → result ≡ Err (fault_of cause) }
{
    if let Some(cause) = stopped {
        return Err(fault_of(cause));
    }
    drain(rt, office, ticker, ran)?;
    idle(rt, office, ticker, ran)
}
