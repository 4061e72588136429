//! Calls on an office, each made again if memory runs out.

use crate::rows::case::Step;
use crate::rows::live::{tell_ahead, tell_grown, tell_settle, tell_turn_into};
use fleet_core::{ChapterFault, ShutFault};
use fleet_history::{Chapter, Entry};
use fleet_office::{Guest, Look, Office, OfficeName, Ticker, TurnCause, TurnFault, TurnReport};
use std::alloc::{Alloc, AllocError, Allocator};
use std::fmt::Write;
use std::sync::Wait;
use std::thread::Threads;

/// What two turns did, the first of which ended early: as one.
pub(crate) fn both(
    first: TurnReport,
    second: Result<TurnReport, TurnFault>,
) -> Result<TurnReport, TurnFault> {
    match second {
        Ok(report) => Ok(sum(first, report)),
        Err(fault) => Err(TurnFault {
            cause: fault.cause,
            report: sum(first, fault.report),
        }),
    }
}

/// Two reports as one.
fn sum(first: TurnReport, second: TurnReport) -> TurnReport {
    TurnReport {
        taken: first.taken.saturating_add(second.taken),
        held: first.held.saturating_add(second.held),
        given: first.given.saturating_add(second.given),
        arrived: first.arrived.saturating_add(second.arrived),
        tick: second.tick,
    }
}

/// A turn; if memory ran out, two turns, whose reports are added.
fn turned<N: OfficeName<A>, A: Allocator + Copy, R: Alloc<A = A> + Wait>(
    rt: &R,
    office: &Office<N, A>,
    ticker: &mut Ticker<N>,
) -> Result<TurnReport, TurnFault> {
    match office.turn(rt, ticker) {
        Err(
            TurnFault {
                cause: TurnCause::NoMemory,
                report,
            },
        ) => both(report, office.turn(rt, ticker)),
        turned => turned,
    }
}

/// Prints the result of a turn of this ticker.
fn tell_turn<N: OfficeName<A>, A: Allocator + Copy, R: Alloc<A = A> + Wait>(
    rt: &R,
    office: &Office<N, A>,
    tickers: &mut Vec<Ticker<N>, A>,
    ticker: usize,
    told: &mut String,
) -> Result<(), AllocError> {
    match tickers.get_mut(ticker) {
        Some(ticker) => {
            let turned = turned(rt, office, ticker);
            write!(told, "{turned:?}")
        }
        None => told.push_str("nobody"),
    }
}

/// Prints what a look showed.
fn tell_seen<A: Allocator + Copy>(look: &Look<A>, told: &mut String) -> Result<(), AllocError> {
    write!(
        told,
        "tick {} at {:?} eldest {:?} idle {} chapter {} entries {} within {:?}",
        look.tick,
        look.placement.as_slice(),
        look.eldest,
        look.idle,
        look.chapter,
        look.entries,
        look.idle_within
    )
}

/// Prints what a look with this ticker shows.
pub(crate) fn tell_look<N: OfficeName<A>, A: Allocator + Copy, R: Alloc<A = A> + Wait>(
    rt: &R,
    office: &Office<N, A>,
    tickers: &[Ticker<N>],
    ticker: usize,
    told: &mut String,
) -> Result<(), AllocError> {
    let Some(ticker) = tickers.get(ticker) else {
        return told.push_str("nobody");
    };
    let look = match office.look(rt, ticker) {
        Ok(look) => look,
        Err(AllocError) => office.look(rt, ticker)?,
    };
    tell_seen(&look, told)
}

/// Prints how long the robots wait, and the limit of all waits.
fn tell_waits<N: OfficeName<A>, A: Allocator + Copy, R: Wait>(
    rt: &R,
    office: &Office<N, A>,
    told: &mut String,
) -> Result<(), AllocError> {
    let waits = office.waits(rt);
    write!(told, "longest {:?} limit {:?}", waits.longest, waits.limit)
}

/// Prints the result of a shut of this robot.
fn tell_shut<N: OfficeName<A>, A: Allocator + Copy, R: Wait>(
    rt: &R,
    office: &Office<N, A>,
    robot: u32,
    told: &mut String,
) -> Result<(), AllocError> {
    let shut = match office.shut(rt, robot) {
        Err(ShutFault::NoMemory) => office.shut(rt, robot),
        shut => shut,
    };
    write!(told, "{shut:?}")
}

/// Prints how many entries of each kind a chapter has.
pub(crate) fn tell_chapter<A: Allocator + Copy>(
    chapter: &Chapter<A>,
    told: &mut String,
) -> Result<(), AllocError> {
    let mut takes = 0u64;
    let mut ticks = 0u64;
    let mut shuts = 0u64;
    for entry in &chapter.entries {
        match entry {
            Entry::Take { .. } => takes = takes.saturating_add(1),
            Entry::Tick { .. } => ticks = ticks.saturating_add(1),
            Entry::Shut { .. } => shuts = shuts.saturating_add(1),
        }
    }
    let number = chapter.number;
    write!(
        told,
        "chapter {number} takes {takes} ticks {ticks} shuts {shuts}"
    )
}

/// Prints the result of the next chapter's beginning.
fn tell_next<N: OfficeName<A>, A: Allocator + Copy, R: Wait>(
    rt: &R,
    office: &Office<N, A>,
    told: &mut String,
) -> Result<(), AllocError> {
    let next = match office.next_chapter(rt) {
        Err(ChapterFault::NoMemory) => office.next_chapter(rt),
        next => next,
    };
    match next {
        Ok(chapter) => tell_chapter(&chapter, told),
        Err(fault) => write!(told, "{fault:?}"),
    }
}

/// Prints the result of a post, a close or a collect of this client.
pub(crate) fn tell_client<N: OfficeName<A>, A: Allocator + Copy>(
    guests: &mut Vec<Guest<N, A>, A>,
    step: &Step,
    client: usize,
    told: &mut String,
) -> Result<(), AllocError> {
    let Some(guest) = guests.get_mut(client) else {
        return told.push_str("nobody");
    };
    match step {
        Step::Post(_, order) => {
            let posted = guest.post(*order);
            write!(told, "{posted:?}")
        }
        Step::Close(_) => {
            let closed = guest.close();
            write!(told, "{closed:?}")
        }
        _ => {
            let notice = guest.collect();
            write!(told, "{notice:?}")
        }
    }
}

/// Prints the number of the ticker that this one gives a part to.
fn tell_split<N: OfficeName<A>, A: Allocator + Copy>(
    tickers: &mut Vec<Ticker<N>, A>,
    ticker: usize,
    told: &mut String,
) -> Result<(), AllocError> {
    let number = tickers.len();
    let Some(ticker) = tickers.get_mut(ticker) else {
        return told.push_str("nobody");
    };
    match ticker.split() {
        Some(new) => {
            tickers.push(new)?;
            write!(told, "ticker {number}")
        }
        None => told.push_str("none"),
    }
}

/// Makes a call that is no end, and prints its result.
pub(crate) fn tell_answer<
    N: OfficeName<A>,
    A: Allocator + Copy + Send + Sync,
    R: Alloc<A = A> + Threads + Sync + Wait,
>(
    rt: &R,
    office: &Office<N, A>,
    guests: &mut Vec<Guest<N, A>, A>,
    tickers: &mut Vec<Ticker<N>, A>,
    step: &Step,
    told: &mut String,
) -> Result<(), AllocError> {
    match *step {
        Step::Post(client, _) | Step::Close(client) | Step::Collect(client) => {
            tell_client(guests, step, client, told)
        }
        Step::Turn(ticker) => tell_turn(rt, office, tickers, ticker, told),
        Step::TurnInto(ticker) => tell_turn_into(rt, office, tickers, ticker, told),
        Step::Settle => tell_settle(rt, office, told),
        Step::Look(ticker) => tell_look(rt, office, tickers, ticker, told),
        Step::Waits => tell_waits(rt, office, told),
        Step::Split(ticker) => tell_split(tickers, ticker, told),
        Step::Shut(robot) => tell_shut(rt, office, robot, told),
        Step::NextChapter => tell_next(rt, office, told),
        Step::TurnPage(least) => tell_grown(rt, office, least, told),
        Step::Keep(bytes) => {
            office.keep(rt, bytes);
            told.push_str("kept")
        }
        Step::SearchAhead => tell_ahead(rt, office, told),
        Step::Conclude(_, _) => told.push_str("an end"),
    }
}
