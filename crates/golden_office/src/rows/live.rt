//! The calls of an office that lives on, each made again if memory runs out.

use crate::rows::calls::{both, tell_chapter};
use fleet_core::ChapterFault;
use fleet_office::{Office, OfficeName, TickRecord, Ticker, TurnCause, TurnFault, TurnReport};
use std::alloc::{Alloc, AllocError, Allocator};
use std::fmt::Write;
use std::sync::Wait;
use std::thread::Threads;

/// Prints the result of a turn without its tick; if memory ran out, of two, whose reports are added.
pub(crate) fn tell_settle<N: OfficeName<A>, A: Allocator + Copy, R: Wait>(
    rt: &R,
    office: &Office<N, A>,
    told: &mut String,
) -> Result<(), AllocError> {
    let settled = match office.settle(rt) {
        Err(
            TurnFault {
                cause: TurnCause::NoMemory,
                report,
            },
        ) => both(report, office.settle(rt)),
        settled => settled,
    };
    write!(told, "{settled:?}")
}

/// A turn that is written into the record; if memory ran out, two turns, whose reports are added.
fn turned_into<N: OfficeName<A>, A: Allocator + Copy, R: Alloc<A = A> + Wait>(
    rt: &R,
    office: &Office<N, A>,
    ticker: &mut Ticker<N>,
    made: &mut TickRecord<A>,
) -> Result<TurnReport, TurnFault> {
    match office.turn_into(rt, ticker, made) {
        Err(
            TurnFault {
                cause: TurnCause::NoMemory,
                report,
            },
        ) => both(report, office.turn_into(rt, ticker, made)),
        turned => turned,
    }
}

/// Prints the result of a turn with this ticker, and the tick that it made.
pub(crate) fn tell_turn_into<N: OfficeName<A>, A: Allocator + Copy, R: Alloc<A = A> + Wait>(
    rt: &R,
    office: &Office<N, A>,
    tickers: &mut Vec<Ticker<N>, A>,
    ticker: usize,
    told: &mut String,
) -> Result<(), AllocError> {
    let Some(ticker) = tickers.get_mut(ticker) else {
        return told.push_str("nobody");
    };
    let mut made = match TickRecord::new(rt.alloc()) {
        Ok(made) => made,
        Err(AllocError) => TickRecord::new(rt.alloc())?,
    };
    let turned = turned_into(rt, office, ticker, &mut made);
    write!(
        told,
        "{turned:?} made tick {} at {:?} arrived {:?} farewells {:?}",
        made.tick(),
        made.placement(),
        made.arrived(),
        made.farewells()
    )
}

/// Prints the chapter that had at least this many entries.
pub(crate) fn tell_grown<N: OfficeName<A>, A: Allocator + Copy, R: Wait>(
    rt: &R,
    office: &Office<N, A>,
    least: u32,
    told: &mut String,
) -> Result<(), AllocError> {
    let found = match office.grown_chapter(rt, least) {
        Err(ChapterFault::NoMemory) => office.grown_chapter(rt, least),
        found => found,
    };
    match found {
        Ok(Some(chapter)) => tell_chapter(&chapter, told),
        Ok(None) => told.push_str("none"),
        Err(fault) => write!(told, "{fault:?}"),
    }
}

/// Searches the fields of the next errands.
pub(crate) fn tell_ahead<
    N: OfficeName<A>,
    A: Allocator + Copy + Send + Sync,
    R: Threads + Sync + Wait,
>(rt: &R, office: &Office<N, A>, told: &mut String) -> Result<(), AllocError> {
    let searched = match office.search_ahead(rt) {
        Err(AllocError) => office.search_ahead(rt),
        Ok(()) => Ok(()),
    };
    write!(told, "{searched:?}")
}
