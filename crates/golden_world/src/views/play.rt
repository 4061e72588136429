//! A row as a run, with closures that note what they are shown.

use crate::site::site_of;
use crate::views::note::Shown;
use crate::views::row::Row;
use fleet_grid::Dir;
use fleet_hooks::{
    ArrivalHook, ArrivalView, Farewell, FarewellView, Hooks, StampLaw, TieHook, TieLaw, TieView,
};
use fleet_world::{Entry, Played, RunFault, World, run};
use std::alloc::{Alloc, AllocError, Allocator, Global};
use std::mem;
use std::sync::Arc;
use std::sync::atomic::{AtomicU64, Ordering};
use test_kit::{Finding, Noted};

/// The rank of a direction by the robot's own closure: even robots go south first, odd ones west.
fn rank_of(robot: u32, dir: Dir) -> u8 {
    let first = if robot % 2 == 0 {
        Dir::South
    } else {
        Dir::West
    };
    if dir == first { 0 } else { 9 }
}

/// The stamps of a run, tick by tick, those of arrivals first.
fn stamps_of<A: Allocator + Copy>(
    alloc: Global,
    entries: &[Entry<A>],
) -> Result<Vec<u32>, AllocError> {
    let mut stamps = Vec::new(alloc);
    for entry in entries {
        match entry {
            Entry::Take { .. } => {}
            Entry::Tick {
                arrived,
                farewells,
                ..
            } => {
                for arrival in arrived.as_slice() {
                    stamps.push(arrival.stamp)?;
                }
                for farewell in farewells.as_slice() {
                    stamps.push(farewell.stamp)?;
                }
            }
            Entry::Shut { farewell, .. } => {
                if let Some(stamp) = farewell {
                    stamps.push(*stamp)?;
                }
            }
        }
    }
    Ok(stamps)
}

/// The stamps that the row's closures are to answer.
fn row_stamps(alloc: Global, row: &Row) -> Result<Vec<u32>, AllocError> {
    row.shown
        .iter()
        .filter(|shown| !matches!(shown, Shown::Tie(..)))
        .map(|shown| shown.stamp())
        .collect(alloc)
}

/// Compares the entries of a run, its robots' cells at the end, and what its closures noted, with the row.
fn compare<A: Allocator + Copy>(
    alloc: Global,
    row: &Row,
    entries: &[Entry<A>],
    cells: &[u32],
    note: u64,
) -> Result<Finding, AllocError> {
    let (stamps, wanted_stamps) = (stamps_of(alloc, entries)?, row_stamps(alloc, row)?);
    let met = Noted {
        note,
        stamps: &stamps,
        cells,
    };
    let wanted = Noted {
        note: row.shown.iter().fold(0, |note, shown| shown.noted(note)),
        stamps: &wanted_stamps,
        cells: row.end,
    };
    Ok(met.compare(wanted))
}

/// Compares the world that a run of a row ended in, and what its closures noted, with the row.
fn compare_world<A: Allocator + Copy>(
    alloc: Global,
    row: &Row,
    world: &World<A>,
    note: u64,
) -> Result<Finding, AllocError> {
    compare(
        alloc,
        row,
        &world.chapter().entries,
        world.placement(),
        note,
    )
}

/// Compares the result of a run of a row, and what its closures noted, with the row.
fn compare_run<A: Allocator + Copy>(
    alloc: Global,
    row: &Row,
    ran: Result<Played<A>, RunFault>,
    note: u64,
) -> Result<Finding, AllocError> {
    match ran {
        Ok(played) => {
            let found = compare_world(alloc, row, &played.world, note);
            let _ended = played.world.finish();
            found
        }
        Err(_) => Ok(Finding::NotPlayed),
    }
}

/// Runs a row with these closures, and compares what they noted.
fn find<A: Allocator + Copy, R: Alloc<A = A>>(
    alloc: Global,
    rt: &R,
    row: &Row,
    hooks: Hooks<A>,
    note: &AtomicU64,
) -> Result<Finding, AllocError> {
    match site_of(rt.alloc(), row.sides, row.letters, row.starts) {
        Ok(Some((grid, starts))) => {
            let hooks = hooks.cut(starts.len());
            let ran = run(rt, grid, starts, 2, row.limits, hooks, row.events);
            compare_run(alloc, row, ran, note.load(Ordering::SeqCst))
        }
        Ok(None) => {
            mem::drop(hooks);
            Ok(Finding::NotPlayed)
        }
        Err(AllocError) => {
            mem::drop(hooks);
            Err(AllocError)
        }
    }
}

/// The note for each of a robot's closures.
fn notes(
    note: &Arc<AtomicU64>,
) -> Result<(Arc<AtomicU64>, Arc<AtomicU64>, Arc<AtomicU64>), AllocError> {
    let (first, second) = (Arc::try_clone(note)?, Arc::try_clone(note)?);
    Ok((first, second, Arc::try_clone(note)?))
}

/// Plays a row with closures that note each view, in one note for all robots.
fn find_noted<A: Allocator + Copy, R: Alloc<A = A>>(
    alloc: Global,
    rt: &R,
    row: &Row,
    note: &Arc<AtomicU64>,
) -> Result<Finding, AllocError> {
    let mut hooks = Hooks::new(rt.alloc());
    for robot in 0..3u32 {
        let (ties, arrivals, farewells) = notes(note)?;
        let tie = move |view: TieView| {
            keep(&ties, Shown::Tie(robot, view));
            rank_of(robot, view.dir)
        };
        let arrival = move |view: ArrivalView| keep(&arrivals, Shown::Arrival(robot, view));
        let farewell = move |view: FarewellView| keep(&farewells, Shown::Farewell(robot, view));
        let tie = TieHook::new(TieLaw::ANY, Box::new(alloc, tie)?);
        let arrival = ArrivalHook::new(StampLaw::ANY, Box::new(alloc, arrival)?);
        let farewell = Farewell::new(StampLaw::ANY, Box::new(alloc, farewell)?);
        hooks.push(tie, arrival, farewell)?;
    }
    find(alloc, rt, row, hooks, note)
}

/// Plays a row over the runtime's heap.
pub(crate) fn play<A: Allocator + Copy, R: Alloc<A = A>>(
    alloc: Global,
    rt: &R,
    row: &Row,
) -> Result<Finding, AllocError> {
    let note = Arc::new(alloc, AtomicU64::new(0))?;
    find_noted(alloc, rt, row, &note)
}

/// Notes a view after those before it. The result is its stamp.
fn keep(note: &AtomicU64, shown: Shown) -> u32 {
    note.store(shown.noted(note.load(Ordering::SeqCst)), Ordering::SeqCst);
    shown.stamp()
}
