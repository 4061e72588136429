//! A later chapter of a world, as the rules reckon its opening.

use crate::fleet::{Fleet, Robot};
use fleet_history::{Chapter, Entry, Opening, RobotState, Row};
use std::alloc::{AllocError, Global};

/// A robot as an opening states it.
fn state_of(alloc: Global, robot: &Robot) -> Result<RobotState, AllocError> {
    let errands = Vec::from_slice(alloc, &robot.errands)?;
    Ok(RobotState {
        cell: robot.cell,
        shut: robot.shut,
        wait: robot.wait,
        errands: Row::from_vec(errands),
        arrival_law: robot.arrival_law,
        farewell_law: robot.farewell_law,
    })
}

fn states_of(alloc: Global, robots: &[Robot]) -> Result<Vec<RobotState>, AllocError> {
    robots
        .iter()
        .map(|robot| state_of(alloc, robot))
        .try_collect(alloc)
}

/// The opening of a fleet under way.
fn opening_of(alloc: Global, fleet: &Fleet) -> Result<Opening, AllocError> {
    let clients = Vec::from_slice(alloc, &fleet.clients)?;
    let robots = states_of(alloc, &fleet.robots)?;
    Ok(Opening {
        tick: fleet.tick,
        queue: fleet.queue,
        life: fleet.life,
        clients: Row::from_vec(clients),
        robots: Row::from_vec(robots),
    })
}

fn enter_all(fleet: &mut Fleet, entries: &[Entry]) -> Result<(), AllocError> {
    for entry in entries {
        fleet.enter(entry)?;
    }
    Ok(())
}

/// The opening after these entries of a legal chapter.
fn opening_behind(
    alloc: Global,
    opening: &Opening,
    entries: &[Entry],
) -> Result<Opening, AllocError> {
    let mut fleet = Fleet::of(alloc, opening)?;
    enter_all(&mut fleet, entries)?;
    opening_of(alloc, &fleet)
}

/// The chapter that begins after this many entries of a legal one.
pub fn later_chapter(
    alloc: Global,
    mut chapter: Chapter,
    behind: usize,
) -> Result<Chapter, AllocError> {
    let behind = behind.min(chapter.entries.len());
    chapter.opening = opening_behind(alloc, &chapter.opening, &chapter.entries[..behind])?;
    chapter.entries.drain(..behind);
    chapter.number = chapter.number.saturating_add(1);
    Ok(chapter)
}
