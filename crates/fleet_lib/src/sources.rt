//! Where the errands of the word `sim` come from.

use crate::simulating::SimTrouble;
use fleet_grid::Grid;
use fleet_plans::{MOST_PLAN_BYTES, PlanTextFault, Scenario, scenario_on};
use fleet_sim::{TasksFault, read_tasks};
use fleet_survey::{CellsFault, read_cells};
use std::alloc::Global;

/// Where errands come from, as texts; at most one is given.
#[derive(Clone, Copy, Debug)]
pub struct SimSources<'a> {
    /// A list of cells to which they go.
    pub cells: Option<&'a [u8]>,
    /// A scenario, of at most 1 GiB.
    pub scenario: Option<&'a [u8]>,
    /// A list of tasks.
    pub tasks: Option<&'a [u8]>,
}

/// What these texts say: cells to which errands go, cells on which robots start, and errands in turn.
#[derive(Drop)]
pub(crate) struct Sources {
    pub(crate) stations: Option<Vec<u32>>,
    pub(crate) starts: Option<Vec<u32>>,
    pub(crate) tasks: Option<Vec<u32>>,
}

/// The cells of a list.
fn stations_of(alloc: Global, grid: &Grid, text: &[u8]) -> Result<Vec<u32>, SimTrouble> {
    match read_cells(alloc, grid, text) {
        Ok(listed) => Ok(listed),
        Err(CellsFault::Line(line)) => Err(SimTrouble::Cells(line)),
        Err(CellsFault::NoMemory) => Err(SimTrouble::NoMemory),
    }
}

/// The tasks of a list.
fn tasks_of(alloc: Global, grid: &Grid, text: &[u8]) -> Result<Vec<u32>, SimTrouble> {
    match read_tasks(alloc, grid, text) {
        Ok(tasks) => Ok(tasks),
        Err(TasksFault::Line(line)) => Err(SimTrouble::Tasks(line)),
        Err(TasksFault::NoMemory) => Err(SimTrouble::NoMemory),
    }
}

/// The starts and goals of a scenario; a text of more than 1 GiB is refused as its first line.
fn trips_of(alloc: Global, grid: &Grid, text: &[u8]) -> Result<(Vec<u32>, Vec<u32>), SimTrouble> {
    if text.len() > MOST_PLAN_BYTES {
        return Err(SimTrouble::Scenario(1));
    }
    match scenario_on(alloc, grid, text) {
        Ok(Scenario { starts, goals }) => Ok((
            Vec::from_slice(alloc, starts.as_slice())?,
            Vec::from_slice(alloc, goals.as_slice())?,
        )),
        Err(PlanTextFault::Line(line)) => Err(SimTrouble::Scenario(u64::from(line))),
        Err(PlanTextFault::NoMemory) => Err(SimTrouble::NoMemory),
    }
}

/// What the texts say.
pub(crate) fn sources_of(
    alloc: Global,
    grid: &Grid,
    texts: SimSources<'_>,
) -> Result<Sources, SimTrouble> {
    let (mut stations, mut starts, mut tasks) = (None, None, None);
    if let Some(text) = texts.cells {
        stations = Some(stations_of(alloc, grid, text)?);
    }
    if let Some(text) = texts.scenario {
        let (from, to) = trips_of(alloc, grid, text)?;
        starts = Some(from);
        tasks = Some(to);
    }
    if let Some(text) = texts.tasks {
        tasks = Some(tasks_of(alloc, grid, text)?);
    }
    Ok(Sources {
        stations,
        starts,
        tasks,
    })
}
