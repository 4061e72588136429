//! Runs of the word `sim`, and their table.

ghost use Rattle.std.specs.Prelude.{◌≡◌, ◌≤◌, vec_len, IfOk, string_bytes};
ghost use Rattle.fleet_lib.specs.Said.{said_of};
ghost use Rattle.fleet_lib.specs.Sim.{IsFloorOf, IsPlayed, trouble_status, trouble_text, troubled};

use crate::check::{printed, refused};
use crate::said::Said;
use crate::sources::{SimSources, Sources, sources_of};
use fleet_grid::Grid;
use fleet_hooks::Hooks;
use fleet_map::{MapFault, read_map};
use fleet_sim::{Ended, Line, Setting, Sim, SimFault, TableForm, table_text};
use fleet_stats::{LaterFigures, StatsFault, figures_after};
use fleet_talk::Manner;
use fleet_text::Complaint;
use std::alloc::{AllocError, Global};
use std::mem;

/// A run of an experiment.
#[derive(Clone, Copy, Debug)]
pub struct SimRun {
    pub robots: u32,
    pub seed: u64,
    pub manner: Manner,
    pub roomy: bool,
}

/// Why there is no table.
#[derive(Clone, Copy, Debug)]
pub enum SimTrouble {
    /// The bytes are not a map.
    Map(MapFault),
    /// This line of the list of cells has a word that is no floor cell.
    Cells(u64),
    /// This line of the scenario is not allowed where it is.
    Scenario(u64),
    /// This line of the list of tasks is not allowed where it is.
    Tasks(u64),
    /// The starts of the scenario are not distinct floor cells, one for each robot.
    Starts,
    /// The map has fewer floor cells than robots.
    Floor(u32),
    /// The robots cannot take turns on this map.
    Turns,
    /// A run has more ticks and orders than a history may have.
    Full,
    /// The history of a run is not legal on its map; by the contracts this never happens.
    Illegal,
    NoMemory,
}

impl From<AllocError> for SimTrouble {
    ghost use Rattle.std.specs.Prelude.{◌≡◌};
    ghost use Rattle.fleet_lib.specs.declared.simulating.SimTrouble.TheVariants.{NoMemory};

    ghost from_gives = { λ _ e. e ≡ NoMemory };

    fn from(_error: AllocError) -> SimTrouble {
        SimTrouble::NoMemory
    }
}

/// A run that has ended, and its figures.
#[derive(Drop)]
pub struct Played {
    pub ended: Ended,
    pub figures: LaterFigures,
}

/// What a fault of a run of this many robots means for the table.
pub fn trouble_of(robots: u32, fault: SimFault) -> SimTrouble {
    match fault {
        // A number that is not from 1 to 512 is no word of `--robots`.
        SimFault::Robots | SimFault::Floor => SimTrouble::Floor(robots),
        SimFault::Starts => SimTrouble::Starts,
        SimFault::Turns => SimTrouble::Turns,
        SimFault::Full => SimTrouble::Full,
        SimFault::NoMemory => SimTrouble::NoMemory,
    }
}

/// The grid of a map's text.
fn grid_of(alloc: Global, map: &[u8]) -> Result<Grid, SimTrouble>
    ensures { IfOk result (IsFloorOf map.now) }
{
    match read_map(alloc, map) {
        Ok(floor) => Ok(Grid::new(floor)?),
        Err(MapFault::NoMemory) => Err(SimTrouble::NoMemory),
        Err(fault) => Err(SimTrouble::Map(fault)),
    }
}

/// The run on a grid.
fn sim_on(
    alloc: Global,
    grid: Grid,
    sources: &Sources,
    run: SimRun,
    hooks: Hooks,
) -> Result<Sim, SimTrouble>
    requires { 0 ≤ vec_len hooks.ties }
    ensures { IfOk result (λ s. s.world.core.floor ≡ grid) }
{
    let setting = Setting {
        robots: run.robots,
        seed: run.seed,
        manner: run.manner,
        roomy: run.roomy,
        stations: sources.stations.as_deref(),
        starts: sources.starts.as_deref(),
        tasks: sources.tasks.as_deref(),
    };
    match Sim::open(alloc, grid, setting, hooks) {
        Ok(sim) => Ok(sim),
        Err(fault) => Err(trouble_of(run.robots, fault)),
    }
}

/// Opens a run on the map of a text, with the errands that the other texts say. There are hooks for its robots.
///
/// Refused in this order: no map, a line of the list, of the scenario, of the tasks that is not allowed, fewer floor cells
/// than robots, starts that are not distinct floor cells, no turns on this map; memory may run out in between.
pub fn open_sim(
    alloc: Global,
    map: &[u8],
    sources: SimSources<'_>,
    run: SimRun,
    hooks: Hooks,
) -> Result<Sim, SimTrouble>
    // Of each call: only a call with a condition may hand on closures.
    requires { 0 ≤ vec_len hooks.ties }
    ensures { IfOk result (λ s. IsFloorOf map.now s.world.core.floor) }
{
    let grid = match grid_of(alloc, map) {
        Ok(grid) => grid,
        Err(trouble) => {
            mem::drop(hooks);
            return Err(trouble);
        }
    };
    match sources_of(alloc, &grid, sources) {
        Ok(sources) => sim_on(alloc, grid, &sources, run, hooks),
        Err(trouble) => {
            mem::drop(hooks);
            mem::drop(grid);
            Err(trouble)
        }
    }
}

/// Ends a run, and counts what its history says after a clock.
pub fn end_sim(alloc: Global, sim: Sim, clock: u64) -> Result<Played, SimTrouble>
    ensures { IfOk result (IsPlayed sim.world.core clock) }
{
    let ended = sim.finish(alloc)?;
    match figures_after(alloc, &ended.grid, &ended.chapters, clock) {
        Ok(figures) => Ok(Played { ended, figures }),
        Err(StatsFault::NoMemory) => Err(SimTrouble::NoMemory),
        Err(_) => Err(SimTrouble::Illegal),
    }
}

/// How a trouble is named.
fn trouble_text(alloc: Global, trouble: SimTrouble) -> Result<String, AllocError>
    ensures { IfOk result (λ text. string_bytes text ≡ trouble_text trouble) }
{
    match trouble {
        SimTrouble::Map(fault) => {
            let complaint = Complaint::Map(fault);
            format!(in alloc; "{complaint}")
        }
        SimTrouble::Cells(line) => format!(in alloc; "cells {line}"),
        SimTrouble::Scenario(line) => format!(in alloc; "scenario {line}"),
        SimTrouble::Tasks(line) => format!(in alloc; "tasks {line}"),
        SimTrouble::Starts => String::from_str(alloc, "starts"),
        SimTrouble::Floor(robots) => format!(in alloc; "robots {robots} too many for the floor"),
        SimTrouble::Turns => String::from_str(alloc, "turns"),
        SimTrouble::Full => String::from_str(alloc, "history full"),
        SimTrouble::Illegal => String::from_str(alloc, "history illegal"),
        SimTrouble::NoMemory => String::from_str(alloc, "memory"),
    }
}

/// The status of a trouble.
fn trouble_status(trouble: SimTrouble) -> u8
    ensures { result ≡ trouble_status trouble }
{
    match trouble {
        SimTrouble::Map(_) => 4,
        SimTrouble::Floor(_) => 4,
        SimTrouble::Cells(_) => 5,
        SimTrouble::Scenario(_) => 5,
        SimTrouble::Tasks(_) => 5,
        SimTrouble::Starts => 5,
        SimTrouble::Turns => 6,
        SimTrouble::Full => 6,
        SimTrouble::Illegal => 6,
        SimTrouble::NoMemory => 7,
    }
}

/// The answer where there is no table.
pub fn answer_trouble(alloc: Global, trouble: SimTrouble) -> Result<Said, AllocError>
    ensures { IfOk result (λ s. said_of s ≡ troubled trouble) }
{
    let text = trouble_text(alloc, trouble)?;
    let line = format!(in alloc; "fleet: {text}\n")?;
    Ok(refused(alloc, line, trouble_status(trouble)))
}

/// The answer with a table.
pub fn answer_sim(
    alloc: Global,
    form: TableForm,
    lines: &[Line],
    timed: bool,
) -> Result<Said, AllocError> {
    let text = table_text(alloc, form, lines, timed)?;
    printed(alloc, text.as_str(), 0)
}
