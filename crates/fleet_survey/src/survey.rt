//! What a map offers for a number of robots.

ghost use Rattle.std.specs.Prelude.{IfOk};
ghost use Rattle.fleet_survey.specs.Survey.{IsSurvey};

use crate::chosen::floor_cells;
use crate::ends::{DeadEnd, dead_ends};
use crate::served::served_for;
use crate::standing::{Standing, standing_of};
use fleet_bridge::{bridges, roominess};
use fleet_grid::Grid;
use fleet_roomy::unroomy_by;
use std::alloc::{AllocError, Global};

/// What a map offers for a number of robots.
#[derive(Debug, Drop)]
pub struct Survey {
    pub robots: u32,
    pub height: u32,
    pub width: u32,
    /// The number of floor cells.
    pub floor: u32,
    /// The number of edges.
    pub edges: u32,
    /// All bridges, each as its lower and its upper cell.
    pub bridges: Vec<(u32, u32)>,
    /// For how many robots each cell is roomy, as `fleet_bridge::roominess` says it.
    pub most: Vec<u32>,
    /// The cells that are roomy for the robots.
    pub roomy: Vec<u32>,
    /// The floor cells that are not.
    pub unroomy: Vec<u32>,
    pub ends: Vec<DeadEnd>,
    /// For how many robots all floor cells are served, where robots take turns, as `served_for` says it.
    pub served: Option<u32>,
    /// For which errands the promises on waits are.
    pub standing: Standing,
}

/// Surveys a map for a number of robots. `AllocError` if memory runs out.
pub fn survey_of(alloc: Global, grid: &Grid, robots: u32) -> Result<Survey, AllocError>
    ensures { IfOk result (IsSurvey grid.now robots) }
{
    let most = roominess(alloc, grid)?;
    let marked = unroomy_by(alloc, grid, &most, robots)?;
    let unroomy = floor_cells(alloc, grid, &marked, true)?;
    let roomy = floor_cells(alloc, grid, &marked, false)?;
    let ends = dead_ends(alloc, grid, &marked, &unroomy)?;
    let bridges = bridges(alloc, grid)?;
    let served = served_for(alloc, grid)?;
    let standing = standing_of(&bridges, &roomy, &unroomy);
    Ok(Survey {
        robots,
        height: grid.height(),
        width: grid.width(),
        floor: grid.floor_count(),
        edges: grid.edge_count(),
        bridges,
        most,
        roomy,
        unroomy,
        ends,
        served,
        standing,
    })
}
