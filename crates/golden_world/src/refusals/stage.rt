//! What stands before the first call of a world.

use crate::refusals::case::Case;
use fleet_grid::Grid;
use fleet_map::{MapFault, read_map};
use fleet_script::{Script, ScriptFault, read_script};
use std::alloc::{AllocError, Allocator};

/// Where a row ended before its world's first call.
#[derive(Clone, Copy, PartialEq, Eq)]
pub(crate) enum Stage {
    /// `read_map` was refused memory, and so on.
    Map,
    Grid,
    Script,
    /// The lists of closures.
    Lists,
    Open,
    /// The bundle is refused by name: the row is none.
    Faulty,
}

impl Stage {
    /// The stages that are refused memory, in their order.
    pub(crate) const ALL: [Stage; 5] = [
        Stage::Map,
        Stage::Grid,
        Stage::Script,
        Stage::Lists,
        Stage::Open,
    ];

    /// The stage in words.
    pub(crate) fn name(self) -> &'static str {
        match self {
            Stage::Map => "read the map",
            Stage::Grid => "make the grid",
            Stage::Script => "read the script",
            Stage::Lists => "list the closures",
            Stage::Open => "open",
            Stage::Faulty => "no row",
        }
    }
}

/// The grid of a row.
fn grid_of<A: Allocator + Copy>(alloc: A, text: &[u8]) -> Result<Grid<A>, Stage> {
    let map = match read_map(alloc, text) {
        Ok(map) => map,
        Err(MapFault::NoMemory) => return Err(Stage::Map),
        Err(_) => return Err(Stage::Faulty),
    };
    match Grid::new(map) {
        Ok(grid) => Ok(grid),
        Err(AllocError) => Err(Stage::Grid),
    }
}

/// The grid and the script of a row.
pub(crate) fn read<A: Allocator + Copy>(
    alloc: A,
    case: Case<'_>,
) -> Result<(Grid<A>, Script<A>), Stage> {
    if case.script.len() > 16_777_216 {
        return Err(Stage::Faulty);
    }
    let grid = grid_of(alloc, case.map)?;
    match read_script(alloc, case.script) {
        Ok(script) => Ok((grid, script)),
        Err(ScriptFault::NoMemory) => Err(Stage::Script),
        Err(ScriptFault::Line(_)) => Err(Stage::Faulty),
    }
}
