//! The cells of a map that are not roomy for a number of robots, and for how many robots all are served.

ghost use Rattle.std.specs.Prelude.{◌≡◌, None};
ghost use Rattle.fleet_c.specs.Floors.{ListsUnroomy, OfMap, TellsServed};

use crate::codes::{DONE, NO_MEMORY, NO_TURNS, NOT_OPEN, WRONG_LENGTH};
use crate::map_handle::MapHandle;
use fleet_grid::Grid;
use fleet_survey::{served_for, unroomy_list};
use std::alloc::Global;

/// Lists the cells, and how many they are.
fn list_unroomy(
    alloc: Global,
    grid: &Grid,
    robots: u32,
    cells: &mut [u32],
    count: &mut usize,
) -> u32
    ensures { ListsUnroomy grid.now robots result cells.old cells.new count.old count.new }
{
    let Ok(list) = unroomy_list(alloc, grid, robots) else {
        return NO_MEMORY;
    };
    *count = list.len();
    if cells.len() < list.len() {
        return WRONG_LENGTH;
    }
    cells[..list.len()].copy_from_slice(list.as_slice());
    DONE
}

/// The floor cells of a map that are not roomy for this many robots, in their order: errands there may block a fleet of
/// them for ever. `count` is how many these are. Where the list is shorter only `count` is told; the places after them
/// stay as they were.
///
/// Refused in this order: the handle is closed, out of memory, the list is shorter than there are such cells.
#[unsafe(no_mangle)]
pub extern "C" fn nashirudder_map_unroomy(
    alloc: Global,
    map: &mut MapHandle,
    robots: u32,
    cells: &mut [u32],
    count: &mut usize,
) -> u32
    ensures says { OfMap map.old.owned.held map.new.owned.held result (λ m. ListsUnroomy m robots result cells.old cells.new count.old count.new) }
    ensures closed { map.old.owned.held ≡ None → (cells.new ≡ cells.old) × (count.new ≡ count.old) }
{
    let Some(grid) = map.take(alloc) else {
        return NOT_OPEN;
    };
    let code = list_unroomy(alloc, &grid, robots, cells, count);
    map.put(grid);
    code
}

/// Tells for how many robots all cells are served.
fn tell_served(alloc: Global, grid: &Grid, robots: &mut u32) -> u32
    ensures { TellsServed grid.now result robots.old robots.new }
{
    match served_for(alloc, grid) {
        Ok(Some(most)) => {
            *robots = most;
            DONE
        }
        Ok(None) => NO_TURNS,
        Err(_) => NO_MEMORY,
    }
}

/// The greatest number of robots for which errands to all floor cells arrive, if they take turns
/// (`nashirudder_take_turns`); 2^32 - 1 if the map has no floor.
///
/// Refused in this order: the handle is closed, the rooms that were found do not pass their checks, out of memory.
#[unsafe(no_mangle)]
pub extern "C" fn nashirudder_map_served_for(
    alloc: Global,
    map: &mut MapHandle,
    robots: &mut u32,
) -> u32
    ensures says { OfMap map.old.owned.held map.new.owned.held result (λ m. TellsServed m result robots.old robots.new) }
    ensures closed { map.old.owned.held ≡ None → robots.new ≡ robots.old }
{
    let Some(grid) = map.take(alloc) else {
        return NOT_OPEN;
    };
    let code = tell_served(alloc, &grid, robots);
    map.put(grid);
    code
}
