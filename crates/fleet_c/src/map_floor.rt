//! The floor cells of a map.

ghost use Rattle.std.specs.Prelude.{◌≡◌, ◌≤◌, ◌++◌, None, drop, length};
ghost use Rattle.fleet_c.specs.Floors.{ListsFloor, OfMap, floor_cells};

use crate::codes::{DONE, NOT_OPEN, WRONG_LENGTH};
use crate::map_handle::MapHandle;
use fleet_grid::Grid;
use std::alloc::Global;

/// Writes the floor cells, in their order, to the first places of the list.
fn put_floor(grid: &Grid, cells: &mut [u32])
    requires { length (floor_cells grid.now) ≤ length cells.old }
    ensures { cells.new ≡ floor_cells grid.now ++ drop (length (floor_cells grid.now)) cells.old }
{
    let mut at = 0;
    for cell in 0..grid.cell_count() {
        if grid.is_floor(cell) {
            cells[at] = cell;
            at += 1;
        }
    }
}

/// Lists the cells, and how many they are.
fn list_floor(grid: &Grid, cells: &mut [u32], count: &mut usize) -> u32
    ensures { ListsFloor grid.now result cells.old cells.new count.new }
{
    *count = grid.floor_count() as usize;
    if cells.len() < *count {
        return WRONG_LENGTH;
    }
    put_floor(grid, cells);
    DONE
}

/// The floor cells of a map, in their order. `count` is how many these are. Where the list is shorter only `count` is
/// told; the places after them stay as they were. No memory is taken.
///
/// Refused in this order: the handle is closed, the list is shorter than there are floor cells.
#[unsafe(no_mangle)]
pub extern "C" fn nashirudder_map_floor(
    alloc: Global,
    map: &mut MapHandle,
    cells: &mut [u32],
    count: &mut usize,
) -> u32
    ensures says { OfMap map.old.owned.held map.new.owned.held result (λ m. ListsFloor m result cells.old cells.new count.new) }
    ensures closed { map.old.owned.held ≡ None → (cells.new ≡ cells.old) × (count.new ≡ count.old) }
{
    let Some(grid) = map.take(alloc) else {
        return NOT_OPEN;
    };
    let code = list_floor(&grid, cells, count);
    map.put(grid);
    code
}
