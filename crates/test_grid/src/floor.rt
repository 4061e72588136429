//! The floor of a drawn map, and whether cells are floor.

ghost use Rattle.std.specs.Prelude.{ℕ, ◌≡◌, ◌<◌, length, slice_index, IfOk, IfSome};
ghost use Rattle.std.specs.Bool.{OnTrue};
ghost use Rattle.fleet_grid.specs.Floor.{IsFloor, floor_of};

use fleet_grid::Grid;
use fleet_map::MapText;
use std::alloc::{AllocError, Allocator, Global};
use std::process::Abort;

/// The grid of a map; `None` if the number of letters does not fit the map's sides.
pub(crate) fn grid_of_text<A: Allocator + Copy>(
    map: MapText<A>,
) -> Result<Option<Grid<A>>, AllocError>
    ensures { IfOk result (λ grid. IfSome grid (λ grid. grid ≡ floor_of map.height map.width map.cells.items)) }
{
    if map.height > 1024
        || map.width > 1024
        || map.cells.len() != (map.height * map.width) as usize
    {
        return Ok(None);
    }
    Ok(Some(Grid::new(map)?))
}

/// The grid of a map whose letters fill its sides.
pub(crate) fn grid_of(rt: &impl Abort, alloc: Global, height: u32, width: u32, cells: &[u8]) -> Grid
    ensures { result ≡ floor_of height width cells.now }
{
    let cells = Vec::from_slice(alloc, cells).expect(rt, "letters");
    let map = MapText {
        height,
        width,
        cells,
    };
    grid_of_text(map)
        .expect(rt, "memory for a grid")
        .expect(rt, "a map")
}

/// Whether all these cells are floor.
pub(crate) fn are_floor(grid: &Grid, cells: &[u32]) -> bool
    ensures { OnTrue result ((i : ℕ) → i < length cells.now → IsFloor grid.now (slice_index cells.now i)) }
{
    for at in 0..cells.len() {
        if !grid.is_floor(cells[at]) {
            return false;
        }
    }
    true
}
