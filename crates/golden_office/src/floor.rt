//! Floors that are drawn by letters.

use fleet_core::OpenFault;
use fleet_grid::Grid;
use fleet_map::MapText;
use std::alloc::Allocator;

/// The grid of this many rows and columns. Where the letters do not fill it no robot has a place.
pub(crate) fn grid_of<A: Allocator + Copy>(
    alloc: A,
    sides: (u32, u32),
    letters: &[u8],
) -> Result<Grid<A>, OpenFault> {
    let (height, width) = sides;
    if height > 1_024 || width > 1_024 || letters.len() != height as usize * width as usize {
        return Err(OpenFault::NoRobots);
    }
    let cells = Vec::from_slice(alloc, letters)?;
    Ok(Grid::new(MapText {
        height,
        width,
        cells,
    })?)
}
