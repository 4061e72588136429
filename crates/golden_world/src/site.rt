//! Where a row is played: its map, and where its robots start.

use fleet_grid::Grid;
use fleet_map::MapText;
use std::alloc::{AllocError, Allocator};

/// The grid of these sides, height first. None where the letters do not fill them, or a side is over 1,024.
fn grid_of<A: Allocator + Copy>(
    alloc: A,
    sides: (u32, u32),
    letters: &[u8],
) -> Result<Option<Grid<A>>, AllocError> {
    let (height, width) = sides;
    if height > 1_024 || width > 1_024 || letters.len() != height as usize * width as usize {
        return Ok(None);
    }
    let map = MapText {
        height,
        width,
        cells: Vec::from_slice(alloc, letters)?,
    };
    Ok(Some(Grid::new(map)?))
}

/// That grid, and a list of the starts.
pub(crate) fn site_of<A: Allocator + Copy>(
    alloc: A,
    sides: (u32, u32),
    letters: &[u8],
    starts: &[u32],
) -> Result<Option<(Grid<A>, Vec<u32, A>)>, AllocError> {
    match grid_of(alloc, sides, letters)? {
        Some(grid) => Ok(Some((grid, Vec::from_slice(alloc, starts)?))),
        None => Ok(None),
    }
}
