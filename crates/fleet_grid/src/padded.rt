//! The padded form of a map, in which a search needs no test for the edges of the map.

ghost use Rattle.std.specs.Prelude.{◌≡◌, ◌+◌, ◌<◌, ◌≤◌, IfOk};
ghost use Rattle.fleet_grid.specs.Padded.{IsPadded, place};

use crate::cells::Cells;
use std::alloc::{AllocError, Allocator, Global};

/// A place that is not reached.
pub const FAR: u32 = u32::MAX;

/// A place that is never reached.
pub const WALL: u32 = u32::MAX - 1;

/// The place of a cell in the padded list.
pub fn place_of(width: u32, stride: u32, cell: u32) -> usize
    requires wide { 0 < width }
    requires small { place width stride cell < 1073741824 }
    ensures { result ≡ place width stride cell }
{
    let row = (cell / width) as usize + 1;
    row * stride as usize + (cell % width) as usize
}

/// The length of a padded row: one column of walls, and more where rows of nearly 1,024 places would share cache lines.
pub(crate) fn stride_of(width: u32) -> u32
    requires { width ≤ 1024 }
    ensures room { (width < result) × (result ≤ 1041) }
    ensures plain { width + 1 < 1008 → result ≡ width + 1 }
    ensures apart { 1008 ≤ result → result ≡ 1041 }
{
    let plain = width + 1;
    if (1008..=1040).contains(&plain) {
        1041
    } else {
        plain
    }
}

/// The padded form: walls, but for the floor cells.
pub(crate) fn blank_of<A: Allocator + Copy>(
    alloc: A,
    cells: &Cells<A>,
    stride: u32,
) -> Result<Vec<u32, A>, AllocError>
    requires stride { (cells.now.width < stride) × (stride ≤ 1041) }
    ensures { IfOk result (λ blank. IsPadded cells.now stride blank.items) }
{
    let (height, width) = (cells.height(), cells.width());
    let size = (height as usize + 2) * stride as usize;
    let mut blank = vec![in alloc; WALL; size]?;
    for cell in 0..cells.count() {
        if cells.is_floor(cell) {
            let at = place_of(width, stride, cell);
            blank[at] = FAR;
        }
    }
    Ok(blank)
}
