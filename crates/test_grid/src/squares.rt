//! The letters of large square maps.

use std::alloc::{AllocError, Global};

/// Which cells of a square map are floor.
#[derive(Clone, Copy)]
pub(crate) enum Shape {
    Open,
    Border,
    /// The border, except its cell 5.
    BlockedBorder,
    /// Every other row; the rows are joined at alternating ends, so that they are one part, one long corridor.
    Snake,
    /// Every other row, of which no two are joined.
    Stripes,
}

/// Whether the cell is floor in a map whose last row and column have that number.
fn is_floor(shape: Shape, last: u32, row: u32, col: u32) -> bool {
    let is_border = row == 0 || row == last || col == 0 || col == last;
    match shape {
        Shape::Open => true,
        Shape::Border => is_border,
        Shape::BlockedBorder => is_border && (row != 0 || col != 5),
        Shape::Snake => {
            row % 2 == 0 || (row % 4 == 1 && col == last) || (row % 4 == 3 && col == 0)
        }
        Shape::Stripes => row % 2 == 0,
    }
}

/// The letters of a map with this many cells a side.
pub(crate) fn letters(alloc: Global, side: u32, shape: Shape) -> Result<Vec<u8>, AllocError> {
    let last = side.saturating_sub(1);
    let mut cells = Vec::new(alloc);
    for row in 0..side {
        for col in 0..side {
            let is_floor = is_floor(shape, last, row, col);
            cells.push(if is_floor { b'.' } else { b'@' })?;
        }
    }
    Ok(cells)
}
