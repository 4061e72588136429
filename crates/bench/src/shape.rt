//! Shapes of maps that are hard to search, 1,024 by 1,024.

ghost use Rattle.std.specs.Prelude.{◌<◌};

use crate::kind::is_corridor;
use std::alloc::{AllocError, Global};

/// The number of rows, and of columns.
const SIDE: u32 = 1024;

/// The text of a map before its rows.
const HEAD: &[u8] = b"type octile\nheight 1024\nwidth 1024\nmap\n";

/// A shape of floor.
#[derive(Clone, Copy, Debug, PartialEq, Eq)]
pub(crate) enum Shape {
    /// One corridor that turns back at each side.
    Serpentine,
    /// One corridor that winds to the middle.
    Spiral,
    /// One row, with a column at every second cell of it.
    Comb,
    /// Every second cell, like the white cells of a chessboard.
    Checker,
    /// Floor everywhere.
    Full,
    /// The outermost cells.
    Border,
}

impl Shape {
    /// All shapes.
    pub(crate) const ALL: [Shape; 6] = [
        Shape::Serpentine,
        Shape::Spiral,
        Shape::Comb,
        Shape::Checker,
        Shape::Full,
        Shape::Border,
    ];

    /// Its name in a printed line.
    pub(crate) fn name(self) -> &'static str {
        match self {
            Shape::Serpentine => "serpentine",
            Shape::Spiral => "spiral",
            Shape::Comb => "comb",
            Shape::Checker => "checker",
            Shape::Full => "full",
            Shape::Border => "border",
        }
    }

    /// Whether the cell in that row and column is floor.
    fn has_floor(self, row: u32, col: u32) -> bool
        requires low { row < 1024 }
        requires slim { col < 1024 }
    {
        match self {
            Shape::Serpentine => match row % 4 {
                1 => col == SIDE - 1,
                3 => col == 0,
                _ => true,
            },
            Shape::Spiral => is_corridor(SIDE, row, col),
            Shape::Comb => row == 0 || col % 2 == 0,
            Shape::Checker => (row + col) % 2 == 0,
            Shape::Full => true,
            Shape::Border => row == 0 || row == SIDE - 1 || col == 0 || col == SIDE - 1,
        }
    }

    /// The text of its map.
    pub(crate) fn text(self, alloc: Global) -> Result<Vec<u8>, AllocError> {
        let mut text = Vec::from_slice(alloc, HEAD)?;
        for row in 0..SIDE {
            for col in 0..SIDE {
                text.push(if self.has_floor(row, col) { b'.' } else { b'@' })?;
            }
            text.push(b'\n')?;
        }
        Ok(text)
    }
}
