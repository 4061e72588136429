//! The cell toward which a search goes.

ghost use Rattle.std.specs.Prelude.{◌≡◌, ℕ, ◌+◌, ◌/◌, ◌%◌, ◌<◌, ◌↔◌, IsTrue};
ghost use Rattle.fleet_field.specs.inside.Estimate.{IsToward};

use fleet_grid::Dir;

/// A cell's row and column, on a map of that width.
#[derive(Clone, Copy, Debug, PartialEq, Eq)]
pub(crate) struct Target {
    pub(crate) width: u32,
    pub(crate) row: u32,
    pub(crate) column: u32,
}

impl Target {
    /// The row and column of a cell.
    pub(crate) fn of(width: u32, cell: u32) -> Target
        requires { 0 < width }
        ensures { result ≡ record { width = width; row = cell / width; column = cell % width } }
    {
        Target {
            width,
            row: cell / width,
            column: cell % width,
        }
    }

    /// Whether a step from a cell in a direction leads nearer to the target, if no obstacle is in the way.
    #[inline(always)]
    pub(crate) fn is_toward(self, cell: u32, dir: Dir) -> bool
        requires { 0 < self.width }
        ensures { IsTrue result ↔ IsToward self cell dir }
    {
        match dir {
            Dir::North => self.row < cell / self.width,
            Dir::East => cell % self.width < self.column,
            Dir::South => cell / self.width < self.row,
            Dir::West => self.column < cell % self.width,
        }
    }
}
