//! The four directions.

ghost use Rattle.std.specs.Prelude.{◌≡◌, ◌<◌, ◌≤◌};
ghost use Rattle.fleet_grid.specs.Direction.{dir_number};
ghost use Rattle.fleet_grid.specs.Floor.{cell_across};

/// A direction on a map, in the order in which ties are decided.
#[derive(Clone, Copy, Debug, PartialEq, Eq)]
pub enum Dir {
    /// Row less one.
    North,
    /// Column plus one.
    East,
    /// Row plus one.
    South,
    /// Column less one.
    West,
}

impl Dir {
    /// The four directions in their order.
    pub const ALL: [Dir; 4] = [Dir::North, Dir::East, Dir::South, Dir::West];

    /// Its place in the order, from 0 to 3.
    pub fn number(self) -> u8
        ensures { result ≡ dir_number self }
    {
        match self {
            Dir::North => 0,
            Dir::East => 1,
            Dir::South => 2,
            Dir::West => 3,
        }
    }

    /// The cell next to a cell in this direction, where a map of that width has one there.
    #[inline(always)]
    pub fn across(self, width: u32, cell: u32) -> u32
        requires slim { width ≤ 1048576 }
        requires small { cell < 1048576 }
        ensures { result ≡ cell_across width cell self }
    {
        match self {
            Dir::North => cell.saturating_sub(width),
            Dir::East => cell + 1,
            Dir::South => cell + width,
            Dir::West => cell.saturating_sub(1),
        }
    }
}
