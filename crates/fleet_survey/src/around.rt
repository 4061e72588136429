//! The marked cells next to a cell.

ghost use Rattle.std.specs.Prelude.{◌≡◌};
ghost use Rattle.fleet_roomy.specs.Unroomy.{has};
ghost use Rattle.fleet_survey.specs.Peeled.{SaysAround, SaysAt, with_next};

use fleet_grid::{Dir, Grid};

/// The marked cells next to a cell.
#[derive(Clone, Copy, Debug, PartialEq, Eq)]
pub(crate) enum Around {
    Nobody,
    One(u32),
    More,
}

impl Around {
    /// These, and the one in another direction.
    fn with(self, next: Option<u32>) -> Around
        ensures { result ≡ with_next self next }
    {
        match next {
            None => self,
            Some(next) => match self {
                Around::Nobody => Around::One(next),
                Around::One(_) => Around::More,
                Around::More => Around::More,
            },
        }
    }
}

/// Whether the cell is marked.
pub(crate) fn is_marked(marks: &[bool], cell: u32) -> bool
    ensures { result ≡ has marks.now cell }
{
    match marks.get(cell as usize) {
        Some(is_one) => *is_one,
        None => false,
    }
}

/// The marked cell next to a cell in a direction.
fn marked_at(grid: &Grid, marks: &[bool], cell: u32, dir: Dir) -> Option<u32>
    ensures { SaysAt grid.now marks.now cell dir result }
{
    match grid.neighbour(cell, dir) {
        Some(next) => {
            if is_marked(marks, next) {
                Some(next)
            } else {
                None
            }
        }
        None => None,
    }
}

/// The marked cells next to a cell: none, the one, or that they are more.
pub(crate) fn marked_around(grid: &Grid, marks: &[bool], cell: u32) -> Around
    ensures { SaysAround grid.now marks.now cell result }
{
    let north = marked_at(grid, marks, cell, Dir::North);
    let east = marked_at(grid, marks, cell, Dir::East);
    let south = marked_at(grid, marks, cell, Dir::South);
    let west = marked_at(grid, marks, cell, Dir::West);
    let first = Around::Nobody.with(north);
    let second = first.with(east);
    let third = second.with(south);
    third.with(west)
}
