//! The columns of a map, by which the row of a cell is found without a division.

ghost use Rattle.std.specs.Prelude.{◌≡◌, ℕ, ◌/◌, ◌<◌, ◌≤◌};
ghost use Rattle.fleet_grid.specs.Padded.{place};
ghost use Rattle.fleet_field.specs.Kept.{IsInverse};

/// The unit 1 of the fractions in which the inverse of a number of columns is written.
const WHOLE: u64 = 1073741824;

/// A number of columns, and its inverse as a fraction, rounded up.
#[derive(Clone, Copy)]
pub struct Columns {
    pub(crate) width: u32,
    inverse: u64,
    ghost exact: { IsInverse width inverse },
}

impl Columns {
    /// This many columns.
    pub(crate) fn new(width: u32) -> Columns
        requires wide { 0 < width }
        requires slim { width ≤ 1024 }
        ensures { result.width ≡ width }
    {
        Columns {
            width,
            inverse: WHOLE / u64::from(width) + 1,
        }
    }

    /// The row of a cell.
    fn row(self, cell: u32) -> u32
        requires { cell < 1048576 }
        ensures { result ≡ cell / self.width }
    {
        (u64::from(cell) * self.inverse / WHOLE) as u32
    }

    /// The place of a cell in a padded list.
    pub(crate) fn place(self, stride: u32, cell: u32) -> usize
        requires few { cell < 1048576 }
        requires small { place self.width stride cell < 1073741824 }
        ensures { result ≡ place self.width stride cell }
    {
        let row = self.row(cell);
        let column = cell - row * self.width;
        (row as usize + 1) * stride as usize + column as usize
    }
}
