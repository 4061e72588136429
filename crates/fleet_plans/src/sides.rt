//! Height and width of a map, and the numbers of its cells.

ghost use Rattle.std.specs.Prelude.{◌≡◌, ◌≤◌, ◌<◌, ◌*◌, ◌^◌};
ghost use Rattle.fleet_plans.specs.Cells.{cell_at};

/// The number for any cell outside of the map: no map has a cell with this number.
pub(crate) const NO_CELL: u32 = u32::MAX;

/// Height and width of a map.
#[derive(Clone, Copy)]
pub(crate) struct Sides {
    pub(crate) width: u32,
    pub(crate) height: u32,
    ghost few_columns: { width ≤ 1024 },
    ghost few_rows: { height ≤ 1024 },
}

impl Sides {
    /// The number of cells.
    pub(crate) fn cells(self) -> u32
        ensures { result ≡ self.width * self.height }
    {
        self.width * self.height
    }

    /// The number of the cell in column x and row y, counted row by row from 0; `u32::MAX` outside of the map.
    pub(crate) fn cell_at(self, x: u32, y: u32) -> u32
        requires { y ≤ 1024 }
        ensures { result ≡ cell_at self.width self.height x y }
    {
        if x < self.width && y < self.height {
            y * self.width + x
        } else {
            NO_CELL
        }
    }
}
