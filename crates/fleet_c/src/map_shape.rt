//! How large a map is.

ghost use Rattle.std.specs.Prelude.{◌≡◌};
ghost use Rattle.fleet_c.specs.Floors.{IsShape};

use fleet_grid::Grid;

/// How large a map is.
#[repr(C)]
#[derive(Clone, Copy)]
pub struct MapShape {
    pub height: u32,
    pub width: u32,
    /// Height times width.
    pub cells: u32,
    /// The cells that are floor.
    pub floor: u32,
    /// The pairs of floor cells that share a side.
    pub edges: u32,
}

impl MapShape {
    /// Of a grid.
    pub(crate) fn of(grid: &Grid) -> MapShape
        ensures { IsShape grid.now result }
    {
        MapShape {
            height: grid.height(),
            width: grid.width(),
            cells: grid.cell_count(),
            floor: grid.floor_count(),
            edges: grid.edge_count(),
        }
    }
}
