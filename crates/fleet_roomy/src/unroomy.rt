//! Cells that are not roomy for a fleet: errands to them may block it for ever.

ghost use Rattle.std.specs.Prelude.{◌≡◌, ◌↔◌, [], count_by, IfOk, IsTrue};
ghost use Rattle.fleet_bridge.specs.Roominess.{AreRoomyFor};
ghost use Rattle.fleet_roomy.specs.Unroomy.{AreUnroomy, IsUnroomyCell, has};

use fleet_bridge::roominess;
use fleet_grid::Grid;
use std::alloc::{AllocError, Allocator, Global};

/// Some cells of a map: those that are not roomy for a fleet.
#[derive(Debug, Drop)]
pub struct UnroomyCells<A: Allocator = Global> {
    /// For each cell of the map whether it is one of them. Empty: none is.
    pub marks: Vec<bool, A>,
}

impl<A: Allocator> UnroomyCells<A> {
    /// No cells.
    pub fn none(alloc: A) -> UnroomyCells<A>
        ensures { result.marks.items ≡ [] }
    {
        UnroomyCells {
            marks: Vec::new(alloc),
        }
    }

    /// Whether the cell is one of them.
    pub fn has(&self, cell: u32) -> bool
        ensures { result ≡ has self.now.marks.items cell }
    {
        match self.marks.get(cell as usize) {
            Some(is_one) => *is_one,
            None => false,
        }
    }

    /// How many they are.
    pub fn count(&self) -> usize
        ensures { result ≡ count_by (λ is_one. is_one) self.now.marks.items }
    {
        self.marks.iter().filter(|is_one| **is_one).count()
    }
}

/// Whether the cell is floor and not roomy for this many robots.
fn is_unroomy<B: Allocator + Copy>(grid: &Grid<B>, most: &[u32], robots: u32, cell: u32) -> bool
    requires { AreRoomyFor grid.now most.now }
    ensures { IsTrue result ↔ IsUnroomyCell grid.now robots cell }
{
    grid.is_floor(cell) && most[cell as usize] < robots
}

/// The floor cells that are not roomy for this many robots, by the numbers of `fleet_bridge::roominess`. `AllocError` if
/// memory runs out.
pub fn unroomy_by<A: Allocator + Copy, B: Allocator + Copy>(
    alloc: A,
    grid: &Grid<B>,
    most: &[u32],
    robots: u32,
) -> Result<UnroomyCells<A>, AllocError>
    requires { AreRoomyFor grid.now most.now }
    ensures { IfOk result (λ cells. AreUnroomy grid.now robots cells.marks.items) }
{
    let mut marks = Vec::with_capacity(alloc, most.len())?;
    for cell in 0..grid.cell_count() {
        marks.push(is_unroomy(grid, most, robots, cell))?;
    }
    Ok(UnroomyCells { marks })
}

/// The floor cells that are not roomy for this many robots. `AllocError` if memory runs out.
pub fn unroomy_cells<A: Allocator + Copy, B: Allocator + Copy>(
    alloc: A,
    grid: &Grid<B>,
    robots: u32,
) -> Result<UnroomyCells<A>, AllocError>
    ensures { IfOk result (λ cells. AreUnroomy grid.now robots cells.marks.items) }
{
    let most = roominess(alloc, grid)?;
    unroomy_by(alloc, grid, &most, robots)
}
