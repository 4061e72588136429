//! Cells on which robots can stand.

ghost use Rattle.std.specs.Prelude.{◌≡◌, ◌↔◌, IsTrue, IfOk};
ghost use Rattle.fleet_execution.specs.Checked.{IsPlacement};

use crate::marks::mark_all;
use crate::table::Table;
use std::alloc::{AllocError, Allocator};

/// Whether robots can stand on these cells, on a map whose cells are numbered below `cells`: each is one of them, and no
/// two robots have the same. `Err` if memory runs out.
pub fn is_placement<A: Allocator>(
    alloc: A,
    cells: u32,
    placement: &[u32],
) -> Result<bool, AllocError>
    ensures { IfOk result (λ is. IsTrue is ↔ IsPlacement cells placement.now) }
{
    if placement.len() > cells as usize {
        return Ok(false);
    }
    let mut marks = Table::new(alloc, cells as usize, 0)?;
    Ok(mark_all(&mut marks, placement, placement.len() as u32))
}
