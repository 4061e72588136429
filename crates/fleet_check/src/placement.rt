//! Whether cells are a placement.

ghost use Rattle.std.specs.Prelude.{◌≡◌, ◌≢◌, ◌<◌, ◌⊎◌, ◌^◌, ℕ, length, slice_index, OnOk, IfErr};
ghost use Rattle.fleet_grid.specs.Floor.{IsFloor};
ghost use Rattle.fleet_grid.specs.Step.{IsPlacement};
ghost use Rattle.fleet_check.specs.Fault.{IsPlacementFault};
ghost use Rattle.fleet_check.specs.declared.fault.StepFault.TheVariants.{NoMemory};

use crate::check::{first_off_floor, seats_of};
use crate::fault::StepFault;
use fleet_grid::Grid;
use std::alloc::Allocator;

/// Whether cells are a placement: each on the floor, and no two alike. Item r is the cell of robot r.
///
/// The first fault is `OffFloor` with the lowest robot that is not on floor; if there is none, `Vertex` with the first
/// two robots on one cell; or `NoMemory` if the search for these ran out of memory. Other faults do not occur.
pub fn check_placement<A: Allocator + Copy, B: Allocator + Copy>(
    alloc: A,
    grid: &Grid<B>,
    cells: &[u32],
) -> Result<(), StepFault>
    requires { length cells.now < 2 ^ 32 }
    ensures ok { OnOk result (IsPlacement grid.now cells.now) }
    ensures fault { IfErr result (λ fault. fault ≢ NoMemory → IsPlacementFault grid.now cells.now fault) }
    ensures memory { IfErr result (λ fault. fault ≡ NoMemory → (r : ℕ) → r < length cells.now → IsFloor grid.now (slice_index cells.now r)) }
    ensures lawful { IsPlacement grid.now cells.now → (result ≡ Ok record {}) ⊎ (result ≡ Err NoMemory) }
{
    if let Some(robot) = first_off_floor(grid, cells) {
        return Err(StepFault::OffFloor(robot as u32));
    }
    let _seats = seats_of(alloc, cells)?;
    Ok(())
}
