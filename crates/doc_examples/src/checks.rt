//! A caller of `fleet_check`.

ghost use Rattle.std.specs.Prelude.{◌↔◌, IfSome, IsTrue};
ghost use Rattle.fleet_grid.specs.Step.{IsConflictFree, IsPlacement};

use fleet_check::{StepFault, check_step};
use fleet_grid::Grid;
use std::alloc::Global;

/// Whether the step is free of conflicts; `None` if memory runs out.
pub fn is_safe(alloc: Global, grid: &Grid, from: &[u32], to: &[u32]) -> Option<bool>
    requires { IsPlacement grid.now from.now }
    ensures { IfSome result (λ safe. IsTrue safe ↔ IsConflictFree grid.now from.now to.now) }
{
    match check_step(alloc, grid, from, to) {
        Ok(()) => Some(true),
        Err(StepFault::NoMemory) => None,
        Err(_) => Some(false),
    }
}
