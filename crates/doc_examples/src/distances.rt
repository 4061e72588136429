//! A caller of `fleet_field`.

ghost use Rattle.std.specs.Prelude.{IfOk, IfNone, IfSome};
ghost use Rattle.fleet_field.specs.Field.{IsField};
ghost use Rattle.fleet_grid.specs.Floor.{IsFloor};

use fleet_field::Field;
use fleet_grid::Grid;
use std::alloc::{AllocError, Global};

/// The distances of all cells to a robot's goal; `None` if the goal is not floor.
pub fn field_to(alloc: Global, grid: &Grid, goal: u32) -> Result<Option<Field>, AllocError>
    ensures field { IfOk result (λ found. IfSome found (λ field. IsField grid.now goal field)) }
    ensures none { IfOk result (λ found. IfNone found (IsFloor grid.now goal → ⊥)) }
{
    if !grid.is_floor(goal) {
        return Ok(None);
    }
    let field = Field::from(alloc, grid, goal)?;
    Ok(Some(field))
}
