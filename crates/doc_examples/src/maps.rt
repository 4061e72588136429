//! A caller of `fleet_map`.

ghost use Rattle.std.specs.Prelude.{◌≡◌, IfOk};
ghost use Rattle.fleet_map.specs.Grammar.{Map};
ghost use Rattle.fleet_map.specs.Shape.{IsMapText};

use fleet_map::{MapFault, read_map};
use std::alloc::Global;

/// The height and the width of a map, from its text.
pub fn sides_of(alloc: Global, text: &[u8]) -> Result<(u32, u32), MapFault>
    ensures { IfOk result (λ sides. (m : Map) × IsMapText text.now m × (sides.0 ≡ m.height) × (sides.1 ≡ m.width)) }
{
    let map = read_map(alloc, text)?;
    Ok((map.height, map.width))
}
