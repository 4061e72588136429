//! Ways that lead nearer, a bit for each direction.

ghost use Rattle.std.specs.Prelude.{◌↔◌, IsTrue};
ghost use Rattle.fleet_grid.specs.Ways.{IsLess};

/// Whether both are distances, and the first is less.
pub(crate) fn is_less(a: Option<u32>, b: Option<u32>) -> bool
    ensures { IsTrue result ↔ IsLess a b }
{
    match (a, b) {
        (Some(a), Some(b)) => a < b,
        _ => false,
    }
}
