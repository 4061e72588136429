//! Which robot comes first to a cell.

ghost use Rattle.std.specs.Prelude.{◌≡◌, ◌<◌, ◌^◌, ℕ, length, IfOk};
ghost use Rattle.std.specs.Ordering.{nat_cmp};
ghost use Rattle.std.specs.BTreeMap.{get};
ghost use Rattle.fleet_check.specs.inside.Seats.{IsSeat};

use std::alloc::{AllocError, Global};
use std::collections::BTreeMap;

/// For each cell to which robots come the one of them with the least number.
pub(crate) fn seats_of(alloc: Global, to: &[u32]) -> Result<BTreeMap<u32, u32, Global>, AllocError>
    requires { length to.now < 2 ^ 32 }
    ensures { IfOk result (λ seats. (c : ℕ) → IsSeat to.now 0 c (get nat_cmp seats c)) }
{
    let mut seats = BTreeMap::new(alloc);
    let mut robot = to.len();
    while robot > 0 {
        robot -= 1;
        seats.insert(to[robot], robot as u32)?;
    }
    Ok(seats)
}

/// The robot with the least number that comes to the cell.
pub(crate) fn seat_at(seats: &BTreeMap<u32, u32, Global>, cell: u32) -> Option<u32>
    ensures { result ≡ get nat_cmp seats.now cell }
{
    seats.get(&cell).copied()
}
