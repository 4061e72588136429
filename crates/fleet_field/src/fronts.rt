//! Lists with room for the fronts of a search.

ghost use Rattle.std.specs.Prelude.{◌*◌, ◌<◌, ◌≤◌, length, OnOk};

use std::alloc::{AllocError, Allocator};

/// Reserves memory for the front after a front of this many places: each place has four next to it.
pub(crate) fn make_room<A: Allocator + Copy>(
    next: &mut Vec<u32, A>,
    count: usize,
) -> Result<(), AllocError>
    requires { count < 1073741824 }
    ensures { OnOk result (4 * count ≤ length next.new.items) }
{
    let room = 4 * count;
    if room <= next.len() {
        return Ok(());
    }
    next.resize(room, 0)
}
