//! How often the ways change from one floor cell to the next: what makes a search hard to predict for a processor.

ghost use Rattle.std.specs.Prelude.{◌≡◌, ◌*◌, ◌<◌, ◌≤◌, ◌↔◌, IsTrue, length};
ghost use Rattle.fleet_grid.specs.Counts.{floor_count};
ghost use Rattle.fleet_grid.specs.Turns.{last_ways, turns_after, IsRagged};
ghost use Rattle.fleet_grid.specs.Ways.{AreWays};

use crate::cells::Cells;
use std::alloc::Allocator;

/// The ways of the last cell that has some, after a cell with these.
fn last_ways(before: u8, ways: u8) -> u8
    ensures { result ≡ last_ways before ways }
{
    if ways == 0 { before } else { ways }
}

/// How many cells have other ways than the last one before them, of those that have any.
fn turns_of(ways: &[u8]) -> u32
    requires { length ways.now ≤ 1048576 }
    ensures { result ≡ turns_after 0 ways.now }
{
    let mut before = 0;
    let mut turns = 0;
    for byte in ways {
        let last = last_ways(before, *byte);
        turns += u32::from(last != before);
        before = last;
    }
    turns
}

/// Whether a map with these ways and this many floor cells is ragged.
pub(crate) fn is_ragged<A: Allocator + Copy>(cells: &Cells<A>, ways: &[u8], floor: u32) -> bool
    requires ways { AreWays cells.now ways.now }
    requires floor { floor ≡ floor_count cells.now }
    ensures { IsTrue result ↔ IsRagged cells.now }
{
    let _count = cells.count();
    11 * u64::from(floor) < 20 * u64::from(turns_of(ways))
}
