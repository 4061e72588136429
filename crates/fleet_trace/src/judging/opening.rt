//! The first part of an opening that is not in order.

ghost use Rattle.std.specs.Prelude.{◌↔◌, ◌≤◌, IsTrue, IfOk, MatchOption};
ghost use Rattle.fleet_grid.specs.Floor.{Floor};
ghost use Rattle.fleet_history.specs.Legal.{IsInOrder};
ghost use Rattle.fleet_trace.specs.inside.Opened.{AreSizesInOrder};
ghost use Rattle.fleet_trace.specs.OutOfOrder.{IsOutOfOrder};

use super::clients::client_fault;
use super::robots::{is_placed, robot_fault};
use crate::part::OpeningPart;
use fleet_grid::Grid;
use fleet_history::Opening;
use std::alloc::{AllocError, Allocator};

fn is_between(number: u64, least: u64, greatest: u64) -> bool
    ensures { IsTrue result ↔ (least ≤ number) × (number ≤ greatest) }
{
    least <= number && number <= greatest
}

/// The first number, of robots, of clients, or of what they may have, that is not in its range.
fn size_fault<A: Allocator + Copy>(opening: &Opening<A>) -> Option<OpeningPart>
    ensures { MatchOption result (AreSizesInOrder opening.now) (λ part. (m : Floor) → IsOutOfOrder m opening.now part) }
{
    if !is_between(opening.robots.len() as u64, 1, 512) {
        return Some(OpeningPart::Robots);
    }
    if !is_between(opening.clients.len() as u64, 1, 64) {
        return Some(OpeningPart::Clients);
    }
    if !is_between(u64::from(opening.queue), 1, 65_536) {
        return Some(OpeningPart::Queue);
    }
    if !is_between(opening.life, 1, 1 << 40) {
        return Some(OpeningPart::Life);
    }
    None
}

/// The first part of an opening that is not in order on the map; `None` if it is in order. The parts follow one another
/// as in `OpeningPart`, except that the names of a client's errands come right after the client. The error is out of
/// memory.
pub fn opening_fault<A: Allocator + Copy, B: Allocator + Copy>(
    alloc: A,
    grid: &Grid<B>,
    opening: &Opening<A>,
) -> Result<Option<OpeningPart>, AllocError>
    ensures { IfOk result (λ part. MatchOption part (IsInOrder grid.now opening.now) (IsOutOfOrder grid.now opening.now)) }
{
    if let Some(part) = size_fault(opening) {
        return Ok(Some(part));
    }
    if !is_placed(alloc, grid, opening.robots.as_slice())? {
        return Ok(Some(OpeningPart::Cells));
    }
    if let Some(robot) = robot_fault(grid, opening) {
        return Ok(Some(OpeningPart::Robot(robot)));
    }
    client_fault(alloc, opening)
}
