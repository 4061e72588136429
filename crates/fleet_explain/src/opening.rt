//! Why a script's fleet cannot begin.

ghost use Rattle.std.specs.Prelude.{◌≡◌, MatchOption, slice_index};
ghost use Rattle.fleet_core.specs.Opening.{CanStart};
ghost use Rattle.fleet_explain.specs.Starts.{off_floor, IsStartFault};

use crate::limits::{LimitFault, limit_fault};
use fleet_book::Limits;
use fleet_core::OpenFault;
use fleet_grid::Grid;

/// Why a script's fleet cannot begin: the first reason that `World::open` finds, whatever the closures.
#[derive(Clone, Copy, Debug, PartialEq, Eq)]
pub enum StartFault {
    /// A limit, or the number of clients, is out of its range.
    Limit(LimitFault),
    /// There are not 1 to 512 robots.
    Robots,
    /// The least robot that does not start on floor, and its cell, which is on the map.
    OffFloor { robot: u32, cell: u32 },
    /// The same, where the cell is outside of the map, which has this many cells.
    Outside { robot: u32, cell: u32, cells: u32 },
    /// The least two robots that start on one cell, and that cell.
    Shared { first: u32, second: u32, cell: u32 },
}

/// The robot's start, 0 where it has none.
fn start_of(starts: &[u32], robot: u32) -> u32
    ensures { result ≡ slice_index starts.now robot }
{
    let robot = robot as usize;
    if robot < starts.len() {
        starts[robot]
    } else {
        0
    }
}

/// The robot starts on this cell, which is no floor of a map of this many cells.
fn off_floor(cells: u32, robot: u32, cell: u32) -> StartFault
    ensures { result ≡ off_floor cells robot cell }
{
    if cell < cells {
        StartFault::OffFloor { robot, cell }
    } else {
        StartFault::Outside { robot, cell, cells }
    }
}

/// Why a fleet with these starts, clients and limits cannot begin on the grid, whatever its closures, one for each
/// robot.
pub(crate) fn start_fault(
    grid: &Grid,
    starts: &[u32],
    clients: u32,
    limits: Limits,
) -> Option<StartFault>
    ensures { MatchOption result (CanStart grid.now starts.now clients limits) (λ fault. IsStartFault grid.now starts.now clients limits fault) }
{
    match fleet_core::start_fault(grid, starts, clients, limits)? {
        OpenFault::Limits => Some(StartFault::Limit(limit_fault(&limits, clients))),
        OpenFault::NoRobots => Some(StartFault::Robots),
        OpenFault::Start(robot) => {
            let cell = start_of(starts, robot);
            Some(off_floor(grid.cell_count(), robot, cell))
        }
        OpenFault::Shared(first, second) => {
            let cell = start_of(starts, first);
            Some(StartFault::Shared {
                first,
                second,
                cell,
            })
        }
        OpenFault::Hooks | OpenFault::NoMemory => unreachable!(),
    }
}
