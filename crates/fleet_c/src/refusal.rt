//! Why a fleet cannot be opened.

ghost use Rattle.std.specs.Prelude.{◌≡◌};
ghost use Rattle.fleet_c.specs.Opening.{fault, fault_of};

use crate::codes::{
    BAD_SETUP, MAP_CELL, MAP_HEADER, MAP_ROW, MAP_SIZE, MAP_TRAILING, NO_MEMORY, ROBOT_COUNT,
    START_BLOCKED, START_SHARED, WRONG_SIZE,
};
use crate::fault::Fault;
use fleet_map::MapFault;
use std::alloc::AllocError;

/// Why a fleet cannot be opened; the first reason that holds is returned.
#[derive(Clone, Copy)]
pub enum Refusal {
    /// Memory ran out.
    NoMemory,
    /// The setup is not of this library's size.
    Size,
    /// The map's first fault.
    Map(MapFault),
    /// A limit or the number of clients is out of its range.
    Setup,
    /// There are not 1 to 512 robots.
    RobotCount,
    /// The lowest robot that does not start on floor.
    Start(u32),
    /// The first two robots that start on one cell.
    Shared(u32, u32),
}

/// The fault of a code that names two numbers.
pub(crate) fn two(code: u32, first: u64, second: u64) -> Fault
    ensures { result ≡ fault code first second }
{
    Fault {
        first,
        second,
        code,
    }
}

/// The fault of a map.
pub(crate) fn map_fault(why: MapFault) -> Fault
    ensures { result ≡ fault_of (Refusal.Map why) }
{
    match why {
        MapFault::NoMemory => two(NO_MEMORY, 0, 0),
        MapFault::Header(line) => two(MAP_HEADER, line, 0),
        MapFault::Size => two(MAP_SIZE, 0, 0),
        MapFault::Row(row) => two(MAP_ROW, u64::from(row), 0),
        MapFault::Cell(row, column) => two(MAP_CELL, u64::from(row), u64::from(column)),
        MapFault::Trailing(line) => two(MAP_TRAILING, line, 0),
    }
}

impl Refusal {
    /// For C.
    pub(crate) fn fault(self) -> Fault
        ensures { result ≡ fault_of self }
    {
        match self {
            Refusal::NoMemory => two(NO_MEMORY, 0, 0),
            Refusal::Size => two(WRONG_SIZE, 0, 0),
            Refusal::Map(why) => map_fault(why),
            Refusal::Setup => two(BAD_SETUP, 0, 0),
            Refusal::RobotCount => two(ROBOT_COUNT, 0, 0),
            Refusal::Start(robot) => two(START_BLOCKED, u64::from(robot), 0),
            Refusal::Shared(first, second) => {
                two(START_SHARED, u64::from(first), u64::from(second))
            }
        }
    }
}

impl From<AllocError> for Refusal {
    ghost use Rattle.std.specs.Prelude.{◌≡◌};
    ghost use Rattle.fleet_c.specs.declared.refusal.Refusal.TheVariants.{NoMemory};

    ghost from_gives = { λ _ e. e ≡ NoMemory };

    fn from(_e: AllocError) -> Refusal {
        Refusal::NoMemory
    }
}
