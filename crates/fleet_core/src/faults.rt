//! Why calls of a world's core are refused, and what a tick reports.

ghost use Rattle.std.specs.Prelude.{◌≡◌, ◌<◌, ◌^◌};

use std::alloc::AllocError;
use thiserror::Error;

/// Why a world is not opened; the first reason that holds is returned.
#[derive(Clone, Copy, Debug, PartialEq, Eq, Error)]
pub enum OpenFault {
    /// A limit or the number of clients is out of its range.
    #[error("a limit or the number of clients is out of its range")]
    Limits,
    /// There are not 1 to 512 robots.
    #[error("there are not 1 to 512 robots")]
    NoRobots,
    /// The robot, the least such, does not start on floor.
    #[error("robot {0} does not start on floor")]
    Start(u32),
    /// The two robots, the least such pair, start on one cell.
    #[error("robots {0} and {1} start on one cell")]
    Shared(u32, u32),
    /// A list of closures does not have one closure for each robot.
    #[error("a list of closures has not one for each robot")]
    Hooks,
    /// Memory ran out.
    #[error("out of memory")]
    NoMemory,
}

/// Why an order is not taken; the first reason that holds is returned.
#[derive(Clone, Copy, Debug, PartialEq, Eq, Error)]
pub enum TakeFault {
    /// The client's notices and unfinished errands leave no room for two more.
    #[error("the mailbox has no room for two more notices")]
    MailboxFull,
    /// The chapter has all the entries that it may have.
    #[error("the chapter is full")]
    ChapterFull,
    /// Memory ran out.
    #[error("out of memory")]
    NoMemory,
}

/// Why no tick is made; the first reason that holds is returned.
#[derive(Clone, Copy, Debug, PartialEq, Eq, Error)]
pub enum TickFault {
    /// All the ticks were made that may be made.
    #[error("all ticks were made")]
    ClockSpent,
    /// The chapter has all the entries that it may have.
    #[error("the chapter is full")]
    ChapterFull,
    /// Memory ran out.
    #[error("out of memory")]
    NoMemory,
}

/// Why a robot is not shut; the first reason that holds is returned.
#[derive(Clone, Copy, Debug, PartialEq, Eq, Error)]
pub enum ShutFault {
    /// There is no such robot.
    #[error("there is no such robot")]
    NoRobot,
    /// It is shut already.
    #[error("the robot is shut already")]
    Already,
    /// The chapter has all the entries that it may have.
    #[error("the chapter is full")]
    ChapterFull,
    /// Memory ran out.
    #[error("out of memory")]
    NoMemory,
}

/// Why no further chapter begins; the first reason that holds is returned.
#[derive(Clone, Copy, Debug, PartialEq, Eq, Error)]
pub enum ChapterFault {
    /// This is the last chapter that there may be.
    #[error("this is the last chapter")]
    BookSpent,
    /// Memory ran out.
    #[error("out of memory")]
    NoMemory,
}

/// What a tick did.
#[derive(Clone, Copy, Debug, PartialEq, Eq)]
pub struct TickReport {
    /// The ticks made so far, with this one.
    pub tick: u64,
    /// How many robots arrived.
    pub arrived: u32,
    /// How many robots said farewell.
    pub farewells: u32,
}

impl TickReport {
    /// The report of a tick, with the number of ticks so far and the numbers of arrivals and farewells.
    pub(crate) fn of(tick: u64, arrived: usize, farewells: usize) -> TickReport
        requires arrived { arrived < 2 ^ 32 }
        requires farewells { farewells < 2 ^ 32 }
        ensures { result ≡ record { tick = tick; arrived = arrived; farewells = farewells } }
    {
        TickReport {
            tick,
            arrived: arrived as u32,
            farewells: farewells as u32,
        }
    }
}

impl From<AllocError> for OpenFault {
    ghost use Rattle.std.specs.Prelude.{◌≡◌};
    ghost use Rattle.fleet_core.specs.declared.faults.OpenFault.TheVariants.{NoMemory};

    ghost from_gives = { λ _ e. e ≡ NoMemory };

    fn from(_e: AllocError) -> OpenFault {
        OpenFault::NoMemory
    }
}

impl From<AllocError> for TakeFault {
    ghost use Rattle.std.specs.Prelude.{◌≡◌};
    ghost use Rattle.fleet_core.specs.declared.faults.TakeFault.TheVariants.{NoMemory};

    ghost from_gives = { λ _ e. e ≡ NoMemory };

    fn from(_e: AllocError) -> TakeFault {
        TakeFault::NoMemory
    }
}

impl From<AllocError> for TickFault {
    ghost use Rattle.std.specs.Prelude.{◌≡◌};
    ghost use Rattle.fleet_core.specs.declared.faults.TickFault.TheVariants.{NoMemory};

    ghost from_gives = { λ _ e. e ≡ NoMemory };

    fn from(_e: AllocError) -> TickFault {
        TickFault::NoMemory
    }
}

impl From<AllocError> for ShutFault {
    ghost use Rattle.std.specs.Prelude.{◌≡◌};
    ghost use Rattle.fleet_core.specs.declared.faults.ShutFault.TheVariants.{NoMemory};

    ghost from_gives = { λ _ e. e ≡ NoMemory };

    fn from(_e: AllocError) -> ShutFault {
        ShutFault::NoMemory
    }
}

impl From<AllocError> for ChapterFault {
    ghost use Rattle.std.specs.Prelude.{◌≡◌};
    ghost use Rattle.fleet_core.specs.declared.faults.ChapterFault.TheVariants.{NoMemory};

    ghost from_gives = { λ _ e. e ≡ NoMemory };

    fn from(_e: AllocError) -> ChapterFault {
        ChapterFault::NoMemory
    }
}
