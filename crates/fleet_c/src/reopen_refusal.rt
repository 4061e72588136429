//! Why a fleet does not go on from a kept chapter.

ghost use Rattle.std.specs.Prelude.{◌≡◌};
ghost use Rattle.fleet_c.specs.Reopened.{reopen_fault_of};

use crate::codes::{
    BAD_SETUP, CHAPTER_ILLEGAL, CHAPTERS_SPENT, LAWS_DIFFER, LIMITS_DIFFER, NO_MEMORY, NO_ROOM,
    TRACE_NOT_JSON, TRACE_SHAPE, TRACE_VERSION, WAITED_TOO_LONG, WRONG_SIZE,
};
use crate::fault::Fault;
use crate::refusal::{map_fault, two};
use fleet_map::MapFault;
use fleet_reopen::ReopenFault;
use fleet_trace::TraceFault;
use std::alloc::AllocError;

/// Why a fleet does not go on from a kept chapter; the first reason that holds is returned.
#[derive(Clone, Copy)]
pub enum ReopenRefusal {
    /// Memory ran out.
    NoMemory,
    /// The setup is not of this library's size.
    Size,
    /// The map's first fault.
    Map(MapFault),
    /// The text tells no chapter.
    Trace(TraceFault),
    /// No fleet goes on from the chapter.
    Chapter(ReopenFault),
    /// An unfinished errand goes to a cell that is not roomy, and the fleet takes no such errand.
    NoRoom,
}

fn trace_fault(why: TraceFault) -> Fault
    ensures { result ≡ reopen_fault_of (ReopenRefusal.Trace why) }
{
    match why {
        TraceFault::NotJson => two(TRACE_NOT_JSON, 0, 0),
        TraceFault::Version => two(TRACE_VERSION, 0, 0),
        TraceFault::Shape => two(TRACE_SHAPE, 0, 0),
        TraceFault::NoMemory => two(NO_MEMORY, 0, 0),
    }
}

fn chapter_fault(why: ReopenFault) -> Fault
    ensures { result ≡ reopen_fault_of (ReopenRefusal.Chapter why) }
{
    match why {
        ReopenFault::Limits => two(BAD_SETUP, 0, 0),
        ReopenFault::Illegal { at, rule } => two(CHAPTER_ILLEGAL, at, u64::from(rule)),
        ReopenFault::Laws => two(LAWS_DIFFER, 0, 0),
        ReopenFault::Differs => two(LIMITS_DIFFER, 0, 0),
        ReopenFault::Spent => two(CHAPTERS_SPENT, 0, 0),
        ReopenFault::Waits => two(WAITED_TOO_LONG, 0, 0),
        ReopenFault::NoMemory => two(NO_MEMORY, 0, 0),
    }
}

impl ReopenRefusal {
    /// For C.
    pub(crate) fn fault(self) -> Fault
        ensures { result ≡ reopen_fault_of self }
    {
        match self {
            ReopenRefusal::NoMemory => two(NO_MEMORY, 0, 0),
            ReopenRefusal::Size => two(WRONG_SIZE, 0, 0),
            ReopenRefusal::Map(why) => map_fault(why),
            ReopenRefusal::Trace(why) => trace_fault(why),
            ReopenRefusal::Chapter(why) => chapter_fault(why),
            ReopenRefusal::NoRoom => two(NO_ROOM, 0, 0),
        }
    }
}

impl From<AllocError> for ReopenRefusal {
    ghost use Rattle.std.specs.Prelude.{◌≡◌};
    ghost use Rattle.fleet_c.specs.declared.reopen_refusal.ReopenRefusal.TheVariants.{NoMemory};

    ghost from_gives = { λ _ e. e ≡ NoMemory };

    fn from(_e: AllocError) -> ReopenRefusal {
        ReopenRefusal::NoMemory
    }
}
