//! The kernels that are measured.

use crate::steps::MOST;
use fleet_map::text::number_up_to;

/// What is measured.
#[derive(Clone, Copy, Debug, PartialEq, Eq)]
pub(crate) enum Kernel {
    /// One distance field: time for each floor cell of its part.
    Field,
    /// Many fields, on all processors: time for each cell.
    Fields,
    /// The first bridge of a map: time for each cell.
    Bridge,
    /// The check of a step: time for each robot.
    Check,
    /// A step of all robots: time for each robot.
    Step,
    /// A tick of a world: time for each robot.
    Tick,
    /// Long runs of a world: time for each tick and robot.
    Lifelong,
    /// The first tick of a world whose robots all have a goal: time for each robot.
    Open,
    /// A chapter of this number of robots, or of each: the memory of a tick, and the time for each entry as text and
    /// read back.
    Trace { robots: Option<usize> },
    /// Whole maps of a hostile shape, in milliseconds.
    Hostile,
    /// The maps themselves, and the steps of a full one: nothing is timed.
    Maps,
}

impl Kernel {
    /// The kernel of that name.
    pub(crate) fn named(word: &str) -> Option<Kernel> {
        match word {
            "field" => Some(Kernel::Field),
            "fields" => Some(Kernel::Fields),
            "bridge" => Some(Kernel::Bridge),
            "check" => Some(Kernel::Check),
            "step" => Some(Kernel::Step),
            "tick" => Some(Kernel::Tick),
            "lifelong" => Some(Kernel::Lifelong),
            "open" => Some(Kernel::Open),
            "trace" => Some(Kernel::Trace { robots: None }),
            "hostile" => Some(Kernel::Hostile),
            "maps" => Some(Kernel::Maps),
            _ => None,
        }
    }

    /// The same kernel for this number of robots alone, which only `trace` can be asked for.
    pub(crate) fn with_robots(self, word: &str) -> Option<Kernel> {
        let Kernel::Trace { .. } = self else {
            return None;
        };
        let robots = number_up_to(word.as_bytes(), MOST as u64 + 1)? as usize;
        if robots == 0 || robots > MOST {
            return None;
        }
        Some(Kernel::Trace {
            robots: Some(robots),
        })
    }
}
