//! Why a trace is refused.

ghost use Rattle.std.specs.Prelude.{◌≡◌};
ghost use Rattle.fleet_trace.specs.declared.fault.TraceFault.TheVariants.{NoMemory};
ghost use Rattle.fleet_trace.specs.declared.fault.JudgeFault.TheVariants as judge;

use std::alloc::{AllocError, AllocFailed};
use thiserror::Error;

/// Why bytes are not a trace.
#[derive(Clone, Copy, Debug, PartialEq, Eq, Error)]
pub enum TraceFault {
    /// They are not UTF-8, or not JSON, or nest deeper than 127.
    #[error("not UTF-8, or not JSON, or nested deeper than 127")]
    NotJson,
    /// The number under `version` is not that of a known version.
    #[error("no known version")]
    Version,
    /// The value is not an object with an integer under `version`, or is not in the form of its version.
    #[error("not in the form of its version")]
    Shape,
    /// Memory ran out.
    #[error("out of memory")]
    NoMemory,
}

impl From<AllocError> for TraceFault {
    ghost from_gives = { λ _ e. e ≡ NoMemory };

    fn from(_error: AllocError) -> TraceFault {
        TraceFault::NoMemory
    }
}

impl<T: Drop> From<AllocFailed<T>> for TraceFault {
    ghost from_gives = { λ _ e. e ≡ NoMemory };

    fn from(_error: AllocFailed<T>) -> TraceFault {
        TraceFault::NoMemory
    }
}

/// Why a trace is not judged legal.
#[derive(Clone, Copy, Debug, PartialEq, Eq, Error)]
pub enum JudgeFault {
    /// The entry `at`, counted from 1, is the first that breaks a rule, and `rule` the first that it breaks: 2 the
    /// client, 3 the verdict, 4 the step, 5 the arrivals, 6 the farewells, 7 a stamp, 8 the robot of a shut, which is
    /// tried before 6 and 7. At 0 the opening breaks rule 1.
    #[error("entry {at} breaks rule {rule}")]
    Illegal { at: u64, rule: u8 },
    /// Memory ran out.
    #[error("out of memory")]
    NoMemory,
}

impl From<AllocError> for JudgeFault {
    ghost from_gives = { λ _ e. e ≡ judge.NoMemory };

    fn from(_error: AllocError) -> JudgeFault {
        JudgeFault::NoMemory
    }
}

/// Why texts tell no chapters that follow one another. Texts have the numbers 1, 2, .. in their order.
#[derive(Clone, Copy, Debug, PartialEq, Eq, Error)]
pub enum ChaptersFault {
    /// The bytes of this text are not a trace.
    #[error("trace {0}: {1}")]
    Trace(u64, TraceFault),
    /// This chapter does not continue the one before it.
    #[error("chapter {0} does not continue the one before it")]
    Chapter(u64),
    /// Memory ran out.
    #[error("out of memory")]
    NoMemory,
}
