//! The result of a serve, and why there is none.

use fleet_core::OpenFault;
use fleet_office::Final;
use std::alloc::AllocError;
use thiserror::Error;

/// The result of a serve: how the office ended, and how many posts met a full lane.
#[derive(Drop)]
pub struct Served {
    pub last: Final,
    pub lane_full: u32,
}

/// Why a serve failed.
///
/// A fault of the opening comes first. When all threads have ended, `NoThread` comes before a ticker's fault, and the
/// first ticker's fault before the second's; then comes a fault of a further turn, such as `Drain`, and at last a fault
/// of the conclusion. `NoMemory` is returned when it occurs, at the opening too.
#[derive(Clone, Copy, Debug, PartialEq, Eq, Error)]
pub enum ServeFault {
    /// The office was not opened, for a reason other than out of memory.
    #[error("the office was not opened: {0}")]
    Opening(OpenFault),
    /// A turn's tick was refused: all the ticks were made that may be made.
    #[error("all ticks were made")]
    ClockSpent,
    /// A turn, or an order that was left at the end, was refused: the chapter has all the entries that it may have.
    #[error("the chapter is full")]
    ChapterFull,
    /// The lanes were not emptied within 1,000,000 further turns.
    #[error("the lanes were not emptied within 1,000,000 further turns")]
    Drain,
    /// Memory ran out.
    #[error("out of memory")]
    NoMemory,
    /// A client's thread could not be started. The others have ended.
    #[error("a client's thread could not be started")]
    NoThread,
}

impl From<AllocError> for ServeFault {
    ghost use Rattle.std.specs.Prelude.{◌≡◌};
    ghost use Rattle.fleet_serve.specs.declared.served.ServeFault.TheVariants.{NoMemory};

    ghost from_gives = { λ _ e. e ≡ NoMemory };

    fn from(_error: AllocError) -> ServeFault {
        ServeFault::NoMemory
    }
}
