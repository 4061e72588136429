//! Why bytes are no journal.

ghost use Rattle.std.specs.Prelude.{◌≡◌};
ghost use Rattle.fleet_journal.specs.declared.fault.JournalFault.TheVariants.{NoMemory};

use std::alloc::{AllocError, AllocFailed};
use thiserror::Error;

/// Why bytes are no journal.
#[derive(Clone, Copy, Debug, PartialEq, Eq, Error)]
pub enum JournalFault {
    /// There is no whole line.
    #[error("no whole line")]
    Empty,
    /// The first line is no opening.
    #[error("the first line is no opening")]
    Opening,
    /// The line after this many entries is no entry.
    #[error("the line after {0} entries is no entry")]
    Entry(usize),
    /// Memory ran out.
    #[error("out of memory")]
    NoMemory,
}

impl From<AllocError> for JournalFault {
    ghost from_gives = { λ _ e. e ≡ NoMemory };

    fn from(_error: AllocError) -> JournalFault {
        JournalFault::NoMemory
    }
}

impl<T: Drop> From<AllocFailed<T>> for JournalFault {
    ghost from_gives = { λ _ e. e ≡ NoMemory };

    fn from(_error: AllocFailed<T>) -> JournalFault {
        JournalFault::NoMemory
    }
}
