//! Why a world does not go on from a chapter.

ghost use Rattle.std.specs.Prelude.{◌≡◌};
ghost use Rattle.fleet_reopen.specs.declared.fault.ReopenFault.TheVariants.{NoMemory};

use std::alloc::AllocError;
use thiserror::Error;

/// Why a world does not go on from a chapter; the first reason that holds is returned.
#[derive(Clone, Copy, Debug, PartialEq, Eq, Error)]
pub enum ReopenFault {
    /// A limit is out of its range.
    #[error("a limit is out of its range")]
    Limits,
    /// The chapter is not legal on the map: the entry `at`, counted from 1, is the first that breaks a rule, and `rule`
    /// the first that it breaks, as `JudgeFault` numbers them. At 0 the opening breaks rule 1.
    #[error("entry {at} of the chapter breaks rule {rule}")]
    Illegal { at: u64, rule: u8 },
    /// The laws of the closures are not those of the chapter's robots, one for each.
    #[error("the laws of the closures are not those of the chapter's robots")]
    Laws,
    /// The limits `queue` and `life` are not those of the chapter.
    #[error("the limits queue and life are not those of the chapter")]
    Differs,
    /// Within the limits no chapter follows this one: its ticks, its entries, its number, or its clients' orders are
    /// too many.
    #[error("within the limits no chapter follows")]
    Spent,
    /// The map has no bridge, and a robot has waited longer than it may on such a map, if no two of its cells are
    /// further apart than two searches find.
    #[error("a robot has waited longer than it may")]
    Waits,
    /// Memory ran out.
    #[error("out of memory")]
    NoMemory,
}

impl From<AllocError> for ReopenFault {
    ghost from_gives = { λ _ e. e ≡ NoMemory };

    fn from(_error: AllocError) -> ReopenFault {
        ReopenFault::NoMemory
    }
}
