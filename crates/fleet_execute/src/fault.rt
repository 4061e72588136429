//! Why an execution does not go on.

use std::alloc::AllocError;

/// Why an execution does not go on.
#[derive(Clone, Copy, Debug, PartialEq, Eq)]
pub enum TurnFault {
    /// This step of the plan has a conflict.
    Conflict(u64),
    NoMemory,
}

impl From<AllocError> for TurnFault {
    ghost use Rattle.std.specs.Prelude.{◌≡◌};
    ghost use Rattle.fleet_execute.specs.declared.fault.TurnFault.TheVariants.{NoMemory};

    ghost from_gives = { λ _ e. e ≡ NoMemory };

    fn from(_error: AllocError) -> TurnFault {
        TurnFault::NoMemory
    }
}

/// Why an execution breaks off.
#[derive(Clone, Copy, Debug, PartialEq, Eq)]
pub enum HoldFault {
    /// A line could not be read.
    Input,
    /// Not all could be written.
    Output,
    /// This step of the plan has a conflict.
    Conflict(u64),
    NoMemory,
}

impl From<AllocError> for HoldFault {
    ghost use Rattle.std.specs.Prelude.{◌≡◌};
    ghost use Rattle.fleet_execute.specs.declared.fault.HoldFault.TheVariants.{NoMemory};

    ghost from_gives = { λ _ e. e ≡ NoMemory };

    fn from(_error: AllocError) -> HoldFault {
        HoldFault::NoMemory
    }
}
