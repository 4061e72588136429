//! Why a text is not a plan.

use std::alloc::{AllocError, AllocFailed};

/// Why a text is not a plan.
#[derive(Clone, Copy, Debug, PartialEq, Eq)]
pub enum PlanTextFault {
    /// The number, from 1, of the first line that is not allowed where it is; if the text ends too early, that of the
    /// line after the last.
    Line(u32),
    /// Memory ran out; this says nothing about the text.
    NoMemory,
}

impl From<AllocError> for PlanTextFault {
    ghost use Rattle.std.specs.Prelude.{◌≡◌};
    ghost use Rattle.fleet_plans.specs.declared.fault.PlanTextFault.TheVariants.{NoMemory};

    ghost from_gives = { λ _ e. e ≡ NoMemory };

    fn from(_error: AllocError) -> PlanTextFault {
        PlanTextFault::NoMemory
    }
}

impl<T: Drop> From<AllocFailed<T>> for PlanTextFault {
    ghost use Rattle.std.specs.Prelude.{◌≡◌};
    ghost use Rattle.fleet_plans.specs.declared.fault.PlanTextFault.TheVariants.{NoMemory};

    ghost from_gives = { λ _ e. e ≡ NoMemory };

    fn from(_error: AllocFailed<T>) -> PlanTextFault {
        PlanTextFault::NoMemory
    }
}
