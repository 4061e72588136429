//! Why an execution is not opened.

ghost use Rattle.std.specs.Prelude.{◌≡◌};
ghost use Rattle.fleet_c.specs.Executions.{opening_code};

use crate::codes::{BAD_CLEARANCE, BAD_WINDOW, NO_MEMORY, NO_PLACEMENT};

/// Why an execution is not opened.
#[derive(Clone, Copy)]
pub(crate) enum ExecutionFault {
    Clearance,
    Window,
    Placement,
    NoMemory,
}

impl ExecutionFault {
    /// What C is answered.
    pub(crate) fn code(self) -> u32
        ensures { result ≡ opening_code self }
    {
        match self {
            ExecutionFault::Clearance => BAD_CLEARANCE,
            ExecutionFault::Window => BAD_WINDOW,
            ExecutionFault::Placement => NO_PLACEMENT,
            ExecutionFault::NoMemory => NO_MEMORY,
        }
    }
}
