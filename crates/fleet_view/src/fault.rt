//! Why a map and traces cannot be shown.

use fleet_map::MapFault;
use fleet_trace::TraceFault;
use std::alloc::AllocError;

/// Why a map and traces cannot be shown.
#[derive(Clone, Copy, Debug, PartialEq, Eq)]
pub enum ViewFault {
    /// The bytes are not a map.
    Map(MapFault),
    /// The bytes of one of the traces are not a trace.
    Trace(TraceFault),
    /// The trace with this number, from 1, does not continue the one before it.
    Chapter(u64),
    /// The trace with this number, from 1, is the first that has a cell which the map does not have: in its opening the
    /// cell of a robot or of an errand, or a cell of a tick.
    OffMap(u64),
    NoMemory,
}

impl From<AllocError> for ViewFault {
    ghost use Rattle.std.specs.Prelude.{◌≡◌};
    ghost use Rattle.fleet_view.specs.declared.fault.ViewFault.TheVariants.{NoMemory};

    ghost from_gives = { λ _ e. e ≡ NoMemory };

    fn from(_error: AllocError) -> ViewFault {
        ViewFault::NoMemory
    }
}
