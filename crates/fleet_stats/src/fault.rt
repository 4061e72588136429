//! Why there are no figures.

use fleet_map::MapFault;
use fleet_trace::TraceFault;
use std::alloc::AllocError;

/// Why a map and traces give no figures. Traces have the numbers 1, 2, .. in their order.
#[derive(Clone, Copy)]
pub enum StatsFault {
    /// The bytes are not a map.
    Map(MapFault),
    /// The bytes of this trace are not a trace.
    Trace(u64, TraceFault),
    /// This trace does not continue the one before it.
    Chapter(u64),
    /// This trace could end at a clock of 2^63 or more.
    Late(u64),
    /// In this trace the entry `at`, counted from 1, is the first that breaks a rule, and `rule` the first that it
    /// breaks, by the numbers of `JudgeFault`. At 0 the opening breaks rule 1.
    Illegal { number: u64, at: u64, rule: u8 },
    NoMemory,
}

impl From<AllocError> for StatsFault {
    ghost use Rattle.std.specs.Prelude.{◌≡◌};
    ghost use Rattle.fleet_stats.specs.declared.fault.StatsFault.TheVariants.{NoMemory};

    ghost from_gives = { λ _ e. e ≡ NoMemory };

    fn from(_error: AllocError) -> StatsFault {
        StatsFault::NoMemory
    }
}
