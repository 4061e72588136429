//! How a robot stands.

ghost use Rattle.std.specs.Prelude.{◌≡◌};
ghost use Rattle.fleet_c.specs.Errands.{state_of};
ghost use Rattle.fleet_c.specs.inside.Runs.{with_chore};

use crate::chore::Chore;

/// The robot has no errand.
pub const FREE: u32 = 1;
/// The robot has errands.
pub const BUSY: u32 = 2;
/// The robot takes no further errands; it may still have some.
pub const SHUT: u32 = 3;

/// The goal of a robot that has no errand.
pub const NOWHERE: u32 = 4_294_967_295;

/// How a robot stands.
#[repr(C)]
#[derive(Clone, Copy)]
pub struct Standing {
    /// How many ticks it has waited for the arrival at its goal. 0 if it has no errand.
    pub wait: u64,
    /// How many errands it has.
    pub errands: u64,
    pub cell: u32,
    /// The cell of its front errand. `NOWHERE` if it has none.
    pub goal: u32,
    /// `FREE`, `BUSY` or `SHUT`.
    pub state: u32,
}

impl Standing {
    /// With one of its errands, in whatever order they come.
    pub(crate) fn with(self, chore: Chore) -> Standing
        ensures { result ≡ with_chore chore self }
    {
        let goal = if chore.place == 1 {
            chore.cell
        } else {
            self.goal
        };
        Standing {
            errands: self.errands.max(chore.place),
            goal,
            ..self
        }
    }
}

/// The state of a robot that is shut or not, and has errands or none.
pub(crate) fn state_of(is_shut: bool, is_busy: bool) -> u32
    ensures { result ≡ state_of is_shut is_busy }
{
    if is_shut {
        SHUT
    } else if is_busy {
        BUSY
    } else {
        FREE
    }
}
