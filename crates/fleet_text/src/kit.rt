//! The hooks that a script chooses from.

ghost use Rattle.std.specs.Prelude.{◌≡◌, if◌then◌else◌};
ghost use Rattle.fleet_core.specs.Hooks.{laws_of};
ghost use Rattle.fleet_text.specs.Kit.{kit_laws};

use fleet_hooks::Hooks;
use std::alloc::{Allocator, Global};

/// Two sets of hooks, with those of each robot. The line `ties` of a script chooses one of them.
#[derive(Drop)]
pub struct HookKit<A: Allocator + Copy = Global> {
    /// Every rank, stamp and farewell is 0.
    pub plain: Hooks<A>,
    /// The cell to the south is tried first, the stamp is the tick modulo 1,000, and the farewell the cell.
    pub south: Hooks<A>,
}

impl<A: Allocator + Copy> HookKit<A> {
    /// The hooks that a script chooses.
    pub fn choose(self, southern: bool) -> Hooks<A>
        ensures { laws_of result ≡ if southern then (kit_laws self).south else (kit_laws self).plain }
    {
        let HookKit { plain, south } = self;
        if southern { south } else { plain }
    }
}

/// Makes the hooks of the programs, for this many robots. It is a macro, since no function may hand out hooks that it
/// makes; the function that calls it returns the `AllocError` if there is no memory for them.
#[macro_export]
macro_rules! program_kit {
    ($alloc:expr, $robots:expr) => {{
        let alloc = $alloc;
        let plain = fleet_hooks::Hooks::alike(
            alloc,
            $robots,
            fleet_hooks::TieHook::fixed([0; 4]),
            fleet_hooks::ArrivalHook::fixed(0),
            fleet_hooks::Farewell::fixed(0),
        )?;
        let south = fleet_hooks::Hooks::alike(
            alloc,
            $robots,
            fleet_hooks::TieHook::south_first(),
            fleet_hooks::ArrivalHook::by_tick(),
            fleet_hooks::Farewell::by_cell(),
        )?;
        $crate::HookKit { plain, south }
    }};
}
