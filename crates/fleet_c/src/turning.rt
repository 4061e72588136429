//! Robots that take turns.

ghost use Rattle.std.specs.Prelude.{◌≡◌};
ghost use Rattle.fleet_c.specs.Answers.{IsTakingTurns};
ghost use Rattle.fleet_c.specs.Handles.{OnFleet};

use crate::codes::{CHAPTER_BEGUN, DONE, NO_MEMORY, NO_TURNS, NOT_OPEN};
use crate::handle::Handle;
use fleet_core::{Core, NoTurns};
use std::alloc::Global;

/// Lets the robots take turns.
fn take_turns(core: &mut Core) -> u32
    ensures { IsTakingTurns core.old result core.new }
{
    if !core.chapter().entries.is_empty() {
        return CHAPTER_BEGUN;
    }
    match core.take_turns() {
        Ok(()) => DONE,
        Err(NoTurns::NoRooms) => NO_TURNS,
        Err(NoTurns::NoMemory) => NO_MEMORY,
    }
}

/// Lets the robots take turns from now on, so that errands to all cells that are served arrive, also in dead ends. On a
/// map without bridges nothing changes. Chapters that follow are planned so too; a fleet that goes on from a kept
/// chapter is asked again.
///
/// Refused in this order: the handle is closed, the chapter has an entry, the rooms that were found do not pass their
/// checks, out of memory.
#[unsafe(no_mangle)]
pub extern "C" fn nashirudder_take_turns(alloc: Global, fleet: &mut Handle) -> u32
    ensures { OnFleet fleet.old.owned.held fleet.new.owned.held result (λ w n. IsTakingTurns w result n) }
{
    let Some(mut held) = fleet.take(alloc) else {
        return NOT_OPEN;
    };
    let code = take_turns(&mut held.core);
    fleet.put(held);
    code
}
