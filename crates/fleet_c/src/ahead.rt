//! Fields are searched before the tick that needs them.

ghost use Rattle.std.specs.Prelude.{◌≡◌, ◌≢◌};
ghost use Rattle.fleet_c.specs.Answers.{CountsMissing, IsSearched};
ghost use Rattle.fleet_c.specs.Handles.{OfFleet, OnFleet};

use crate::codes::{DONE, NO_MEMORY, NOT_OPEN};
use crate::handle::Handle;
use fleet_core::Core;
use std::alloc::Global;

/// Searches one field, and counts those that are still to be searched.
fn search_one(core: &mut Core, missing: &mut usize) -> u32
    ensures says { IsSearched core.old result missing.new core.new }
    ensures untouched { (result ≢ DONE) → missing.new ≡ missing.old }
{
    match core.search_one() {
        Ok(_searched) => {
            *missing = core.missing();
            DONE
        }
        Err(_out) => NO_MEMORY,
    }
}

/// Searches the field of one robot's goal as far as the next tick will need it, and tells how many robots' fields are
/// still to be searched. Nothing else changes.
///
/// Refused in this order: the handle is closed, out of memory.
#[unsafe(no_mangle)]
pub extern "C" fn nashirudder_search_one(
    alloc: Global,
    fleet: &mut Handle,
    missing: &mut usize,
) -> u32
    ensures says { OnFleet fleet.old.owned.held fleet.new.owned.held result (λ w n. IsSearched w result missing.new n) }
    ensures untouched { (result ≢ DONE) → missing.new ≡ missing.old }
{
    let Some(mut held) = fleet.take(alloc) else {
        return NOT_OPEN;
    };
    let code = search_one(&mut held.core, missing);
    fleet.put(held);
    code
}

/// How many robots' fields are still to be searched before the next tick. Refused where the handle is closed.
#[unsafe(no_mangle)]
pub extern "C" fn nashirudder_missing(alloc: Global, fleet: &mut Handle, missing: &mut usize) -> u32
    ensures says { OfFleet fleet.old.owned.held fleet.new.owned.held result (λ w. (result ≡ DONE) × CountsMissing w missing.new) }
    ensures untouched { (result ≢ DONE) → missing.new ≡ missing.old }
{
    let Some(held) = fleet.take(alloc) else {
        return NOT_OPEN;
    };
    *missing = held.core.missing();
    fleet.put(held);
    DONE
}
