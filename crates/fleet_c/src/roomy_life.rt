//! Fleets are opened that take no errand to a cell that is not roomy for their robots.

ghost use Rattle.std.specs.Prelude.{◌≡◌, ◌≢◌, ◌↔◌, is_some, true, IsSomeAnd};
ghost use Rattle.fleet_c.specs.Opening.{IsOpened, IsWhy};
ghost use Rattle.fleet_c.specs.Reopened.{IsReopenedRoomily, IsWhyNotReopenedRoomily};
ghost use Rattle.fleet_c.specs.Roomy.{Refuses};

use crate::codes::{ALREADY_OPEN, DONE};
use crate::fault::Fault;
use crate::handle::Handle;
use crate::opening::open_on;
use crate::reopening::reopen_roomy_on;
use crate::robot::Robot;
use crate::setup::Setup;
use std::alloc::Global;

/// Opens a closed handle as `nashirudder_open`: a fleet that takes no errand to a cell that is not roomy for its robots.
/// Refused as `nashirudder_open`.
#[unsafe(no_mangle)]
pub extern "C" fn nashirudder_open_roomy(
    alloc: Global,
    map: &[u8],
    robots: &[Robot],
    setup: &Setup,
    fleet: &mut Handle,
    fault: &mut Fault,
) -> u32
    ensures open { (result ≡ ALREADY_OPEN) ↔ (is_some fleet.old.owned.held ≡ true) }
    ensures opened { (result ≡ DONE) → IsSomeAnd fleet.new.owned.held (λ f. IsOpened map.now robots.now setup.now f.core × Refuses true f) }
    ensures refused { (result ≢ DONE) → (result ≢ ALREADY_OPEN) → IsWhy map.now robots.now setup.now result fault.new }
    ensures same { (result ≢ DONE) → fleet.new.owned.held ≡ fleet.old.owned.held }
    ensures untouched { (result ≡ ALREADY_OPEN) → fault.new ≡ fault.old }
{
    if fleet.is_open() {
        return ALREADY_OPEN;
    }
    match open_on(alloc, true, map, robots, setup) {
        Ok(opened) => {
            fleet.put(opened);
            DONE
        }
        Err(why) => {
            *fault = why.fault();
            fault.code
        }
    }
}

/// Opens a closed handle as `nashirudder_reopen`: a fleet that takes no errand to a cell that is not roomy for its
/// robots.
///
/// Refused as `nashirudder_reopen`, and last if an unfinished errand goes to such a cell.
#[unsafe(no_mangle)]
pub extern "C" fn nashirudder_reopen_roomy(
    alloc: Global,
    map: &[u8],
    text: &[u8],
    robots: &[Robot],
    setup: &Setup,
    fleet: &mut Handle,
    fault: &mut Fault,
) -> u32
    ensures open { (result ≡ ALREADY_OPEN) ↔ (is_some fleet.old.owned.held ≡ true) }
    ensures reopened { (result ≡ DONE) → IsSomeAnd fleet.new.owned.held (λ f. IsReopenedRoomily map.now text.now robots.now setup.now f.core × Refuses true f) }
    ensures refused { (result ≢ DONE) → (result ≢ ALREADY_OPEN) → IsWhyNotReopenedRoomily map.now text.now robots.now setup.now result fault.new }
    ensures same { (result ≢ DONE) → fleet.new.owned.held ≡ fleet.old.owned.held }
    ensures untouched { (result ≡ ALREADY_OPEN) → fault.new ≡ fault.old }
{
    if fleet.is_open() {
        return ALREADY_OPEN;
    }
    match reopen_roomy_on(alloc, map, text, robots, setup) {
        Ok(opened) => {
            fleet.put(opened);
            DONE
        }
        Err(why) => {
            *fault = why.fault();
            fault.code
        }
    }
}
