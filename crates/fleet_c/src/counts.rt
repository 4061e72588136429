//! How many robots and clients a fleet has, and its limits.

ghost use Rattle.std.specs.Prelude.{◌≡◌, ◌≢◌, ◌<◌, ◌^◌};
ghost use Rattle.fleet_history.specs.History.{clients, robots};
ghost use Rattle.fleet_c.specs.Forms.{limits_of};
ghost use Rattle.fleet_c.specs.Handles.{OfFleet};
ghost use Rattle.fleet_c.specs.Views.{HasLimits};

use crate::codes::{DONE, NOT_OPEN};
use crate::handle::Handle;
use crate::setup::Setup;
use fleet_core::Core;
use std::alloc::Global;

/// The core's limits, and its number of clients.
fn setup_of(core: &Core) -> Setup
    ensures { HasLimits core.now result }
{
    // There are at most 64 clients.
    let clients = match u32::try_from(core.clients()) {
        Ok(clients) => clients,
        Err(_) => u32::MAX,
    };
    Setup::of(*core.limits(), clients)
}

/// The number of robots. Refused where the handle is closed.
#[unsafe(no_mangle)]
pub extern "C" fn nashirudder_robots(alloc: Global, fleet: &mut Handle, count: &mut usize) -> u32
    ensures says { OfFleet fleet.old.owned.held fleet.new.owned.held result (λ w. (result ≡ DONE) × (count.new ≡ robots w.history)) }
    ensures untouched { (result ≢ DONE) → count.new ≡ count.old }
{
    let Some(held) = fleet.take(alloc) else {
        return NOT_OPEN;
    };
    *count = held.core.robots();
    fleet.put(held);
    DONE
}

/// The number of clients. Refused where the handle is closed.
#[unsafe(no_mangle)]
pub extern "C" fn nashirudder_clients(alloc: Global, fleet: &mut Handle, count: &mut usize) -> u32
    ensures says { OfFleet fleet.old.owned.held fleet.new.owned.held result (λ w. (result ≡ DONE) × (count.new ≡ clients w.history)) }
    ensures untouched { (result ≢ DONE) → count.new ≡ count.old }
{
    let Some(held) = fleet.take(alloc) else {
        return NOT_OPEN;
    };
    *count = held.core.clients();
    fleet.put(held);
    DONE
}

/// The limits, and the number of clients. Refused where the handle is closed.
#[unsafe(no_mangle)]
pub extern "C" fn nashirudder_limits(alloc: Global, fleet: &mut Handle, setup: &mut Setup) -> u32
    ensures says { OfFleet fleet.old.owned.held fleet.new.owned.held result (λ w. (result ≡ DONE) × HasLimits w setup.new) }
    ensures untouched { (result ≢ DONE) → setup.new ≡ setup.old }
{
    let Some(held) = fleet.take(alloc) else {
        return NOT_OPEN;
    };
    *setup = setup_of(&held.core);
    fleet.put(held);
    DONE
}
