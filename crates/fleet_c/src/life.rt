//! Fleets are opened and closed.

ghost use Rattle.std.specs.Prelude.{◌≡◌, ◌≢◌, ◌↔◌, ◌^◌, None, is_some, false, true, IsSomeAnd};
ghost use Rattle.fleet_c.specs.Forms.{limits_of};
ghost use Rattle.fleet_c.specs.Opening.{IsOpened, IsWhy};
ghost use Rattle.fleet_c.specs.Roomy.{Refuses};

use crate::codes::{ALREADY_OPEN, DONE};
use crate::fault::Fault;
use crate::handle::Handle;
use crate::opening::open_on;
use crate::robot::Robot;
use crate::setup::{SETUP_SIZE, Setup};
use fleet_book::Limits;
use std::alloc::Global;

/// Sets the limits that the program `errands` takes where a script says nothing, and the number of clients.
#[unsafe(no_mangle)]
pub extern "C" fn nashirudder_setup_default(clients: u32, setup: &mut Setup)
    ensures clients { setup.new.clients ≡ clients }
    ensures limits { limits_of setup.new ≡ Limits.DEFAULT }
    ensures size { setup.new.size ≡ SETUP_SIZE }
{
    *setup = Setup::of(Limits::DEFAULT, clients);
}

/// Sets limits that no fleet meets (`life` 2^40, `orders` 2^62, `clock` 2^48, `chapters` 2^32 - 1), the other limits as
/// `nashirudder_setup_default`, and the number of clients.
#[unsafe(no_mangle)]
pub extern "C" fn nashirudder_setup_endless(clients: u32, setup: &mut Setup)
    ensures clients { setup.new.clients ≡ clients }
    ensures limits { limits_of setup.new ≡ record Limits.DEFAULT { life = 2 ^ 40; orders = 2 ^ 62; clock = 2 ^ 48; chapters = 4294967295 } }
    ensures size { setup.new.size ≡ SETUP_SIZE }
{
    *setup = Setup::of(
        Limits {
            life: 1_099_511_627_776,
            orders: 4_611_686_018_427_387_904,
            clock: 281_474_976_710_656,
            chapters: u32::MAX,
            ..Limits::DEFAULT
        },
        clients,
    );
}

/// Opens a closed handle: a fleet on the map, each robot on its start.
///
/// Refused in this order: the handle is open; a setup that is not of this library's size; the map's first fault; a
/// limit or the number of clients is out of its range; not 1 to 512 robots; a robot that does not start on floor; two
/// robots that start on one cell; and out of memory at any time. `fault` says why. If the handle is open, `fault` does
/// not change.
#[unsafe(no_mangle)]
pub extern "C" fn nashirudder_open(
    alloc: Global,
    map: &[u8],
    robots: &[Robot],
    setup: &Setup,
    fleet: &mut Handle,
    fault: &mut Fault,
) -> u32
    ensures open { (result ≡ ALREADY_OPEN) ↔ (is_some fleet.old.owned.held ≡ true) }
    ensures opened { (result ≡ DONE) → IsSomeAnd fleet.new.owned.held (λ f. IsOpened map.now robots.now setup.now f.core × Refuses false f) }
    ensures refused { (result ≢ DONE) → (result ≢ ALREADY_OPEN) → IsWhy map.now robots.now setup.now result fault.new }
    ensures same { (result ≢ DONE) → fleet.new.owned.held ≡ fleet.old.owned.held }
    ensures untouched { (result ≡ ALREADY_OPEN) → fault.new ≡ fault.old }
{
    if fleet.is_open() {
        return ALREADY_OPEN;
    }
    match open_on(alloc, false, map, robots, setup) {
        Ok(opened) => {
            fleet.put(opened);
            DONE
        }
        Err(why) => {
            *fault = why.fault();
            fault.code
        }
    }
}

/// Closes a handle: frees what an open one owns. A closed one stays closed.
#[unsafe(no_mangle)]
pub extern "C" fn nashirudder_close(alloc: Global, fleet: &mut Handle)
    ensures { fleet.new.owned.held ≡ None }
{
    fleet.take(alloc);
}
