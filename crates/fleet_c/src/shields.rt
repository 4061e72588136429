//! Shields that C opens and closes.

ghost use Rattle.std.specs.Prelude.{◌≡◌, ◌≢◌, ◌↔◌, None, is_some, true, IfOk};
ghost use Rattle.std.specs.Box.{box_value};
ghost use Rattle.fleet_c.specs.Shields.{HasCells, IsMadeFor, IsUnmade};

use crate::codes::{ALREADY_OPEN, DONE, NO_MEMORY, NOT_OPEN};
use crate::map_handle::MapHandle;
use crate::shield_handle::ShieldHandle;
use fleet_shield::Shield;
use std::alloc::{AllocError, Global};

/// How many cells the map of an open handle has.
fn cells_of(alloc: Global, map: &mut MapHandle) -> Option<u32>
    ensures same { map.new.owned.held ≡ map.old.owned.held }
    ensures counted { HasCells map.old.owned.held result }
{
    let Some(grid) = map.take(alloc) else {
        return None;
    };
    let cells = grid.cell_count();
    map.put(grid);
    Some(cells)
}

/// A shield, in a box.
fn boxed(alloc: Global, cells: u32, robots: u32) -> Result<Box<Shield>, AllocError>
    ensures { IfOk result (λ shield. box_value shield ≡ record { cells = cells; robots = robots }) }
{
    let shield = Shield::new(alloc, cells, robots)?;
    match Box::new(alloc, shield) {
        Ok(boxed) => Ok(boxed),
        Err(_) => Err(AllocError),
    }
}

/// Opens a closed handle to a shield for this many robots on a map. The map stays as it is, and each step needs it again.
///
/// Refused in this order: the shield's handle is open, the map's is closed, out of memory.
#[unsafe(no_mangle)]
pub extern "C" fn nashirudder_shield_open(
    alloc: Global,
    map: &mut MapHandle,
    robots: u32,
    shield: &mut ShieldHandle,
) -> u32
    ensures map { map.new.owned.held ≡ map.old.owned.held }
    ensures open { (result ≡ ALREADY_OPEN) ↔ (is_some shield.old.owned.held ≡ true) }
    ensures opened { (result ≡ DONE) → IsMadeFor map.old.owned.held robots shield.new.owned.held }
    ensures refused { (result ≢ DONE) → (result ≢ ALREADY_OPEN) → IsUnmade map.old.owned.held result }
    ensures same { (result ≢ DONE) → shield.new.owned.held ≡ shield.old.owned.held }
{
    if shield.is_open() {
        return ALREADY_OPEN;
    }
    let Some(cells) = cells_of(alloc, map) else {
        return NOT_OPEN;
    };
    match boxed(alloc, cells, robots) {
        Ok(made) => {
            shield.put(made);
            DONE
        }
        Err(_) => NO_MEMORY,
    }
}

/// Closes a handle to a shield: frees what an open one owns. A closed one stays closed.
#[unsafe(no_mangle)]
pub extern "C" fn nashirudder_shield_close(alloc: Global, shield: &mut ShieldHandle)
    ensures { shield.new.owned.held ≡ None }
{
    shield.take(alloc);
}
