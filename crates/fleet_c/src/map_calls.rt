//! Calls on a map that was read once.

ghost use Rattle.std.specs.Prelude.{◌≡◌, ◌≢◌, ◌↔◌, None, is_some, true, IsSomeAnd, IsTrue, IfOk, IfErr};
ghost use Rattle.fleet_c.specs.Maps.{IsNoMap, IsStepChecked, HasBridge, AreAway};
ghost use Rattle.fleet_c.specs.Floors.{OfMap, IsShape, AreOnePart};
ghost use Rattle.fleet_c.specs.Opening.{Reads};
ghost use Rattle.fleet_map.specs.FirstFault.{IsFirstFault};
ghost use Rattle.fleet_map.specs.Text.{lines_of};
ghost use Rattle.std.specs.Box.{box_value};

use crate::codes::{ALREADY_OPEN, DONE, NOT_OPEN};
use crate::edge::Edge;
use crate::fault::Fault;
use crate::map_handle::MapHandle;
use crate::map_shape::MapShape;
use crate::maps::{bridge_on, checked, distances_on, tell};
use crate::opening::grid_of;
use fleet_grid::Grid;
use fleet_map::MapFault;
use std::alloc::Global;

/// The grid of a map's text, in a box.
fn boxed_grid(alloc: Global, map: &[u8]) -> Result<Box<Grid>, MapFault>
    ensures ok { IfOk result (λ grid. Reads map.now (box_value grid)) }
    ensures err { IfErr result (λ fault. IsFirstFault (lines_of map.now) fault) }
{
    let grid = grid_of(alloc, map)?;
    match Box::new(alloc, grid) {
        Ok(boxed) => Ok(boxed),
        Err(_) => Err(MapFault::NoMemory),
    }
}

/// Opens a closed handle to a map: reads the map once, for any number of calls.
///
/// Refused in this order: the handle is open, where `fault` does not change; the map's first fault; and out of memory at
/// any time.
#[unsafe(no_mangle)]
pub extern "C" fn nashirudder_map_open(
    alloc: Global,
    text: &[u8],
    map: &mut MapHandle,
    fault: &mut Fault,
) -> u32
    ensures open { (result ≡ ALREADY_OPEN) ↔ (is_some map.old.owned.held ≡ true) }
    ensures opened { (result ≡ DONE) → IsSomeAnd map.new.owned.held (λ m. Reads text.now m) }
    ensures refused { (result ≢ DONE) → (result ≢ ALREADY_OPEN) → IsNoMap text.now result fault.new }
    ensures same { (result ≢ DONE) → map.new.owned.held ≡ map.old.owned.held }
    ensures untouched { (result ≡ ALREADY_OPEN) → fault.new ≡ fault.old }
{
    if map.is_open() {
        return ALREADY_OPEN;
    }
    match boxed_grid(alloc, text) {
        Ok(grid) => {
            map.put(grid);
            DONE
        }
        Err(why) => tell(why, fault),
    }
}

/// Closes a handle to a map: frees what an open one owns. A closed one stays closed.
#[unsafe(no_mangle)]
pub extern "C" fn nashirudder_map_close(alloc: Global, map: &mut MapHandle)
    ensures { map.new.owned.held ≡ None }
{
    map.take(alloc);
}

/// How large the map is. Refused where the handle is closed.
#[unsafe(no_mangle)]
pub extern "C" fn nashirudder_map_shape(
    alloc: Global,
    map: &mut MapHandle,
    shape: &mut MapShape,
) -> u32
    ensures says { OfMap map.old.owned.held map.new.owned.held result (λ m. (result ≡ DONE) × IsShape m shape.new) }
    ensures untouched { (result ≢ DONE) → shape.new ≡ shape.old }
{
    let Some(grid) = map.take(alloc) else {
        return NOT_OPEN;
    };
    *shape = MapShape::of(&grid);
    map.put(grid);
    DONE
}

/// Whether both cells are floor, and a walk joins them. Refused where the handle is closed.
#[unsafe(no_mangle)]
pub extern "C" fn nashirudder_map_joins(
    alloc: Global,
    map: &mut MapHandle,
    a: u32,
    b: u32,
    joins: &mut bool,
) -> u32
    ensures says { OfMap map.old.owned.held map.new.owned.held result (λ m. (result ≡ DONE) × (IsTrue joins.new ↔ AreOnePart m a b)) }
    ensures untouched { (result ≢ DONE) → joins.new ≡ joins.old }
{
    let Some(grid) = map.take(alloc) else {
        return NOT_OPEN;
    };
    *joins = grid.is_floor(a) && grid.is_floor(b) && grid.same_part(a, b);
    map.put(grid);
    DONE
}

/// Whether a step is free of conflicts, as `nashirudder_check_step` says it of a text.
///
/// Refused first where the handle is closed; `fault` does not change then.
#[unsafe(no_mangle)]
pub extern "C" fn nashirudder_map_check_step(
    alloc: Global,
    map: &mut MapHandle,
    from: &[u32],
    to: &[u32],
    fault: &mut Fault,
) -> u32
    ensures says { OfMap map.old.owned.held map.new.owned.held result (λ m. IsStepChecked m from.now to.now result fault.old fault.new) }
    ensures closed { map.old.owned.held ≡ None → fault.new ≡ fault.old }
{
    let Some(grid) = map.take(alloc) else {
        return NOT_OPEN;
    };
    let code = checked(alloc, &grid, from, to, fault);
    map.put(grid);
    code
}

/// The map's first bridge, as `nashirudder_first_bridge` says it of a text. Refused first where the handle is closed.
#[unsafe(no_mangle)]
pub extern "C" fn nashirudder_map_first_bridge(
    alloc: Global,
    map: &mut MapHandle,
    edge: &mut Edge,
) -> u32
    ensures says { OfMap map.old.owned.held map.new.owned.held result (λ m. HasBridge m result edge.old edge.new) }
    ensures closed { map.old.owned.held ≡ None → edge.new ≡ edge.old }
{
    let Some(grid) = map.take(alloc) else {
        return NOT_OPEN;
    };
    let code = bridge_on(alloc, &grid, edge);
    map.put(grid);
    code
}

/// The distances to a goal, as `nashirudder_distances` says them of a text. Refused first where the handle is closed.
#[unsafe(no_mangle)]
pub extern "C" fn nashirudder_map_distances(
    alloc: Global,
    map: &mut MapHandle,
    goal: u32,
    distances: &mut [u32],
) -> u32
    ensures says { OfMap map.old.owned.held map.new.owned.held result (λ m. AreAway m goal distances.old distances.new result) }
    ensures closed { map.old.owned.held ≡ None → distances.new ≡ distances.old }
{
    let Some(grid) = map.take(alloc) else {
        return NOT_OPEN;
    };
    let code = distances_on(alloc, &grid, goal, distances);
    map.put(grid);
    code
}
