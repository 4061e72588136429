//! Steps of a shield.

ghost use Rattle.std.specs.Prelude.{◌≡◌, Some};
ghost use Rattle.fleet_shield.specs.Wishes.{wishes};
ghost use Rattle.fleet_c.specs.Shields.{OnShield, IsStepped};

use crate::codes::{DONE, NOT_OPEN};
use crate::fault::Fault;
use crate::map_handle::MapHandle;
use crate::shield_fault::shield_fault;
use crate::shield_handle::ShieldHandle;
use fleet_grid::Grid;
use fleet_shield::{Preferences, Shield};
use std::alloc::Global;

/// What a step is asked for.
#[derive(Clone, Copy)]
struct Asked<'a> {
    from: &'a [u32],
    order: &'a [u32],
    preferences: Preferences<'a>,
}

/// Makes a step, and tells why none is made.
fn step_on(
    shield: &mut Shield,
    grid: &Grid,
    asked: &Asked,
    to: &mut [u32],
    fault: &mut Fault,
) -> u32
    ensures kept { shield.new ≡ shield.old }
    ensures stepped { IsStepped shield.old grid.now asked.now.order.now (wishes asked.now.from.now asked.now.preferences) to.old to.new result fault.old fault.new }
{
    match shield.step(grid, asked.from, asked.order, &asked.preferences, to) {
        Ok(()) => DONE,
        Err(why) => {
            *fault = shield_fault(why);
            fault.code
        }
    }
}

/// The same by the shield of a handle.
fn step_by(
    alloc: Global,
    shield: &mut ShieldHandle,
    grid: &Grid,
    asked: &Asked,
    to: &mut [u32],
    fault: &mut Fault,
) -> u32
    ensures same { shield.new.owned.held ≡ shield.old.owned.held }
    ensures stepped { OnShield shield.old.owned.held (Some grid.now) result ((to.new ≡ to.old) × (fault.new ≡ fault.old))
        (λ s m. IsStepped s m asked.now.order.now (wishes asked.now.from.now asked.now.preferences) to.old to.new result fault.old fault.new) }
{
    let Some(mut made) = shield.take(alloc) else {
        return NOT_OPEN;
    };
    let code = step_on(&mut made, grid, asked, to, fault);
    shield.put(made);
    code
}

/// Writes to `to` where each robot goes from its cell in `from`, so that no two robots come to one cell, no two exchange their
/// cells, and each stays or goes to a neighbour. The robots are planned in the order given. Each has `each` preferences, the
/// best first: the first robot's, the second's, and so on.
///
/// Refused in this order, where no cell is written: a handle is closed, where `fault` does not change; the first fault of what
/// is asked, which is told in `fault`.
#[unsafe(no_mangle)]
pub extern "C" fn nashirudder_shield_step(
    alloc: Global,
    map: &mut MapHandle,
    shield: &mut ShieldHandle,
    from: &[u32],
    order: &[u32],
    each: u16,
    preferences: &[u32],
    to: &mut [u32],
    fault: &mut Fault,
) -> u32
    ensures map { map.new.owned.held ≡ map.old.owned.held }
    ensures shield { shield.new.owned.held ≡ shield.old.owned.held }
    ensures stepped { OnShield shield.old.owned.held map.old.owned.held result ((to.new ≡ to.old) × (fault.new ≡ fault.old))
        (λ s m. IsStepped s m order.now (record { from = from.now; each = each; cells = preferences.now }) to.old to.new result fault.old fault.new) }
{
    let Some(grid) = map.take(alloc) else {
        return NOT_OPEN;
    };
    let asked = Asked {
        from,
        order,
        preferences: Preferences {
            each,
            cells: preferences,
        },
    };
    let code = step_by(alloc, shield, &grid, &asked, to, fault);
    map.put(grid);
    code
}
