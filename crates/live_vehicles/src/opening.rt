//! Vehicles set out, with the turns that are known.

ghost use Rattle.std.specs.Prelude.{◌≡◌, ◌<◌, [], Ok, None, true, IfOk, IfSome, map};
ghost use Rattle.fleet_execution.specs.Checked.{IsPlacement};
ghost use Rattle.fleet_execution.specs.Course.{Course, course_at};
ghost use Rattle.live_vehicles.specs.Follows.{Follows};
ghost use Rattle.live_vehicles.specs.Opened.{with_steps};

use crate::place::Place;
use crate::rules::Rules;
use crate::stand::{Arrived, Stand};
use crate::vehicles::Vehicles;
use fleet_execution::{Execution, is_placement};
use std::alloc::{AllocError, Global};

/// A turn that is known: the robots' cells after it, and what errands were done in it.
#[derive(Drop)]
pub struct Known {
    pub to: Vec<u32>,
    pub arrived: Vec<Arrived>,
}

/// The places of robots that stand on these cells.
fn places_of(alloc: Global, cells: &[u32]) -> Result<Vec<Place>, AllocError>
    ensures { IfOk result (λ places. places.items ≡ map (λ c. record { cell = c; moved = 0; begun = 0; reached = 0 }) cells.now) }
{
    cells
        .iter()
        .map(|cell| Place {
            cell: *cell,
            moved: 0,
            begun: 0,
            reached: 0,
        })
        .collect(alloc)
}

/// Vehicles that set out from a placement. `None` if it is none, or no turn may be made ahead.
pub fn open(alloc: Global, rules: Rules, placement: &[u32]) -> Result<Option<Vehicles>, AllocError>
    ensures opened { IfOk result (λ found. IfSome found (λ v. Follows v (course_at rules.clearance placement.now))) }
    ensures refused { result ≡ Ok None → 0 < rules.ahead → IsPlacement rules.cells placement.now → ⊥ }
    ensures first { IfOk result (λ found. IfSome found (λ v. v.first ≡ rules.first)) }
    ensures none { IfOk result (λ found. IfSome found (λ v. v.waits.items ≡ [])) }
{
    if rules.ahead == 0 || !is_placement(alloc, rules.cells, placement)? {
        return Ok(None);
    }
    let places = places_of(alloc, placement)?;
    let run = Execution::new(alloc, rules.cells, placement, rules.clearance, rules.ahead)?;
    Ok(Some(Vehicles {
        run,
        places,
        waits: Vec::new(alloc),
        first: rules.first,
    }))
}

/// Plans turns that were made, one after another; `false` if one of them cannot be planned.
fn plan_all(
    vehicles: &mut Vehicles,
    alloc: Global,
    known: &[Known],
    due: &mut Vec<Stand>,
) -> Result<bool, AllocError>
    ensures planned { result ≡ Ok true → (o : Course) → Follows vehicles.old o → Follows vehicles.new (with_steps o (map (λ k. k.to.items) known.now)) }
    ensures first { vehicles.new.first ≡ vehicles.old.first }
{
    let Some((turn, more)) = known.split_first() else {
        return Ok(true);
    };
    if !vehicles.plan(alloc, &turn.to, &turn.arrived, due)? {
        return Ok(false);
    }
    plan_all(vehicles, alloc, more, due)
}

/// The same, where these turns were made since. `None` also if one of them cannot be planned. The arrivals of robots that
/// are there are added to `due`.
pub(crate) fn open_known(
    alloc: Global,
    rules: Rules,
    placement: &[u32],
    known: &[Known],
    due: &mut Vec<Stand>,
) -> Result<Option<Vehicles>, AllocError>
    ensures opened { IfOk result (λ found. IfSome found (λ v. Follows v (with_steps (course_at rules.clearance placement.now) (map (λ k. k.to.items) known.now)))) }
    ensures first { IfOk result (λ found. IfSome found (λ v. v.first ≡ rules.first)) }
{
    let Some(mut vehicles) = open(alloc, rules, placement)? else {
        return Ok(None);
    };
    if plan_all(&mut vehicles, alloc, known, due)? {
        return Ok(Some(vehicles));
    }
    Ok(None)
}
