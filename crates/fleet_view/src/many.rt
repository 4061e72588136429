//! The page of a plan that has more robots than a trace.

ghost use Rattle.std.specs.Prelude.{◌≡◌, ◌≢◌, ◌≤◌, ◌&&◌, Ok, nat_lt, length, IfOk};
ghost use Rattle.fleet_map.specs.Form.{HasSides};
ghost use Rattle.fleet_map.specs.Grammar.{view, map_of};
ghost use Rattle.fleet_plans.specs.Valid.{place_at};
ghost use Rattle.fleet_view.specs.Runs.{is_judged, IsPlanPage, IsManyIf, IsManyShown};

use crate::runs::{is_judged, runs_page, studied_run};
use fleet_map::{MapFault, MapText, read_map};
use fleet_plans::{MOST_PLAN_BYTES, Study, study_texts};
use std::alloc::{AllocError, Global};

/// The greatest number of robots in a trace.
const MOST_ROBOTS: usize = 512;

/// Whether a plan was read, valid or not, and begins with more than 512 robots.
fn is_many(study: &Study) -> bool
    ensures { result ≡ (is_judged study.now.answer && nat_lt 512 (length (place_at study.now.places 0))) }
{
    is_judged(study.answer) && study.places.at(0).len() > MOST_ROBOTS
}

/// The page of a plan that was studied.
fn studied_page(
    alloc: Global,
    floor: &MapText,
    bytes: &[u8],
    plan: &[u8],
    study: &Study,
) -> Result<Vec<u8>, AllocError>
    requires sides { HasSides (view floor.now) }
    requires short { length plan.now ≤ MOST_PLAN_BYTES }
    ensures { IfOk result (λ page. IsPlanPage bytes.now plan.now (view floor.now) study.now.answer study.now.places page.items) }
{
    let made = studied_run(alloc, floor.width, bytes, plan, study)?;
    runs_page(alloc, floor, &made)
}

/// The same, if the plan has more robots than a trace.
fn many_of(
    alloc: Global,
    floor: &MapText,
    bytes: &[u8],
    plan: &[u8],
    study: &Study,
) -> Result<Option<Vec<u8>>, AllocError>
    requires sides { HasSides (view floor.now) }
    requires short { length plan.now ≤ MOST_PLAN_BYTES }
    ensures { IfOk result (IsManyIf (is_judged study.now.answer && nat_lt 512 (length (place_at study.now.places 0))) bytes.now plan.now (view floor.now) study.now.answer study.now.places) }
{
    if !is_many(study) {
        return Ok(None);
    }
    Ok(Some(studied_page(alloc, floor, bytes, plan, study)?))
}

/// The same for a plan on a map that was read.
fn many_on(
    alloc: Global,
    floor: &MapText,
    bytes: &[u8],
    plan: &[u8],
) -> Result<Option<Vec<u8>>, AllocError>
    requires sides { HasSides (view floor.now) }
    requires read { map_of bytes.now ≡ Ok (view floor.now) }
    requires short { length plan.now ≤ MOST_PLAN_BYTES }
    ensures { IfOk result (IsManyShown bytes.now plan.now) }
{
    let study = study_texts(alloc, bytes, plan)?;
    many_of(alloc, floor, bytes, plan, &study)
}

/// The fault of a map; an error for out of memory.
fn named_fault(fault: MapFault) -> Result<MapFault, AllocError>
    ensures same { IfOk result (λ named. named ≡ fault) }
    ensures named { IfOk result (λ named. named ≢ MapFault.NoMemory) }
{
    match fault {
        MapFault::NoMemory => Err(AllocError),
        named => Ok(named),
    }
}

/// The page of a plan that has more than 512 robots: its placements, and all its conflicts, of which it lists the first
/// 20,000. `None` if the map or the plan cannot be read, what its head says of it is not so, or it begins with 512 robots or
/// fewer. The only error is out of memory.
pub fn many_page(alloc: Global, bytes: &[u8], plan: &[u8]) -> Result<Option<Vec<u8>>, AllocError>
    requires { length plan.now ≤ MOST_PLAN_BYTES }
    ensures { IfOk result (IsManyShown bytes.now plan.now) }
{
    match read_map(alloc, bytes) {
        Ok(floor) => many_on(alloc, &floor, bytes, plan),
        Err(fault) => {
            named_fault(fault)?;
            Ok(None)
        }
    }
}
