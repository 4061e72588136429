//! Plans whose placements are more than a page shows.

ghost use Rattle.std.specs.Prelude.{◌≤◌, length};

use fleet_plans::{PlanAnswer, check_texts};
use std::alloc::{AllocError, Global};

/// The greatest number of cells that all placements of a plan on a page have together.
const MOST_CELLS: u64 = 134_217_728;

/// Whether a text is a valid plan whose placements have more cells than a page shows: a short line of moves may stand for
/// a robot that waits for ever.
pub(crate) fn is_too_long(alloc: Global, map: &[u8], plan: &[u8]) -> Result<bool, AllocError>
    requires { length plan.now ≤ 1073741824 }
{
    match check_texts(alloc, map, plan)? {
        PlanAnswer::Valid(report) => {
            let placements = u64::from(report.steps).saturating_add(1);
            Ok(u64::from(report.robots).saturating_mul(placements) > MOST_CELLS)
        }
        _ => Ok(false),
    }
}
