//! Turns the text of a map and of a trace on it into a plan.

ghost use Rattle.std.specs.Prelude.{◌≡◌, ◌≤◌, Ok, IfOk, IfErr, string_bytes};
ghost use Rattle.fleet_map.specs.Form.{HasSides};
ghost use Rattle.fleet_map.specs.Grammar.{view, map_of};
ghost use Rattle.fleet_history.specs.History.{history_of};
ghost use Rattle.fleet_trace.specs.Trace.{trace_of};
ghost use Rattle.fleet_convert.specs.Converted.{plan_text, IsPlanOn, IsNoPlanOn, IsConverted, IsUnconverted};

use crate::cells::cells_plan;
use crate::history::places_in;
use crate::listing::{Listing, listed_plan};
use crate::moves::moves_plan;
use crate::runners::runners_plan;
use fleet_grid::Grid;
use fleet_history::Chapter;
use fleet_map::{MapFault, MapText, read_map};
use fleet_plans::Placements;
use fleet_trace::{JudgeFault, TraceFault, judge, read_trace};
use std::alloc::{AllocError, Global};
use thiserror::Error;

/// The form of a plan's text.
#[derive(Clone, Copy, Debug, PartialEq, Eq)]
pub enum PlanForm {
    /// A line of cells for each time, as pibt2 and LaCAM write it.
    Pibt2,
    /// A line of move letters for each robot, as plans for the MAPF benchmarks are submitted.
    Moves,
    /// The JSON of the League of Robot Runners, without rotation.
    Runners,
    /// The cells of each robot.
    Listed(Listing),
}

/// Why a map and a trace give no plan.
#[derive(Clone, Copy, Debug, PartialEq, Eq, Error)]
pub enum ConvertFault {
    /// The bytes are not a map.
    #[error("the map: {0}")]
    Map(MapFault),
    /// The bytes are not a trace.
    #[error("the trace: {0}")]
    Trace(TraceFault),
    /// Entry `at`, counted from 1, is the first that breaks a rule, and `rule` is the first rule that it breaks. If
    /// `at` is 0, the opening breaks rule 1.
    #[error("entry {at} breaks rule {rule}")]
    Illegal { at: u64, rule: u8 },
    /// Memory ran out.
    #[error("out of memory")]
    NoMemory,
}

impl From<AllocError> for ConvertFault {
    ghost use Rattle.std.specs.Prelude.{◌≡◌};
    ghost use Rattle.fleet_convert.specs.declared.conversion.ConvertFault.TheVariants.{NoMemory};

    ghost from_gives = { λ _ e. e ≡ NoMemory };

    fn from(_error: AllocError) -> ConvertFault {
        ConvertFault::NoMemory
    }
}

/// Placements as text.
fn plan_text(
    alloc: Global,
    form: PlanForm,
    width: u32,
    places: &Placements,
) -> Result<String, AllocError>
    requires { 1 ≤ width }
    ensures { IfOk result (λ text. string_bytes text ≡ plan_text form width places.now) }
{
    match form {
        PlanForm::Pibt2 => cells_plan(alloc, width, places),
        PlanForm::Moves => moves_plan(alloc, width, places),
        PlanForm::Runners => runners_plan(alloc, width, places),
        PlanForm::Listed(listing) => listed_plan(alloc, listing, width, places),
    }
}

/// The plan of a chapter, on a map that was read already.
fn convert_chapter(
    alloc: Global,
    form: PlanForm,
    map: MapText,
    chapter: &Chapter,
) -> Result<String, ConvertFault>
    requires { HasSides (view map) }
    ensures plan { IfOk result (λ text. IsPlanOn form (view map) (history_of chapter.now) (string_bytes text)) }
    ensures fault { IfErr result (λ fault. IsNoPlanOn (view map) (history_of chapter.now) fault) }
{
    let width = map.width;
    let grid = Grid::new(map)?;
    match judge(alloc, &grid, chapter) {
        Ok(()) => {
            let places = places_in(alloc, chapter)?;
            Ok(plan_text(alloc, form, width, &places)?)
        }
        Err(JudgeFault::Illegal { at, rule }) => Err(ConvertFault::Illegal { at, rule }),
        Err(JudgeFault::NoMemory) => Err(ConvertFault::NoMemory),
    }
}

/// The text of a trace on a map, as a plan in this form: the robots' cells at the opening and after each tick. The map
/// is read first, then the trace, and then the trace is judged: a trace that is not legal on the map gives no plan. A
/// plan in one of the first two forms reads back, by `read_plan`, as these same placements (`cells_read_back`,
/// `moves_read_back`).
pub fn convert(
    alloc: Global,
    form: PlanForm,
    map: &[u8],
    trace: &[u8],
) -> Result<String, ConvertFault>
    ensures plan { IfOk result (λ text. IsConverted form map.now trace.now (string_bytes text)) }
    ensures fault { IfErr result (λ fault. IsUnconverted map.now trace.now fault) }
{
    match read_map(alloc, map) {
        Ok(map) => match read_trace(alloc, trace) {
            Ok(chapter) => convert_chapter(alloc, form, map, &chapter),
            Err(TraceFault::NoMemory) => Err(ConvertFault::NoMemory),
            Err(fault) => Err(ConvertFault::Trace(fault)),
        },
        Err(MapFault::NoMemory) => Err(ConvertFault::NoMemory),
        Err(fault) => Err(ConvertFault::Map(fault)),
    }
}
