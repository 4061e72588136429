//! The robots' start cells in a plan in JSON.

ghost use Rattle.std.specs.Prelude.{◌≡◌, ◌≤◌, ◌<◌, ◌^◌, [], length, IfOk, IfSome, option_map, codes};
ghost use Rattle.serde_json.specs.Find.{as_array};
ghost use Rattle.serde_json.specs.View.{view, items_view};
ghost use Rattle.fleet_plans.specs.Runners.{coordinate_at, start_in, with_start, starts_of, starts_in};
ghost use Rattle.fleet_plans.specs.Told.{Tells};

use super::fault::{RunnersFault, RunnersKey};
use crate::limit::MOST_PLAN_BYTES;
use crate::sides::Sides;
use fleet_history::Row;
use serde_json::Value;
use std::alloc::Global;

/// The items of an array.
pub(super) fn values_of(value: &Value) -> Option<&[Value]>
    ensures { option_map (λ vs. items_view vs.now) result ≡ as_array (view value.now) }
{
    match value.as_array() {
        None => None,
        Some(values) => Some(values.as_slice()),
    }
}

/// The coordinate at this place of a list; 1,024 if it is greater.
fn coordinate_at(value: &Value, place: usize) -> Option<u32>
    ensures exact { result ≡ coordinate_at place (view value.now) }
    ensures small { IfSome result (λ n. n ≤ 1024) }
{
    let number = value.get(place)?.as_u64()?;
    Some(number.min(1024) as u32)
}

/// The cell of a list that begins with a row and a column.
fn start_of(sides: Sides, value: &Value) -> Option<u32>
    ensures { result ≡ start_in sides.width sides.height (view value.now) }
{
    let row = coordinate_at(value, 0)?;
    let column = coordinate_at(value, 1)?;
    Some(sides.cell_at(column, row))
}

/// The cells of all robots.
#[tactic(auto, unfolding(crate::specs::Runners::starts_of))]
fn all_starts(alloc: Global, sides: Sides, values: &[Value]) -> Result<Row<u32>, RunnersFault>
    ensures read { Tells (λ cells. cells) result (starts_of sides.width sides.height [] (items_view values.now)) }
    ensures few { IfOk result (λ cells. length cells ≤ MOST_PLAN_BYTES) }
{
    let mut cells = Vec::new(alloc);
    let mut rest = values;
    while let Some((value, after)) = rest.split_first() {
        let fault = RunnersFault::Item(RunnersKey::Start, cells.len() as u32);
        if cells.len() >= MOST_PLAN_BYTES {
            return Err(fault);
        }
        let Some(cell) = start_of(sides, value) else {
            return Err(fault);
        };
        cells.push(cell)?;
        rest = after;
    }
    Ok(Row::from_vec(cells))
}

/// The robots' start cells.
pub(super) fn read_starts(
    alloc: Global,
    sides: Sides,
    plan: &Value,
) -> Result<Row<u32>, RunnersFault>
    ensures read { Tells (λ cells. cells) result (starts_in sides.width sides.height (view plan.now)) }
    ensures few { IfOk result (λ cells. length cells ≤ MOST_PLAN_BYTES) }
{
    match plan.get("start").and_then(values_of) {
        Some(values) => all_starts(alloc, sides, values),
        None => Err(RunnersFault::Key(RunnersKey::Start)),
    }
}
