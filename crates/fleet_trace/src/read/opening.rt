//! An opening from JSON values.

ghost use Rattle.std.specs.Prelude.{◌≡◌, map};
ghost use Rattle.serde_json.specs.View.{view};
ghost use Rattle.fleet_trace.specs.Reads.{Gives};
ghost use Rattle.fleet_trace.specs.Told.{robot_from, robot_in, opening_in};

use super::parts::{ReadValue, count_of, has_members, law_of, read_row, values_of, wait_of};
use crate::fault::TraceFault;
use crate::version::Version;
use fleet_history::{Opening, RobotState};
use serde_json::Value;
use std::alloc::Global;

/// The state of a robot that six values tell.
fn robot_with(alloc: Global, version: Version, values: &[Value]) -> Result<RobotState, TraceFault>
    ensures { Gives (λ x. x) result (robot_from (map view values.now)) }
{
    let [cell, shut, wait, errands, arrival_law, farewell_law] = values else {
        return Err(TraceFault::Shape);
    };
    let Some(cell) = count_of(cell) else {
        return Err(TraceFault::Shape);
    };
    let Some(shut) = shut.as_bool() else {
        return Err(TraceFault::Shape);
    };
    let Some(wait) = wait_of(wait) else {
        return Err(TraceFault::Shape);
    };
    let Some(arrival_law) = law_of(arrival_law) else {
        return Err(TraceFault::Shape);
    };
    let Some(farewell_law) = law_of(farewell_law) else {
        return Err(TraceFault::Shape);
    };
    let errands = read_row(alloc, version, errands)?;
    Ok(RobotState {
        cell,
        shut,
        wait,
        errands,
        arrival_law,
        farewell_law,
    })
}

impl ReadValue for RobotState {
    ghost told = { λ _ d. robot_in d };

    fn read_value(alloc: Global, version: Version, value: &Value) -> Result<Self, TraceFault> {
        match values_of(value) {
            Some(values) => robot_with(alloc, version, values),
            None => Err(TraceFault::Shape),
        }
    }
}

/// The opening that a value tells.
pub(crate) fn read_opening(
    alloc: Global,
    version: Version,
    value: &Value,
) -> Result<Opening, TraceFault>
    ensures { Gives (λ x. x) result (opening_in (view value.now)) }
{
    if !has_members(value, 5) {
        return Err(TraceFault::Shape);
    }
    let Some(tick) = value.get("tick").and_then(Value::as_u64) else {
        return Err(TraceFault::Shape);
    };
    let Some(queue) = value.get("queue").and_then(count_of) else {
        return Err(TraceFault::Shape);
    };
    let Some(life) = value.get("life").and_then(Value::as_u64) else {
        return Err(TraceFault::Shape);
    };
    let (Some(clients), Some(robots)) = (value.get("clients"), value.get("robots")) else {
        return Err(TraceFault::Shape);
    };
    let clients = read_row(alloc, version, clients)?;
    let robots = read_row(alloc, version, robots)?;
    Ok(Opening {
        tick,
        queue,
        life,
        clients,
        robots,
    })
}
