//! The answer to the text of a map and of a plan, of which something is asked.

ghost use Rattle.std.specs.Prelude.{◌≤◌, length, IfOk, IfSome};
ghost use Rattle.std.specs.Option.{option_copied};
ghost use Rattle.fleet_map.specs.Form.{HasSides};
ghost use Rattle.fleet_map.specs.Grammar.{view};
ghost use Rattle.fleet_plans.specs.Answer.{IsOnScenario, IsTripsAnswer, IsScenarioAnswer, IsFormAnswer};

use crate::answer::{PlanAnswer, answer_on, answer_to, line_of, map_fault, sides_of};
use crate::form::{TextForm, form_of};
use crate::goals::Demand;
use crate::limit::MOST_PLAN_BYTES;
use crate::scenario::{Scenario, read_scenario};
use fleet_map::{MapText, read_map};
use std::alloc::{AllocError, Global};

/// The answer to a scenario and a plan's text in this form, on a map.
fn scenario_on(
    alloc: Global,
    map: MapText,
    scenario: &[u8],
    form: TextForm,
    text: &[u8],
) -> Result<PlanAnswer, AllocError>
    requires sides { HasSides (view map) }
    requires scenario { length scenario.now ≤ MOST_PLAN_BYTES }
    requires short { length text.now ≤ MOST_PLAN_BYTES }
    ensures { IfOk result (λ answer. IsOnScenario (view map) scenario.now form text.now answer) }
{
    match read_scenario(alloc, sides_of(&map), scenario) {
        Ok(trips) => {
            let Scenario { starts, goals } = trips;
            let demand = Demand::Trips {
                starts: starts.as_slice(),
                goals: goals.as_slice(),
            };
            answer_on(alloc, demand, map, form, text)
        }
        Err(fault) => Ok(PlanAnswer::Scenario(line_of(fault)?)),
    }
}

/// The answer to the text of a map, of a scenario, and of a plan in this form.
fn answer_trips(
    alloc: Global,
    map: &[u8],
    scenario: &[u8],
    form: TextForm,
    text: &[u8],
) -> Result<PlanAnswer, AllocError>
    requires scenario { length scenario.now ≤ MOST_PLAN_BYTES }
    requires short { length text.now ≤ MOST_PLAN_BYTES }
    ensures { IfOk result (λ answer. IsTripsAnswer map.now scenario.now form text.now answer) }
{
    match read_map(alloc, map) {
        Ok(map) => scenario_on(alloc, map, scenario, form, text),
        Err(fault) => Ok(PlanAnswer::Map(map_fault(fault)?)),
    }
}

/// The answer of `check_texts`, where a plan is valid only if its robots begin and end as this scenario says: robot k
/// as its line k + 2. A fault of the scenario is named before one of the plan.
pub fn check_scenario(
    alloc: Global,
    map: &[u8],
    scenario: &[u8],
    text: &[u8],
) -> Result<PlanAnswer, AllocError>
    requires scenario { length scenario.now ≤ MOST_PLAN_BYTES }
    requires short { length text.now ≤ MOST_PLAN_BYTES }
    ensures { IfOk result (λ answer. IsScenarioAnswer map.now scenario.now text.now answer) }
{
    answer_trips(alloc, map, scenario, form_of(text), text)
}

/// The answer to the text of a map and of a plan that is read in this form, whatever it begins with: that of
/// `check_scenario` if there is a scenario; else that of `check_solution` if `strict`; else that of `check_texts`.
pub fn check_form(
    alloc: Global,
    form: TextForm,
    strict: bool,
    scenario: Option<&[u8]>,
    map: &[u8],
    text: &[u8],
) -> Result<PlanAnswer, AllocError>
    requires scenario { IfSome scenario (λ trips. length trips.now ≤ MOST_PLAN_BYTES) }
    requires short { length text.now ≤ MOST_PLAN_BYTES }
    ensures { IfOk result (λ answer. IsFormAnswer form strict (option_copied scenario.entry) map.now text.now answer) }
{
    match scenario {
        Some(trips) => answer_trips(alloc, map, trips, form, text),
        None => {
            if strict {
                answer_to(alloc, Demand::OwnGoals, map, form, text)
            } else {
                answer_to(alloc, Demand::Nothing, map, form, text)
            }
        }
    }
}
