//! Plans' texts in any form.

ghost use Rattle.std.specs.Prelude.{◌≡◌, ◌≤◌, ℕ, List, [], Ok, None, length, IfOk, IfErr};
ghost use Rattle.fleet_map.specs.Text.{lines_of};
ghost use Rattle.fleet_plans.specs.Head.{blank_head};
ghost use Rattle.fleet_plans.specs.Places.{places_of};
ghost use Rattle.fleet_plans.specs.Judge.{HasJudged};
ghost use Rattle.fleet_plans.specs.Reading.{IsPlanBy, IsFaultBy, head_by};
ghost use Rattle.fleet_plans.specs.Shown.{FailsAt};
ghost use Rattle.fleet_plans.specs.inside.Given.{IsGiven};

use crate::agents::read_agents;
use crate::fault::PlanTextFault;
use crate::form::TextForm;
use crate::head::Head;
use crate::judge::PlanJudge;
use crate::limit::MOST_PLAN_BYTES;
use crate::places::read_places;
use crate::plan::read_plan;
use crate::runners::{RunnersFault, RunnersKey, read_runners};
use crate::schedule::read_schedule;
use crate::sides::Sides;
use crate::table::read_table;
use fleet_history::Row;
use std::alloc::{Allocator, Global};

/// Why a text is no plan.
#[derive(Clone, Copy, Debug, PartialEq, Eq)]
pub(crate) enum TextFault {
    /// A text in lines.
    Lines(PlanTextFault),
    /// A text in JSON.
    Json(RunnersFault),
}

impl From<PlanTextFault> for TextFault {
    ghost use Rattle.std.specs.Prelude.{◌≡◌};
    ghost use Rattle.fleet_plans.specs.declared.text.TextFault.TheVariants.{Lines};

    ghost from_gives = { λ fault e. e ≡ Lines fault };

    fn from(fault: PlanTextFault) -> TextFault {
        TextFault::Lines(fault)
    }
}

impl From<RunnersFault> for TextFault {
    ghost use Rattle.std.specs.Prelude.{◌≡◌};
    ghost use Rattle.fleet_plans.specs.declared.text.TextFault.TheVariants.{Json};

    ghost from_gives = { λ fault e. e ≡ Json fault };

    fn from(fault: RunnersFault) -> TextFault {
        TextFault::Json(fault)
    }
}

/// Gives the judge the placements of lines of cells without a head.
fn read_bare<B: Allocator + Copy>(
    alloc: Global,
    sides: Sides,
    text: &[u8],
    judge: &mut PlanJudge<Global, B>,
) -> Result<(), PlanTextFault>
    requires short { length text.now ≤ MOST_PLAN_BYTES }
    requires fresh { HasJudged judge.old.floor [] judge.old }
    ensures read { IfOk result (λ _. IsGiven judge.old.floor (λ places. places_of sides.width sides.height blank_head [] 1 (lines_of text.now) ≡ Ok places) judge.new) }
    ensures fault { IfErr result (λ fault. FailsAt fault (places_of sides.width sides.height blank_head [] 1 (lines_of text.now))) }
{
    read_places(alloc, sides, &Head::new(), 1, text, judge)
}

/// Gives the judge the placements of a text in this form, and returns the plan's goals, if it names any.
pub(crate) fn read_text<B: Allocator + Copy>(
    alloc: Global,
    form: TextForm,
    sides: Sides,
    text: &[u8],
    judge: &mut PlanJudge<Global, B>,
) -> Result<Option<Row<u32>>, TextFault>
    requires short { length text.now ≤ MOST_PLAN_BYTES }
    requires fresh { HasJudged judge.old.floor [] judge.old }
    ensures read { IfOk result (λ goals. IsGiven judge.old.floor (IsPlanBy form sides.width sides.height text.now goals) judge.new) }
    ensures fault { IfErr result (λ fault. IsFaultBy form sides.width sides.height text.now fault) }
{
    match form {
        TextForm::Headed => Ok(read_plan(alloc, sides, text, judge)?),
        TextForm::Bare => {
            read_bare(alloc, sides, text, judge)?;
            Ok(None)
        }
        TextForm::Agents => {
            read_agents(alloc, sides, text, judge)?;
            Ok(None)
        }
        TextForm::Json => {
            read_runners(alloc, RunnersKey::ActualPaths, sides, text, judge)?;
            Ok(None)
        }
        TextForm::PlannerJson => {
            read_runners(alloc, RunnersKey::PlannerPaths, sides, text, judge)?;
            Ok(None)
        }
        TextForm::Table => {
            read_table(alloc, sides, text, judge)?;
            Ok(None)
        }
        TextForm::Schedule => {
            read_schedule(alloc, sides, text, judge)?;
            Ok(None)
        }
    }
}

/// The text of which the head is looked at: none where a text in this form has no head.
pub(crate) fn headed(form: TextForm, text: &[u8]) -> &[u8]
    ensures lines { lines_of result.now ≡ head_by form text.now }
    ensures within { length result.now ≤ length text.now }
{
    match form {
        TextForm::Headed => text,
        TextForm::Bare => &[],
        TextForm::Agents => &[],
        TextForm::Json => &[],
        TextForm::PlannerJson => &[],
        TextForm::Table => &[],
        TextForm::Schedule => &[],
    }
}
