//! What there is to say of a plan, and where it has its robots.

ghost use Rattle.std.specs.Prelude.{◌≡◌, ◌≤◌, length, IfOk};
ghost use Rattle.fleet_map.specs.Form.{HasSides};
ghost use Rattle.fleet_map.specs.Grammar.{view};
ghost use Rattle.fleet_plans.specs.Goals.{Nothing};
ghost use Rattle.fleet_plans.specs.Study.{IsFormStudy, IsStudy, IsStudyBy};

use crate::answer::{PlanAnswer, answer_text, map_fault, sides_of};
use crate::form::{TextForm, form_of};
use crate::goals::Demand;
use crate::judge::PlanJudge;
use crate::limit::MOST_PLAN_BYTES;
use crate::placements::Placements;
use fleet_grid::Grid;
use fleet_map::{MapText, read_map};
use std::alloc::{AllocError, Global};

/// What there is to say of a plan on a map, and the plan.
#[derive(Drop)]
pub struct Study {
    /// The answer of `check_texts`.
    pub answer: PlanAnswer,
    /// The width of the map; 1 if it cannot be read.
    pub width: u32,
    /// The robots' cells by time. Where the answer is that a text is no map or no plan, they say nothing.
    pub places: Placements,
}

/// What there is to say of a plan's text in this form, on a map that was read.
fn study_on(alloc: Global, map: MapText, form: TextForm, text: &[u8]) -> Result<Study, AllocError>
    requires sides { HasSides (view map) }
    requires short { length text.now ≤ MOST_PLAN_BYTES }
    ensures width { IfOk result (λ s. s.width ≡ map.width) }
    ensures study { IfOk result (λ s. IsFormStudy Nothing (view map) form text.now s.answer s.places) }
{
    let sides = sides_of(&map);
    let grid = Grid::new(map)?;
    let mut judge = PlanJudge::keeping(alloc, &grid);
    let answer = answer_text(alloc, Demand::Nothing, form, sides, text, &mut judge)?;
    // The judge keeps its placements, so that this never fails.
    let Some(places) = judge.take_kept() else {
        return Err(AllocError);
    };
    Ok(Study {
        answer,
        width: sides.width,
        places,
    })
}

/// What `check_form` answers to the text of a map and of a plan that is read in this form, if no goals are asked for, together
/// with the plan's placements. The only error is out of memory.
pub fn study_form(
    alloc: Global,
    form: TextForm,
    map: &[u8],
    text: &[u8],
) -> Result<Study, AllocError>
    requires { length text.now ≤ MOST_PLAN_BYTES }
    ensures { IfOk result (λ s. IsStudyBy form map.now text.now s) }
{
    match read_map(alloc, map) {
        Ok(map) => study_on(alloc, map, form, text),
        Err(fault) => {
            let fault = map_fault(fault)?;
            Ok(Study {
                answer: PlanAnswer::Map(fault),
                width: 1,
                places: Placements::new(alloc),
            })
        }
    }
}

/// The same, in the form of the text.
pub fn study_texts(alloc: Global, map: &[u8], text: &[u8]) -> Result<Study, AllocError>
    requires { length text.now ≤ MOST_PLAN_BYTES }
    ensures { IfOk result (λ s. IsStudy map.now text.now s) }
{
    study_form(alloc, form_of(text), map, text)
}
