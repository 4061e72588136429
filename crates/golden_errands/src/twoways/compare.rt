//! One trace, judged in two ways.

ghost use Rattle.std.specs.Prelude.{◌≡◌, ℕ, None, Some, Ok, Err};
ghost use Rattle.fleet_trace.specs.declared.fault.JudgeFault.TheVariants.{Illegal};

use fleet_grid::Grid;
use fleet_history::Chapter;
use fleet_trace::{JudgeFault, TraceFault, judge, read_trace};
use golden_judge::{Site, first_fault};
use std::alloc::{AllocError, Global};
use test_kit::Answer;

/// The entry that the judge names first, and the rule that it breaks; `None` if all is legal.
fn broken_by(said: Result<(), JudgeFault>) -> Result<Option<(u64, u8)>, AllocError>
    ensures legal { result ≡ Ok None → said ≡ Ok tt }
    ensures broken { (at rule : ℕ) → result ≡ Ok (Some (at, rule)) → said ≡ Err (Illegal at rule) }
{
    match said {
        Ok(()) => Ok(None),
        Err(JudgeFault::Illegal { at, rule }) => Ok(Some((at, rule))),
        Err(JudgeFault::NoMemory) => Err(AllocError),
    }
}

/// A map: a grid to the judge, a site to the rules.
#[derive(Clone, Copy)]
pub(crate) struct Ground<'a> {
    pub(crate) grid: &'a Grid,
    pub(crate) site: &'a Site,
}

/// What both ways say of a chapter.
fn answer_on(alloc: Global, ground: &Ground<'_>, chapter: &Chapter) -> Result<Answer, AllocError> {
    let told = first_fault(alloc, ground.site, chapter)?;
    let said = broken_by(judge(alloc, ground.grid, chapter))?;
    Ok(Answer::of_both(said, told))
}

/// What both ways say of a text.
pub(crate) fn compare(
    alloc: Global,
    ground: &Ground<'_>,
    text: &[u8],
) -> Result<Answer, AllocError> {
    match read_trace(alloc, text) {
        Ok(chapter) => answer_on(alloc, ground, &chapter),
        Err(TraceFault::NoMemory) => Err(AllocError),
        Err(TraceFault::NotJson) => Ok(Answer::NotJson),
        Err(TraceFault::Shape | TraceFault::Version) => Ok(Answer::Refused),
    }
}
