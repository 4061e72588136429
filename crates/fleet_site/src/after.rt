//! What the chapter after a chapter begins with.

ghost use Rattle.std.specs.Prelude.{◌≡◌, IfOk, MatchOption};
ghost use Rattle.fleet_history.specs.History.{history_of};
ghost use Rattle.fleet_history.specs.Next.{next_opening};
ghost use Rattle.fleet_trace.specs.Chapters.{IsSound};

use fleet_grid::Grid;
use fleet_history::{Chapter, Opening};
use fleet_trace::{JudgeFault, is_early, judge, state_after};
use std::alloc::{AllocError, Global};

/// What the next chapter begins with; `None` if the chapter is not legal, or its clock may come to 2^63.
pub(crate) fn opening_after(
    alloc: Global,
    grid: &Grid,
    chapter: &Chapter,
) -> Result<Option<Opening>, AllocError>
    ensures { IfOk result (λ next. MatchOption next (IsSound grid.now (history_of chapter.now) → ⊥)
        (λ o. IsSound grid.now (history_of chapter.now) × (o ≡ next_opening (history_of chapter.now)))) }
{
    if !is_early(chapter) {
        return Ok(None);
    }
    match judge(alloc, grid, chapter) {
        Ok(()) => (),
        Err(JudgeFault::Illegal { .. }) => return Ok(None),
        Err(JudgeFault::NoMemory) => return Err(AllocError),
    }
    let state = state_after(alloc, grid, chapter)?;
    let next = state.next_opening(alloc, &chapter.opening)?;
    Ok(Some(next))
}
