//! The opening of the chapter that follows.

ghost use Rattle.std.specs.Prelude.{◌≡◌, ◌↔◌, ◌+◌, ◌^◌, ◌<◌, length, IfOk, IsTrue, MatchOption};
ghost use Rattle.fleet_history.specs.History.{history_of};
ghost use Rattle.fleet_history.specs.Next.{next_opening};
ghost use Rattle.fleet_trace.specs.Chapters.{IsEarly, IsSound};

use super::opening::opening_fault;
use super::state_after;
use crate::fault::JudgeFault;
use fleet_grid::Grid;
use fleet_history::{Chapter, Opening};
use std::alloc::{AllocError, Global};

/// Whether the clock stays below 2^63, even if each entry is a tick.
pub fn is_early(chapter: &Chapter) -> bool
    ensures { IsTrue result ↔ IsEarly (history_of chapter.now) }
{
    let most = chapter
        .opening
        .tick
        .saturating_add(chapter.entries.len() as u64);
    most < 9_223_372_036_854_775_808
}

/// What the next chapter begins with; `None` if the chapter is not legal, or its clock may come to 2^63.
pub(crate) fn opening_after(
    alloc: Global,
    grid: &Grid,
    chapter: &Chapter,
) -> Result<Option<Opening>, AllocError>
    ensures { IfOk result (λ next. MatchOption next (IsSound grid.now (history_of chapter.now) → ⊥)
        (λ o. IsSound grid.now (history_of chapter.now) × (o ≡ next_opening (history_of chapter.now)))) }
{
    if !is_early(chapter) {
        return Ok(None);
    }
    if let Some(_) = opening_fault(alloc, grid, &chapter.opening)? {
        return Ok(None);
    }
    match state_after(alloc, grid, &chapter.opening, chapter.entries.as_slice()) {
        Ok(state) => {
            let next = state.next_opening(alloc, &chapter.opening)?;
            Ok(Some(next))
        }
        Err(JudgeFault::Illegal { .. }) => Ok(None),
        Err(JudgeFault::NoMemory) => Err(AllocError),
    }
}
