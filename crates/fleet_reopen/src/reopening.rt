//! A world that goes on from a chapter.

ghost use Rattle.std.specs.Prelude.{◌≡◌, ◌≤◌, IfOk, IfErr, OnOk, MatchOption};
ghost use Rattle.fleet_book.specs.Limits.{AreValid};
ghost use Rattle.fleet_core.specs.Hooks.{laws_of};
ghost use Rattle.fleet_history.specs.History.{history_of};
ghost use Rattle.fleet_history.specs.Next.{next_opening};
ghost use Rattle.fleet_reopen.specs.Reopening.{CanReopen, IsReopenFault, reopened_world};
ghost use Rattle.fleet_reopen.specs.inside.Followed.{IsFit, IsMisfit};

use crate::bound::is_within_bound;
use crate::fault::ReopenFault;
use crate::within::{are_limits_at, is_counted};
use fleet_book::Limits;
use fleet_core::{Core, HookLaws, World};
use fleet_grid::Grid;
use fleet_history::{Chapter, Opening};
use fleet_hooks::Hooks;
use fleet_trace::{JudgeFault, judge, state_after};
use std::alloc::{AllocError, Allocator};

/// Why a legal chapter, limits and laws do not go together, as far as the entries need not be gone through.
fn misfit<A: Allocator + Copy>(
    chapter: &Chapter<A>,
    limits: Limits,
    laws: &HookLaws<A>,
) -> Option<ReopenFault>
    requires { AreValid limits }
    ensures { MatchOption result (IsFit chapter.now.number (history_of chapter.now) limits laws.now) (λ fault. IsMisfit chapter.now.number (history_of chapter.now) limits laws.now fault) }
{
    if !laws.are_at(&chapter.opening) {
        return Some(ReopenFault::Laws);
    }
    if !are_limits_at(&chapter.opening, limits) {
        return Some(ReopenFault::Differs);
    }
    if !is_counted(chapter, limits) {
        return Some(ReopenFault::Spent);
    }
    None
}

/// The opening of the chapter that follows.
fn opening_after<A: Allocator + Copy>(
    alloc: A,
    grid: &Grid<A>,
    chapter: &Chapter<A>,
    limits: Limits,
    laws: &HookLaws<A>,
) -> Result<Opening<A>, ReopenFault>
    ensures next { IfOk result (λ opening. opening ≡ next_opening (history_of chapter.now)) }
    ensures can { OnOk result (CanReopen grid.now chapter.now.number (history_of chapter.now) limits laws.now) }
    ensures fault { IfErr result (λ fault. IsReopenFault grid.now chapter.now.number (history_of chapter.now) limits laws.now fault) }
{
    if !limits.is_valid() {
        return Err(ReopenFault::Limits);
    }
    match judge(alloc, grid, chapter) {
        Ok(()) => (),
        Err(JudgeFault::Illegal { at, rule }) => return Err(ReopenFault::Illegal { at, rule }),
        Err(JudgeFault::NoMemory) => return Err(ReopenFault::NoMemory),
    }
    if let Some(fault) = misfit(chapter, limits, laws) {
        return Err(fault);
    }
    let state = state_after(alloc, grid, chapter)?;
    if state.clock() > limits.clock {
        return Err(ReopenFault::Spent);
    }
    if !is_within_bound(alloc, grid, &state)? {
        return Err(ReopenFault::Waits);
    }
    Ok(state.next_opening(alloc, &chapter.opening)?)
}

/// The core of the world that goes on from a chapter: its chapter has the next number, and begins with what is after
/// the chapter; its mailboxes are empty.
///
/// Refused in this order: a limit out of its range, a chapter that is not legal on the map, laws that are not those of
/// the chapter's robots, limits that are not the chapter's, no further chapter within the limits, waits that are too
/// long for a map without bridges whose cells are as far apart as two searches find. Out of memory may come at any
/// point.
pub fn reopen<A: Allocator + Copy>(
    alloc: A,
    grid: Grid<A>,
    chapter: &Chapter<A>,
    limits: Limits,
    laws: HookLaws<A>,
) -> Result<Core<A>, ReopenFault>
    ensures ok { IfOk result (λ w. w ≡ reopened_world grid chapter.now.number (history_of chapter.now) limits laws) }
    ensures can { OnOk result (CanReopen grid chapter.now.number (history_of chapter.now) limits laws) }
    ensures fault { IfErr result (λ fault. IsReopenFault grid chapter.now.number (history_of chapter.now) limits laws fault) }
{
    let opening = opening_after(alloc, &grid, chapter, limits, &laws)?;
    let number = chapter.number + 1;
    Ok(Core::resume(alloc, grid, number, opening, limits, laws)?)
}

/// The same, with the robots' closures.
pub fn reopen_world<A: Allocator + Copy>(
    alloc: A,
    grid: Grid<A>,
    chapter: &Chapter<A>,
    limits: Limits,
    hooks: Hooks<A>,
) -> Result<World<A>, ReopenFault>
    // Of each call: the checker lets closures come from another crate only in a call with a `requires`.
    requires { 0 ≤ chapter.now.number }
    ensures ok { IfOk result (λ w. w.core ≡ reopened_world grid chapter.now.number (history_of chapter.now) limits (laws_of hooks)) }
    ensures can { OnOk result (CanReopen grid chapter.now.number (history_of chapter.now) limits (laws_of hooks)) }
    ensures fault { IfErr result (λ fault. IsReopenFault grid chapter.now.number (history_of chapter.now) limits (laws_of hooks) fault) }
{
    let laws = HookLaws::of(alloc, &hooks)?;
    let opening = opening_after(alloc, &grid, chapter, limits, &laws)?;
    let number = chapter.number + 1;
    Ok(World::resume(alloc, grid, number, opening, limits, hooks)?)
}
