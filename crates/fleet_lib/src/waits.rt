//! Whether waits leave room for the bound on waits, after changes.

ghost use Rattle.std.specs.Prelude.{◌≤◌, vec_len};

use fleet_book::Limits;
use fleet_core::HookLaws;
use fleet_grid::Grid;
use fleet_history::{Chapter, Opening};
use fleet_hooks::{ArrivalHook, Farewell, Hooks, TieHook};
use fleet_reopen::{ReopenFault, reopen};
use std::alloc::{AllocError, Global};
use std::mem;

/// The laws of hooks, which go.
fn laws_alone(alloc: Global, hooks: Hooks) -> Result<HookLaws, AllocError>
    // Of each call: only a call with a condition may hand on closures.
    requires { 0 ≤ vec_len hooks.ties }
{
    let laws = HookLaws::of(alloc, &hooks);
    mem::drop(hooks);
    laws
}

/// The laws of hooks that give 0.
fn plain_laws(alloc: Global, robots: usize) -> Result<HookLaws, AllocError> {
    let hooks = Hooks::alike(
        alloc,
        robots,
        TieHook::fixed([0; 4]),
        ArrivalHook::fixed(0),
        Farewell::fixed(0),
    )?;
    laws_alone(alloc, hooks)
}

/// The laws of the hooks of `ties south`.
fn south_laws(alloc: Global, robots: usize) -> Result<HookLaws, AllocError> {
    let hooks = Hooks::alike(
        alloc,
        robots,
        TieHook::south_first(),
        ArrivalHook::by_tick(),
        Farewell::by_cell(),
    )?;
    laws_alone(alloc, hooks)
}

/// The laws of the hooks of this program that the robots have, all of them the same: those of `ties south` give other stamps
/// than 0.
fn laws_of(alloc: Global, opening: &Opening) -> Result<HookLaws, AllocError> {
    let robots = opening.robots.as_slice();
    match robots.first() {
        Some(robot) if robot.arrival_law.high != 0 => south_laws(alloc, robots.len()),
        _ => plain_laws(alloc, robots.len()),
    }
}

/// The widest limits of a fleet with this opening.
fn widest(opening: &Opening) -> Limits {
    Limits {
        lane: 64,
        outlet: 64,
        queue: opening.queue,
        mailbox: 64,
        life: opening.life,
        orders: 1 << 62,
        clock: 1 << 48,
        chapter: 16_777_216,
        chapters: u32::MAX,
    }
}

/// Whether a fleet goes on from a chapter without entries as far as waits go: on a map without a bridge no robot has waited
/// longer than it may.
pub(crate) fn leaves_room(
    alloc: Global,
    grid: Grid,
    chapter: &Chapter,
) -> Result<bool, AllocError> {
    let Ok(laws) = laws_of(alloc, &chapter.opening) else {
        mem::drop(grid);
        return Err(AllocError);
    };
    match reopen(alloc, grid, chapter, widest(&chapter.opening), laws) {
        Ok(core) => {
            mem::drop(core);
            Ok(true)
        }
        Err(ReopenFault::Waits) => Ok(false),
        Err(ReopenFault::NoMemory) => Err(AllocError),
        Err(_) => Ok(true),
    }
}
