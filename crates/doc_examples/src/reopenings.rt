//! A caller of `fleet_reopen`.

ghost use Rattle.std.specs.Prelude.{◌≡◌, ◌+◌, IfOk};

use fleet_book::Limits;
use fleet_core::{Core, HookLaws};
use fleet_grid::Grid;
use fleet_history::Chapter;
use fleet_reopen::{ReopenFault, reopen};
use std::alloc::Global;

/// The fleet that goes on from a chapter that was kept, with the limits that the chapter was made with.
pub fn go_on(
    alloc: Global,
    grid: Grid,
    kept: &Chapter,
    limits: Limits,
    laws: HookLaws,
) -> Result<Core, ReopenFault>
    ensures { IfOk result (λ fleet. fleet.number ≡ kept.now.number + 1) }
{
    reopen(alloc, grid, kept, limits, laws)
}
