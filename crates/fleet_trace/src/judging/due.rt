//! What is due after the first entries of a chapter.

ghost use Rattle.std.specs.Prelude.{◌≡◌, ◌<◌, ◌≤◌, List, IfOk, length, map, take};
ghost use Rattle.fleet_history.specs.declared.history.Arrival.{Arrival};
ghost use Rattle.fleet_history.specs.declared.history.Bye.{Bye};
ghost use Rattle.fleet_history.specs.History.{history_of, start, with_entries, after, clients, robots};
ghost use Rattle.fleet_history.specs.Legal.{IsLegal, due_of, due, leaving};
ghost use Rattle.fleet_history.specs.Verdicts.{IsVerdict};
ghost use Rattle.fleet_state.specs.State.{IsStateOf};
ghost use Rattle.fleet_trace.specs.inside.Calm.{calm};
ghost use Rattle.fleet_trace.specs.Judged.{before};

use super::calm::calm_opening;
use super::state_after;
use fleet_book::{Order, Verdict};
use fleet_grid::Grid;
use fleet_history::{Chapter, Entry};
use fleet_state::{FleetState, Landings};
use std::alloc::{AllocError, Allocator};

/// The state after the first entries, by the opening with its clock and waits set to 0.
fn calm_state<A: Allocator + Copy>(
    alloc: A,
    grid: &Grid<A>,
    chapter: &Chapter<A>,
    entries: usize,
) -> Result<FleetState<A>, AllocError>
    requires inside { entries ≤ length chapter.now.entries.items }
    requires legal { IsLegal grid.now (before (history_of chapter.now) entries) }
    ensures { IfOk result (λ s. IsStateOf grid.now (with_entries (start (calm chapter.now.opening)) (take entries chapter.now.entries.items)) s) }
{
    let calm = calm_opening(alloc, &chapter.opening)?;
    match state_after(alloc, grid, &calm, &chapter.entries[..entries]) {
        Ok(state) => Ok(state),
        Err(_memory) => Err(AllocError),
    }
}

/// The verdict that a client's order gets after the first entries of a chapter, which are legal. The only error is out
/// of memory.
pub fn verdict_after<A: Allocator + Copy>(
    alloc: A,
    grid: &Grid<A>,
    chapter: &Chapter<A>,
    entries: usize,
    client: u32,
    order: Order,
) -> Result<Verdict, AllocError>
    requires inside { entries ≤ length chapter.now.entries.items }
    requires legal { IsLegal grid.now (before (history_of chapter.now) entries) }
    requires client { client < clients (history_of chapter.now) }
    ensures { IfOk result (λ verdict. IsVerdict grid.now (before (history_of chapter.now) entries) client order verdict) }
{
    let state = calm_state(alloc, grid, chapter, entries)?;
    Ok(state.judge(grid, client, order))
}

/// The arrivals and the farewells that are due where a tick brings the robots to these cells after the first entries of
/// a chapter, which are legal; with stamps of 0. The only error is out of memory.
pub fn landings_after<A: Allocator + Copy>(
    alloc: A,
    grid: &Grid<A>,
    chapter: &Chapter<A>,
    entries: usize,
    to: &[u32],
) -> Result<Landings<A>, AllocError>
    requires inside { entries ≤ length chapter.now.entries.items }
    requires legal { IsLegal grid.now (before (history_of chapter.now) entries) }
    requires robots { length to.now ≡ robots (history_of chapter.now) }
    ensures arrived { IfOk result (λ l. map due_of l.arrived.items ≡ due (before (history_of chapter.now) entries) to.now) }
    ensures leaving { IfOk result (λ l. (arrived : List Arrival) (others : List Bye) → map due_of arrived ≡ due (before (history_of chapter.now) entries) to.now →
        map (λ b. b.robot) l.leaving.items ≡ leaving (before (history_of chapter.now) entries) (after (before (history_of chapter.now) entries) (Entry.Tick to.now arrived others))) }
{
    let state = calm_state(alloc, grid, chapter, entries)?;
    state.landings(alloc, to)
}
