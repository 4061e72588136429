//! The state after a chapter.

ghost use Rattle.std.specs.Prelude.{◌≡◌, IfOk};
ghost use Rattle.fleet_history.specs.History.{history_of, start, with_entries};
ghost use Rattle.fleet_history.specs.Legal.{IsLegal};
ghost use Rattle.fleet_state.specs.State.{IsStateOf, HasFullRooms};
ghost use Rattle.fleet_trace.specs.Chapters.{IsEarly};

use fleet_grid::Grid;
use fleet_history::{Chapter, Entry, Opening};
use fleet_state::FleetState;
use std::alloc::{AllocError, Allocator};

/// Enters the entries of a legal history into the state at its opening.
fn enter_all<A: Allocator + Copy>(
    grid: &Grid<A>,
    opening: &Opening<A>,
    entries: &[Entry<A>],
    state: &mut FleetState<A>,
)
    requires opened { IsStateOf grid.now (start opening.now) state.old }
    requires rooms { HasFullRooms state.old }
    requires legal { IsLegal grid.now (with_entries (start opening.now) entries.now) }
    requires early { IsEarly (with_entries (start opening.now) entries.now) }
    ensures { IsStateOf grid.now (with_entries (start opening.now) entries.now) state.new }
{
    for at in 0..entries.len() {
        state.enter(&entries[at]);
    }
}

/// The state after a legal chapter. `AllocError` if memory runs out.
pub fn state_after<A: Allocator + Copy>(
    alloc: A,
    grid: &Grid<A>,
    chapter: &Chapter<A>,
) -> Result<FleetState<A>, AllocError>
    requires legal { IsLegal grid.now (history_of chapter.now) }
    requires early { IsEarly (history_of chapter.now) }
    ensures { IfOk result (λ s. IsStateOf grid.now (history_of chapter.now) s) }
{
    let opening = &chapter.opening;
    let mut state = FleetState::open(alloc, opening, opening.queue)?;
    enter_all(grid, opening, chapter.entries.as_slice(), &mut state);
    Ok(state)
}
