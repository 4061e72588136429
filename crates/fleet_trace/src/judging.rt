//! The judge of traces.

mod calm;
mod clients;
mod due;
mod names;
mod next;
mod opening;
mod robots;
mod rooms;
mod shuts;
mod stamps;
mod takes;
mod ticks;

ghost use Rattle.std.specs.Prelude.{◌≡◌, ◌+◌, ◌^◌, ◌<◌, ℕ, IfOk, IfErr, OnOk, length, slice_index};
ghost use Rattle.fleet_history.specs.History.{History, history_of, start, with_entries};
ghost use Rattle.fleet_history.specs.Legal.{IsInOrder, IsLegal};
ghost use Rattle.fleet_state.specs.State.{IsStateOf};
ghost use Rattle.fleet_trace.specs.inside.Rooms.{room_for};
ghost use Rattle.fleet_trace.specs.Judged.{IsOf, JudgedBy, IsEntryFault, IsJudgeFault};

use crate::fault::JudgeFault;
use calm::calm_opening;
pub use due::{landings_after, verdict_after};
use fleet_grid::Grid;
use fleet_history::{Chapter, Entry, Opening, RobotState};
use fleet_state::FleetState;
pub use next::is_early;
pub(crate) use next::opening_after;
pub use opening::opening_fault;
use rooms::rooms_of;
use shuts::broken_shut;
use std::alloc::{AllocError, Allocator};
use takes::broken_take;
use ticks::{broken_shown, is_step};

/// The first rule that an entry breaks, where the state is that of the history before it.
fn broken_rule<A: Allocator + Copy>(
    alloc: A,
    grid: &Grid<A>,
    robots: &[RobotState<A>],
    state: &FleetState<A>,
    entry: &Entry<A>,
) -> Result<Option<u8>, AllocError>
    requires { (h : History A) × IsOf grid.now robots.now state.now h }
    ensures { IfOk result (λ rule. JudgedBy grid.now robots.now state.now entry.now rule) }
{
    match entry {
        Entry::Take {
            client,
            order,
            verdict,
        } => Ok(broken_take(grid, state, *client, *order, *verdict)),
        Entry::Tick {
            to,
            arrived,
            farewells,
        } => {
            let to = to.as_slice();
            if !is_step(alloc, grid, state, to)? {
                return Ok(Some(4));
            }
            let (arrived, farewells) = (arrived.as_slice(), farewells.as_slice());
            broken_shown(alloc, robots, state, to, arrived, farewells)
        }
        Entry::Shut { robot, farewell } => Ok(broken_shut(robots, state, *robot, *farewell)),
    }
}

/// Judges the entries after an opening, and enters those that are legal; the state is that at the opening.
fn judge_entries<A: Allocator + Copy>(
    alloc: A,
    grid: &Grid<A>,
    opening: &Opening<A>,
    entries: &[Entry<A>],
    state: &mut FleetState<A>,
) -> Result<(), JudgeFault>
    requires opened { IsStateOf grid.now (start opening.now) state.old }
    requires early { opening.now.tick + length entries.now < 2 ^ 63 }
    requires rooms { (r : ℕ) → r < length opening.now.robots → slice_index state.old.rooms r ≡ room_for opening.now entries.now r }
    ensures state { OnOk result (IsStateOf grid.now (with_entries (start opening.now) entries.now) state.new) }
    ensures fault { IfErr result (λ fault. IsEntryFault grid.now (with_entries (start opening.now) entries.now) fault) }
{
    let robots = opening.robots.as_slice();
    for at in 0..entries.len() {
        let entry = &entries[at];
        if let Some(rule) = broken_rule(alloc, grid, robots, state, entry)? {
            let at = at as u64 + 1;
            return Err(JudgeFault::Illegal { at, rule });
        }
        state.enter(entry);
    }
    Ok(())
}

/// The state after the entries that follow an opening that is in order, if they are legal.
fn state_after<A: Allocator + Copy>(
    alloc: A,
    grid: &Grid<A>,
    opening: &Opening<A>,
    entries: &[Entry<A>],
) -> Result<FleetState<A>, JudgeFault>
    requires order { IsInOrder grid.now opening.now }
    requires early { opening.now.tick + length entries.now < 2 ^ 63 }
    ensures state { IfOk result (λ s. IsStateOf grid.now (with_entries (start opening.now) entries.now) s) }
    ensures fault { IfErr result (λ fault. IsEntryFault grid.now (with_entries (start opening.now) entries.now) fault) }
{
    let rooms = rooms_of(alloc, opening, entries)?;
    let mut state = FleetState::open_within(alloc, opening, rooms)?;
    judge_entries(alloc, grid, opening, entries, &mut state)?;
    Ok(state)
}

/// Judges entries after an opening that is in order.
fn judge_behind<A: Allocator + Copy>(
    alloc: A,
    grid: &Grid<A>,
    opening: &Opening<A>,
    entries: &[Entry<A>],
) -> Result<(), JudgeFault>
    requires order { IsInOrder grid.now opening.now }
    requires early { opening.now.tick + length entries.now < 2 ^ 63 }
    ensures ok { OnOk result (IsLegal grid.now (with_entries (start opening.now) entries.now)) }
    ensures fault { IfErr result (λ fault. IsEntryFault grid.now (with_entries (start opening.now) entries.now) fault) }
{
    let _state = state_after(alloc, grid, opening, entries)?;
    Ok(())
}

/// Judges the entries after an opening that is in order, by the opening with its clock and waits set to 0.
fn judge_from_zero<A: Allocator + Copy>(
    alloc: A,
    grid: &Grid<A>,
    opening: &Opening<A>,
    entries: &[Entry<A>],
) -> Result<(), JudgeFault>
    requires order { IsInOrder grid.now opening.now }
    requires few { length entries.now < 2 ^ 63 }
    ensures ok { OnOk result (IsLegal grid.now (with_entries (start opening.now) entries.now)) }
    ensures fault { IfErr result (λ fault. IsJudgeFault grid.now (with_entries (start opening.now) entries.now) fault) }
{
    let calm = calm_opening(alloc, opening)?;
    judge_behind(alloc, grid, &calm, entries)
}

/// Judges a trace: whether its opening is in order on the map and each entry is legal after those before it.
pub fn judge<A: Allocator + Copy>(
    alloc: A,
    grid: &Grid<A>,
    chapter: &Chapter<A>,
) -> Result<(), JudgeFault>
    ensures ok { OnOk result (IsLegal grid.now (history_of chapter.now)) }
    ensures fault { IfErr result (λ fault. IsJudgeFault grid.now (history_of chapter.now) fault) }
    ensures legal { IsLegal grid.now (history_of chapter.now) → IfErr result (λ fault. fault ≡ JudgeFault.NoMemory) }
{
    let entries = chapter.entries.as_slice();
    if let Some(_) = opening_fault(alloc, grid, &chapter.opening)? {
        return Err(JudgeFault::Illegal { at: 0, rule: 1 });
    }
    judge_from_zero(alloc, grid, &chapter.opening, entries)
}
