//! The rules of a take.

ghost use Rattle.std.specs.Prelude.{◌≡◌, ◌<◌, ◌↔◌, ℕ, IsTrue, MatchOption};
ghost use Rattle.fleet_history.specs.History.{History, clients};
ghost use Rattle.fleet_history.specs.Verdicts.{IsVerdict};
ghost use Rattle.fleet_state.specs.State.{IsStateOf};
ghost use Rattle.fleet_trace.specs.Judged.{TakeBreaks};

use fleet_book::{Order, Verdict};
use fleet_grid::Grid;
use fleet_state::FleetState;
use std::alloc::Allocator;

fn is_same_verdict(verdict: Verdict, other: Verdict) -> bool
    ensures { IsTrue result ↔ (verdict ≡ other) }
{
    verdict == other
}

/// The first rule that a take breaks.
pub(crate) fn broken_take<A: Allocator + Copy>(
    grid: &Grid<A>,
    state: &FleetState<A>,
    client: u32,
    order: Order,
    verdict: Verdict,
) -> Option<u8>
    requires { (h : History A) × IsStateOf grid.now h state.now }
    ensures { (h : History A) → IsStateOf grid.now h state.now → MatchOption result ((client < clients h) × IsVerdict grid.now h client order verdict) (λ rule. TakeBreaks grid.now h client order verdict rule) }
{
    if client as usize >= state.clients() {
        return Some(2);
    }
    if !is_same_verdict(state.judge(grid, client, order), verdict) {
        return Some(3);
    }
    None
}
