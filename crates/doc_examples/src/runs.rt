//! A caller of `fleet_world`.

ghost use Rattle.std.specs.Prelude.{IfOk};
ghost use Rattle.fleet_history.specs.History.{history_of};
ghost use Rattle.fleet_history.specs.Legal.{IsLegal};

use fleet_grid::Grid;
use fleet_history::Chapter;
use fleet_hooks::Hooks;
use fleet_world::{Event, Limits, RunFault, run};
use std::alloc::{Alloc, Global};

/// The map, and the history of these events on it, for one client.
pub fn history_after<R: Alloc<A = Global>>(
    rt: &R,
    grid: Grid,
    starts: Vec<u32>,
    hooks: Hooks,
    events: &[Event],
) -> Result<(Grid, Chapter), RunFault>
    ensures { IfOk result (λ end. IsLegal end.0 (history_of end.1)) }
{
    let played = run(rt, grid, starts, 1, Limits::DEFAULT, hooks, events)?;
    Ok(played.world.finish())
}
