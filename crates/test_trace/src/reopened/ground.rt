//! The map, the limits and the closures of the tests.

use fleet_book::Limits;
use fleet_core::{Core, HookLaws};
use fleet_grid::Grid;
use fleet_hooks::{ArrivalHook, Farewell, Hooks, TieHook};
use fleet_map::MapText;
use fleet_reopen::{ReopenFault, reopen};
use fleet_trace::read_trace;
use std::alloc::Global;
use std::process::Abort;

/// A map of two rows of three cells, all of them floor. It has no bridge.
pub(crate) fn hall(rt: &impl Abort, alloc: Global) -> Grid {
    let cells = vec![in alloc; b'.'; 6].expect(rt, "memory for a map");
    let map = MapText {
        height: 2,
        width: 3,
        cells,
    };
    Grid::new(map).expect(rt, "memory for a grid")
}

/// Limits with queues of four errands.
pub(crate) fn limits() -> Limits {
    Limits {
        queue: 4,
        life: 100,
        ..Limits::DEFAULT
    }
}

/// The laws of closures of this many robots: arrivals have the stamp 7, farewells the stamp 9.
pub(crate) fn laws(rt: &impl Abort, alloc: Global, robots: usize) -> HookLaws {
    let tie = TieHook::south_first();
    let arrival = ArrivalHook::fixed(7);
    let made = Hooks::alike(alloc, robots, tie, arrival, Farewell::fixed(9));
    let hooks = made.expect(rt, "memory for closures");
    HookLaws::of(alloc, &hooks).expect(rt, "memory for laws")
}

/// The core of the world that goes on from the chapter that the text tells.
pub(crate) fn reopened(
    rt: &impl Abort,
    alloc: Global,
    text: &str,
    limits: Limits,
) -> Result<Core, ReopenFault> {
    let chapter = read_trace(alloc, text.as_bytes()).expect(rt, "a trace");
    let laws = laws(rt, alloc, 1);
    reopen(alloc, hall(rt, alloc), &chapter, limits, laws)
}
