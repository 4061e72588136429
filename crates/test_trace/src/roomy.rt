//! What a world says of its waits on a map with bridges.

ghost use Rattle.std.specs.Prelude.{◌≤◌};

use fleet_book::{Limits, Order};
use fleet_core::World;
use fleet_grid::Grid;
use fleet_hooks::{ArrivalHook, Farewell, Hooks, TieHook};
use fleet_map::MapText;
use std::alloc::{Alloc, Global};
use std::process::Abort;

/// A map of one row of three cells. Both edges are bridges.
fn corridor(rt: &impl Abort, alloc: Global) -> Grid {
    let cells = vec![in alloc; b'.'; 3].expect(rt, "memory for a map");
    let map = MapText {
        height: 1,
        width: 3,
        cells,
    };
    Grid::new(map).expect(rt, "memory for a grid")
}

/// Client 0 sends robot 0 to the cell.
fn send(rt: &impl Abort, world: &mut World<Global>, cell: u32)
    requires { 0 ≤ world.old.core.number }
{
    let known = 0 < world.clients();
    assert!(rt; known);
    let _ = world
        .take(0, Order::Go { robot: 0, cell })
        .expect(rt, "an order that is taken");
}

/// The middle cell is roomy for two robots, since each side of each bridge that has it has two cells. The other two are
/// sides of one cell.
#[test]
fn corridor_of_three(rt: HostRuntime) {
    let (rt, alloc) = (&rt, rt.alloc());
    let roominess = [1, 2, 1];
    let starts = Vec::from_slice(alloc, &[0, 2]).expect(rt, "memory for starts");
    let (south, seven, nine) = (
        TieHook::south_first(),
        ArrivalHook::fixed(7),
        Farewell::fixed(9),
    );
    let hooks = Hooks::alike(alloc, 2, south, seven, nine).expect(rt, "memory for closures");
    let opened = World::open(
        alloc,
        corridor(rt, alloc),
        starts,
        1,
        Limits::DEFAULT,
        hooks,
    );
    let mut world = opened.expect(rt, "a world");
    send(rt, &mut world, 1);
    assert!(rt; world.idle_within() == None);
    assert!(rt; world.are_roomy(&roominess));
    assert!(rt; world.roomy_within(&roominess) == Some(4));
    assert!(rt; world.core.roomy_wait_limit(&roominess) == Some(4));
    send(rt, &mut world, 0);
    assert!(rt; !world.are_roomy(&roominess));
    assert!(rt; world.roomy_within(&roominess) == None);
    assert!(rt; world.core.roomy_wait_limit(&roominess) == None);
}
