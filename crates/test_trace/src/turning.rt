//! A world whose robots take turns.

ghost use Rattle.std.specs.Prelude.{◌≡◌, ◌≤◌, []};

use fleet_book::{Limits, Order};
use fleet_core::World;
use fleet_grid::Grid;
use fleet_hooks::{ArrivalHook, Farewell, Hooks, TieHook};
use fleet_map::MapText;
use std::alloc::{Alloc, Global};
use std::process::Abort;

/// Four cells in a square, and an aisle of two cells that ends blind.
fn aisle(rt: &impl Abort, alloc: Global) -> Grid {
    let cells = Vec::from_slice(alloc, b"..@@....").expect(rt, "memory for a map");
    let map = MapText {
        height: 2,
        width: 4,
        cells,
    };
    Grid::new(map).expect(rt, "memory for a grid")
}

/// Client 0 sends robot 0 to the end of the aisle, where robot 1 stands. It makes this many ticks, and returns whether
/// robot 0 has arrived.
fn arrives(rt: &(impl Alloc<A = Global> + Abort), world: &mut World<Global>, ticks: u32) -> bool
    requires { 0 ≤ world.old.core.number }
{
    let known = 0 < world.clients();
    assert!(rt; known);
    let order = Order::Go { robot: 0, cell: 7 };
    let _ = world.take(0, order).expect(rt, "an order that is taken");
    for _ in 0..ticks {
        let _ = world.tick(rt).expect(rt, "a tick");
    }
    world.is_idle()
}

/// The end of the aisle is roomy for one robot, and served for two. Without turns robot 1 stays there.
#[test]
fn aisle_that_ends_blind(rt: HostRuntime) {
    let (rt, alloc) = (&rt, rt.alloc());
    for turns in [false, true] {
        let starts = Vec::from_slice(alloc, &[0, 7]).expect(rt, "memory for starts");
        let (south, seven, nine) = (
            TieHook::south_first(),
            ArrivalHook::fixed(7),
            Farewell::fixed(9),
        );
        let hooks = Hooks::alike(alloc, 2, south, seven, nine).expect(rt, "memory for closures");
        let opened = World::open(alloc, aisle(rt, alloc), starts, 1, Limits::DEFAULT, hooks);
        let mut world = opened.expect(rt, "a world");
        if turns {
            world.take_turns().expect(rt, "turns");
        }
        assert!(rt; arrives(rt, &mut world, 20) == turns);
    }
}
