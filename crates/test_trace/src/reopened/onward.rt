//! A world that goes on from a chapter does what the world does that handed it out.

ghost use Rattle.std.specs.Prelude.{◌≤◌};

use super::ground::{hall, limits};
use fleet_book::Order;
use fleet_core::World;
use fleet_hooks::{ArrivalHook, Farewell, Hooks, TieHook};
use fleet_reopen::reopen_world;
use fleet_trace::write_trace;
use std::alloc::{Alloc, Global};
use std::process::Abort;

/// Takes an order of a client.
fn post(rt: &impl Abort, world: &mut World<Global>, client: u32, order: Order)
    requires { 0 ≤ world.old.core.number }
{
    let known = (client as usize) < world.clients();
    assert!(rt; known);
    let _ = world
        .take(client, order)
        .expect(rt, "an order that is taken");
}

/// Makes this many ticks.
fn ticks<R: Alloc<A = Global> + Abort>(rt: &R, world: &mut World<Global>, count: u32)
    requires { 0 ≤ world.old.core.number }
{
    for _tick in 0..count {
        let _ = world.tick(rt).expect(rt, "a tick");
    }
}

/// Robot 0 gets three errands of two clients, one of which is withdrawn; robot 1 gets one and is shut.
fn first_chapter<R: Alloc<A = Global> + Abort>(rt: &R, world: &mut World<Global>)
    requires { 0 ≤ world.old.core.number }
{
    post(rt, world, 0, Order::Go { robot: 0, cell: 5 });
    post(rt, world, 1, Order::Go { robot: 0, cell: 0 });
    post(rt, world, 0, Order::Go { robot: 0, cell: 2 });
    post(rt, world, 0, Order::Withdraw { number: 2 });
    post(rt, world, 1, Order::Go { robot: 1, cell: 3 });
    ticks(rt, world, 2);
    let _ = world.shut(1).expect(rt, "a shut");
}

/// More orders, one of a robot that is shut, and ticks until nobody has an errand.
fn second_chapter<R: Alloc<A = Global> + Abort>(rt: &R, world: &mut World<Global>)
    requires { 0 ≤ world.old.core.number }
{
    post(rt, world, 1, Order::Go { robot: 0, cell: 4 });
    post(rt, world, 0, Order::Go { robot: 1, cell: 1 });
    ticks(rt, world, 9);
    post(rt, world, 0, Order::Close);
}

/// Ends the world, and returns its chapter as text.
fn text_of(rt: &impl Abort, alloc: Global, world: World<Global>) -> String
    requires { 0 ≤ world.core.number }
{
    let (_grid, chapter) = world.finish();
    write_trace(alloc, &chapter).expect(rt, "memory for a trace")
}

#[test]
fn goes_on(rt: HostRuntime) {
    let (rt, alloc) = (&rt, rt.alloc());
    let starts = Vec::from_slice(alloc, &[0, 2]).expect(rt, "memory for starts");
    let (south, seven, nine) = (
        TieHook::south_first(),
        ArrivalHook::fixed(7),
        Farewell::fixed(9),
    );
    let hooks = Hooks::alike(alloc, 2, south, seven, nine).expect(rt, "memory for closures");
    let opened = World::open(alloc, hall(rt, alloc), starts, 2, limits(), hooks);
    let mut world = opened.expect(rt, "a world");
    first_chapter(rt, &mut world);
    let kept = world.next_chapter().expect(rt, "a next chapter");
    second_chapter(rt, &mut world);
    let (south, seven, nine) = (
        TieHook::south_first(),
        ArrivalHook::fixed(7),
        Farewell::fixed(9),
    );
    let hooks = Hooks::alike(alloc, 2, south, seven, nine).expect(rt, "memory for closures");
    let reopened = reopen_world(alloc, hall(rt, alloc), &kept, limits(), hooks);
    let mut again = reopened.expect(rt, "a world that goes on");
    second_chapter(rt, &mut again);
    assert!(rt; again.is_idle());
    let one = text_of(rt, alloc, world);
    let other = text_of(rt, alloc, again);
    assert!(rt; one == other);
}
