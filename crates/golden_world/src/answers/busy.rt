//! Robots that never rest.

use crate::answers::row::go;
use fleet_world::{TickFault, TickReport, World};
use std::alloc::{Alloc, Allocator};
use std::mem;

/// Takes an order for the robot, if it has none left.
fn send<A: Allocator + Copy>(world: &mut World<A>, robot: u32, cell: u32) {
    if (robot as usize) < world.robots() && world.wait_of(robot).is_none() && world.clients() > 0 {
        mem::drop(world.take(0, go(robot, cell)));
    }
}

/// Gives the only client its next notice.
fn hand_out<A: Allocator + Copy>(world: &mut World<A>) {
    if world.clients() > 0 {
        mem::drop(world.give(0));
    }
}

/// Gives a new errand to each of nine robots that has none, and hands out what the only client is told.
fn keep_busy<A: Allocator + Copy>(world: &mut World<A>, tick: u32) {
    for robot in 0..9u32 {
        send(world, robot, (tick / 3 % 9 * 5 + robot * 7) % 9);
        hand_out(world);
        hand_out(world);
    }
}

/// The robot's wait, 0 where it has no errand.
fn wait_of<A: Allocator + Copy>(world: &World<A>, robot: u32) -> u64 {
    if (robot as usize) < world.robots() {
        world.wait_of(robot).unwrap_or(0)
    } else {
        0
    }
}

/// The greatest wait of nine robots.
fn greatest_of<A: Allocator + Copy>(world: &World<A>) -> u64 {
    let mut greatest = 0;
    for robot in 0..9u32 {
        greatest = wait_of(world, robot).max(greatest);
    }
    greatest
}

/// How many arrivals a tick came with, none where it was refused.
fn arrivals_of(answer: Result<TickReport, TickFault>) -> u64 {
    match answer {
        Ok(report) => u64::from(report.arrived),
        Err(_) => 0,
    }
}

/// Runs `ticks` ticks of nine robots that get a new errand whenever they have none. The result is the greatest wait
/// that was seen, and how many arrivals there were.
pub(crate) fn greatest_wait<A: Allocator + Copy, R: Alloc<A = A>>(
    rt: &R,
    world: &mut World<A>,
    ticks: u32,
) -> (u64, u64) {
    let (mut greatest, mut arrivals) = (0, 0u64);
    for tick in 0..ticks {
        keep_busy(world, tick);
        arrivals = arrivals.saturating_add(arrivals_of(world.tick(rt)));
        greatest = greatest_of(world).max(greatest);
    }
    (greatest, arrivals)
}
