//! What a world answers and shows, in words.

use fleet_world::{Notice, ShutFault, TakeFault, TickFault, TickReport, Verdict, World};
use std::alloc::{AllocError, Allocator};
use std::fmt::Write;
use test_kit::beside_bound;

/// The number after its name.
fn tell_number(told: &mut String, name: &str, number: Option<u64>) -> Result<(), AllocError> {
    match number {
        Some(number) => write!(told, " {name} {number}"),
        None => write!(told, " {name} none"),
    }
}

pub(crate) fn tell_take(
    told: &mut String,
    answer: Result<Verdict, TakeFault>,
) -> Result<(), AllocError> {
    match answer {
        Ok(verdict) => writeln!(told, "take: {verdict:?}"),
        Err(fault) => writeln!(told, "take refused: {fault:?}"),
    }
}

pub(crate) fn tell_tick(
    told: &mut String,
    answer: Result<TickReport, TickFault>,
) -> Result<(), AllocError> {
    match answer {
        Ok(report) => writeln!(
            told,
            "tick {}: arrived {} farewells {}",
            report.tick, report.arrived, report.farewells
        ),
        Err(fault) => writeln!(told, "tick refused: {fault:?}"),
    }
}

pub(crate) fn tell_shut(
    told: &mut String,
    answer: Result<Option<u32>, ShutFault>,
) -> Result<(), AllocError> {
    match answer {
        Ok(Some(stamp)) => writeln!(told, "shut: farewell {stamp}"),
        Ok(None) => writeln!(told, "shut: errands left"),
        Err(fault) => writeln!(told, "shut refused: {fault:?}"),
    }
}

/// These numbers, each after its name, to the end of the line.
fn tell_parts(told: &mut String, parts: &[(&str, u64)]) -> Result<(), AllocError> {
    for (name, number) in parts {
        write!(told, " {name} {number}")?;
    }
    told.push_str("\n")
}

/// The line of a gift.
pub(crate) fn tell_give(told: &mut String, answer: Option<Notice>) -> Result<(), AllocError> {
    match answer {
        Some(
            Notice::Verdict {
                seq,
                order_no,
                verdict,
            },
        ) => writeln!(told, "give {seq}: verdict {order_no} {verdict:?}"),
        Some(
            Notice::Arrived {
                seq,
                number,
                robot,
                cell,
                tick,
                stamp,
            },
        ) => {
            write!(told, "give {seq}: arrived {number}")?;
            let (robot, cell, stamp) = (u64::from(robot), u64::from(cell), u64::from(stamp));
            let parts = [
                ("robot", robot),
                ("cell", cell),
                ("tick", tick),
                ("stamp", stamp),
            ];
            tell_parts(told, &parts)
        }
        None => writeln!(told, "give: nothing"),
    }
}

/// The line of a greatest wait next to a bound, with the arrivals.
pub(crate) fn tell_busy(
    told: &mut String,
    greatest: u64,
    bound: u64,
    arrivals: u64,
) -> Result<(), AllocError> {
    let kept = beside_bound(greatest, bound);
    writeln!(told, "greatest wait: {kept} {bound}, {arrivals} arrivals")
}

/// The robots' cells and how long they have waited, a robot a word.
fn tell_robots<A: Allocator + Copy>(told: &mut String, world: &World<A>) -> Result<(), AllocError> {
    for robot in 0..512u32 {
        if robot as usize >= world.robots() {
            break;
        }
        let cell = world.placement().get(robot as usize).copied().unwrap_or(0);
        match world.wait_of(robot) {
            Some(wait) => write!(told, " {cell}/{wait}")?,
            None => write!(told, " {cell}/none")?,
        }
    }
    Ok(())
}

/// The line of all that a world shows: each robot's cell and wait, the eldest, and how soon the fleet is idle.
pub(crate) fn tell_world<A: Allocator + Copy>(
    told: &mut String,
    world: &World<A>,
) -> Result<(), AllocError> {
    write!(told, "clock {} robots", world.clock())?;
    tell_robots(told, world)?;
    tell_number(told, "eldest", world.eldest().map(u64::from))?;
    write!(told, " idle {}", world.is_idle())?;
    tell_number(told, "within", world.idle_within())?;
    writeln!(
        told,
        " bridgeless {} entries {}",
        world.is_bridgeless(),
        world.chapter().entries.len()
    )
}
