//! The rules of entries, each as it is told.

use crate::fleet::{Fleet, Robot};
use crate::opening::is_in_order;
use crate::site::Site;
use crate::take::verdict_on;
use fleet_history::{Arrival, Bye, Chapter, Entry};
use fleet_hooks::StampLaw;
use std::alloc::{AllocError, Global};

/// Whether a robot may move so: it stays, or crosses an edge.
fn may_move(site: &Site, robot: &Robot, to: u32) -> bool {
    site.is_floor(to) && (robot.cell == to || site.is_beside(robot.cell, to))
}

/// Whether two robots come to different cells and do not exchange theirs.
fn keep_apart(a: &Robot, to_a: u32, b: &Robot, to_b: u32) -> bool {
    to_a != to_b && (to_a != b.cell || to_b != a.cell)
}

/// Whether a step is conflict-free.
fn is_step(site: &Site, fleet: &Fleet, to: &[u32]) -> bool {
    if to.len() != fleet.robots.len() {
        return false;
    }
    let mut before = 0usize;
    for (a, to_a) in fleet.robots.iter().zip(to.iter()) {
        if !may_move(site, a, *to_a) {
            return false;
        }
        let others = fleet.robots.iter().zip(to.iter()).take(before);
        for (b, to_b) in others {
            if !keep_apart(a, *to_a, b, *to_b) {
                return false;
            }
        }
        before = before.saturating_add(1);
    }
    true
}

/// Whether a tick shows each arrival, in the order of the robots, and no other.
fn are_dues(fleet: &Fleet, to: &[u32], arrived: &[Arrival]) -> bool {
    let mut shown = arrived.iter();
    let mut number = 0u32;
    for (robot, cell) in fleet.robots.iter().zip(to.iter()) {
        if let Some(errand) = robot.errands.first()
            && errand.cell == *cell
        {
            let Some(arrival) = shown.next() else {
                return false;
            };
            let due = (number, errand.client, errand.number);
            if due != (arrival.robot, arrival.client, arrival.number) {
                return false;
            }
        }
        number = number.saturating_add(1);
    }
    shown.next().is_none()
}

/// Whether a tick shows a farewell of each robot that is shut and whose last errand is done, in the order of the
/// robots, and no others.
fn are_leaving(fleet: &Fleet, to: &[u32], farewells: &[Bye]) -> bool {
    let mut left = farewells.iter();
    let mut number = 0u32;
    for (robot, cell) in fleet.robots.iter().zip(to.iter()) {
        if robot.shut && robot.errands.len() == 1 && robot.goal() == Some(*cell) {
            let Some(farewell) = left.next() else {
                return false;
            };
            if farewell.robot != number {
                return false;
            }
        }
        number = number.saturating_add(1);
    }
    left.next().is_none()
}

fn is_within(law: StampLaw, stamp: u32) -> bool {
    law.low <= stamp && stamp <= law.high
}

/// Whether the stamps of a tick lie in their robots' laws.
fn are_stamps(fleet: &Fleet, arrived: &[Arrival], farewells: &[Bye]) -> bool {
    let are_arrivals = arrived.iter().all(|arrival| {
        fleet
            .robot(arrival.robot)
            .is_some_and(|robot| is_within(robot.arrival_law, arrival.stamp))
    });
    are_arrivals
        && farewells.iter().all(|farewell| {
            fleet
                .robot(farewell.robot)
                .is_some_and(|robot| is_within(robot.farewell_law, farewell.stamp))
        })
}

/// The rule that a tick breaks.
fn tick_rule(
    site: &Site,
    fleet: &Fleet,
    to: &[u32],
    arrived: &[Arrival],
    farewells: &[Bye],
) -> Option<u8> {
    if !is_step(site, fleet, to) {
        Some(4)
    } else if !are_dues(fleet, to, arrived) {
        Some(5)
    } else if !are_leaving(fleet, to, farewells) {
        Some(6)
    } else if !are_stamps(fleet, arrived, farewells) {
        Some(7)
    } else {
        None
    }
}

/// The rule that a shut breaks.
fn shut_rule(fleet: &Fleet, robot: u32, farewell: Option<u32>) -> Option<u8> {
    let Some(robot) = fleet.robot(robot) else {
        return Some(8);
    };
    if robot.shut {
        return Some(8);
    }
    match farewell {
        None if robot.errands.is_empty() => Some(6),
        None => None,
        Some(_) if !robot.errands.is_empty() => Some(6),
        Some(stamp) if !is_within(robot.farewell_law, stamp) => Some(7),
        Some(_) => None,
    }
}

/// The rule that an entry breaks.
fn entry_rule(site: &Site, fleet: &Fleet, entry: &Entry) -> Option<u8> {
    match entry {
        Entry::Take {
            client,
            order,
            verdict,
        } => match verdict_on(site, fleet, *client, *order) {
            None => Some(2),
            Some(rightly) if rightly != *verdict => Some(3),
            Some(_) => None,
        },
        Entry::Tick {
            to,
            arrived,
            farewells,
        } => {
            let (arrived, farewells) = (arrived.as_slice(), farewells.as_slice());
            tick_rule(site, fleet, to.as_slice(), arrived, farewells)
        }
        Entry::Shut { robot, farewell } => shut_rule(fleet, *robot, *farewell),
    }
}

/// The entry, from 1, and the rule that entries break first.
fn first_broken(
    site: &Site,
    fleet: &mut Fleet,
    entries: &[Entry],
) -> Result<Option<(u64, u8)>, AllocError> {
    let mut at = 0u64;
    for entry in entries {
        at = at.saturating_add(1);
        if let Some(rule) = entry_rule(site, fleet, entry) {
            return Ok(Some((at, rule)));
        }
        fleet.enter(entry)?;
    }
    Ok(None)
}

/// The entry, from 1, and the rule that a chapter breaks first; 0 and 1 where it is its opening.
pub fn first_fault(
    alloc: Global,
    site: &Site,
    chapter: &Chapter,
) -> Result<Option<(u64, u8)>, AllocError> {
    if !is_in_order(site, &chapter.opening) {
        return Ok(Some((0, 1)));
    }
    let mut fleet = Fleet::of(alloc, &chapter.opening)?;
    first_broken(site, &mut fleet, &chapter.entries)
}
