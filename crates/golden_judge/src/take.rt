//! The rule of verdicts.

use crate::fleet::{Fleet, Robot};
use crate::site::Site;
use fleet_book::{Order, Verdict};
use fleet_history::ClientState;

/// The verdict on an errand to a cell.
fn go(site: &Site, fleet: &Fleet, state: &ClientState, robot: u32, cell: u32) -> Verdict {
    let Some(robot) = fleet.robot(robot) else {
        return Verdict::NoRobot;
    };
    if robot.shut {
        Verdict::RobotShut
    } else if !site.is_cell(cell) {
        Verdict::NoCell
    } else if !site.is_floor(cell) {
        Verdict::Blocked
    } else if !site.is_joined(robot.cell, cell) {
        Verdict::Unreachable
    } else if robot.errands.len() >= fleet.queue as usize {
        Verdict::QueueFull
    } else if state.accepted >= fleet.life {
        Verdict::LifeSpent
    } else {
        Verdict::Accepted(state.accepted.saturating_add(1))
    }
}

/// Where in the robot's queue the client's errand with this number is.
fn place_in(robot: &Robot, client: u32, number: u64) -> Option<usize> {
    robot.errands.iter().position(|errand| errand.client == client && errand.number == number)
}

/// The verdict on a withdrawal.
fn withdraw(fleet: &Fleet, client: u32, number: u64) -> Verdict {
    for robot in &fleet.robots {
        match place_in(robot, client, number) {
            Some(0) => return Verdict::TooLate,
            Some(_) => return Verdict::Withdrawn,
            None => {}
        }
    }
    Verdict::NoErrand
}

/// The verdict on an order of a client that is there.
pub(crate) fn verdict_on(site: &Site, fleet: &Fleet, client: u32, order: Order) -> Option<Verdict> {
    let state = fleet.clients.get(client as usize)?;
    if state.closed {
        return Some(Verdict::ClientClosed);
    }
    Some(match order {
        Order::Go { robot, cell } => go(site, fleet, state, robot, cell),
        Order::Close => Verdict::Closed,
        Order::Withdraw { number } => withdraw(fleet, client, number),
    })
}
