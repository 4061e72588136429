//! The rules of an opening.

use crate::site::Site;
use fleet_history::{ClientState, Opening, RobotState};
use fleet_hooks::StampLaw;
use fleet_queue::Errand;

/// The greatest count of an opening.
const MOST: u64 = 1 << 57;

fn is_law(law: StampLaw) -> bool {
    law.low <= law.high
}

/// Whether an errand is one that the client may have, on a cell that the robot can reach.
fn is_errand(site: &Site, opening: &Opening, robot: &RobotState, errand: &Errand) -> bool {
    let clients = opening.clients.as_slice();
    let Some(client) = clients.get(errand.client as usize) else {
        return false;
    };
    errand.number >= 1
        && errand.number <= client.accepted
        && site.is_joined(robot.cell, errand.cell)
}

/// Whether each errand has another name than those after it, and a lower number where the client is the same.
fn is_rising(errands: &[Errand]) -> bool {
    errands.iter().enumerate().all(|(at, lower)| {
        errands.iter().skip(at.saturating_add(1)).all(|upper| upper.client != lower.client
            || upper.number > lower.number)
    })
}

/// Whether a robot is in order by itself.
fn is_robot(site: &Site, opening: &Opening, robot: &RobotState) -> bool {
    let errands = robot.errands.as_slice();
    site.is_floor(robot.cell)
        && is_law(robot.arrival_law)
        && is_law(robot.farewell_law)
        && robot.wait.is_some() == !errands.is_empty()
        && robot.wait.unwrap_or(0) <= opening.tick
        && errands.len() <= opening.queue as usize
        && is_rising(errands)
        && errands
            .iter()
            .all(|errand| is_errand(site, opening, robot, errand))
}

fn has_name(robot: &RobotState, errand: &Errand) -> bool {
    let errands = robot.errands.as_slice();
    errands.iter().any(|other| other.client == errand.client && other.number == errand.number)
}

/// Whether two robots stand apart and have no errand of one name.
fn are_apart(robot: &RobotState, other: &RobotState) -> bool {
    let errands = robot.errands.as_slice();
    robot.cell != other.cell && !errands.iter().any(|errand| has_name(other, errand))
}

/// How many unfinished errands a client has.
fn owed(robots: &[RobotState], client: u32) -> u64 {
    let mut count = 0u64;
    for robot in robots {
        for errand in robot.errands.as_slice() {
            if errand.client == client {
                count = count.saturating_add(1);
            }
        }
    }
    count
}

/// Whether a client's counts are in order.
fn is_client(opening: &Opening, number: u32, client: &ClientState) -> bool {
    if client.taken > MOST || client.accepted > MOST || client.noticed > MOST {
        return false;
    }
    let owed = owed(opening.robots.as_slice(), number);
    client.accepted <= client.taken
        && client.accepted <= opening.life
        && (!client.closed || client.taken > client.accepted)
        && client.noticed >= client.taken
        && client.noticed.saturating_add(owed) <= client.taken.saturating_add(client.accepted)
}

fn are_clients(opening: &Opening) -> bool {
    let mut number = 0u32;
    for client in opening.clients.as_slice() {
        if !is_client(opening, number, client) {
            return false;
        }
        number = number.saturating_add(1);
    }
    true
}

fn are_robots(site: &Site, opening: &Opening) -> bool {
    let robots = opening.robots.as_slice();
    robots.iter().enumerate().all(|(at, robot)| {
        is_robot(site, opening, robot)
            && robots
                .iter()
                .skip(at.saturating_add(1))
                .all(|other| are_apart(robot, other))
    })
}

/// Whether an opening is in order on a map.
pub(crate) fn is_in_order(site: &Site, opening: &Opening) -> bool {
    let (robots, clients) = (opening.robots.len(), opening.clients.len());
    robots >= 1
        && robots <= 512
        && clients >= 1
        && clients <= 64
        && opening.queue >= 1
        && opening.queue <= 65_536
        && opening.life >= 1
        && opening.life <= 1 << 40
        && are_robots(site, opening)
        && are_clients(opening)
}
