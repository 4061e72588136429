//! How far the vehicles are.

use live_vehicles::Vehicles;
use std::alloc::AllocError;
use std::fmt::Write;

/// The robot whose move under way is the oldest, and its tick.
fn oldest(vehicles: &Vehicles) -> Option<(u32, u64)> {
    let mut found: Option<(u32, u64)> = None;
    let mut robot = 0u32;
    for place in &vehicles.places {
        if place.begun > place.reached {
            match found {
                Some((_, begun)) if begun <= place.begun => {}
                _ => found = Some((robot, place.begun)),
            }
        }
        robot = robot.saturating_add(1);
    }
    found
}

/// Writes how many turns the vehicles are behind, which move under way is the oldest, and where each robot is.
pub(crate) fn look(told: &mut String, vehicles: &Vehicles) -> Result<(), AllocError> {
    let (ticks, behind) = (
        vehicles.first.saturating_add(vehicles.run.steps()),
        vehicles.behind(),
    );
    write!(told, "look tick {ticks} behind {behind}")?;
    if let Some((robot, begun)) = oldest(vehicles) {
        let tick = vehicles.first.saturating_add(begun);
        write!(told, " oldest {robot} tick {tick}")?;
    }
    told.push_str("\n")?;
    for robot in 0..vehicles.places.len().min(u32::MAX as usize) as u32 {
        if let Some(standing) = vehicles.standing(robot) {
            let (cell, left) = (standing.cell, standing.left);
            write!(told, "robot {robot} cell {cell} left {left}")?;
            if let Some(to) = standing.bound_for {
                write!(told, " to {to}")?;
            }
            told.push_str("\n")?;
        }
    }
    told.push_str("look end\n")
}
