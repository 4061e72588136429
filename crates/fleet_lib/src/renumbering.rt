//! The numbers that robots have in `live` and `talk`: those that move, counted from 0.

use fleet_refit::Standing;
use fleet_site::SiteRecord;
use std::alloc::{AllocError, Global};
use std::fmt::Write;

/// A place as a robot's number.
fn number_at(place: usize) -> u32 {
    match u32::try_from(place) {
        Ok(number) => number,
        // There are 512 robots at most, so this never runs
        Err(_) => u32::MAX,
    }
}

/// The robots that moved, in order: before the first changes these are all.
pub(crate) fn moved_before(
    alloc: Global,
    before: Option<&SiteRecord>,
    robots: usize,
) -> Result<Vec<u32>, AllocError> {
    let mut moved = Vec::new(alloc);
    let Some(record) = before else {
        for robot in 0..robots {
            moved.push(number_at(robot))?;
        }
        return Ok(moved);
    };
    for robot in 0..record.standings.len() {
        if record.standings[robot] == Standing::Moving {
            moved.push(number_at(robot))?;
        }
    }
    Ok(moved)
}

/// Whether the robot that moves at this place has another number there than it had. One that did not move has the number
/// that it has for ever.
fn is_renumbered(moved: &[u32], robot: u32, place: usize) -> bool {
    match moved.iter().position(|other| *other == robot) {
        Some(number) => number != place,
        None => robot as usize != place,
    }
}

/// The first robot that gets another number.
pub(crate) fn first_renumbered(moved: &[u32], numbers: &[u32]) -> Option<u32> {
    for place in 0..numbers.len() {
        if is_renumbered(moved, numbers[place], place) {
            return Some(numbers[place]);
        }
    }
    None
}

/// Adds a line for each robot that gets another number.
pub(crate) fn push_numbers(
    text: &mut String,
    moved: &[u32],
    numbers: &[u32],
) -> Result<(), AllocError> {
    for place in 0..numbers.len() {
        let robot = numbers[place];
        if is_renumbered(moved, robot, place) {
            write!(text, "renumbered robot {robot} live {place}\n")?;
        }
    }
    Ok(())
}
