//! Seeded maps and scripts.

use super::dice::Dice;
use std::alloc::{AllocError, Global};
use std::fmt::Write;
use test_kit::Bundle;

/// A map and a script of a seeded world.
#[derive(Drop)]
pub(crate) struct Texts {
    pub(crate) map: String,
    pub(crate) script: String,
}

impl Texts {
    /// Their bytes.
    pub(crate) fn as_bundle(&self) -> Bundle<'_> {
        Bundle {
            map: self.map.as_bytes(),
            script: self.script.as_bytes(),
        }
    }
}

/// The rows of a map of this many rows and columns. The floor's cells are listed.
fn write_rows(
    text: &mut String,
    floor: &mut Vec<u64>,
    dice: &mut Dice,
    sides: (u64, u64),
) -> Result<(), AllocError> {
    let (height, width) = sides;
    let mut cell = 0u64;
    for _row in 0..height {
        for _column in 0..width {
            let is_floor = cell == 0 || dice.below(4) > 0;
            text.push_str(if is_floor { "." } else { "@" })?;
            if is_floor {
                floor.push(cell)?;
            }
            cell = cell.saturating_add(1);
        }
        text.push_str("\n")?;
    }
    Ok(())
}

/// A seeded map of this many rows and columns, three quarters of it floor.
fn map_of(
    alloc: Global,
    dice: &mut Dice,
    sides: (u64, u64),
) -> Result<(String, Vec<u64>), AllocError> {
    let (height, width) = sides;
    let mut text = format!(in alloc; "type octile\nheight {height}\nwidth {width}\nmap\n")?;
    let mut floor = Vec::new(alloc);
    write_rows(&mut text, &mut floor, dice, sides)?;
    Ok((text, floor))
}

/// Up to four robots on floor cells, each on its own. The result is how many.
fn write_robots(
    text: &mut String,
    dice: &mut Dice,
    floor: &mut Vec<u64>,
) -> Result<u64, AllocError> {
    text.push_str("robots")?;
    let mut robots = 0u64;
    for _robot in 0..4 {
        if floor.is_empty() {
            break;
        }
        let at = dice.below(floor.len() as u64) as usize;
        if at < floor.len() && (robots == 0 || dice.below(4) > 0) {
            write!(text, " {}", floor.remove(at))?;
            robots = robots.saturating_add(1);
        }
    }
    text.push_str("\n")?;
    Ok(robots)
}

/// One event of a client or of the world.
fn write_event(
    text: &mut String,
    dice: &mut Dice,
    clients: u64,
    robots: u64,
    cells: u64,
) -> Result<(), AllocError> {
    let client = dice.below(clients);
    match dice.below(24) {
        0..6 => {
            let spare = if dice.below(8) == 0 { 1 } else { 0 };
            let robot = dice.below(robots.saturating_add(spare));
            let cell = dice.below(cells.saturating_add(1));
            writeln!(text, "post {client} go {robot} {cell}")
        }
        6 => writeln!(text, "post {client} withdraw {}", dice.below(6)),
        7 if dice.below(4) == 0 => writeln!(text, "post {client} close"),
        8..16 => writeln!(text, "take {client}"),
        16..21 => writeln!(text, "tick"),
        21..23 => writeln!(text, "give {client}"),
        23 if dice.below(3) == 0 => writeln!(text, "shut {}", dice.below(robots)),
        _ => writeln!(text, "tick 2"),
    }
}

/// A script on a map with these floor cells, of this many cells.
fn write_script(
    text: &mut String,
    dice: &mut Dice,
    floor: &mut Vec<u64>,
    cells: u64,
) -> Result<(), AllocError> {
    let robots = write_robots(text, dice, floor)?;
    let clients = dice.between(1, 3);
    writeln!(text, "clients {clients}")?;
    writeln!(text, "queue {}", dice.between(1, 4))?;
    writeln!(text, "mailbox {}", dice.between(4, 20))?;
    writeln!(text, "life {}", dice.between(1, 12))?;
    if dice.below(2) == 0 {
        text.push_str("ties south\n")?;
    }
    for _event in 0..50 {
        write_event(text, dice, clients, robots, cells)?;
    }
    Ok(())
}

/// The map and the script of a seed.
pub(crate) fn texts_of(alloc: Global, dice: &mut Dice) -> Result<Texts, AllocError> {
    let sides = (dice.between(1, 4), dice.between(1, 4));
    let (map, mut floor) = map_of(alloc, dice, sides)?;
    let mut script = String::new(alloc);
    write_script(
        &mut script,
        dice,
        &mut floor,
        sides.0.saturating_mul(sides.1),
    )?;
    Ok(Texts { map, script })
}
