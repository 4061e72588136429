//! Scripts from seeds.

ghost use Rattle.std.specs.Prelude.{◌<◌};

use crate::serves::yard::{CORRIDOR, FLOOR, RING, SHELVES, SQUARE, Yard};
use std::alloc::AllocError;
use std::fmt::Write;
use test_kit::Random;

fn yard_of(random: &mut Random) -> Yard {
    match random.below(4) {
        0 => RING,
        1 => SQUARE,
        2 => SHELVES,
        _ => CORRIDOR,
    }
}

/// The header line of the robots, on floor cells from the first on. The result is how many they are.
fn write_robots(text: &mut String, random: &mut Random, yard: &Yard) -> Result<usize, AllocError> {
    let wanted = 1 + random.below(16);
    let mut robots = 0usize;
    text.push_str("robots")?;
    for (cell, letter) in yard.letters.iter().enumerate() {
        if robots < wanted && *letter == FLOOR {
            write!(text, " {cell}")?;
            robots += 1;
        }
    }
    text.push_str("\n")?;
    Ok(robots)
}

/// A line of a client: a collect, a withdrawal, or an errand, now and then for no robot or to no cell.
fn write_line(
    text: &mut String,
    random: &mut Random,
    client: usize,
    robots: usize,
    cells: usize,
) -> Result<(), AllocError> {
    match random.below(8) {
        0 => write!(text, "collect {client}\n"),
        1 => {
            let number = 1 + random.below(4);
            write!(text, "post {client} withdraw {number}\n")
        }
        _ => {
            let robot = random.below(robots.saturating_add(1));
            let cell = random.below(cells.saturating_add(1));
            write!(text, "post {client} go {robot} {cell}\n")
        }
    }
}

/// The lines of the clients, up to six a client.
fn write_lines(
    text: &mut String,
    random: &mut Random,
    clients: usize,
    robots: usize,
    cells: usize,
) -> Result<(), AllocError>
    requires { 0 < clients }
{
    for _ in 0..clients.saturating_mul(1 + random.below(6)) {
        let client = random.below(clients);
        write_line(text, random, client, robots, cells)?;
    }
    Ok(())
}

/// The last lines of those clients who close.
fn write_closes(text: &mut String, random: &mut Random, clients: usize) -> Result<(), AllocError> {
    for client in 0..clients {
        if random.below(4) == 0 {
            write!(text, "post {client} close\n")?;
        }
    }
    Ok(())
}

/// A script of this many clients on a yard.
fn write_script(
    text: &mut String,
    random: &mut Random,
    yard: &Yard,
    clients: usize,
) -> Result<(), AllocError>
    requires { 0 < clients }
{
    let robots = write_robots(text, random, yard)?;
    let (lane, turns) = (1 + random.below(8), 1 + random.below(4));
    write!(text, "clients {clients}\nlane {lane}\nturns {turns}\n")?;
    let cells = yard.letters.len();
    write_lines(text, random, clients, robots, cells)?;
    write_closes(text, random, clients)
}

/// Writes the script of a seed, with 1 to 64 clients, some of whom close with their last line. The result is its yard.
pub(crate) fn write_seeded(text: &mut String, seed: u32) -> Result<Yard, AllocError> {
    let mut random = Random::from_seed(u64::from(seed));
    let yard = yard_of(&mut random);
    write_script(text, &mut random, &yard, 1 + seed as usize % 64)?;
    Ok(yard)
}
