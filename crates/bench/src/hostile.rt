//! Whole maps of a hostile shape: read, described, and run through by one robot.

use crate::shape::Shape;
use crate::worlds::{Ground, Task, Work, measure_world};
use fleet_bridge::first_bridge;
use fleet_grid::Grid;
use fleet_map::read_map;
use std::alloc::{Alloc, Global};
use std::fs::Files;
use std::io::{self, ErrorKind};
use std::thread::Threads;
use std::time::{Clock, Instant};
use test_kit::Random;

/// How many ticks the robot travels.
const TICKS: u32 = 4_096;

/// Prints a line for each shape: the milliseconds in which its text was read, its grid described, and its world opened
/// and run.
pub(crate) fn measure_hostile<R: Alloc<A = Global> + Clock + Files + Print + Threads + Sync>(
    rt: &R,
    shapes: &[Shape],
) -> io::Result<()> {
    for shape in shapes {
        let text = shape.text(rt.alloc())?;
        measure_text(rt, shape.name(), &text)?;
    }
    Ok(())
}

/// The line of a map's text.
fn measure_text<R: Alloc<A = Global> + Clock + Files + Print + Threads + Sync>(
    rt: &R,
    name: &str,
    text: &[u8],
) -> io::Result<()> {
    let start = Instant::now(rt)?;
    let grid = read_grid(rt.alloc(), text)?;
    let read = start.elapsed(rt)?.as_millis();
    let described = time_description(rt, &grid)?;
    let ran = time_run(rt, grid)?;
    println!(rt; "hostile map={name} read_ms={read} describe_ms={described} run_ms={ran}")
}

/// The grid of a map's text.
pub(crate) fn read_grid(alloc: Global, text: &[u8]) -> io::Result<Grid> {
    match read_map(alloc, text) {
        Ok(map) => Ok(Grid::new(map)?),
        Err(_) => Err(io::Error::from(ErrorKind::InvalidData)),
    }
}

/// The milliseconds in which the grid's cells and edges are counted and its first bridge is found.
fn time_description<R: Alloc<A = Global> + Clock>(rt: &R, grid: &Grid) -> io::Result<u128> {
    let start = Instant::now(rt)?;
    let _floor = grid.floor_count();
    let _edges = grid.edge_count();
    let _bridge = first_bridge(rt.alloc(), grid)?;
    Ok(start.elapsed(rt)?.as_millis())
}

/// The first and the last floor cell.
fn ends(grid: &Grid) -> Option<(u32, u32)> {
    let first = (0..grid.cell_count()).find(|cell: &u32| grid.is_floor(*cell))?;
    let last = (first..grid.cell_count()).rfind(|cell: &u32| grid.is_floor(*cell))?;
    Some((first, last))
}

/// The milliseconds in which a world with a robot on the first floor cell is opened, the robot sent to the last one,
/// and ticks are made.
fn time_run<R: Alloc<A = Global> + Clock + Files + Print + Threads + Sync>(
    rt: &R,
    grid: Grid,
) -> io::Result<u128> {
    let start = Instant::now(rt)?;
    match ends(&grid) {
        Some((first, last)) => {
            let starts = Vec::from_slice(rt.alloc(), &[first])?;
            run_through(rt, Ground { grid, starts }, last)?;
            Ok(start.elapsed(rt)?.as_millis())
        }
        None => Ok(0),
    }
}

/// Runs a robot from its start to the cell.
fn run_through<R: Alloc<A = Global> + Clock + Files + Print + Threads + Sync>(
    rt: &R,
    ground: Ground,
    cell: u32,
) -> io::Result<()> {
    let goals = [cell];
    let task = Task {
        map: "",
        work: Work::Way { ticks: TICKS },
        goals: &goals,
    };
    measure_world(rt, task, &mut Some(ground), 1, &mut Random::from_seed(1))
}
