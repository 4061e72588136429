//! `quickstart`: two robots change sides in a small hall, and their client gets its notices. It is the shortest whole
//! program on a world: copy it.
//! Then two clients use the hall in threads of their own (`threads.rt`).
#![tactic(auto)]

mod threads;

ghost use Rattle.std.specs.Prelude.{◌<◌, OnOk};
ghost use Rattle.fleet_history.specs.History.{clients};

use anyhow::{Result, bail};
use fleet_grid::Grid;
use fleet_hooks::{
    ArrivalHook, ArrivalView, Farewell, FarewellView, Hooks, StampLaw, TieHook, TieLaw,
};
use fleet_map::read_map;
use fleet_world::{Limits, Order, World};
use std::alloc::{Alloc, Global};

/// A hall of two rows of three cells, numbered row by row from 0.
const MAP: &[u8] = b"type octile\nheight 2\nwidth 3\nmap\n...\n...\n";

/// Begins the next chapter of the history if this one is full. A program that keeps its history stores the old chapter
/// here.
fn begin_next_if_full(world: &mut World) -> Result<()>
    requires { 0 < clients world.old.core.history }
    ensures { OnOk result (0 < clients world.new.core.history) }
{
    if world.chapter().entries.len() == 65_536 {
        let _chapter = world.next_chapter()?;
    }
    Ok(())
}

/// Sends each robot to the other side, and prints the notices of client 0.
fn play<R: Alloc<A = Global> + Print>(rt: &R, world: &mut World) -> Result<()>
    requires { 0 < clients world.old.core.history }
{
    for (robot, cell) in [(0, 2), (1, 0)] {
        let verdict = world.take(0, Order::Go { robot, cell })?;
        println!(rt; "robot {robot} to cell {cell}: {verdict:?}")?;
    }
    // This many ticks are enough for all errands, on a map without bridges.
    let Some(most) = world.idle_within() else {
        bail!("the map has a bridge")
    };
    for _ in 0..most {
        if world.is_idle() {
            break;
        }
        let report = world.tick(rt)?;
        println!(rt; "tick {}: {:?}", report.tick, world.placement())?;
        begin_next_if_full(world)?;
    }
    for _ in 0..world.pending_count(0) {
        if let Some(notice) = world.give(0) {
            println!(rt; "{notice:?}")?;
        }
    }
    Ok(())
}

/// Makes the hall, two robots and their closures, and lets them change sides.
fn change_sides<R: Alloc<A = Global> + Print>(rt: &R) -> Result<()> {
    let alloc = rt.alloc();
    let grid = Grid::new(read_map(alloc, MAP)?)?;
    let starts = Vec::from_slice(alloc, &[0, 2])?;
    let mut hooks = Hooks::new(alloc);
    for _robot in 0..starts.len() {
        hooks.push(
            TieHook::new(TieLaw::ANY, Box::new(alloc, |_| 0)?),
            ArrivalHook::new(
                StampLaw::ANY,
                Box::new(alloc, |view: ArrivalView| view.cell)?,
            ),
            Farewell::new(
                StampLaw::ANY,
                Box::new(alloc, |view: FarewellView| view.cell)?,
            ),
        )?;
    }
    let mut world = World::open(alloc, grid, starts, 1, Limits::DEFAULT, hooks)?;
    play(rt, &mut world)
}

fn main(rt: HostRuntime) -> Result<()> {
    change_sides(&rt)?;
    threads::play(&rt)?;
    Ok(())
}
