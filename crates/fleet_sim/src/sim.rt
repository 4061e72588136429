//! A run whose robots always have one errand.

ghost use Rattle.std.specs.Prelude.{◌≡◌, ◌≢◌, ◌≤◌, ◌⊎◌, [], IsTrue, vec_len, IfOk, IfErr, IfSome, OnOk, OnErr, None, Some};
ghost use Rattle.fleet_core.specs.Core.{Ticks};
ghost use Rattle.fleet_core.specs.declared.faults.TickReport.{TickReport};
ghost use Rattle.fleet_sim.specs.Sim.{IsEnd, IsSet, IsUnset};
ghost use Rattle.mover.specs.declared.manner.Manner.TheVariants as manner;

use crate::fault::SimFault;
use crate::goals::Goals;
use crate::setting::Setting;
use crate::starts::{are_starts, starts_of};
use fleet_book::{Limits, Notice, Order};
use fleet_core::{Chapter, Hooks, TakeFault, TickFault, World};
use fleet_grid::Grid;
use mover::Manner;
use rand_core::SeedableRng;
use rand_xoshiro::Xoshiro256PlusPlus;
use std::alloc::{Alloc, AllocError, Global};
use std::mem;

/// No fleet has more robots.
const MOST_ROBOTS: u32 = 512;

/// A robot has one errand, and the mailbox is emptied after each tick. The history has one chapter.
const LIMITS: Limits = Limits {
    queue: 1,
    mailbox: 4_096,
    life: 1_099_511_627_776,
    orders: 4_611_686_018_427_387_904,
    clock: 281_474_976_710_656,
    chapter: 16_777_216,
    ..Limits::DEFAULT
};

/// A run: a world, the random numbers, and the cells to which its robots are sent.
#[derive(Drop)]
pub struct Sim {
    pub world: World,
    random: Xoshiro256PlusPlus,
    goals: Goals,
}

/// A run that has ended: its map, and its history, which has one chapter.
#[derive(Drop)]
pub struct Ended {
    pub grid: Grid,
    pub chapters: Vec<Chapter>,
}

/// Where robots start, their goals, and the random numbers after that.
#[derive(Drop)]
struct Begin {
    starts: Vec<u32>,
    goals: Goals,
    random: Xoshiro256PlusPlus,
}

/// Whether a setting gives starts for which there is no run.
fn has_bad_starts(grid: &Grid, setting: Setting<'_>) -> bool
    ensures { IsTrue result → setting.entry.starts ≢ None }
{
    match setting.starts {
        Some(cells) => !are_starts(grid, cells, setting.robots as usize),
        None => false,
    }
}

/// Why a setting has no run.
fn setting_fault(grid: &Grid, setting: Setting<'_>) -> Option<SimFault>
    ensures fault { IfSome result (IsUnset grid.now setting.entry) }
    ensures none { result ≡ None → IsSet grid.now setting.entry.robots }
{
    if setting.robots == 0 || setting.robots > MOST_ROBOTS {
        Some(SimFault::Robots)
    } else if grid.floor_count() < setting.robots {
        Some(SimFault::Floor)
    } else if has_bad_starts(grid, setting) {
        Some(SimFault::Starts)
    } else {
        None
    }
}

/// The begin of a run.
fn begin_of(alloc: Global, grid: &Grid, setting: Setting<'_>) -> Result<Begin, AllocError> {
    let mut random = Xoshiro256PlusPlus::seed_from_u64(setting.seed);
    let starts = starts_of(alloc, grid, setting, &mut random)?;
    let goals = Goals::of(alloc, grid, &starts, setting)?;
    Ok(Begin {
        starts,
        goals,
        random,
    })
}

/// A world of robots that start on these cells.
fn world_of(alloc: Global, grid: Grid, starts: Vec<u32>, hooks: Hooks) -> Result<World, SimFault>
    // Of each call: only a call with a condition may hand on closures.
    requires { 0 ≤ vec_len hooks.ties }
    ensures floor { IfOk result (λ w. w.core.floor ≡ grid) }
    ensures entries { IfOk result (λ w. w.core.history.entries ≡ []) }
    ensures fault { IfErr result (λ f. f ≡ SimFault.NoMemory) }
{
    match World::open(alloc, grid, starts, 1, LIMITS, hooks) {
        Ok(world) => Ok(world),
        // The starts are distinct floor cells, so with hooks for all robots only memory is left.
        Err(_) => Err(SimFault::NoMemory),
    }
}

/// A world whose ticks are planned in this manner.
fn planned(world: World, how: Manner) -> Result<World, SimFault>
    requires { world.core.history.entries ≡ [] }
    ensures floor { IfOk result (λ w. w.core.floor ≡ world.core.floor) }
    ensures fault { IfErr result (λ f. (f ≡ SimFault.Turns) × (how ≡ manner.Turns)) }
{
    let mut world = world;
    let taken = match how {
        Manner::Plain => Ok(()),
        Manner::Turns => world.take_turns(),
    };
    match taken {
        Ok(()) => Ok(world),
        Err(_) => {
            let _ended = world.finish();
            Err(SimFault::Turns)
        }
    }
}

/// The world of a begin, on its map.
fn opened(
    alloc: Global,
    grid: Grid,
    starts: Vec<u32>,
    how: Manner,
    hooks: Hooks,
) -> Result<World, SimFault>
    requires { 0 ≤ vec_len hooks.ties }
    ensures floor { IfOk result (λ w. w.core.floor ≡ grid) }
    ensures fault { IfErr result (λ f. (f ≡ SimFault.NoMemory) ⊎ ((f ≡ SimFault.Turns) × (how ≡ manner.Turns))) }
{
    match world_of(alloc, grid, starts, hooks) {
        Ok(world) => planned(world, how),
        Err(fault) => Err(fault),
    }
}

/// The next notice of the only client.
fn next(world: &mut World) -> Option<Notice>
    ensures { world.new.core.floor ≡ world.old.core.floor }
{
    if world.clients() == 0 {
        return None;
    }
    world.give(0)
}

/// Sends a robot to a cell.
fn send(world: &mut World, robot: u32, cell: u32) -> Result<(), SimFault>
    ensures { world.new.core.floor ≡ world.old.core.floor }
{
    if world.clients() == 0 {
        return Ok(());
    }
    match world.take(0, Order::Go { robot, cell }) {
        Ok(_verdict) => Ok(()),
        Err(TakeFault::NoMemory) => Err(SimFault::NoMemory),
        Err(_) => Err(SimFault::Full),
    }
}

impl Sim {
    /// Opens a run on a map: the robots stand on the starts that are given, or on distinct random floor cells, and have no
    /// errands yet. There are hooks for as many robots.
    ///
    /// Refused in this order: not 1 to 512 robots, fewer floor cells than robots, starts that are not distinct floor
    /// cells, out of memory, no turns on this map.
    pub fn open(
        alloc: Global,
        grid: Grid,
        setting: Setting<'_>,
        hooks: Hooks,
    ) -> Result<Sim, SimFault>
        requires { 0 ≤ vec_len hooks.ties }
        ensures set { OnOk result (IsSet grid setting.entry.robots) }
        ensures floor { IfOk result (λ s. s.world.core.floor ≡ grid) }
        ensures fault { IfErr result (IsUnset grid setting.entry) }
    {
        if let Some(fault) = setting_fault(&grid, setting) {
            mem::drop(hooks);
            mem::drop(grid);
            return Err(fault);
        }
        match begin_of(alloc, &grid, setting) {
            Ok(
                Begin {
                    starts,
                    goals,
                    random,
                },
            ) => match opened(alloc, grid, starts, setting.manner, hooks) {
                Ok(world) => Ok(Sim {
                    world,
                    random,
                    goals,
                }),
                Err(fault) => Err(fault),
            },
            Err(AllocError) => {
                mem::drop(hooks);
                mem::drop(grid);
                Err(SimFault::NoMemory)
            }
        }
    }

    /// Sends a robot to its next goal, in its part and not its cell, if there is one.
    fn send_on(&mut self, robot: u32) -> Result<(), SimFault>
        ensures { self.new.world.core.floor ≡ self.old.world.core.floor }
    {
        let own = match self.world.placement().get(robot as usize) {
            Some(cell) => *cell,
            None => return Ok(()),
        };
        let goal = self
            .goals
            .next(self.world.grid(), robot, own, &mut self.random);
        match goal {
            Some(cell) => send(&mut self.world, robot, cell),
            None => Ok(()),
        }
    }

    /// Gives each robot its first errand, robot by robot.
    pub fn begin(&mut self) -> Result<(), SimFault>
        // Of each call: the checker lets closures go to another crate only in a call with a `requires`.
        requires { 0 ≤ self.old.world.core.number }
        ensures { self.new.world.core.floor ≡ self.old.world.core.floor }
    {
        for robot in 0..MOST_ROBOTS {
            if robot as usize >= self.world.robots() {
                break;
            }
            self.send_on(robot)?;
        }
        Ok(())
    }

    /// Gives each robot that has arrived its next errand, in the order of the notices.
    pub fn order(&mut self) -> Result<(), SimFault>
        // Of each call: the checker lets closures go to another crate only in a call with a `requires`.
        requires { 0 ≤ self.old.world.core.number }
        ensures { self.new.world.core.floor ≡ self.old.world.core.floor }
    {
        for _ in 0..LIMITS.mailbox {
            match next(&mut self.world) {
                Some(Notice::Arrived { robot, .. }) => self.send_on(robot)?,
                Some(_) => {}
                None => break,
            }
        }
        Ok(())
    }

    /// Moves all robots by one step.
    ///
    /// Refused in this order: the history is full, out of memory.
    pub fn tick<R: Alloc<A = Global>>(&mut self, rt: &R) -> Result<(), SimFault>
        // Of each call: the checker lets closures go to another crate only in a call with a `requires`.
        requires { 0 ≤ self.old.world.core.number }
        ensures ticked { OnOk result ((report : TickReport) × Ticks self.old.world.core report self.new.world.core) }
        ensures kept { OnErr result (self.new.world.core ≡ self.old.world.core) }
    {
        match self.world.tick(rt) {
            Ok(_report) => Ok(()),
            Err(TickFault::NoMemory) => Err(SimFault::NoMemory),
            Err(_) => Err(SimFault::Full),
        }
    }

    /// Ends the run.
    pub fn finish(self, alloc: Global) -> Result<Ended, AllocError>
        ensures { IfOk result (IsEnd self.world.core) }
    {
        let Sim {
            world,
            random: _,
            goals: _,
        } = self;
        let (grid, chapter) = world.finish();
        let mut chapters = Vec::new(alloc);
        chapters.push(chapter)?;
        Ok(Ended { grid, chapters })
    }
}
