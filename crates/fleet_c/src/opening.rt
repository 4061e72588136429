//! A fleet at its opening.

ghost use Rattle.std.specs.Prelude.{◌≡◌, IfOk, IfErr, length, map, min};
ghost use Rattle.std.specs.Box.{box_value};
ghost use Rattle.fleet_core.specs.Hooks.{laws_of};
ghost use Rattle.fleet_map.specs.Text.{lines_of};
ghost use Rattle.fleet_map.specs.FirstFault.{IsFirstFault};
ghost use Rattle.fleet_c.specs.Forms.{starts_of, laws_of_robots};
ghost use Rattle.fleet_c.specs.Opening.{Reads, IsAtOpening, IsOpened, IsRefusal, IsRefusedOn};
ghost use Rattle.fleet_c.specs.Roomy.{AreRefused, Refuses};

use crate::fleet::Fleet;
use crate::refusal::Refusal;
use crate::robot::Robot;
use crate::setup::{SETUP_SIZE, Setup};
use fleet_core::{Core, OpenFault, World};
use fleet_grid::Grid;
use fleet_hooks::{ArrivalHook, Farewell, Hooks, TieHook};
use fleet_map::{MapFault, read_map};
use fleet_roomy::{UnroomyCells, unroomy_cells};
use std::alloc::{AllocError, Global};

/// The floor of a map's text.
pub(crate) fn grid_of(alloc: Global, map: &[u8]) -> Result<Grid, MapFault>
    ensures read { IfOk result (λ grid. Reads map.now grid) }
    ensures first { IfErr result (λ fault. IsFirstFault (lines_of map.now) fault) }
{
    let text = read_map(alloc, map)?;
    match Grid::new(text) {
        Ok(grid) => Ok(grid),
        Err(_) => Err(MapFault::NoMemory),
    }
}

/// The robots' starts.
fn starts(alloc: Global, robots: &[Robot]) -> Result<Vec<u32>, AllocError>
    ensures { IfOk result (λ starts. starts.items ≡ starts_of robots.now) }
{
    robots.iter().map(|robot| robot.cell).collect(alloc)
}

/// Opens the core of a world; the robots' fixed answers are dropped.
fn core_of(
    alloc: Global,
    grid: Grid,
    starts: Vec<u32>,
    robots: &[Robot],
    setup: &Setup,
    hooks: Hooks,
) -> Result<Core, Refusal>
    requires starts { starts.items ≡ starts_of robots.now }
    requires laws { laws_of hooks ≡ laws_of_robots robots.now }
    ensures ok { IfOk result (λ w. IsAtOpening grid robots.now setup.now w) }
    ensures err { IfErr result (λ why. IsRefusedOn grid robots.now setup.now why) }
{
    match World::open(alloc, grid, starts, setup.clients, setup.limits(), hooks) {
        Ok(world) => {
            let (core, robots) = world.apart();
            drop(robots);
            Ok(core)
        }
        Err(OpenFault::Limits) => Err(Refusal::Setup),
        Err(OpenFault::NoRobots) => Err(Refusal::RobotCount),
        Err(OpenFault::Start(robot)) => Err(Refusal::Start(robot)),
        Err(OpenFault::Shared(first, second)) => Err(Refusal::Shared(first, second)),
        // There is one answer of each kind a robot.
        Err(OpenFault::Hooks) => unreachable!(),
        Err(OpenFault::NoMemory) => Err(Refusal::NoMemory),
    }
}

/// Opens the core of a world, and makes the robots' fixed answers for it.
fn opened(
    alloc: Global,
    grid: Grid,
    starts: Vec<u32>,
    robots: &[Robot],
    setup: &Setup,
) -> Result<Core, Refusal>
    requires { starts.items ≡ starts_of robots.now }
    ensures ok { IfOk result (λ w. IsAtOpening grid robots.now setup.now w) }
    ensures err { IfErr result (λ why. IsRefusedOn grid robots.now setup.now why) }
{
    let mut hooks = Hooks::new(alloc);
    for robot in robots {
        hooks.push(
            TieHook::fixed(robot.ranks),
            ArrivalHook::fixed(0),
            Farewell::fixed(0),
        )?;
    }
    core_of(alloc, grid, starts, robots, setup, hooks)
}

/// A number of robots: a fleet has at most 512.
pub(crate) fn clamped(robots: usize) -> u32
    ensures { result ≡ min robots 4294967295 }
{
    u32::try_from(robots).unwrap_or(u32::MAX)
}

/// How many robots these are.
fn counted(robots: &[Robot]) -> u32
    ensures { result ≡ min (length robots.now) 4294967295 }
{
    clamped(robots.len())
}

/// The cells that a fleet of this many robots refuses: if `roomy`, the floor cells that are not roomy for them, and else none.
fn refused_of(
    alloc: Global,
    roomy: bool,
    grid: &Grid,
    robots: u32,
) -> Result<UnroomyCells, AllocError>
    ensures { IfOk result (λ cells. AreRefused roomy grid.now robots cells.marks.items) }
{
    if roomy {
        unroomy_cells(alloc, grid, robots)
    } else {
        Ok(UnroomyCells::none(alloc))
    }
}

/// A fleet, in a box.
pub(crate) fn boxed(
    alloc: Global,
    core: Core,
    refused: UnroomyCells,
) -> Result<Box<Fleet>, AllocError>
    ensures { IfOk result (λ fleet. (box_value fleet).core ≡ core × (box_value fleet).refused ≡ refused) }
{
    match Box::new(alloc, Fleet { core, refused }) {
        Ok(boxed) => Ok(boxed),
        Err(_) => Err(AllocError),
    }
}

/// A fleet that is opened on a map, in a box. If `roomy`, it refuses errands to cells that are not roomy for its robots.
pub(crate) fn open_on(
    alloc: Global,
    roomy: bool,
    map: &[u8],
    robots: &[Robot],
    setup: &Setup,
) -> Result<Box<Fleet>, Refusal>
    ensures ok { IfOk result (λ fleet. IsOpened map.now robots.now setup.now (box_value fleet).core) }
    ensures refused { IfOk result (λ fleet. Refuses roomy (box_value fleet)) }
    ensures err { IfErr result (λ why. IsRefusal map.now robots.now setup.now why) }
{
    if setup.size != SETUP_SIZE {
        return Err(Refusal::Size);
    }
    let starts = starts(alloc, robots)?;
    let grid = match grid_of(alloc, map) {
        Ok(grid) => grid,
        Err(fault) => return Err(Refusal::Map(fault)),
    };
    let refused = refused_of(alloc, roomy, &grid, counted(robots))?;
    let core = opened(alloc, grid, starts, robots, setup)?;
    Ok(boxed(alloc, core, refused)?)
}
