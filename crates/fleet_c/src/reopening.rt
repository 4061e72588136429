//! A fleet that goes on from a kept chapter.

ghost use Rattle.std.specs.Prelude.{◌≡◌, ◌≢◌, ◌↔◌, IfOk, IfErr, IsSomeAnd, is_some, false, true};
ghost use Rattle.std.specs.Box.{box_value};
ghost use Rattle.fleet_history.specs.History.{robots};
ghost use Rattle.fleet_trace.specs.Trace.{trace_of};
ghost use Rattle.fleet_bridge.specs.Roominess.{AreRoomyFor};
ghost use Rattle.fleet_c.specs.Forms.{laws_of_robots};
ghost use Rattle.fleet_c.specs.Roomy.{AreRefused, Refuses};
ghost use Rattle.fleet_c.specs.Reopened.{IsGoingOn, IsNotGoingOn, GoesOnFrom, GoesOnRoomily, DoesNotGoOnFrom, DoesNotGoOnRoomily, IsReopened, IsReopenedRoomily, IsNotReopened, IsNotReopenedRoomily, IsWhyNotReopened};

use crate::codes::{ALREADY_OPEN, DONE};
use crate::fault::Fault;
use crate::fleet::Fleet;
use crate::handle::Handle;
use crate::opening::{boxed, clamped, grid_of};
use crate::reopen_refusal::ReopenRefusal;
use crate::robot::Robot;
use crate::setup::{SETUP_SIZE, Setup};
use fleet_bridge::roominess;
use fleet_core::{Core, HookLaws};
use fleet_grid::Grid;
use fleet_history::Chapter;
use fleet_hooks::{ArrivalHook, Farewell, Hooks, TieHook};
use fleet_reopen::reopen;
use fleet_roomy::{UnroomyCells, unroomy_by};
use fleet_trace::read_trace;
use std::alloc::{AllocError, Global};
use std::mem;

/// The laws of closures that rank as the robots do, and give 0 as each stamp.
fn laws_of_ranks(alloc: Global, robots: &[Robot]) -> Result<HookLaws, AllocError>
    ensures { IfOk result (λ laws. laws ≡ laws_of_robots robots.now) }
{
    let mut hooks = Hooks::new(alloc);
    for robot in robots {
        hooks.push(
            TieHook::fixed(robot.ranks),
            ArrivalHook::fixed(0),
            Farewell::fixed(0),
        )?;
    }
    HookLaws::of(alloc, &hooks)
}

/// The core that goes on from a chapter.
fn gone_on(
    alloc: Global,
    grid: Grid,
    chapter: &Chapter,
    robots: &[Robot],
    setup: &Setup,
) -> Result<Core, ReopenRefusal>
    ensures ok { IfOk result (λ w. IsGoingOn grid (trace_of chapter.now) robots.now setup.now w) }
    ensures err { IfErr result (λ why. IsNotGoingOn grid (trace_of chapter.now) robots.now setup.now why) }
{
    let Ok(laws) = laws_of_ranks(alloc, robots) else {
        // By a call: a drop that goes unsaid is proved anew, list by list.
        mem::drop(grid);
        return Err(ReopenRefusal::NoMemory);
    };
    match reopen(alloc, grid, chapter, setup.limits(), laws) {
        Ok(core) => Ok(core),
        Err(why) => Err(ReopenRefusal::Chapter(why)),
    }
}

/// The core that goes on from the text of a chapter.
fn core_from(
    alloc: Global,
    grid: Grid,
    text: &[u8],
    robots: &[Robot],
    setup: &Setup,
) -> Result<Core, ReopenRefusal>
    ensures ok { IfOk result (λ w. GoesOnFrom grid text.now robots.now setup.now w) }
    ensures err { IfErr result (λ why. DoesNotGoOnFrom grid text.now robots.now setup.now why) }
{
    match read_trace(alloc, text) {
        Ok(chapter) => {
            let core = gone_on(alloc, grid, &chapter, robots, setup);
            mem::drop(chapter);
            core
        }
        Err(why) => {
            mem::drop(grid);
            Err(ReopenRefusal::Trace(why))
        }
    }
}

/// How roomy each cell of a map is, and the cells that a fleet refuses for it.
#[derive(Drop)]
struct Rooms {
    most: Vec<u32>,
    refused: UnroomyCells,
}

/// Those of a fleet of this many robots.
fn rooms_of(alloc: Global, grid: &Grid, robots: u32) -> Result<Rooms, AllocError>
    ensures most { IfOk result (λ rooms. AreRoomyFor grid.now rooms.most.items) }
    ensures refused { IfOk result (λ rooms. AreRefused true grid.now robots rooms.refused.marks.items) }
{
    let most = roominess(alloc, grid)?;
    let refused = unroomy_by(alloc, grid, &most, robots)?;
    Ok(Rooms { most, refused })
}

/// The number of a fleet's robots.
fn robots_of(core: &Core) -> u32
    ensures { result ≡ robots core.now.history }
{
    // This states that there are at most 512.
    let _ = core.chapter();
    clamped(core.robots())
}

/// The fleet that goes on from the text of a chapter, in a box.
fn fleet_from(
    alloc: Global,
    grid: Grid,
    text: &[u8],
    robots: &[Robot],
    setup: &Setup,
) -> Result<Box<Fleet>, ReopenRefusal>
    ensures ok { IfOk result (λ fleet. GoesOnFrom grid text.now robots.now setup.now (box_value fleet).core × Refuses false (box_value fleet)) }
    ensures err { IfErr result (λ why. DoesNotGoOnFrom grid text.now robots.now setup.now why) }
{
    let core = core_from(alloc, grid, text, robots, setup)?;
    Ok(boxed(alloc, core, UnroomyCells::none(alloc))?)
}

/// The same, but if an unfinished errand goes to a cell that is not roomy no fleet goes on, and it takes no such errand.
fn roomy_fleet_from(
    alloc: Global,
    grid: Grid,
    text: &[u8],
    robots: &[Robot],
    setup: &Setup,
) -> Result<Box<Fleet>, ReopenRefusal>
    ensures ok { IfOk result (λ fleet. GoesOnRoomily grid text.now robots.now setup.now (box_value fleet).core × Refuses true (box_value fleet)) }
    ensures err { IfErr result (λ why. DoesNotGoOnRoomily grid text.now robots.now setup.now why) }
{
    let core = core_from(alloc, grid, text, robots, setup)?;
    let Ok(rooms) = rooms_of(alloc, core.grid(), robots_of(&core)) else {
        mem::drop(core);
        return Err(ReopenRefusal::NoMemory);
    };
    if !core.are_roomy(&rooms.most) {
        return Err(ReopenRefusal::NoRoom);
    }
    Ok(boxed(alloc, core, rooms.refused)?)
}

/// The fleet that goes on, in a box.
fn reopen_on(
    alloc: Global,
    map: &[u8],
    text: &[u8],
    robots: &[Robot],
    setup: &Setup,
) -> Result<Box<Fleet>, ReopenRefusal>
    ensures ok { IfOk result (λ fleet. IsReopened map.now text.now robots.now setup.now (box_value fleet).core × Refuses false (box_value fleet)) }
    ensures err { IfErr result (λ why. IsNotReopened map.now text.now robots.now setup.now why) }
{
    if setup.size != SETUP_SIZE {
        return Err(ReopenRefusal::Size);
    }
    let grid = match grid_of(alloc, map) {
        Ok(grid) => grid,
        Err(fault) => return Err(ReopenRefusal::Map(fault)),
    };
    fleet_from(alloc, grid, text, robots, setup)
}

/// The same of a fleet that takes no errand to a cell that is not roomy.
pub(crate) fn reopen_roomy_on(
    alloc: Global,
    map: &[u8],
    text: &[u8],
    robots: &[Robot],
    setup: &Setup,
) -> Result<Box<Fleet>, ReopenRefusal>
    ensures ok { IfOk result (λ fleet. IsReopenedRoomily map.now text.now robots.now setup.now (box_value fleet).core × Refuses true (box_value fleet)) }
    ensures err { IfErr result (λ why. IsNotReopenedRoomily map.now text.now robots.now setup.now why) }
{
    if setup.size != SETUP_SIZE {
        return Err(ReopenRefusal::Size);
    }
    let grid = match grid_of(alloc, map) {
        Ok(grid) => grid,
        Err(fault) => return Err(ReopenRefusal::Map(fault)),
    };
    roomy_fleet_from(alloc, grid, text, robots, setup)
}

/// Opens a closed handle: the fleet that goes on from a chapter that was kept, the text of `nashirudder_trace` at its
/// end. Its own chapter has the next number. Robots and clients are those of the chapter, and their notices were given:
/// mailboxes are empty. Of the robots only the ranks are read, of the setup all but the number of clients.
///
/// Refused in this order: the handle is open; a setup that is not of this library's size; the map's first fault; a text
/// that is no trace; a limit that is out of its range; a chapter that is not legal on the map; robots that are not as
/// many as the chapter's; another `queue` or `life` than the chapter's; no further chapter within the limits; a robot
/// that has waited longer than it may on a map without bridges; and out of memory at any time. `fault` says why. If the
/// handle is open, `fault` does not change.
#[unsafe(no_mangle)]
pub extern "C" fn nashirudder_reopen(
    alloc: Global,
    map: &[u8],
    text: &[u8],
    robots: &[Robot],
    setup: &Setup,
    fleet: &mut Handle,
    fault: &mut Fault,
) -> u32
    ensures open { (result ≡ ALREADY_OPEN) ↔ (is_some fleet.old.owned.held ≡ true) }
    ensures reopened { (result ≡ DONE) → IsSomeAnd fleet.new.owned.held (λ f. IsReopened map.now text.now robots.now setup.now f.core × Refuses false f) }
    ensures refused { (result ≢ DONE) → (result ≢ ALREADY_OPEN) → IsWhyNotReopened map.now text.now robots.now setup.now result fault.new }
    ensures same { (result ≢ DONE) → fleet.new.owned.held ≡ fleet.old.owned.held }
    ensures untouched { (result ≡ ALREADY_OPEN) → fault.new ≡ fault.old }
{
    if fleet.is_open() {
        return ALREADY_OPEN;
    }
    match reopen_on(alloc, map, text, robots, setup) {
        Ok(opened) => {
            fleet.put(opened);
            DONE
        }
        Err(why) => {
            *fault = why.fault();
            fault.code
        }
    }
}
