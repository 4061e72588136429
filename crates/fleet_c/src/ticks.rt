//! Robots move, and are shut.

ghost use Rattle.std.specs.Prelude.{◌≡◌, ◌≢◌};
ghost use Rattle.fleet_c.specs.Answers.{IsTicked, IsShut};
ghost use Rattle.fleet_c.specs.Codes.{tick_code, shut_code};
ghost use Rattle.fleet_c.specs.Handles.{OnFleet};

use crate::answers::{shut, ticked};
use crate::codes::{ALREADY_SHUT, CHAPTER_FULL, CLOCK_SPENT, DONE, NO_MEMORY, NO_ROBOT, NOT_OPEN};
use crate::handle::Handle;
use crate::report::Report;
use fleet_core::{Core, ShutFault, TickFault, TickReport};
use std::alloc::Global;

fn code_of_tick(answer: &Result<TickReport, TickFault>) -> u32
    ensures { result ≡ tick_code answer.now }
{
    match answer {
        Ok(_) => DONE,
        Err(TickFault::ClockSpent) => CLOCK_SPENT,
        Err(TickFault::ChapterFull) => CHAPTER_FULL,
        Err(TickFault::NoMemory) => NO_MEMORY,
    }
}

fn code_of_shut(answer: &Result<Option<u32>, ShutFault>) -> u32
    ensures { result ≡ shut_code answer.now }
{
    match answer {
        Ok(_) => DONE,
        Err(ShutFault::NoRobot) => NO_ROBOT,
        Err(ShutFault::Already) => ALREADY_SHUT,
        Err(ShutFault::ChapterFull) => CHAPTER_FULL,
        Err(ShutFault::NoMemory) => NO_MEMORY,
    }
}

/// A tick, with its report.
pub(crate) fn tick(alloc: Global, core: &mut Core, report: &mut Report) -> u32
    ensures says { IsTicked core.old result report.new core.new }
    ensures untouched { (result ≢ DONE) → report.new ≡ report.old }
{
    let answer = ticked(alloc, core);
    if let Ok(did) = answer {
        *report = Report::of(did);
    }
    code_of_tick(&answer)
}

/// A shut, and whether the robot said farewell.
fn shut_robot(alloc: Global, core: &mut Core, robot: u32, left: &mut bool) -> u32
    ensures says { IsShut core.old robot result left.new core.new }
    ensures untouched { (result ≢ DONE) → left.new ≡ left.old }
{
    let answer = shut(alloc, core, robot);
    if let Ok(farewell) = answer {
        *left = farewell.is_some();
    }
    code_of_shut(&answer)
}

/// Moves all robots by one step.
///
/// Refused in this order: the handle is closed, all ticks were made, the chapter is full, out of memory.
#[unsafe(no_mangle)]
pub extern "C" fn nashirudder_tick(alloc: Global, fleet: &mut Handle, report: &mut Report) -> u32
    ensures says { OnFleet fleet.old.owned.held fleet.new.owned.held result (λ w n. IsTicked w result report.new n) }
    ensures untouched { (result ≢ DONE) → report.new ≡ report.old }
{
    let Some(mut held) = fleet.take(alloc) else {
        return NOT_OPEN;
    };
    let code = tick(alloc, &mut held.core, report);
    fleet.put(held);
    code
}

/// Shuts a robot: it finishes its errands and accepts no more. If it has none it says farewell at once, and `left` is
/// set to true.
///
/// Refused in this order: the handle is closed, there is no such robot, it is shut already, the chapter is full, out of
/// memory.
#[unsafe(no_mangle)]
pub extern "C" fn nashirudder_shut(
    alloc: Global,
    fleet: &mut Handle,
    robot: u32,
    left: &mut bool,
) -> u32
    ensures says { OnFleet fleet.old.owned.held fleet.new.owned.held result (λ w n. IsShut w robot result left.new n) }
    ensures untouched { (result ≢ DONE) → left.new ≡ left.old }
{
    let Some(mut held) = fleet.take(alloc) else {
        return NOT_OPEN;
    };
    let code = shut_robot(alloc, &mut held.core, robot, left);
    fleet.put(held);
    code
}
