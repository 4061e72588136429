//! Executions that C opens and closes.

ghost use Rattle.std.specs.Prelude.{◌≡◌, ◌≢◌, ◌↔◌, None, is_some, true, IsSomeAnd, IfOk, IfErr};
ghost use Rattle.std.specs.Box.{box_value};
ghost use Rattle.fleet_c.specs.Executions.{clearance_in, IsOpened, IsUnopened, IsWhy};

use crate::codes::{ALREADY_OPEN, DONE};
use crate::execution_fault::ExecutionFault;
use crate::execution_handle::ExecutionHandle;
use fleet_execution::{Clearance, Execution, is_placement};
use std::alloc::Global;

/// A robot's stay on a cell ends when it has reached its next one.
pub const CLEARANCE_ARRIVED: u32 = 1;
/// A robot's stay on a cell ends when it has begun to leave it.
pub const CLEARANCE_STARTED: u32 = 2;

/// The clearance with a number.
fn clearance_in(number: u32) -> Option<Clearance>
    ensures { result ≡ clearance_in number }
{
    match number {
        CLEARANCE_ARRIVED => Some(Clearance::Arrived),
        CLEARANCE_STARTED => Some(Clearance::Started),
        _ => None,
    }
}

/// The execution of a plan, in a box.
fn boxed(
    alloc: Global,
    cells: u32,
    placement: &[u32],
    clearance: u32,
    ahead: u32,
) -> Result<Box<Execution>, ExecutionFault>
    ensures ok { IfOk result (λ run. IsOpened cells placement.now clearance ahead (box_value run)) }
    ensures err { IfErr result (λ why. IsWhy cells placement.now clearance ahead why) }
{
    let Some(rule) = clearance_in(clearance) else {
        return Err(ExecutionFault::Clearance);
    };
    if ahead == 0 {
        return Err(ExecutionFault::Window);
    }
    match is_placement(alloc, cells, placement) {
        Ok(true) => {}
        Ok(false) => return Err(ExecutionFault::Placement),
        Err(_) => return Err(ExecutionFault::NoMemory),
    }
    let Ok(run) = Execution::new(alloc, cells, placement, rule, ahead) else {
        return Err(ExecutionFault::NoMemory);
    };
    match Box::new(alloc, run) {
        Ok(boxed) => Ok(boxed),
        Err(_) => Err(ExecutionFault::NoMemory),
    }
}

/// Opens a closed handle to the execution of a plan, of any planner, that begins with this placement, which has the cell of
/// each robot, on a map whose cells have the numbers below `cells`. At most `ahead` steps are planned that are not reached.
///
/// Refused in this order: the handle is open, there is no such clearance, `ahead` is 0, two robots stand on one cell or one
/// stands on no cell of the map; and out of memory at any time.
#[unsafe(no_mangle)]
pub extern "C" fn nashirudder_execution_open(
    alloc: Global,
    cells: u32,
    placement: &[u32],
    clearance: u32,
    ahead: u32,
    execution: &mut ExecutionHandle,
) -> u32
    ensures open { (result ≡ ALREADY_OPEN) ↔ (is_some execution.old.owned.held ≡ true) }
    ensures opened { (result ≡ DONE) → IsSomeAnd execution.new.owned.held (λ e. IsOpened cells placement.now clearance ahead e) }
    ensures refused { (result ≢ DONE) → (result ≢ ALREADY_OPEN) → IsUnopened cells placement.now clearance ahead result }
    ensures same { (result ≢ DONE) → execution.new.owned.held ≡ execution.old.owned.held }
{
    if execution.is_open() {
        return ALREADY_OPEN;
    }
    match boxed(alloc, cells, placement, clearance, ahead) {
        Ok(run) => {
            execution.put(run);
            DONE
        }
        Err(why) => why.code(),
    }
}

/// Closes a handle to an execution: frees what an open one owns. A closed one stays closed.
#[unsafe(no_mangle)]
pub extern "C" fn nashirudder_execution_close(alloc: Global, execution: &mut ExecutionHandle)
    ensures { execution.new.owned.held ≡ None }
{
    execution.take(alloc);
}
