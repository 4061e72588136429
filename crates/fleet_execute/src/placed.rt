//! The plan of placements, executed.

ghost use Rattle.std.specs.Prelude.{◌≡◌, ◌≤◌, ◌<◌, ◌⊎◌, ℕ, List, None, MatchOption, OnOk, IfOk, IfErr, IfSome, length};
ghost use Rattle.std.specs.Io.KnownBytes.{Appends};
ghost use Rattle.fleet_execution.specs.Executes.{Executes};
ghost use Rattle.fleet_execution.specs.Kept.{desk};
ghost use Rattle.fleet_execute.specs.declared.fault.HoldFault.TheVariants.{Conflict, NoMemory};
ghost use Rattle.fleet_execute.specs.Placed.{all_cells, first_of, start_of, IsAbove, IsBroken, IsExecution, IsPlanOf, IsUnfit};

use crate::fault::HoldFault;
use crate::holding::{hold, write_told};
use crate::plan::Plan;
use execution_law::Clearance;
use fleet_execution::{Execution, is_placement};
use fleet_plans::Placements;
use std::alloc::{AllocError, Global};
use std::io::{BufRead, Write};

/// By which rules a plan is executed.
#[derive(Clone, Copy, Debug)]
pub struct ExecuteRules {
    /// When a cell is clear.
    pub clearance: Clearance,
    /// How many steps are planned at most that are not reached. At least 1.
    pub ahead: u32,
}

/// All cells of placements, one placement after the other.
fn cells_of(alloc: Global, places: &Placements) -> Result<Vec<u32>, AllocError>
    ensures { IfOk result (λ cells. cells.items ≡ all_cells places.now) }
{
    let mut cells = Vec::new(alloc);
    for time in 0..places.len() {
        cells.extend_from_slice(places.at(time))?;
    }
    Ok(cells)
}

/// A number above the cell that is at least this one, if there is one of 32 bits; else the greatest.
fn above(count: u32, cell: u32) -> u32
    ensures least { count ≤ result }
    ensures above { (cell < result) ⊎ (result ≡ 4294967295) }
{
    if cell < count {
        return count;
    }
    cell.saturating_add(1)
}

/// The number after the greatest cell, if there is one of 32 bits; else the greatest.
fn after_greatest(cells: &[u32]) -> u32
    ensures { IsAbove result cells.now }
{
    let mut count = 0;
    for at in 0..cells.len() {
        count = above(count, cells[at]);
    }
    count
}

/// A plan and its execution.
#[derive(Drop)]
struct Executed {
    run: Execution,
    plan: Plan,
}

/// The execution of a plan; none if there is no robot.
fn opened(
    alloc: Global,
    rules: ExecuteRules,
    places: &Placements,
) -> Result<Option<Executed>, HoldFault>
    requires { 0 < rules.ahead }
    ensures opened { IfOk result (λ found. MatchOption found (length (first_of places.now) ≡ 0) (λ o. IsPlanOf places.now o.plan × Executes (desk o.run) (start_of rules.clearance places.now))) }
    ensures refused { IfErr result (λ fault. (fault ≡ NoMemory) ⊎ ((fault ≡ Conflict 0) × IsUnfit places.now)) }
{
    let first = places.at(0);
    if first.is_empty() {
        return Ok(None);
    }
    let cells = cells_of(alloc, places)?;
    if first.len() > u32::MAX as usize || first.len() > cells.len() {
        return Err(HoldFault::Conflict(0));
    }
    let count = after_greatest(&cells);
    if !is_placement(alloc, count, first)? {
        return Err(HoldFault::Conflict(0));
    }
    let run = Execution::new(alloc, count, first, rules.clearance, rules.ahead)?;
    let plan = Plan {
        robots: first.len() as u32,
        cells,
    };
    Ok(Some(Executed { run, plan }))
}

/// Executes the plan of these placements: until it is done, or the input ends. If there is no robot, it is done at once.
pub fn execute<I: BufRead, W: Write>(
    alloc: Global,
    rules: ExecuteRules,
    places: &Placements,
    input: &mut I,
    output: &mut W,
) -> Result<(), HoldFault>
    requires { 0 < rules.ahead }
    ensures held { OnOk result (IfSome (I.remaining input.old) (λ bytes. (text : List ℕ)
        × IsExecution rules.clearance places.now bytes text × Appends (W.contents output.old) (W.contents output.new) text)) }
    ensures broken { IfErr result (λ fault. IfSome (I.remaining input.old) (λ bytes.
        IsBroken rules.clearance places.now bytes (W.contents output.old) (W.contents output.new) fault)) }
{
    match opened(alloc, rules, places)? {
        Some(mut course) => hold(alloc, &mut course.run, &course.plan, input, output),
        None => write_told(output, "done\n"),
    }
}
