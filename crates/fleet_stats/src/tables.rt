//! Tables with commas between the columns.

ghost use Rattle.std.specs.Prelude.{◌≡◌, ℕ, ◌+◌, ◌^◌, ◌++◌, ◌==◌, ◌<◌, ◌≤◌, if◌then◌else◌, length, OnOk, IfOk, string_bytes, slice_index};
ghost use Rattle.std.specs.List.{flat_map};
ghost use Rattle.fleet_stats.specs.Figures.{count_of};
ghost use Rattle.fleet_stats.specs.Text.{option_text, names_text, times_text, errand_line, errands_table, left_line, unfinished_table, tick_line, ticks_table, cell_line, cells_below, cells_table};

use crate::rows::{ErrandRow, Landed, LeftRow, TickRow};
use std::alloc::{AllocError, Global};
use std::fmt::Write;

/// A number, if there is one.
fn write_option(out: &mut String, number: Option<u32>) -> Result<(), AllocError>
    ensures { OnOk result (string_bytes out.new ≡ string_bytes out.old ++ option_text number) }
{
    match number {
        Some(number) => write!(out, "{number}"),
        None => Ok(()),
    }
}

/// Whose errand it was, and where it led.
fn write_names(out: &mut String, done: &Landed) -> Result<(), AllocError>
    ensures { OnOk result (string_bytes out.new ≡ string_bytes out.old ++ names_text done.now) }
{
    let Landed {
        client,
        number,
        robot,
        cell,
        ..
    } = *done;
    write!(out, "{client},{number},{robot},{cell},")
}

/// When it was accepted, begun and done, and the robot's way.
fn write_times(out: &mut String, accepted: u64, done: &Landed) -> Result<(), AllocError>
    ensures { OnOk result (string_bytes out.new ≡ string_bytes out.old ++ times_text accepted done.now) }
{
    let (begun, arrived) = (done.begun, done.arrived);
    let (from, steps) = (done.leg.from, done.leg.steps);
    write!(out, "{accepted},{begun},{arrived},{from},{steps},")
}

/// The line of an errand.
fn write_errand(out: &mut String, row: &ErrandRow) -> Result<(), AllocError>
    ensures { OnOk result (string_bytes out.new ≡ string_bytes out.old ++ errand_line row.now) }
{
    write_names(out, &row.done)?;
    write_times(out, row.accepted, &row.done)?;
    write_option(out, row.distance)?;
    out.push_str("\n")
}

/// A line for each errand.
fn write_errands(out: &mut String, rows: &[ErrandRow]) -> Result<(), AllocError>
    ensures { OnOk result (string_bytes out.new ≡ string_bytes out.old ++ flat_map errand_line rows.now) }
{
    for row in rows {
        write_errand(out, row)?;
    }
    Ok(())
}

/// The table of errands.
pub(crate) fn errands_table(alloc: Global, rows: &[ErrandRow]) -> Result<String, AllocError>
    ensures { IfOk result (λ text. string_bytes text ≡ errands_table rows.now) }
{
    let mut out = String::new(alloc);
    out.push_str("client,number,robot,cell,accepted,begun,arrived,from,steps,distance\n")?;
    write_errands(&mut out, rows)?;
    Ok(out)
}

/// A clock, if there is one.
fn write_clock(out: &mut String, clock: Option<u64>) -> Result<(), AllocError>
    ensures { OnOk result (string_bytes out.new ≡ string_bytes out.old ++ option_text clock) }
{
    match clock {
        Some(clock) => write!(out, "{clock}"),
        None => Ok(()),
    }
}

/// The line of an errand that is left.
fn write_left(out: &mut String, row: &LeftRow) -> Result<(), AllocError>
    ensures { OnOk result (string_bytes out.new ≡ string_bytes out.old ++ left_line row.now) }
{
    let LeftRow { accepted, left } = *row;
    let (client, number, robot, cell) = (left.client, left.number, left.robot, left.cell);
    write!(out, "{client},{number},{robot},{cell},")?;
    write_clock(out, accepted)?;
    out.push_str("\n")
}

/// A line for each errand that is left.
fn write_all_left(out: &mut String, rows: &[LeftRow]) -> Result<(), AllocError>
    ensures { OnOk result (string_bytes out.new ≡ string_bytes out.old ++ flat_map left_line rows.now) }
{
    for row in rows {
        write_left(out, row)?;
    }
    Ok(())
}

/// The table of errands that are left.
pub(crate) fn unfinished_table(alloc: Global, left: &[LeftRow]) -> Result<String, AllocError>
    ensures { IfOk result (λ text. string_bytes text ≡ unfinished_table left.now) }
{
    let mut out = String::new(alloc);
    out.push_str("client,number,robot,cell,accepted\n")?;
    write_all_left(&mut out, left)?;
    Ok(out)
}

/// The line of a tick.
fn write_tick(out: &mut String, row: &TickRow) -> Result<(), AllocError>
    ensures { OnOk result (string_bytes out.new ≡ string_bytes out.old ++ tick_line row.now) }
{
    let TickRow {
        tick,
        arrivals,
        moves,
        idle,
        waited,
    } = *row;
    write!(out, "{tick},{arrivals},{moves},{idle},{waited}\n")
}

/// A line for each tick.
fn write_ticks(out: &mut String, rows: &[TickRow]) -> Result<(), AllocError>
    ensures { OnOk result (string_bytes out.new ≡ string_bytes out.old ++ flat_map tick_line rows.now) }
{
    for row in rows {
        write_tick(out, row)?;
    }
    Ok(())
}

/// The table of ticks.
pub(crate) fn ticks_table(alloc: Global, rows: &[TickRow]) -> Result<String, AllocError>
    ensures { IfOk result (λ text. string_bytes text ≡ ticks_table rows.now) }
{
    let mut out = String::new(alloc);
    out.push_str("tick,arrivals,moves,idle,longest_wait\n")?;
    write_ticks(&mut out, rows)?;
    Ok(out)
}

/// Counts a number, if it has a place.
fn count_one(counts: &mut [u64], number: usize)
    requires { (k : ℕ) → k < length counts.old → slice_index counts.old k < 2 ^ 63 }
    ensures { (k : ℕ) → k < length counts.old → slice_index counts.new k ≡ slice_index counts.old k + (if number == k then 1 else 0) }
{
    if number < counts.len() {
        counts[number] += 1;
    }
}

/// Counts the numbers of a list.
fn count_all(counts: &mut [u64], numbers: &[u32])
    requires { (k : ℕ) → k < length counts.old → slice_index counts.old k ≡ 0 }
    ensures { (k : ℕ) → k < length counts.old → slice_index counts.new k ≡ count_of numbers.now k }
{
    for number in numbers {
        count_one(counts, *number as usize);
    }
}

/// How often each number below a bound is in the list.
fn counts_of(alloc: Global, numbers: &[u32], below: usize) -> Result<Vec<u64>, AllocError>
    ensures count { IfOk result (λ counts. length counts.items ≡ below) }
    ensures each { IfOk result (λ counts. (k : ℕ) → k < below → slice_index counts.items k ≡ count_of numbers.now k) }
{
    let mut counts = vec![in alloc; 0u64; below]?;
    count_all(&mut counts, numbers);
    Ok(counts)
}

/// The line of a cell on which robots stood.
fn write_cell(out: &mut String, width: usize, cell: usize, stands: u64) -> Result<(), AllocError>
    requires { 1 ≤ width }
    ensures { OnOk result (string_bytes out.new ≡ string_bytes out.old ++ cell_line width cell stands) }
{
    if stands == 0 {
        return Ok(());
    }
    let (row, column) = (cell / width, cell % width);
    write!(out, "{cell},{row},{column},{stands}\n")
}

/// A line for each cell on which robots stood.
fn write_cells(out: &mut String, width: usize, counts: &[u64]) -> Result<(), AllocError>
    requires { 1 ≤ width }
    ensures { OnOk result (string_bytes out.new ≡ string_bytes out.old ++ cells_below width (slice_index counts.now) (length counts.now)) }
{
    for cell in 0..counts.len() {
        write_cell(out, width, cell, counts[cell])?;
    }
    Ok(())
}

/// The table of cells on which robots stood, of this many cells.
pub(crate) fn cells_table(
    alloc: Global,
    width: usize,
    stood: &[u32],
    cells: usize,
) -> Result<String, AllocError>
    requires { 1 ≤ width }
    ensures { IfOk result (λ text. string_bytes text ≡ cells_table width stood.now cells) }
{
    let counts = counts_of(alloc, stood, cells)?;
    let mut out = String::new(alloc);
    out.push_str("cell,row,column,stands\n")?;
    write_cells(&mut out, width, &counts)?;
    Ok(out)
}
