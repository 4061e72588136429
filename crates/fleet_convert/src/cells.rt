//! A plan as text with one line of cells for each time.

ghost use Rattle.std.specs.Prelude.{◌≡◌, ◌++◌, ◌≤◌, OnOk, IfOk, string_bytes, codes};
ghost use Rattle.fleet_convert.specs.Cells.{cell_text, cells_text, place_line, places_text, cells_head, cells_plan};

use fleet_plans::Placements;
use std::alloc::{AllocError, Global};
use std::fmt::Write;

/// A cell, and a comma.
fn write_cell(out: &mut String, width: u32, cell: u32) -> Result<(), AllocError>
    requires { 1 ≤ width }
    ensures { OnOk result (string_bytes out.new ≡ string_bytes out.old ++ cell_text width cell) }
{
    let (x, y) = (cell % width, cell / width);
    write!(out, "({x},{y}),")
}

/// Cells with a comma after each.
fn write_cells(out: &mut String, width: u32, cells: &[u32]) -> Result<(), AllocError>
    requires { 1 ≤ width }
    ensures { OnOk result (string_bytes out.new ≡ string_bytes out.old ++ cells_text width cells.now) }
{
    for cell in cells {
        write_cell(out, width, *cell)?;
    }
    Ok(())
}

/// The line for one time.
fn write_place(out: &mut String, width: u32, time: usize, place: &[u32]) -> Result<(), AllocError>
    requires { 1 ≤ width }
    ensures { OnOk result (string_bytes out.new ≡ string_bytes out.old ++ place_line width time place.now) }
{
    write!(out, "{time}:")?;
    write_cells(out, width, place)?;
    out.push_str("\n")
}

/// A line for each time.
fn write_places(out: &mut String, width: u32, places: &Placements) -> Result<(), AllocError>
    requires { 1 ≤ width }
    ensures { OnOk result (string_bytes out.new ≡ string_bytes out.old ++ places_text width 0 places.now) }
{
    for time in 0..places.len() {
        write_place(out, width, time, places.at(time))?;
    }
    Ok(())
}

/// Cells, with one text before and one after them.
pub(crate) fn write_between(
    out: &mut String,
    before: &str,
    width: u32,
    cells: &[u32],
    after: &str,
) -> Result<(), AllocError>
    requires { 1 ≤ width }
    ensures { OnOk result (string_bytes out.new ≡ string_bytes out.old ++ (before.now ++ cells_text width cells.now ++ after.now)) }
{
    out.push_str(before)?;
    write_cells(out, width, cells)?;
    out.push_str(after)
}

/// The lines before the placements.
fn write_head(out: &mut String, width: u32, starts: &[u32], goals: &[u32]) -> Result<(), AllocError>
    requires { 1 ≤ width }
    ensures { OnOk result (string_bytes out.new ≡ string_bytes out.old ++ cells_head width starts.now goals.now) }
{
    let robots = starts.len();
    write!(out, "agents={robots}\n")?;
    write_between(out, "starts=", width, starts, "\n")?;
    write_between(out, "goals=", width, goals, "\n")?;
    out.push_str("solution=\n")
}

/// The text of a plan on a map of this width, as pibt2 and LaCAM write it: the number of robots, their start cells,
/// their last cells (under `goals`), and a line `TIME:CELLS` for each time. The only error is out of memory.
pub fn cells_plan(alloc: Global, width: u32, places: &Placements) -> Result<String, AllocError>
    requires { 1 ≤ width }
    ensures { IfOk result (λ text. string_bytes text ≡ cells_plan width places.now) }
{
    let mut out = String::new(alloc);
    let last = places.len().saturating_sub(1);
    write_head(&mut out, width, places.at(0), places.at(last))?;
    write_places(&mut out, width, places)?;
    Ok(out)
}
