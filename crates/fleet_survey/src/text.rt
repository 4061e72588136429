//! The text of a map.

ghost use Rattle.std.specs.Prelude.{◌≡◌, ◌++◌, IfOk, OnOk, string_bytes};
ghost use Rattle.fleet_survey.specs.MapText.{is_last, map_head, map_text, rows_below, sign_of, square_text};

use fleet_grid::Grid;
use std::alloc::{AllocError, Global};
use std::fmt::Write;

/// The letter of a cell.
fn sign_of(grid: &Grid, cell: u32) -> &'static str
    ensures { result.now ≡ sign_of grid.now cell }
{
    if grid.is_floor(cell) { "." } else { "@" }
}

/// Whether the cell is the last one of its row.
fn is_last(width: u32, cell: u32) -> bool
    ensures { result ≡ is_last width cell }
{
    if width == 0 {
        return false;
    }
    cell % width == width - 1
}

/// The letter of a cell, and the row's end.
fn write_square(out: &mut String, grid: &Grid, width: u32, cell: u32) -> Result<(), AllocError>
    ensures { OnOk result (string_bytes out.new ≡ string_bytes out.old ++ square_text grid.now width cell) }
{
    out.push_str(sign_of(grid, cell))?;
    if is_last(width, cell) {
        out.push_str("\n")?;
    }
    Ok(())
}

/// The rows of a map.
fn write_rows(out: &mut String, grid: &Grid, width: u32, count: u32) -> Result<(), AllocError>
    ensures { OnOk result (string_bytes out.new ≡ string_bytes out.old ++ rows_below grid.now width count) }
{
    for cell in 0..count {
        write_square(out, grid, width, cell)?;
    }
    Ok(())
}

/// The head of a map.
fn write_head(out: &mut String, height: u32, width: u32) -> Result<(), AllocError>
    ensures { OnOk result (string_bytes out.new ≡ string_bytes out.old ++ map_head height width) }
{
    write!(out, "type octile\nheight {height}\nwidth {width}\nmap\n")
}

/// The text of a map, with `.` for each floor cell and `@` for each wall.
pub fn map_text(alloc: Global, grid: &Grid) -> Result<String, AllocError>
    ensures { IfOk result (λ text. string_bytes text ≡ map_text grid.now) }
{
    let mut out = String::new(alloc);
    let (height, width) = (grid.height(), grid.width());
    write_head(&mut out, height, width)?;
    write_rows(&mut out, grid, width, grid.cell_count())?;
    Ok(out)
}
