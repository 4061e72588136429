//! The squares of the cells that are no floor.

ghost use Rattle.std.specs.Prelude.{◌≡◌, ◌++◌, ◌<◌, ◌≤◌, ◌^◌, length, OnOk, string_bytes, codes};
ghost use Rattle.fleet_view.specs.declared.shapes.TheConstants.{WALL};
ghost use Rattle.fleet_view.specs.Picture.{point_text, is_floor_letter, walls_from};

use crate::picture::write_point;
use crate::shapes::WALL;
use std::alloc::AllocError;

fn is_floor_letter(letter: u8) -> bool
    ensures { result ≡ is_floor_letter letter }
{
    matches!(letter, b'.' | b'G' | b'S')
}

/// The square of a cell that is no floor.
fn write_wall(out: &mut String, width: u32, cell: u32) -> Result<(), AllocError>
    requires { 1 ≤ width }
    ensures { OnOk result (string_bytes out.new ≡ string_bytes out.old ++ (WALL.now ++ point_text width cell ++ codes "h16v16h-16z")) }
{
    out.push_str(WALL)?;
    write_point(out, width, cell)?;
    out.push_str("h16v16h-16z")
}

/// A square for each cell that is no floor.
pub(crate) fn write_walls(out: &mut String, width: u32, letters: &[u8]) -> Result<(), AllocError>
    requires wide { 1 ≤ width }
    requires few { length letters.now < 2 ^ 32 }
    ensures { OnOk result (string_bytes out.new ≡ string_bytes out.old ++ walls_from width 0 letters.now) }
{
    for (cell, letter) in letters.iter().enumerate() {
        if !is_floor_letter(*letter) {
            write_wall(out, width, cell as u32)?;
        }
    }
    Ok(())
}
