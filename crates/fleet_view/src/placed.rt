//! Placements as text.

ghost use Rattle.std.specs.Prelude.{◌≡◌, ◌++◌, ◌∷◌, OnOk, length, slice_index};
ghost use Rattle.fleet_view.specs.Placed.{sign, cell_signs, letter, step_signs, steps_below, line_text, before, places_text};

use fleet_plans::Placements;
use std::alloc::AllocError;

/// One of 64 signs, from `?` on.
fn sign(part: u32) -> u8
    ensures { result ≡ sign part }
{
    63 + (part % 64) as u8
}

/// Writes a mark and a cell.
fn write_cell(out: &mut Vec<u8>, cell: u32) -> Result<(), AllocError>
    ensures { OnOk result (out.new.items ≡ out.old.items ++ 33 ∷ cell_signs cell) }
{
    out.extend_from_slice(&[
        b'!',
        sign(cell / 1_073_741_824),
        sign(cell / 16_777_216),
        sign(cell / 262_144),
        sign(cell / 4096),
        sign(cell / 64),
        sign(cell),
    ])
}

/// The letter of a step on a map of this width, if it is one to a cell next to it in number or by a row.
fn letter(width: u32, from: u32, to: u32) -> Option<u8>
    ensures { result ≡ letter width from to }
{
    let (width, from, to) = (u64::from(width), u64::from(from), u64::from(to));
    if to == from {
        Some(b'.')
    } else if to + width == from {
        Some(b'n')
    } else if from + width == to {
        Some(b's')
    } else if to + 1 == from {
        Some(b'w')
    } else if from + 1 == to {
        Some(b'e')
    } else {
        None
    }
}

/// Writes a step of a robot.
fn write_step(out: &mut Vec<u8>, width: u32, from: u32, to: u32) -> Result<(), AllocError>
    ensures { OnOk result (out.new.items ≡ out.old.items ++ step_signs width from to) }
{
    match letter(width, from, to) {
        Some(letter) => {
            out.push(letter)?;
            Ok(())
        }
        None => write_cell(out, to),
    }
}

/// The robot's cell in a placement; 0 if it has none.
fn cell_of(place: &[u32], robot: usize) -> u32
    ensures { result ≡ slice_index place.now robot }
{
    if robot < place.len() { place[robot] } else { 0 }
}

/// Writes the steps of all robots.
fn write_steps(out: &mut Vec<u8>, width: u32, from: &[u32], to: &[u32]) -> Result<(), AllocError>
    ensures { OnOk result (out.new.items ≡ out.old.items ++ steps_below width from.now to.now (length to.now)) }
{
    for robot in 0..to.len() {
        write_step(out, width, cell_of(from, robot), to[robot])?;
    }
    Ok(())
}

/// Writes the line of a placement, after another one.
fn write_line(out: &mut Vec<u8>, width: u32, from: &[u32], to: &[u32]) -> Result<(), AllocError>
    ensures { OnOk result (out.new.items ≡ out.old.items ++ line_text width from.now to.now) }
{
    write_steps(out, width, from, to)?;
    out.push(b'\n')?;
    Ok(())
}

/// The placement before a time; none before time 0.
fn before(places: &Placements, time: usize) -> &[u32]
    ensures { result.now ≡ before places.now time }
{
    if time == 0 { &[] } else { places.at(time - 1) }
}

/// Writes a line for each placement.
pub(crate) fn write_places(
    out: &mut Vec<u8>,
    width: u32,
    places: &Placements,
) -> Result<(), AllocError>
    ensures { OnOk result (out.new.items ≡ out.old.items ++ places_text width places.now) }
{
    for time in 0..places.len() {
        write_line(out, width, before(places, time), places.at(time))?;
    }
    Ok(())
}
