//! The rows of a map, and the lines after them.

ghost use Rattle.std.specs.Prelude.{◌≡◌, ◌≤◌, ◌<◌, ◌+◌, ◌^◌, length, Ok, OnOk};
ghost use Rattle.fleet_map.specs.Text.{lines_of};
ghost use Rattle.fleet_map.specs.Grammar.{Shows, Gives, is_letter, odd_cell, row_of, row_at, rows_at, end_at};

use crate::fault::MapFault;
use crate::map_text::MOST_SIDE;
use crate::text::{first_line, trimmed_line};
use std::alloc::Allocator;

fn is_map_letter(byte: u8) -> bool
    ensures { result ≡ is_letter byte }
{
    matches!(byte, b'.' | b'G' | b'S' | b'@' | b'O' | b'T' | b'W')
}

fn odd_place(cells: &[u8]) -> Option<usize>
    ensures { result ≡ odd_cell cells.now }
{
    cells.iter().position(|cell| !is_map_letter(*cell))
}

fn checked_row(width: u32, row: u32, cells: &[u8]) -> Result<&[u8], MapFault>
    ensures { Shows (λ x. x.now) result (row_of width row cells.now) }
{
    if cells.len() != width as usize {
        return Err(MapFault::Row(row));
    }
    match odd_place(cells) {
        None => Ok(cells),
        Some(col) => Err(MapFault::Cell(row, col as u32)),
    }
}

fn read_row(width: u32, row: u32, text: &[u8]) -> Result<(&[u8], &[u8]), MapFault>
    ensures { Shows (λ x. (x.0.now, lines_of x.1.now)) result (row_at width row (lines_of text.now)) }
{
    match first_line(text) {
        None => Err(MapFault::Row(row)),
        Some((line, rest)) => {
            let cells = checked_row(width, row, trimmed_line(line))?;
            Ok((cells, rest))
        }
    }
}

/// The cells of this many rows, and the text after them.
pub(crate) fn read_rows<A: Allocator + Copy>(
    alloc: A,
    height: u32,
    width: u32,
    text: &[u8],
) -> Result<(Vec<u8, A>, &[u8]), MapFault>
    requires { (height ≤ MOST_SIDE) × (width ≤ MOST_SIDE) }
    ensures { Gives (λ x. (x.0.items, lines_of x.1.now)) result (rows_at height width 0 (lines_of text.now)) }
{
    let mut cells = Vec::with_capacity(alloc, height as usize * width as usize)?;
    let mut rest = text;
    for row in 0..height {
        let (line, after) = read_row(width, row, rest)?;
        cells.extend_from_slice(line)?;
        rest = after;
    }
    Ok((cells, rest))
}

/// Nothing but blank lines is left.
#[tactic(auto, unfolding(crate::specs::Grammar::end_at))]
pub(crate) fn read_end(number: u64, text: &[u8]) -> Result<(), MapFault>
    requires { number < 2 ^ 32 }
    ensures { Shows (λ x. x) result (end_at number (lines_of text.now)) }
{
    let mut number = number;
    let mut rest = text;
    while let Some((line, after)) = first_line(rest) {
        if !trimmed_line(line).is_empty() {
            return Err(MapFault::Trailing(number));
        }
        number += 1;
        rest = after;
    }
    Ok(())
}
