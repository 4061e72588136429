//! Cells in a plan's text.

ghost use Rattle.std.specs.Prelude.{◌≡◌, ◌∷◌, [], ◌<◌, ◌≤◌, ◌+◌, ◌-◌, ◌==◌, length, slice_index, MatchOption, IfOk, IfSome, Some, None};
ghost use Rattle.std.specs.List.{position};
ghost use Rattle.std.specs.Option.{option_map};
ghost use Rattle.fleet_plans.specs.Cells.{is_comma, parts_of, coordinate, column_in, row_in, pair_in, cells_in, is_direction, faced_in, faced_cells, is_faced, listed_in};
ghost use Rattle.fleet_plans.specs.Head.{split_once};
ghost use Rattle.fleet_plans.specs.Agents.{cell_in};

use crate::head::split_once;
use crate::sides::Sides;
use fleet_history::Row;
use fleet_map::text::number_up_to;
use std::alloc::{AllocError, Allocator};

fn comma(text: &[u8]) -> Option<usize>
    ensures { result ≡ position is_comma text.now }
{
    text.iter().position(|byte| *byte == b',')
}

/// The first part of a list and what follows its comma; `None` if nothing is left.
#[tactic(auto, using(crate::proofs::Parts::parts_first, crate::proofs::Parts::parts_last))]
pub(crate) fn first_part(text: &[u8]) -> Option<(&[u8], &[u8])>
    ensures cut { MatchOption result (parts_of text.now ≡ []) (λ x. parts_of text.now ≡ x.0.now ∷ parts_of x.1.now) }
    ensures shorter { IfSome result (λ x. length x.1.now < length text.now) }
{
    if text.is_empty() {
        return None;
    }
    match comma(text) {
        None => Some((text, &[])),
        Some(end) => Some((&text[..end], &text[end + 1..])),
    }
}

/// A coordinate; 1,024 if it is greater.
pub(crate) fn coordinate_of(word: &[u8]) -> Option<u32>
    ensures exact { result ≡ coordinate word.now }
    ensures small { IfSome result (λ n. n ≤ 1024) }
{
    let number = number_up_to(word, 1024)?;
    Some(number as u32)
}

/// The column of a part `(X`.
fn column_of(part: &[u8]) -> Option<u32>
    ensures exact { result ≡ column_in part.now }
    ensures small { IfSome result (λ n. n ≤ 1024) }
{
    if part.is_empty() || part[0] != b'(' {
        return None;
    }
    coordinate_of(&part[1..])
}

/// The row of a part `Y)`.
fn row_of(part: &[u8]) -> Option<u32>
    ensures exact { result ≡ row_in part.now }
    ensures small { IfSome result (λ n. n ≤ 1024) }
{
    let last = part.len().checked_sub(1)?;
    if part[last] != b')' {
        return None;
    }
    coordinate_of(&part[..last])
}

/// The cell of two parts `(X` and `Y)`.
fn cell_of(sides: Sides, first: &[u8], second: &[u8]) -> Option<u32>
    ensures { result ≡ pair_in sides.width sides.height first.now second.now }
{
    let x = column_of(first)?;
    let y = row_of(second)?;
    Some(sides.cell_at(x, y))
}

/// The cell of a text `(R,C)`, whose first number is the row.
pub(crate) fn cell_by_row(sides: Sides, text: &[u8]) -> Option<u32>
    ensures { result ≡ cell_in sides.width sides.height (split_once 44 text.now) }
{
    let (first, second) = split_once(text, b',')?;
    let row = column_of(first)?;
    let column = row_of(second)?;
    Some(sides.cell_at(column, row))
}

/// The cells of a list `(X,Y),(X,Y),..`; `None` if the text is not such a list.
fn cells_of<A: Allocator + Copy>(
    alloc: A,
    sides: Sides,
    text: &[u8],
) -> Result<Option<Row<u32, A>>, AllocError>
    ensures read { IfOk result (λ cells. cells ≡ cells_in sides.width sides.height (parts_of text.now)) }
    ensures few { IfOk result (λ cells. IfSome cells (λ list. length list ≤ length text.now)) }
{
    let mut cells = Vec::new(alloc);
    let mut rest = text;
    while let Some((first, after)) = first_part(rest) {
        let Some((second, after)) = first_part(after) else {
            return Ok(None);
        };
        let Some(cell) = cell_of(sides, first, second) else {
            return Ok(None);
        };
        cells.push(cell)?;
        rest = after;
    }
    Ok(Some(Row::from_vec(cells)))
}

/// Whether a part is a direction, and ends a cell.
fn is_direction(part: &[u8]) -> bool
    ensures { result ≡ is_direction part.now }
{
    part == b"X_PLUS)".as_slice()
        || part == b"X_MINUS)".as_slice()
        || part == b"Y_PLUS)".as_slice()
        || part == b"Y_MINUS)".as_slice()
}

/// The cell of three parts `(X`, `Y` and a direction.
fn faced_of(sides: Sides, first: &[u8], second: &[u8], third: &[u8]) -> Option<u32>
    ensures { result ≡ faced_in sides.width sides.height first.now second.now third.now }
{
    if !is_direction(third) {
        return None;
    }
    let x = column_of(first)?;
    let y = coordinate_of(second)?;
    Some(sides.cell_at(x, y))
}

/// The cells of a list `(X,Y,DIRECTION),..`; `None` if the text is not such a list.
fn faced_cells<A: Allocator + Copy>(
    alloc: A,
    sides: Sides,
    text: &[u8],
) -> Result<Option<Row<u32, A>>, AllocError>
    ensures read { IfOk result (λ cells. cells ≡ faced_cells sides.width sides.height (parts_of text.now)) }
    ensures few { IfOk result (λ cells. IfSome cells (λ list. length list ≤ length text.now)) }
{
    let mut cells = Vec::new(alloc);
    let mut rest = text;
    while let Some((first, after)) = first_part(rest) {
        let Some((second, after)) = first_part(after) else {
            return Ok(None);
        };
        let Some((third, after)) = first_part(after) else {
            return Ok(None);
        };
        let Some(cell) = faced_of(sides, first, second, third) else {
            return Ok(None);
        };
        cells.push(cell)?;
        rest = after;
    }
    Ok(Some(Row::from_vec(cells)))
}

/// Whether a part ends with a bracket.
pub(crate) fn is_closed(part: &[u8]) -> bool
    ensures { result ≡ (slice_index part.now (length part.now - 1) == 41) }
{
    match part.last() {
        Some(byte) => *byte == b')',
        None => false,
    }
}

/// Whether the cells of a list have directions: the second part ends no cell.
fn is_faced(text: &[u8]) -> bool
    ensures { result ≡ is_faced (parts_of text.now) }
{
    let Some((_, after)) = first_part(text) else {
        return false;
    };
    match first_part(after) {
        Some((second, _)) => !is_closed(second),
        None => false,
    }
}

/// The cells of a list, with or without directions; `None` if the text is not such a list.
pub(crate) fn listed_cells<A: Allocator + Copy>(
    alloc: A,
    sides: Sides,
    text: &[u8],
) -> Result<Option<Row<u32, A>>, AllocError>
    ensures read { IfOk result (λ cells. cells ≡ listed_in sides.width sides.height (parts_of text.now)) }
    ensures few { IfOk result (λ cells. IfSome cells (λ list. length list ≤ length text.now)) }
{
    if is_faced(text) {
        faced_cells(alloc, sides, text)
    } else {
        cells_of(alloc, sides, text)
    }
}
