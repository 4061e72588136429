//! Lists of cells as text: words that are a cell's number, or its column and row with a comma between them.

ghost use Rattle.std.specs.Prelude.{◌≡◌, ◌++◌, IfErr, IfOk, MatchOption, Ok, false, true};
ghost use Rattle.std.specs.List.{All, position};
ghost use Rattle.fleet_map.specs.Text.{number_of, words_of};
ghost use Rattle.fleet_grid.specs.Floor.{IsFloor};
ghost use Rattle.fleet_survey.specs.Cells.{IsCellsFault, cell_by, cell_on, floor_only, is_comma, listed_cells, named_cell, named_cells};

use crate::fault::CellsFault;
use fleet_grid::Grid;
use fleet_map::text::{first_line, first_word, number_up_to};
use std::alloc::{AllocError, Global};

/// Where the word's first comma is.
fn comma_in(word: &[u8]) -> Option<usize>
    ensures { result ≡ position is_comma word.now }
{
    word.iter().position(|byte| *byte == b',')
}

/// The cell of a column and a row.
fn cell_on(grid: &Grid, column: u64, row: u64) -> Option<u32>
    ensures { result ≡ cell_on grid.now column row }
{
    let (width, height) = (u64::from(grid.width()), u64::from(grid.height()));
    if column < width && row < height {
        Some((row * width + column) as u32)
    } else {
        None
    }
}

/// The cell of a column and a row, if there are both.
fn cell_by(grid: &Grid, column: Option<u64>, row: Option<u64>) -> Option<u32>
    ensures { result ≡ cell_by grid.now column row }
{
    cell_on(grid, column?, row?)
}

/// The cell of the words of a column and of a row.
fn cell_between(grid: &Grid, column: &[u8], row: &[u8]) -> Option<u32>
    ensures { result ≡ cell_by grid.now (number_of column.now) (number_of row.now) }
{
    // A number that is not below the width is no column, however great it is; so is it with rows, and with cells.
    let column = number_up_to(column, u64::from(grid.width()));
    let row = number_up_to(row, u64::from(grid.height()));
    cell_by(grid, column, row)
}

/// The cell that a word without a comma names.
fn cell_numbered(grid: &Grid, word: &[u8]) -> Option<u32>
    ensures { floor_only grid.now result ≡ floor_only grid.now (number_of word.now) }
{
    Some(number_up_to(word, u64::from(grid.cell_count()))? as u32)
}

/// The cell that a word names, whether floor or not.
#[tactic(auto, using(crate::proofs::CellTexts::by_comma, crate::proofs::CellTexts::by_number))]
fn cell_of(grid: &Grid, word: &[u8]) -> Option<u32>
    ensures { floor_only grid.now result ≡ named_cell grid.now word.now }
{
    match comma_in(word) {
        Some(comma) => cell_between(grid, &word[..comma], &word[comma + 1..]),
        None => cell_numbered(grid, word),
    }
}

/// The floor cell that a word names.
fn floor_cell_of(grid: &Grid, word: &[u8]) -> Option<u32>
    ensures { result ≡ named_cell grid.now word.now }
{
    match cell_of(grid, word) {
        Some(cell) => {
            if grid.is_floor(cell) {
                Some(cell)
            } else {
                None
            }
        }
        None => None,
    }
}

/// Adds the cells of a line. Returns whether each of its words names one.
#[tactic(auto, using(crate::proofs::CellTexts::word_more, crate::proofs::CellTexts::word_bad, crate::proofs::CellTexts::words_end))]
fn push_line(grid: &Grid, line: &[u8], cells: &mut Vec<u32>) -> Result<bool, AllocError>
    ensures { IfOk result (λ good. MatchOption (named_cells grid.now (words_of line.now)) (good ≡ false) (λ more. (good ≡ true) × (cells.new.items ≡ cells.old.items ++ more))) }
{
    let mut rest = line;
    while let Some((word, after)) = first_word(rest) {
        let Some(cell) = floor_cell_of(grid, word) else {
            return Ok(false);
        };
        cells.push(cell)?;
        rest = after;
    }
    Ok(true)
}

/// The floor cells that a text lists, in its order. A cell is a number, or `X,Y`: its column and its row.
#[tactic(auto, using(crate::proofs::CellTexts::line_more, crate::proofs::CellTexts::line_bad, crate::proofs::CellTexts::lines_end))]
pub fn read_cells(alloc: Global, grid: &Grid, text: &[u8]) -> Result<Vec<u32>, CellsFault>
    ensures cells { IfOk result (λ cells. listed_cells grid.now text.now ≡ Ok cells.items) }
    ensures floor { IfOk result (λ cells. All (IsFloor grid.now) cells.items) }
    ensures refused { IfErr result (IsCellsFault grid.now text.now) }
{
    let mut cells = Vec::new(alloc);
    let mut number = 1u64;
    let mut rest = text;
    while let Some((line, after)) = first_line(rest) {
        if !push_line(grid, line, &mut cells)? {
            return Err(CellsFault::Line(number));
        }
        number = number.saturating_add(1);
        rest = after;
    }
    Ok(cells)
}
