//! A line of the table: what is told of the runs of one number of robots.

ghost use Rattle.std.specs.Prelude.{◌≡◌, ◌++◌, ◌∷◌, [], List, count_by, IfOk, OnOk, length};
ghost use Rattle.fleet_sim.specs.Table.{values_of, value_if, is_frozen, ticks_of, time_columns, mean_cell, IsDeviationCell, IsSpread, AreSpreads, IsLine};
ghost use Rattle.fleet_sim.specs.declared.cell.Cell.{Cell};
ghost use Rattle.fleet_sim.specs.declared.cell.Cell.TheVariants.{Whole};

use crate::cell::Cell;
use crate::column::Column;
use crate::mean::{deviation_of, mean_of};
use crate::run::Run;
use std::alloc::{AllocError, Global};

/// A line, cell by cell, in the order of the names.
#[derive(Debug, Drop)]
pub struct Line {
    pub(crate) cells: Vec<Cell>,
}

/// Adds a value, if there is one.
fn push_if(values: &mut Vec<u64>, value: Option<u64>) -> Result<(), AllocError>
    ensures { OnOk result (values.new.items ≡ values.old.items ++ value_if value) }
{
    if let Some(number) = value {
        values.push(number)?;
    }
    Ok(())
}

/// The figures of the runs that have it.
fn values_of(alloc: Global, column: Column, runs: &[Run]) -> Result<Vec<u64>, AllocError>
    ensures { IfOk result (λ values. values.items ≡ values_of column runs.now) }
{
    let mut values = Vec::new(alloc);
    push_values(&mut values, column, runs)?;
    Ok(values)
}

/// Adds the figures of the runs that have it.
fn push_values(values: &mut Vec<u64>, column: Column, runs: &[Run]) -> Result<(), AllocError>
    ensures { OnOk result (values.new.items ≡ values.old.items ++ values_of column runs.now) }
{
    for run in runs {
        push_if(values, column.value_of(run))?;
    }
    Ok(())
}

/// The mean of values, if there are some.
fn mean_cell(values: &[u64]) -> Cell
    ensures { result ≡ mean_cell values.now }
{
    if values.len() == 0 {
        Cell::Nothing
    } else {
        Cell::Parts(mean_of(values))
    }
}

/// The deviation of values, if there are two or more.
fn deviation_cell(values: &[u64]) -> Cell
    ensures { IsDeviationCell values.now result }
{
    if values.len() < 2 {
        Cell::Nothing
    } else {
        Cell::Parts(deviation_of(values))
    }
}

/// In how many runs nobody arrived in the last quarter of the ticks.
fn frozen_in(runs: &[Run]) -> usize
    ensures { result ≡ count_by is_frozen runs.now }
{
    runs.iter()
        .filter(|run| run.figures.arrivals_at_end == 0)
        .count()
}

/// The ticks of the first run that are counted.
fn ticks_of(runs: &[Run]) -> u64
    ensures { result ≡ ticks_of runs.now }
{
    match runs.first() {
        Some(run) => run.figures.ticks,
        None => 0,
    }
}

/// Adds the mean and the deviation of a column.
fn push_spread(
    alloc: Global,
    cells: &mut Vec<Cell>,
    column: Column,
    runs: &[Run],
) -> Result<(), AllocError>
    ensures { OnOk result ((mean : Cell) × (deviation : Cell) × IsSpread (values_of column runs.now) mean deviation × (cells.new.items ≡ cells.old.items ++ mean ∷ deviation ∷ [])) }
{
    let values = values_of(alloc, column, runs)?;
    let (mean, deviation) = (mean_cell(&values), deviation_cell(&values));
    cells.extend_from_slice(&[mean, deviation])
}

/// Adds the mean and the deviation of each of these columns.
fn push_columns(
    alloc: Global,
    cells: &mut Vec<Cell>,
    columns: &[Column],
    runs: &[Run],
) -> Result<(), AllocError>
    ensures { OnOk result ((more : List Cell) × AreSpreads columns.now runs.now more × (cells.new.items ≡ cells.old.items ++ more)) }
{
    for column in columns {
        push_spread(alloc, cells, *column, runs)?;
    }
    Ok(())
}

/// The first cells of a line.
fn counts_of(alloc: Global, robots: u32, runs: &[Run]) -> Result<Vec<Cell>, AllocError>
    ensures { IfOk result (λ cells. cells.items ≡ Whole robots ∷ Whole (length runs.now) ∷ Whole (ticks_of runs.now) ∷ Whole (count_by is_frozen runs.now) ∷ []) }
{
    Vec::from_slice(
        alloc,
        &[
            Cell::Whole(u64::from(robots)),
            Cell::Whole(runs.len() as u64),
            Cell::Whole(ticks_of(runs)),
            Cell::Whole(frozen_in(runs) as u64),
        ],
    )
}

/// The columns of times, if they are told.
fn time_columns(timed: bool) -> &'static [Column]
    ensures { result.now ≡ time_columns timed }
{
    if timed { &Column::TIMES } else { &[] }
}

/// The line of the runs of this many robots, with their times if these are told.
pub fn line_of(alloc: Global, robots: u32, runs: &[Run], timed: bool) -> Result<Line, AllocError>
    ensures { IfOk result (λ line. IsLine robots runs.now timed line.cells.items) }
{
    let mut cells = counts_of(alloc, robots, runs)?;
    push_columns(alloc, &mut cells, &Column::FIGURES, runs)?;
    push_columns(alloc, &mut cells, time_columns(timed), runs)?;
    Ok(Line { cells })
}
