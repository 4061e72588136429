//! A cell of the table.

ghost use Rattle.std.specs.Prelude.{◌≡◌, ◌++◌, ◌/◌, ◌%◌, OnOk, string_bytes};
ghost use Rattle.fleet_sim.specs.Table.{cell_text};

use std::alloc::AllocError;
use std::fmt::Write;

/// What a cell shows.
#[derive(Clone, Copy, Debug, PartialEq, Eq)]
pub enum Cell {
    /// A whole number.
    Whole(u64),
    /// A number of thousandths, with three decimals.
    Parts(u64),
    /// Nothing: no run has this figure.
    Nothing,
}

/// Writes a cell, with this word for nothing.
pub(crate) fn write_cell(out: &mut String, cell: Cell, nothing: &str) -> Result<(), AllocError>
    ensures { OnOk result (string_bytes out.new ≡ string_bytes out.old ++ cell_text nothing.now cell) }
{
    match cell {
        Cell::Whole(number) => write!(out, "{number}"),
        Cell::Parts(number) => {
            let (whole, tenths) = (number / 1000, number / 100 % 10);
            let (hundredths, thousandths) = (number / 10 % 10, number % 10);
            write!(out, "{whole}.{tenths}{hundredths}{thousandths}")
        }
        Cell::Nothing => out.push_str(nothing),
    }
}
