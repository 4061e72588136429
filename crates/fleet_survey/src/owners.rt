//! To which dead end each cell belongs.

use crate::ends::DeadEnd;
use fleet_grid::Grid;
use std::alloc::{AllocError, Global};

/// For each cell the number of its dead end, counted from 1, or 0.
#[derive(Debug, Drop)]
pub(crate) struct Owners {
    numbers: Vec<u32>,
}

impl Owners {
    /// The number of the cell's dead end, or 0.
    pub(crate) fn of(&self, cell: u32) -> u32 {
        match self.numbers.get(cell as usize) {
            Some(number) => *number,
            None => 0,
        }
    }

    /// For each cell whether it belongs to a dead end.
    pub(crate) fn marks(&self, alloc: Global) -> Result<Vec<bool>, AllocError> {
        self.numbers.iter().map(|number| *number > 0).collect(alloc)
    }
}

/// Notes the number of the cells' dead end.
fn note(numbers: &mut [u32], cells: &[u32], number: u32) {
    for cell in cells {
        let at = *cell as usize;
        if at < numbers.len() {
            numbers[at] = number;
        }
    }
}

/// To which of these dead ends each cell of a map belongs.
pub(crate) fn owners_of(
    alloc: Global,
    grid: &Grid,
    ends: &[DeadEnd],
) -> Result<Owners, AllocError> {
    let mut numbers = vec![in alloc; 0u32; grid.cell_count() as usize]?;
    let mut number = 0u32;
    for end in ends {
        number = number.saturating_add(1);
        note(&mut numbers, &end.cells, number);
    }
    Ok(Owners { numbers })
}
