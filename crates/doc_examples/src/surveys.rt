//! What a map offers.

use fleet_grid::Grid;
use fleet_survey::survey_of;
use std::alloc::{AllocError, Global};

/// How many cells are roomy for this many robots.
pub fn roomy_count(alloc: Global, grid: &Grid, robots: u32) -> Result<usize, AllocError> {
    let found = survey_of(alloc, grid, robots)?;
    Ok(found.roomy.len())
}
