//! What is found of a row as the program writes it down.

use super::walk::{Finding, walk};
use crate::run::trace_of;
use fleet_grid::Grid;
use fleet_map::read_map;
use fleet_trace::read_trace;
use std::alloc::{Alloc, AllocError, Global};
use std::sync::Wait;
use std::thread::Threads;
use test_kit::{Bundle, split_at};

/// The grid of a map. None where it is no map.
fn grid_of(alloc: Global, map: &[u8]) -> Result<Option<Grid>, AllocError> {
    match read_map(alloc, map) {
        Ok(map) => Ok(Some(Grid::new(map)?)),
        Err(_) => Ok(None),
    }
}

/// What is found of the steps of a trace on a grid. None where it is no trace.
fn find_in(alloc: Global, grid: &Grid, trace: &[u8]) -> Result<Option<Finding>, AllocError> {
    match read_trace(alloc, trace) {
        Ok(chapter) => Ok(Some(walk(alloc, grid, &chapter)?)),
        Err(_) => Ok(None),
    }
}

/// What is found of the steps of a trace on a map.
fn find_on(alloc: Global, map: &[u8], trace: &[u8]) -> Result<Option<Finding>, AllocError> {
    match grid_of(alloc, map)? {
        Some(grid) => find_in(alloc, &grid, trace),
        None => Ok(None),
    }
}

/// What is found of the steps of a row. None where it has no chapter.
pub(crate) fn find<R: Alloc<A = Global> + Threads + Sync + Wait>(
    rt: &R,
    text: &[u8],
) -> Result<Option<Finding>, AllocError> {
    if let Some((map, _, trace)) = split_at(text, b"trace") {
        return find_on(rt.alloc(), map, trace);
    }
    let Some(bundle) = Bundle::of(text) else {
        return Ok(None);
    };
    let trace = trace_of(rt, bundle)?;
    find_on(rt.alloc(), bundle.map, &trace)
}
