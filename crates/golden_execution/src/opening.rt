//! The beginning of an execution.

use fleet_execution::{Clearance, Execution, is_placement};
use std::alloc::{AllocError, Global};

/// An execution in which there is nobody.
pub(crate) fn empty(alloc: Global) -> Result<Execution, AllocError> {
    Execution::new(alloc, 1, &[], Clearance::Started, 1)
}

/// An execution whose numbers are the cells, the window and the placement; one in which there is nobody, if they are none.
pub(crate) fn opened(
    alloc: Global,
    clearance: Clearance,
    numbers: &[u32],
) -> Result<Execution, AllocError> {
    let [cells, ahead, ..] = numbers else {
        return empty(alloc);
    };
    let placement = &numbers[2..];
    if *ahead == 0 || !is_placement(alloc, *cells, placement)? {
        return empty(alloc);
    }
    Execution::new(alloc, *cells, placement, clearance, *ahead)
}
