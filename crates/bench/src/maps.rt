//! The maps that are measured, each with its counts.

use crate::hostile::read_grid;
use crate::kind::{Kind, grid_of};
use crate::shape::Shape;
use fleet_grid::Grid;
use std::alloc::{Alloc, Global};
use std::io;

/// A line of a map's counts.
fn tell(rt: &impl Print, name: &str, grid: &Grid) -> io::Result<()> {
    let (sides, floor, edges) = (
        (grid.height(), grid.width()),
        grid.floor_count(),
        grid.edge_count(),
    );
    println!(rt;
        "map={name} height={} width={} floor={floor} edges={edges}",
        sides.0, sides.1
    )
}

/// A line of a kind of map.
fn tell_kind<R: Alloc<A = Global> + Print>(rt: &R, kind: Kind) -> io::Result<()> {
    let grid = grid_of(rt.alloc(), kind)?;
    tell(rt, kind.name(), &grid)
}

/// A line of a hostile shape.
fn tell_shape<R: Alloc<A = Global> + Print>(rt: &R, shape: Shape) -> io::Result<()> {
    let text = shape.text(rt.alloc())?;
    let grid = read_grid(rt.alloc(), &text)?;
    tell(rt, shape.name(), &grid)
}

/// A line of each kind of map, and of each hostile shape.
pub(crate) fn tell_maps<R: Alloc<A = Global> + Print>(
    rt: &R,
    kinds: &[Kind],
    shapes: &[Shape],
) -> io::Result<()> {
    for kind in kinds {
        tell_kind(rt, *kind)?;
    }
    for shape in shapes {
        tell_shape(rt, *shape)?;
    }
    Ok(())
}
