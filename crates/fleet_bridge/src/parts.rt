//! Makes the spanning trees of all parts, each below a root with which no subtree that hangs is heavy. It is proved only
//! that this code is safe: the trees are checked afterwards.

use crate::growth::{Growth, UNPLACED, place_part};
use crate::numbers::{append, read, write};
use crate::sides::Sides;
use fleet_grid::Dir;
use std::alloc::{AllocError, Allocator};

/// Whether the cell's subtree hangs by a bridge and has more than half of that many cells.
fn is_heavy<A: Allocator + Copy>(growth: &Growth<A>, all: u32, cell: u32) -> bool {
    let number = read(&growth.number, cell);
    read(&growth.end, cell).saturating_sub(number) > all / 2
        && number <= read(&growth.far, cell)
        && read(&growth.up, cell) != cell
}

/// Of the cells from that place on in the order, which are a part, the last one whose subtree is heavy.
fn heavy_from<A: Allocator + Copy>(growth: &Growth<A>, start: u32) -> Option<u32> {
    let all = growth.many.saturating_sub(start);
    if growth.size <= all / 2 {
        return None;
    }
    let mut heavy = None;
    for place in start..growth.many {
        let cell = read(&growth.order, place);
        if is_heavy(growth, all, cell) {
            heavy = Some(cell);
        }
    }
    heavy
}

/// Takes a cell out of the tree.
#[inline(always)]
fn forget<A: Allocator + Copy, B: Allocator + Copy>(
    sides: &Sides<'_, B>,
    growth: &mut Growth<A>,
    cell: u32,
) {
    let at = cell as usize;
    if at < growth.left.len() {
        growth.left[at] = sides.ways_from(cell);
    }
    write(&mut growth.number, cell, UNPLACED);
}

/// Takes the cells from that place on in the order, which are a part, out of the tree.
fn forget_from<A: Allocator + Copy, B: Allocator + Copy>(
    sides: &Sides<'_, B>,
    growth: &mut Growth<A>,
    start: u32,
) {
    for place in start..growth.many {
        let cell = read(&growth.order, place);
        forget(sides, growth, cell);
    }
    growth.order.truncate(start as usize);
    growth.many = start;
}

/// Places the part of a cell, below another root if a subtree is heavy: seen from there none is.
fn place_light<A: Allocator + Copy, B: Allocator + Copy>(
    sides: &Sides<'_, B>,
    growth: &mut Growth<A>,
    count: u32,
    first: u32,
) {
    let start = growth.many;
    place_part(sides, growth, count, first);
    let Some(root) = heavy_from(growth, start) else {
        enter(growth, first);
        return;
    };
    forget_from(sides, growth, start);
    place_part(sides, growth, count, root);
    enter(growth, root);
}

/// Whether the cell is the first of a square of floor.
#[inline(always)]
fn has_square<B: Allocator + Copy>(sides: &Sides<'_, B>, cell: u32) -> bool {
    let Some(east) = sides.beside(cell, Dir::East) else {
        return false;
    };
    sides.beside(cell, Dir::South).is_some() && sides.beside(east, Dir::South).is_some()
}

/// A cell of a square of floor after the middle of the map, if there is one: most often of the block that no side is
/// larger than.
fn middle_of<B: Allocator + Copy>(sides: &Sides<'_, B>, count: u32) -> Option<u32> {
    let middle = count / 2 + sides.grid().width() / 2;
    for cell in middle..count {
        if has_square(sides, cell) {
            return Some(cell);
        }
    }
    None
}

/// Enters the part that was placed last.
fn enter<A: Allocator + Copy>(growth: &mut Growth<A>, root: u32) {
    let hung = growth.hung;
    append(&mut growth.roots, root);
    append(&mut growth.largest, hung);
}

/// Places the part of a cell, unless it is placed: below its root in the list, where that has one.
#[inline(always)]
fn place_from<A: Allocator + Copy, B: Allocator + Copy>(
    sides: &Sides<'_, B>,
    growth: &mut Growth<A>,
    roots: &Vec<u32, A>,
    count: u32,
    first: u32,
) {
    if !growth.is_unplaced(first) {
        return;
    }
    let at = first as usize;
    if at < roots.len() {
        place_part(sides, growth, count, roots[at]);
        enter(growth, roots[at]);
    } else {
        place_light(sides, growth, count, first);
    }
}

/// All cells placed, each part below the root that its cells have in `roots`; where that list is empty, below a root
/// with which no subtree is heavy. The part in the middle of the map comes first.
pub(crate) fn place_all<A: Allocator + Copy, B: Allocator + Copy>(
    alloc: A,
    sides: &Sides<'_, B>,
    roots: &Vec<u32, A>,
    count: u32,
) -> Result<Growth<A>, AllocError> {
    let mut growth = Growth::new(alloc, sides, count)?;
    if let Some(middle) = middle_of(sides, count) {
        place_from(sides, &mut growth, roots, count, middle);
    }
    place_parts(sides, &mut growth, roots, count);
    Ok(growth)
}

/// Places each part below its root.
fn place_parts<A: Allocator + Copy, B: Allocator + Copy>(
    sides: &Sides<'_, B>,
    growth: &mut Growth<A>,
    roots: &Vec<u32, A>,
    count: u32,
) {
    for first in 0..count {
        place_from(sides, growth, roots, count, first);
    }
}
