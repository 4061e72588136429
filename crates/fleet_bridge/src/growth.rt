//! Makes a spanning tree of one part, and numbers its cells. It is proved only that this code is safe: the tree is
//! checked afterwards.

ghost use Rattle.std.specs.Prelude.{◌≡◌, ◌<◌, vec_len, true};

use crate::numbers::{append, own_numbers, read, write};
use crate::sides::Sides;
use std::alloc::{AllocError, Allocator, Global};

/// For each cell a byte: the ways from it to cells that are not placed, and whether it is placed itself; its parent, its
/// top, its number, the number after those of its subtree, and the least number that edges off the tree reach from its
/// subtree. The cells in the order in which they were placed, and how many. The roots of the parts, in that order, and
/// for each a cell with the largest subtree that hangs by a bridge, or the root where none does; and such a cell of the
/// part that is being placed, with the size of its subtree.
#[derive(Drop)]
pub(crate) struct Growth<A: Allocator + Copy = Global> {
    pub(crate) left: Vec<u8, A>,
    pub(crate) up: Vec<u32, A>,
    pub(crate) top: Vec<u32, A>,
    pub(crate) number: Vec<u32, A>,
    pub(crate) end: Vec<u32, A>,
    pub(crate) far: Vec<u32, A>,
    pub(crate) order: Vec<u32, A>,
    pub(crate) many: u32,
    pub(crate) roots: Vec<u32, A>,
    pub(crate) largest: Vec<u32, A>,
    pub(crate) hung: u32,
    pub(crate) size: u32,
}

impl<A: Allocator + Copy> Growth<A> {
    /// Nothing placed, and lists for this many cells.
    pub(crate) fn new<B: Allocator + Copy>(
        alloc: A,
        sides: &Sides<'_, B>,
        count: u32,
    ) -> Result<Growth<A>, AllocError> {
        let left = unplaced(alloc, sides, count)?;
        let up = own_numbers(alloc, count)?;
        let top = own_numbers(alloc, count)?;
        let number = vec![in alloc; UNPLACED; count as usize]?;
        let end = vec![in alloc; u32::MAX; count as usize]?;
        let far = vec![in alloc; 0u32; count as usize]?;
        let order = Vec::with_capacity(alloc, count as usize)?;
        let roots = Vec::with_capacity(alloc, count as usize)?;
        let largest = Vec::with_capacity(alloc, count as usize)?;
        Ok(Growth {
            left,
            up,
            top,
            number,
            end,
            far,
            order,
            many: 0,
            roots,
            largest,
            hung: 0,
            size: 0,
        })
    }

    /// Whether it is a cell that is not placed.
    #[inline(always)]
    pub(crate) fn is_unplaced(&self, cell: u32) -> bool
        ensures { result ≡ true → cell < vec_len self.now.left }
    {
        let at = cell as usize;
        at < self.left.len() && self.left[at] < PLACED
    }
}

/// The number of a cell that is not placed: greater than each number of one that is, and less than the end of walls.
pub(crate) const UNPLACED: u32 = u32::MAX - 1;

/// The bits of a cell's byte: the four ways, as `Ways` has them, and that the cell is placed.
const NORTH: u8 = 1;

const EAST: u8 = 2;

const SOUTH: u8 = 4;

const WEST: u8 = 8;

const PLACED: u8 = 16;

/// By some ways the one to try first, along the row if there is one, and the way back from there.
const FIRST: [u8; 16] = [
    0, NORTH, EAST, EAST, SOUTH, SOUTH, EAST, EAST, WEST, WEST, EAST, EAST, WEST, WEST, EAST, EAST,
];

const BACK: [u8; 16] = [
    0, SOUTH, WEST, WEST, NORTH, NORTH, WEST, WEST, EAST, EAST, WEST, WEST, EAST, EAST, WEST, WEST,
];

/// The cell that a way leads to.
#[inline(always)]
fn across(width: u32, cell: u32, way: u8) -> u32 {
    let (row, side) = if way == EAST || way == WEST {
        (1, way == EAST)
    } else {
        (width, way == SOUTH)
    };
    if side {
        cell.wrapping_add(row)
    } else {
        cell.wrapping_sub(row)
    }
}

/// A byte for each cell: the ways of a floor cell; a wall counts as placed.
fn unplaced<A: Allocator + Copy, B: Allocator + Copy>(
    alloc: A,
    sides: &Sides<'_, B>,
    count: u32,
) -> Result<Vec<u8, A>, AllocError> {
    let mut left = Vec::with_capacity(alloc, count as usize)?;
    for cell in 0..count {
        let ways = sides.ways_from(cell);
        let is_wall = ways == 0 && !sides.grid().is_floor(cell);
        if left.len() < left.capacity() {
            left.push_reserved(if is_wall { PLACED } else { ways });
        }
    }
    Ok(left)
}

/// Takes a way from a cell's byte, if there is such a cell.
#[inline(always)]
fn close<A: Allocator + Copy>(left: &mut Vec<u8, A>, cell: u32, way: u8) {
    let at = cell as usize;
    if at < left.len() {
        left[at] = left[at] & !way;
    }
}

/// Takes the ways that lead to a cell from the bytes of the cells around it. Where no way leads there from a cell, its
/// byte stays.
#[inline(always)]
fn close_around<A: Allocator + Copy>(left: &mut Vec<u8, A>, width: u32, cell: u32) {
    close(left, cell.wrapping_add(1), WEST);
    close(left, cell.wrapping_sub(1), EAST);
    close(left, cell.wrapping_add(width), NORTH);
    close(left, cell.wrapping_sub(width), SOUTH);
}

/// The number of the cell that a way leads to, where it is one of the ways. The number is read first, so that nothing
/// has to be foretold.
#[inline(always)]
fn number_across<A: Allocator + Copy>(
    number: &Vec<u32, A>,
    width: u32,
    cell: u32,
    ways: u8,
    way: u8,
) -> u32 {
    let number = read(number, across(width, cell, way));
    if ways & way == 0 { UNPLACED } else { number }
}

/// The least number that some ways from a cell lead to.
#[inline(always)]
fn least_across<A: Allocator + Copy>(number: &Vec<u32, A>, width: u32, cell: u32, ways: u8) -> u32 {
    let north = number_across(number, width, cell, ways, NORTH);
    let east = number_across(number, width, cell, ways, EAST);
    let south = number_across(number, width, cell, ways, SOUTH);
    let west = number_across(number, width, cell, ways, WEST);
    north.min(east).min(south.min(west))
}

/// Where a cell is placed: below its parent, in the part of a root, and by which way the parent is reached from it.
#[derive(Clone, Copy)]
struct Site {
    cell: u32,
    parent: u32,
    root: u32,
    back: u8,
}

/// Places a cell that is not placed. The order has room for each cell once.
#[inline(always)]
fn place<A: Allocator + Copy, B: Allocator + Copy>(
    sides: &Sides<'_, B>,
    growth: &mut Growth<A>,
    site: Site,
) {
    let Site {
        cell,
        parent,
        root,
        back,
    } = site;
    let at = cell as usize;
    if at >= growth.left.len() {
        return;
    }
    growth.left[at] = growth.left[at] | PLACED;
    let width = sides.width();
    close_around(&mut growth.left, width, cell);
    let number = growth.many;
    growth.many = number.saturating_add(1);
    let ways = sides.ways_from(cell) & !back;
    let far = least_across(&growth.number, width, cell, ways).min(number);
    write(&mut growth.up, cell, parent);
    write(&mut growth.top, cell, root);
    write(&mut growth.number, cell, number);
    write(&mut growth.far, cell, far);
    append(&mut growth.order, cell);
}

/// Places a neighbour below the cell, and gives it; where all are placed, the parent.
#[inline(always)]
fn grow<A: Allocator + Copy, B: Allocator + Copy>(
    sides: &Sides<'_, B>,
    growth: &mut Growth<A>,
    cell: u32,
    root: u32,
) -> u32 {
    let at = cell as usize;
    if at >= growth.left.len() {
        return cell;
    }
    let left = growth.left[at] % 16;
    if left == 0 {
        return leave(growth, cell);
    }
    let next = across(sides.width(), cell, FIRST[left as usize]);
    let site = Site {
        cell: next,
        parent: cell,
        root,
        back: BACK[left as usize],
    };
    place(sides, growth, site);
    next
}

/// Leaves a cell whose ways were all tried. Returns its parent.
#[inline(always)]
fn leave<A: Allocator + Copy>(growth: &mut Growth<A>, cell: u32) -> u32 {
    let end = growth.many;
    write(&mut growth.end, cell, end);
    let parent = read(&growth.up, cell);
    let (number, far) = (read(&growth.number, cell), read(&growth.far, cell));
    let least = read(&growth.far, parent).min(far);
    write(&mut growth.far, parent, least);
    let size = end.saturating_sub(number);
    if number <= far && parent != cell && growth.size < size {
        growth.hung = cell;
        growth.size = size;
    }
    parent
}

/// Places the part of the root, each cell below the last one that had a way to it. So an edge off the tree leads from
/// a cell to one of those above it. The root is its own parent.
pub(crate) fn place_part<A: Allocator + Copy, B: Allocator + Copy>(
    sides: &Sides<'_, B>,
    growth: &mut Growth<A>,
    count: u32,
    root: u32,
) {
    if !growth.is_unplaced(root) {
        return;
    }
    growth.hung = root;
    growth.size = 0;
    let site = Site {
        cell: root,
        parent: root,
        root,
        back: 0,
    };
    place(sides, growth, site);
    let mut cell = root;
    for _ in 0..2 * u64::from(count) {
        let next = grow(sides, growth, cell, root);
        if next == cell {
            break;
        }
        cell = next;
    }
}
