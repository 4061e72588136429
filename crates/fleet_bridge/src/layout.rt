//! The rooms around the roots of a tree, before their check: it is proved only that the passes are safe.

ghost use Rattle.std.specs.Prelude.{◌≡◌, length};

use crate::blocks::{Blocks, side_size};
use crate::hanging::{hangs, size};
use crate::numbers::{own_numbers, read, write};
use crate::tree::Tree;
use std::alloc::{AllocError, Allocator, Global};

/// For each cell its door: the outermost subtree that hangs and has it, or the root where none has. For each subtree that
/// hangs, and each root, the two greatest that hang from its block. For each root its capacity.
#[derive(Drop)]
pub(crate) struct Layout<A: Allocator + Copy = Global> {
    pub(crate) door: Vec<u32, A>,
    pub(crate) first: Vec<u32, A>,
    pub(crate) second: Vec<u32, A>,
    pub(crate) most: Vec<u32, A>,
}

/// The door of a cell whose parent has its own.
#[inline(always)]
fn door_of<A: Allocator + Copy>(tree: &Tree<A>, door: &Vec<u32, A>, cell: u32) -> u32 {
    let root = read(&tree.top, cell);
    let above = read(door, read(&tree.up, cell));
    if above != root {
        return above;
    }
    if hangs(tree, cell) { cell } else { root }
}

/// The doors of all cells: parents come before their children in the order.
fn open_doors<A: Allocator + Copy>(tree: &Tree<A>, door: &mut Vec<u32, A>)
    ensures { length door.new.items ≡ length door.old.items }
{
    for cell in tree.order.iter() {
        let own = door_of(tree, door, *cell);
        write(door, *cell, own);
    }
}

/// The capacity of a root: all of its part but its two greatest rooms.
fn capacity_at<A: Allocator + Copy>(tree: &Tree<A>, blocks: &Blocks<A>, root: u32) -> u32 {
    let first = side_size(tree, root, read(&blocks.first, root));
    let second = side_size(tree, root, read(&blocks.second, root));
    size(tree, root)
        .saturating_sub(first)
        .saturating_sub(second)
}

/// The capacities of all roots.
fn count_all<A: Allocator + Copy>(tree: &Tree<A>, blocks: &Blocks<A>, most: &mut Vec<u32, A>)
    ensures { length most.new.items ≡ length most.old.items }
{
    for cell in tree.order.iter() {
        if read(&tree.up, *cell) == *cell {
            write(most, *cell, capacity_at(tree, blocks, *cell));
        }
    }
}

/// The rooms around the roots of a tree.
pub(crate) fn layout_of<A: Allocator + Copy>(
    alloc: A,
    tree: &Tree<A>,
    blocks: Blocks<A>,
    count: u32,
) -> Result<Layout<A>, AllocError> {
    let mut door = own_numbers(alloc, count)?;
    open_doors(tree, &mut door);
    let mut most = own_numbers(alloc, count)?;
    count_all(tree, &blocks, &mut most);
    let Blocks { first, second } = blocks;
    Ok(Layout {
        door,
        first,
        second,
        most,
    })
}
