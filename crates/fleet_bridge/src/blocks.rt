//! The blocks of a map, by a tree: cells joined without bridges. It is proved only that the passes are safe: what comes
//! of them is checked afterwards.

ghost use Rattle.std.specs.Prelude.{◌≡◌, ℕ, cond, ◌==◌, slice_index};
ghost use Rattle.fleet_bridge.specs.inside.Housed.{side_size};

use crate::hanging::{hand_down, hangs, size};
use crate::numbers::{own_numbers, read, write};
use crate::tree::Tree;
use std::alloc::{AllocError, Allocator, Global};

/// For the topmost cell of each block: the two greatest subtrees that hang from the block, where it has that many, and
/// otherwise that cell.
#[derive(Drop)]
pub(crate) struct Blocks<A: Allocator + Copy = Global> {
    pub(crate) first: Vec<u32, A>,
    pub(crate) second: Vec<u32, A>,
}

/// How many cells a subtree has that hangs from the block of a cell, where that cell itself stands for none.
#[inline(always)]
pub(crate) fn side_size<A: Allocator + Copy>(tree: &Tree<A>, block: u32, cell: u32) -> u32
    ensures { result ≡ side_size (slice_index tree.now.number.items) (slice_index tree.now.end.items) block cell }
{
    if cell == block { 0 } else { size(tree, cell) }
}

/// Gives a block a subtree that hangs from it, if that is one of its two greatest so far.
#[inline(always)]
fn offer<A: Allocator + Copy>(tree: &Tree<A>, blocks: &mut Blocks<A>, block: u32, cell: u32) {
    let own = size(tree, cell);
    let first = read(&blocks.first, block);
    if own > side_size(tree, block, first) {
        write(&mut blocks.second, block, first);
        write(&mut blocks.first, block, cell);
    } else if own > side_size(tree, block, read(&blocks.second, block)) {
        write(&mut blocks.second, block, cell);
    }
}

/// Enters a cell: its block is its own if its subtree hangs or it is a root, and otherwise its parent's.
#[inline(always)]
fn enter<A: Allocator + Copy>(
    tree: &Tree<A>,
    blocks: &mut Blocks<A>,
    block: &mut Vec<u32, A>,
    cell: u32,
) {
    let above = read(block, read(&tree.up, cell));
    if hangs(tree, cell) {
        offer(tree, blocks, above, cell);
    } else {
        write(block, cell, above);
    }
}

/// Enters all cells: parents come before their children in the order.
fn enter_all<A: Allocator + Copy>(tree: &Tree<A>, blocks: &mut Blocks<A>, block: &mut Vec<u32, A>) {
    for cell in tree.order.iter() {
        enter(tree, blocks, block, *cell);
    }
}

/// The two greatest subtrees of each block.
pub(crate) fn blocks_of<A: Allocator + Copy>(
    alloc: A,
    tree: &Tree<A>,
    count: u32,
) -> Result<Blocks<A>, AllocError> {
    let mut block = own_numbers(alloc, count)?;
    let first = own_numbers(alloc, count)?;
    let second = own_numbers(alloc, count)?;
    let mut blocks = Blocks { first, second };
    enter_all(tree, &mut blocks, &mut block);
    Ok(blocks)
}

/// The cells of a block's part but those on the two greatest sides around the block: the subtrees that hang from it, and
/// all above it.
fn capacity_of<A: Allocator + Copy>(tree: &Tree<A>, blocks: &Blocks<A>, block: u32) -> u32 {
    let all = size(tree, read(&tree.top, block));
    let above = all.saturating_sub(size(tree, block));
    let first = side_size(tree, block, read(&blocks.first, block));
    let second = side_size(tree, block, read(&blocks.second, block));
    let least = above.min(first).min(second);
    let sides = above.saturating_add(first).saturating_add(second);
    all.saturating_sub(sides.saturating_sub(least))
}

/// Lets a block be the core of its part, if its capacity is greater than that of the core so far.
#[inline(always)]
fn nominate<A: Allocator + Copy>(
    tree: &Tree<A>,
    blocks: &Blocks<A>,
    cores: &mut Vec<u32, A>,
    block: u32,
) {
    let root = read(&tree.top, block);
    let best = read(cores, root);
    if capacity_of(tree, blocks, best) < capacity_of(tree, blocks, block) {
        write(cores, root, block);
    }
}

/// For each cell the topmost cell of the block of its part that has the greatest capacity.
pub(crate) fn cores_of<A: Allocator + Copy>(
    alloc: A,
    tree: &Tree<A>,
    blocks: &Blocks<A>,
    count: u32,
) -> Result<Vec<u32, A>, AllocError> {
    let mut cores = own_numbers(alloc, count)?;
    for cell in tree.order.iter() {
        if hangs(tree, *cell) {
            nominate(tree, blocks, &mut cores, *cell);
        }
    }
    hand_down(tree, &mut cores);
    Ok(cores)
}

/// Whether each part has its root in its core.
pub(crate) fn are_roots<A: Allocator + Copy>(tree: &Tree<A>, cores: &Vec<u32, A>) -> bool {
    for cell in tree.order.iter() {
        if read(cores, *cell) != read(&tree.top, *cell) {
            return false;
        }
    }
    true
}
