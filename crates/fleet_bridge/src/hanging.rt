//! Subtrees that hang by a bridge: all edges but the one to the parent stay inside.

ghost use Rattle.std.specs.Prelude.{◌≡◌, ◌⊎◌, ℕ, ◌-◌, ◌<◌, slice_index, true, false};
ghost use Rattle.fleet_bridge.specs.inside.Preorder.{IsHungIn, subtree_size};

use crate::numbers::{read, write};
use crate::tree::Tree;
use std::alloc::Allocator;

/// How many cells the subtree has.
#[inline(always)]
pub(crate) fn size<A: Allocator + Copy>(tree: &Tree<A>, cell: u32) -> u32
    ensures { result ≡ subtree_size (slice_index tree.now.number.items) (slice_index tree.now.end.items) cell }
{
    read(&tree.end, cell).saturating_sub(read(&tree.number, cell))
}

/// Whether the subtree hangs.
#[inline(always)]
pub(crate) fn hangs<A: Allocator + Copy>(tree: &Tree<A>, cell: u32) -> bool
    ensures yes { result ≡ true → IsHungIn tree.now cell }
    ensures no { result ≡ false → (slice_index tree.now.up.items cell ≡ cell) ⊎ (slice_index tree.now.far.items cell < slice_index tree.now.number.items cell) }
{
    if read(&tree.up, cell) == cell {
        return false;
    }
    read(&tree.number, cell) <= read(&tree.far, cell)
}

/// Gives each cell what the root of its part has: roots come before the other cells in the order.
pub(crate) fn hand_down<A: Allocator + Copy>(tree: &Tree<A>, roots: &mut Vec<u32, A>) {
    for cell in tree.order.iter() {
        let root = read(roots, read(&tree.top, *cell));
        write(roots, *cell, root);
    }
}

/// The largest subtree that hangs in the part of a root, or the root where none does: searched by the root's number, as
/// the roots are in the order of their numbers.
pub(crate) fn largest_hanging<A: Allocator + Copy>(tree: &Tree<A>, root: u32) -> u32 {
    let number = read(&tree.number, root);
    let at = tree
        .roots
        .as_slice()
        .partition_point(|other: &u32| read(&tree.number, *other) < number);
    if at < tree.largest.len() {
        tree.largest[at]
    } else {
        root
    }
}
