//! Trees whose numbers are those of a walk through them, with each edge looked at once: that both of its ends have one
//! top follows from the numbers.

ghost use Rattle.std.specs.Prelude.{◌≡◌, ℕ, ◌<◌, length, true};
ghost use Rattle.fleet_bridge.specs.inside.Tree.{AreUnder};
ghost use Rattle.fleet_bridge.specs.inside.Spanning.{IsFitUpIn};
ghost use Rattle.fleet_bridge.specs.inside.Preorder.{IsWalked};

use crate::numbers::read;
use crate::preorder::is_walk;
use crate::sides::Sides;
use crate::tree::{Tree, is_near};
use std::alloc::Allocator;

/// Whether the cell keeps what the proof needs, and has its parent's top.
fn is_fit_up<A: Allocator + Copy, B: Allocator + Copy>(
    sides: &Sides<'_, B>,
    tree: &Tree<A>,
    cell: u32,
) -> bool
    ensures { result ≡ true → IsFitUpIn sides.now tree.now cell }
{
    let up = read(&tree.up, cell);
    if read(&tree.number, cell) >= read(&tree.end, cell) {
        return false;
    }
    if up == cell {
        return read(&tree.top, cell) == cell;
    }
    is_near(sides, cell, up)
        && read(&tree.number, up) < read(&tree.number, cell)
        && read(&tree.end, cell) <= read(&tree.end, up)
        && read(&tree.top, cell) == read(&tree.top, up)
}

/// Whether all cells do.
fn are_fit_up<A: Allocator + Copy, B: Allocator + Copy>(
    sides: &Sides<'_, B>,
    tree: &Tree<A>,
    count: u32,
) -> bool
    ensures { result ≡ true → (c : ℕ) → c < count → IsFitUpIn sides.now tree.now c }
{
    for cell in 0..count {
        if !is_fit_up(sides, tree, cell) {
            return false;
        }
    }
    true
}

/// Whether the tree spans the map, and its numbers are those of a walk through it.
pub(crate) fn is_walked<A: Allocator + Copy, B: Allocator + Copy>(
    sides: &Sides<'_, B>,
    tree: &Tree<A>,
) -> bool
    requires { AreUnder tree.now.up.items (length sides.now.letters) tree.now.low.items }
    ensures { result ≡ true → IsWalked sides.now tree.now }
{
    are_fit_up(sides, tree, sides.grid().cell_count()) && is_walk(sides, tree)
}
