//! Whether the rooms around the roots of a tree are right, and each root is in the core of its part.

ghost use Rattle.std.specs.Prelude.{◌≡◌, ◌≢◌, ◌⊎◌, ℕ, ◌+◌, ◌-◌, ◌<◌, ◌≤◌, length, slice_index, true, false};
ghost use Rattle.fleet_grid.specs.Floor.{IsFloor};
ghost use Rattle.fleet_bridge.specs.inside.Housed.{IsCountedIn, IsHousedIn, IsHungFromIn, IsLesserIn, side_size};
ghost use Rattle.fleet_bridge.specs.inside.Preorder.{IsHungIn, subtree_size};
ghost use Rattle.fleet_bridge.specs.inside.Spanning.{IsCrossedIn, IsSpanning};

use crate::blocks::side_size;
use crate::first::is_crossed;
use crate::hanging::{hangs, size};
use crate::layout::Layout;
use crate::numbers::read;
use crate::preorder::is_floor;
use crate::sides::Sides;
use crate::tree::Tree;
use std::alloc::Allocator;

/// Whether the cell is one of the root's part whose subtree hangs.
fn hangs_from<A: Allocator + Copy, B: Allocator + Copy>(
    sides: &Sides<'_, B>,
    tree: &Tree<A>,
    root: u32,
    cell: u32,
) -> bool
    ensures { result ≡ true → IsHungFromIn sides.now tree.now root cell }
{
    is_floor(sides, cell) && hangs(tree, cell) && read(&tree.top, cell) == root
}

/// Whether no cell is in both subtrees.
fn are_apart<A: Allocator + Copy>(tree: &Tree<A>, a: u32, b: u32) -> bool
    ensures { result ≡ true → (slice_index tree.now.end.items a ≤ slice_index tree.now.number.items b) ⊎ (slice_index tree.now.end.items b ≤ slice_index tree.now.number.items a) }
{
    if read(&tree.end, a) <= read(&tree.number, b) {
        return true;
    }
    read(&tree.end, b) <= read(&tree.number, a)
}

/// Whether the number is the size of the root's part without a subtree.
fn is_rest_of_one<A: Allocator + Copy>(tree: &Tree<A>, root: u32, number: u32, one: u32) -> bool
    ensures { result ≡ true → number + subtree_size (slice_index tree.now.number.items) (slice_index tree.now.end.items) one ≡ subtree_size (slice_index tree.now.number.items) (slice_index tree.now.end.items) root }
{
    let all = size(tree, root);
    number <= all && all - number == size(tree, one)
}

/// Whether the number is the size of the root's part without two subtrees.
fn is_rest_of_two<A: Allocator + Copy>(
    tree: &Tree<A>,
    root: u32,
    number: u32,
    one: u32,
    two: u32,
) -> bool
    ensures { result ≡ true → number + subtree_size (slice_index tree.now.number.items) (slice_index tree.now.end.items) one + subtree_size (slice_index tree.now.number.items) (slice_index tree.now.end.items) two ≡ subtree_size (slice_index tree.now.number.items) (slice_index tree.now.end.items) root }
{
    let all = size(tree, root);
    let first = size(tree, one);
    if number > all || first > all - number {
        return false;
    }
    all - number - first == size(tree, two)
}

/// Whether the capacity of a root is that without its two greatest rooms.
fn is_counted<A: Allocator + Copy, B: Allocator + Copy>(
    sides: &Sides<'_, B>,
    tree: &Tree<A>,
    layout: &Layout<A>,
    root: u32,
) -> bool
    ensures { result ≡ true → IsCountedIn sides.now tree.now root (slice_index layout.now.most.items root) }
{
    let number = read(&layout.most, root);
    let one = read(&layout.first, root);
    if one == root {
        return number == size(tree, root);
    }
    if !hangs_from(sides, tree, root, one) {
        return false;
    }
    let two = read(&layout.second, root);
    if two == root {
        return is_rest_of_one(tree, root, number, one);
    }
    hangs_from(sides, tree, root, two)
        && are_apart(tree, one, two)
        && is_rest_of_two(tree, root, number, one, two)
}

/// Whether the capacity of a root and the sizes of its two greatest rooms are no more than its part.
fn is_fitting<A: Allocator + Copy>(tree: &Tree<A>, layout: &Layout<A>, root: u32) -> bool
    ensures { result ≡ true → slice_index layout.now.most.items root + side_size (slice_index tree.now.number.items) (slice_index tree.now.end.items) root (slice_index layout.now.first.items root) + side_size (slice_index tree.now.number.items) (slice_index tree.now.end.items) root (slice_index layout.now.second.items root) ≤ subtree_size (slice_index tree.now.number.items) (slice_index tree.now.end.items) root }
{
    let all = size(tree, root);
    let number = read(&layout.most, root);
    let one = side_size(tree, root, read(&layout.first, root));
    let two = side_size(tree, root, read(&layout.second, root));
    if number > all || one > all - number {
        return false;
    }
    two <= all - number - one
}

/// Whether a root is right.
fn is_root_right<A: Allocator + Copy, B: Allocator + Copy>(
    sides: &Sides<'_, B>,
    tree: &Tree<A>,
    layout: &Layout<A>,
    cell: u32,
) -> bool
    requires { slice_index tree.now.up.items cell ≡ cell }
    ensures { result ≡ true → IsHousedIn sides.now tree.now layout.now cell }
{
    if read(&layout.door, cell) != cell {
        return false;
    }
    if !is_counted(sides, tree, layout, cell) {
        return false;
    }
    is_fitting(tree, layout, cell)
}

/// Whether a subtree that hangs has no more cells than the capacity of its root, or no more but for the greatest that
/// hangs from its block.
fn is_lesser<A: Allocator + Copy, B: Allocator + Copy>(
    sides: &Sides<'_, B>,
    tree: &Tree<A>,
    layout: &Layout<A>,
    cell: u32,
) -> bool
    ensures { result ≡ true → IsLesserIn sides.now tree.now (slice_index layout.now.most.items (slice_index tree.now.top.items cell)) cell }
{
    let number = read(&layout.most, read(&tree.top, cell));
    let own = size(tree, cell);
    if own <= number {
        return true;
    }
    let one = read(&layout.first, cell);
    is_floor(sides, one)
        && hangs(tree, one)
        && read(&tree.number, cell) < read(&tree.number, one)
        && read(&tree.number, one) < read(&tree.end, cell)
        && own.saturating_sub(size(tree, one)) <= number
}

/// Whether a room is no greater than the greatest one of its part, and the second, unless it is the first.
fn is_ranked<A: Allocator + Copy>(tree: &Tree<A>, layout: &Layout<A>, cell: u32) -> bool
    ensures one { result ≡ true → subtree_size (slice_index tree.now.number.items) (slice_index tree.now.end.items) cell ≤ side_size (slice_index tree.now.number.items) (slice_index tree.now.end.items) (slice_index tree.now.top.items cell) (slice_index layout.now.first.items (slice_index tree.now.top.items cell)) }
    ensures two { result ≡ true → (cell ≡ slice_index layout.now.first.items (slice_index tree.now.top.items cell)) ⊎ (subtree_size (slice_index tree.now.number.items) (slice_index tree.now.end.items) cell ≤ side_size (slice_index tree.now.number.items) (slice_index tree.now.end.items) (slice_index tree.now.top.items cell) (slice_index layout.now.second.items (slice_index tree.now.top.items cell))) }
{
    let root = read(&tree.top, cell);
    let own = size(tree, cell);
    let first = read(&layout.first, root);
    if own > side_size(tree, root, first) {
        return false;
    }
    if cell == first {
        return true;
    }
    own <= side_size(tree, root, read(&layout.second, root))
}

/// Whether a cell has its parent's door, where that is a room's, and otherwise its own.
fn is_door_right<A: Allocator + Copy>(
    tree: &Tree<A>,
    layout: &Layout<A>,
    cell: u32,
    own: u32,
) -> bool
    ensures within { result ≡ true → slice_index layout.now.door.items (slice_index tree.now.up.items cell) ≢ slice_index tree.now.top.items cell → slice_index layout.now.door.items cell ≡ slice_index layout.now.door.items (slice_index tree.now.up.items cell) }
    ensures own { result ≡ true → slice_index layout.now.door.items (slice_index tree.now.up.items cell) ≡ slice_index tree.now.top.items cell → slice_index layout.now.door.items cell ≡ own }
{
    let above = read(&layout.door, read(&tree.up, cell));
    let door = read(&layout.door, cell);
    if above == read(&tree.top, cell) {
        return door == own;
    }
    door == above
}

/// Whether a cell that is no root is right, where its subtree hangs.
fn is_hung_housed<A: Allocator + Copy, B: Allocator + Copy>(
    sides: &Sides<'_, B>,
    tree: &Tree<A>,
    layout: &Layout<A>,
    cell: u32,
) -> bool
    requires { IsHungIn tree.now cell }
    ensures { result ≡ true → IsHousedIn sides.now tree.now layout.now cell }
{
    if !is_door_right(tree, layout, cell, cell) || !is_lesser(sides, tree, layout, cell) {
        return false;
    }
    if read(&layout.door, cell) == cell {
        return is_ranked(tree, layout, cell);
    }
    true
}

/// Whether a cell that is no root is right, where its subtree does not hang.
fn is_inner_housed<A: Allocator + Copy, B: Allocator + Copy>(
    sides: &Sides<'_, B>,
    tree: &Tree<A>,
    layout: &Layout<A>,
    cell: u32,
) -> bool
    requires inside { cell < length sides.now.letters }
    requires tree { IsSpanning sides.now tree.now }
    requires child { slice_index tree.now.up.items cell ≢ cell }
    requires off { slice_index tree.now.far.items cell < slice_index tree.now.number.items cell }
    ensures { result ≡ true → IsHousedIn sides.now tree.now layout.now cell }
{
    if !is_door_right(tree, layout, cell, read(&tree.top, cell)) {
        return false;
    }
    is_crossed(sides, tree, cell)
}

/// Whether a cell is right.
fn is_housed<A: Allocator + Copy, B: Allocator + Copy>(
    sides: &Sides<'_, B>,
    tree: &Tree<A>,
    layout: &Layout<A>,
    cell: u32,
) -> bool
    requires inside { cell < length sides.now.letters }
    requires tree { IsSpanning sides.now tree.now }
    ensures { result ≡ true → IsHousedIn sides.now tree.now layout.now cell }
{
    if read(&tree.up, cell) == cell {
        return is_root_right(sides, tree, layout, cell);
    }
    if hangs(tree, cell) {
        return is_hung_housed(sides, tree, layout, cell);
    }
    is_inner_housed(sides, tree, layout, cell)
}

/// Whether a cell is, or is a wall.
fn is_housed_or_wall<A: Allocator + Copy, B: Allocator + Copy>(
    sides: &Sides<'_, B>,
    tree: &Tree<A>,
    layout: &Layout<A>,
    cell: u32,
) -> bool
    requires { IsSpanning sides.now tree.now }
    ensures { result ≡ true → IsFloor sides.now cell → IsHousedIn sides.now tree.now layout.now cell }
{
    if is_floor(sides, cell) {
        return is_housed(sides, tree, layout, cell);
    }
    true
}

/// Whether all floor cells are.
pub(crate) fn are_housed<A: Allocator + Copy, B: Allocator + Copy>(
    sides: &Sides<'_, B>,
    tree: &Tree<A>,
    layout: &Layout<A>,
) -> bool
    requires { IsSpanning sides.now tree.now }
    ensures { result ≡ true → (c : ℕ) → IsFloor sides.now c → IsHousedIn sides.now tree.now layout.now c }
{
    for cell in 0..sides.grid().cell_count() {
        if !is_housed_or_wall(sides, tree, layout, cell) {
            return false;
        }
    }
    true
}
