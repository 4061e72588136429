//! Whether a tree's numbers are those of a walk through it, so that each range of them is a subtree.

ghost use Rattle.std.specs.Prelude.{◌≡◌, ℕ, ◌+◌, ◌<◌, length, slice_index, true, false};
ghost use Rattle.fleet_grid.specs.Floor.{IsFloor, IsNeighbour, IsNeighbourIn};
ghost use Rattle.fleet_bridge.specs.inside.Preorder.{IsHeldIn, IsWholeIn, IsListedIn, IsWalk};

use crate::numbers::read;
use crate::sides::Sides;
use crate::tree::Tree;
use fleet_grid::Dir;
use std::alloc::Allocator;

/// Whether the cell is floor.
#[inline(always)]
pub(crate) fn is_floor<B: Allocator + Copy>(sides: &Sides<'_, B>, cell: u32) -> bool
    ensures yes { result ≡ true → IsFloor sides.now cell }
    ensures no { IsFloor sides.now cell → result ≡ true }
{
    sides.grid().is_floor(cell)
}

/// Whether the edge in a direction is on the tree, or reaches no less than `far` and does not reach past the subtree.
#[inline(always)]
fn is_held_beside<A: Allocator + Copy, B: Allocator + Copy>(
    sides: &Sides<'_, B>,
    tree: &Tree<A>,
    cell: u32,
    dir: Dir,
) -> bool
    ensures { result ≡ true → (d : ℕ) → IsNeighbourIn sides.now dir cell d → IsHeldIn tree.now cell d }
{
    let Some(next) = sides.beside(cell, dir) else {
        return true;
    };
    let number = read(&tree.number, next);
    if read(&tree.far, cell) <= number {
        if number < read(&tree.end, cell) {
            return true;
        }
    }
    if read(&tree.up, cell) == next {
        return true;
    }
    read(&tree.up, next) == cell
}

/// Whether each edge from the cell is.
fn is_held<A: Allocator + Copy, B: Allocator + Copy>(
    sides: &Sides<'_, B>,
    tree: &Tree<A>,
    cell: u32,
) -> bool
    ensures { result ≡ true → (d : ℕ) → IsNeighbour sides.now cell d → IsHeldIn tree.now cell d }
{
    let north = is_held_beside(sides, tree, cell, Dir::North);
    let east = is_held_beside(sides, tree, cell, Dir::East);
    let south = is_held_beside(sides, tree, cell, Dir::South);
    let west = is_held_beside(sides, tree, cell, Dir::West);
    if north {
        if east {
            if south {
                return west;
            }
        }
    }
    false
}

/// Whether the cell's first child, if it has one, has the next number.
fn is_before_child<A: Allocator + Copy>(tree: &Tree<A>, cell: u32) -> bool
    ensures { result ≡ true → slice_index tree.now.number.items cell + 1 < slice_index tree.now.end.items cell → slice_index tree.now.up.items (slice_index tree.now.order.items (slice_index tree.now.number.items cell + 1)) ≡ cell }
{
    let number = read(&tree.number, cell);
    let end = read(&tree.end, cell);
    if end <= number || end - number == 1 {
        return true;
    }
    read(&tree.up, read(&tree.order, number + 1)) == cell
}

/// Whether the cell's next sibling, if it has one, has the number after the cell's subtree.
fn is_before_sibling<A: Allocator + Copy>(tree: &Tree<A>, cell: u32) -> bool
    ensures { result ≡ true → (slice_index tree.now.up.items cell ≡ cell → ⊥) → slice_index tree.now.end.items cell < slice_index tree.now.end.items (slice_index tree.now.up.items cell) → slice_index tree.now.up.items (slice_index tree.now.order.items (slice_index tree.now.end.items cell)) ≡ slice_index tree.now.up.items cell }
{
    let up = read(&tree.up, cell);
    let end = read(&tree.end, cell);
    if up == cell || end >= read(&tree.end, up) {
        return true;
    }
    read(&tree.up, read(&tree.order, end)) == up
}

/// Whether the cell keeps what the sizes of sides rest on.
fn is_whole<A: Allocator + Copy, B: Allocator + Copy>(
    sides: &Sides<'_, B>,
    tree: &Tree<A>,
    cell: u32,
) -> bool
    ensures { result ≡ true → IsWholeIn sides.now tree.now cell }
{
    if read(&tree.order, read(&tree.number, cell)) != cell {
        return false;
    }
    if (read(&tree.end, cell) as usize) > tree.order.len() {
        return false;
    }
    if read(&tree.far, cell) < read(&tree.far, read(&tree.up, cell)) {
        return false;
    }
    is_before_child(tree, cell) && is_before_sibling(tree, cell) && is_held(sides, tree, cell)
}

/// Whether the cell does, or is a wall.
fn is_whole_or_wall<A: Allocator + Copy, B: Allocator + Copy>(
    sides: &Sides<'_, B>,
    tree: &Tree<A>,
    cell: u32,
) -> bool
    ensures { result ≡ true → IsFloor sides.now cell → IsWholeIn sides.now tree.now cell }
{
    if is_floor(sides, cell) {
        return is_whole(sides, tree, cell);
    }
    true
}

/// Whether each floor cell does.
fn are_whole<A: Allocator + Copy, B: Allocator + Copy>(
    sides: &Sides<'_, B>,
    tree: &Tree<A>,
    count: u32,
) -> bool
    ensures { result ≡ true → (c : ℕ) → c < count → IsFloor sides.now c → IsWholeIn sides.now tree.now c }
{
    for cell in 0..count {
        if !is_whole_or_wall(sides, tree, cell) {
            return false;
        }
    }
    true
}

/// Whether the order has a floor cell at that place, whose number that is.
fn is_listed<A: Allocator + Copy, B: Allocator + Copy>(
    sides: &Sides<'_, B>,
    tree: &Tree<A>,
    place: u32,
) -> bool
    ensures { result ≡ true → IsListedIn sides.now tree.now place }
{
    let cell = read(&tree.order, place);
    is_floor(sides, cell) && read(&tree.number, cell) == place
}

/// Whether the order has one at each place.
fn are_listed<A: Allocator + Copy, B: Allocator + Copy>(
    sides: &Sides<'_, B>,
    tree: &Tree<A>,
) -> bool
    ensures { result ≡ true → (k : ℕ) → k < length tree.now.order.items → IsListedIn sides.now tree.now k }
{
    let count = tree.order.len();
    for place in 0..count {
        if place > u32::MAX as usize || !is_listed(sides, tree, place as u32) {
            return false;
        }
    }
    true
}

/// Whether the tree's numbers are those of a walk through it.
pub(crate) fn is_walk<A: Allocator + Copy, B: Allocator + Copy>(
    sides: &Sides<'_, B>,
    tree: &Tree<A>,
) -> bool
    ensures { result ≡ true → IsWalk sides.now tree.now }
{
    are_whole(sides, tree, sides.grid().cell_count()) && are_listed(sides, tree)
}
