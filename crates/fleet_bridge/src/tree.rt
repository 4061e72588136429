//! A spanning tree of each part, with numbers, made in a fixed number of passes.
//!
//! It is proved only that the passes are safe; `is_fit` checks what the proof needs of the numbers. The only invariant
//! is that `low` is in the cell's subtree.

ghost use Rattle.std.specs.Prelude.{◌≡◌, ℕ, ◌<◌, length, slice_index, IfOk, true};
ghost use Rattle.fleet_grid.specs.Floor.{IsNeighbour, IsNeighbourIn};
ghost use Rattle.fleet_bridge.specs.inside.Tree.{AreUnder};
ghost use Rattle.fleet_bridge.specs.inside.Spanning.{IsFitIn, IsSpanning};

use crate::growth::Growth;
use crate::numbers::read;
use crate::parts::place_all;
use crate::reach::furthest;
use crate::sides::Sides;
use fleet_grid::Dir;
use std::alloc::{AllocError, Allocator, Global};

/// For each cell: its parent (itself, where it has none), the root of its part, its number in preorder, the number after
/// those of its subtree, the least number that an edge off the tree reaches from its subtree, and a cell of the subtree
/// that reaches it. The floor cells in preorder. The roots of the parts, in that order, and for each a cell with the
/// largest subtree that hangs, or the root where none does.
#[derive(Drop)]
pub(crate) struct Tree<A: Allocator + Copy = Global> {
    pub(crate) up: Vec<u32, A>,
    pub(crate) top: Vec<u32, A>,
    pub(crate) number: Vec<u32, A>,
    pub(crate) end: Vec<u32, A>,
    pub(crate) far: Vec<u32, A>,
    pub(crate) low: Vec<u32, A>,
    pub(crate) order: Vec<u32, A>,
    pub(crate) roots: Vec<u32, A>,
    pub(crate) largest: Vec<u32, A>,
}

/// Whether the edge to the neighbour in a direction has one top.
fn has_one_top<A: Allocator + Copy, B: Allocator + Copy>(
    sides: &Sides<'_, B>,
    tree: &Tree<A>,
    cell: u32,
    dir: Dir,
) -> bool
    ensures { result ≡ true → (d : ℕ) → IsNeighbourIn sides.now dir cell d → slice_index tree.now.top.items cell ≡ slice_index tree.now.top.items d }
{
    match sides.beside(cell, dir) {
        Some(next) => read(&tree.top, cell) == read(&tree.top, next),
        None => true,
    }
}

/// Whether each edge from the cell has one top.
fn has_one_top_around<A: Allocator + Copy, B: Allocator + Copy>(
    sides: &Sides<'_, B>,
    tree: &Tree<A>,
    cell: u32,
) -> bool
    ensures { result ≡ true → (d : ℕ) → IsNeighbour sides.now cell d → slice_index tree.now.top.items cell ≡ slice_index tree.now.top.items d }
{
    let north = has_one_top(sides, tree, cell, Dir::North);
    let east = has_one_top(sides, tree, cell, Dir::East);
    let south = has_one_top(sides, tree, cell, Dir::South);
    let west = has_one_top(sides, tree, cell, Dir::West);
    if north {
        if east {
            if south {
                return west;
            }
        }
    }
    false
}

/// Whether the second cell lies in that direction.
#[tactic(auto, using(crate::proofs::Inner::near_by))]
fn is_beside<B: Allocator + Copy>(sides: &Sides<'_, B>, a: u32, b: u32, dir: Dir) -> bool
    ensures { result ≡ true → IsNeighbour sides.now a b }
{
    match sides.beside(a, dir) {
        Some(next) => next == b,
        None => false,
    }
}

/// Whether the two cells are neighbours.
pub(crate) fn is_near<B: Allocator + Copy>(sides: &Sides<'_, B>, a: u32, b: u32) -> bool
    ensures { result ≡ true → IsNeighbour sides.now a b }
{
    let (along, down) = if a < b {
        (Dir::East, Dir::South)
    } else {
        (Dir::West, Dir::North)
    };
    is_beside(sides, a, b, along) || is_beside(sides, a, b, down)
}

/// Whether the cell keeps what the proof needs.
fn is_fit<A: Allocator + Copy, B: Allocator + Copy>(
    sides: &Sides<'_, B>,
    tree: &Tree<A>,
    cell: u32,
) -> bool
    ensures { result ≡ true → IsFitIn sides.now tree.now cell }
{
    let up = read(&tree.up, cell);
    if read(&tree.number, cell) >= read(&tree.end, cell) || !has_one_top_around(sides, tree, cell) {
        return false;
    }
    if up == cell {
        return read(&tree.top, cell) == cell;
    }
    is_near(sides, cell, up)
        && read(&tree.number, up) < read(&tree.number, cell)
        && read(&tree.end, cell) <= read(&tree.end, up)
}

/// Whether all cells do.
fn are_fit<A: Allocator + Copy, B: Allocator + Copy>(
    sides: &Sides<'_, B>,
    tree: &Tree<A>,
    count: u32,
) -> bool
    ensures { result ≡ true → (c : ℕ) → c < count → IsFitIn sides.now tree.now c }
{
    for cell in 0..count {
        if !is_fit(sides, tree, cell) {
            return false;
        }
    }
    true
}

/// The tree with these roots, before its check. The list has for each cell the root that its part is to have; where the
/// list is empty, that is a cell with which no subtree that hangs has more than half of its part.
pub(crate) fn tree_of<A: Allocator + Copy, B: Allocator + Copy>(
    alloc: A,
    sides: &Sides<'_, B>,
    roots: &Vec<u32, A>,
    count: u32,
) -> Result<Tree<A>, AllocError>
    ensures { IfOk result (λ tree. AreUnder tree.up.items count tree.low.items) }
{
    let Growth {
        left: _,
        up,
        top,
        number,
        end,
        far,
        order,
        many: _,
        roots,
        largest,
        hung: _,
        size: _,
    } = place_all(alloc, sides, roots, count)?;
    let low = furthest(alloc, &up, &order, &far, count)?;
    Ok(Tree {
        up,
        top,
        number,
        end,
        far,
        low,
        order,
        roots,
        largest,
    })
}

/// The tree with these roots, and whether it passed its check.
pub(crate) fn spanning_tree<A: Allocator + Copy, B: Allocator + Copy>(
    alloc: A,
    sides: &Sides<'_, B>,
    roots: &Vec<u32, A>,
) -> Result<(Tree<A>, bool), AllocError>
    ensures { IfOk result (λ it. it.1 ≡ true → IsSpanning sides.now it.0) }
{
    let count = sides.grid().cell_count();
    let tree = tree_of(alloc, sides, roots, count)?;
    let is_sound = are_fit(sides, &tree, count);
    Ok((tree, is_sound))
}
