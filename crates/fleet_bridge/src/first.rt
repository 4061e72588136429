//! The first bridge of a map.

ghost use Rattle.std.specs.Prelude.{◌≡◌, ◌⊎◌, ℕ, ◌+◌, ◌*◌, ◌<◌, ◌≤◌, ◌≢◌, ◌↔◌, length, vec_len, slice_index, IfOk, MatchOption, IsTrue, Some, true, false};
ghost use Rattle.fleet_grid.specs.Walk.{AreJoined, IsBridge, IsBridgeless};
ghost use Rattle.fleet_bridge.specs.Bridge.{IsFirstBridge};
ghost use Rattle.fleet_bridge.specs.inside.Search.{NearWithout};
ghost use Rattle.fleet_grid.specs.Floor.{HasForm, IsNeighbour};
ghost use Rattle.fleet_bridge.specs.inside.Tree.{IsUnder};
ghost use Rattle.fleet_bridge.specs.inside.First.{HasNoneBeside, IsBeside, HasNone, IsFirstFrom};
ghost use Rattle.fleet_bridge.specs.inside.Spanning.{IsCrossedIn, IsSpanning};

use crate::detours::first_doubt;
use crate::numbers::read;
use crate::search::{is_bridge, searched_from};
use crate::sides::Sides;
use crate::tree::{Tree, spanning_tree};
use fleet_grid::{Dir, Grid};
use std::alloc::{AllocError, Allocator, Global};

/// Whether that step is the one to the parent.
fn is_step_up<A: Allocator + Copy>(tree: &Tree<A>, cell: u32, inner: u32, outer: u32) -> bool
    ensures { result ≡ false → inner ≡ cell → outer ≡ slice_index tree.now.up.items cell → ⊥ }
{
    inner == cell && outer == read(&tree.up, cell)
}

/// Whether the number lies outside those of the cell's subtree.
fn is_outside<A: Allocator + Copy>(tree: &Tree<A>, cell: u32, outer: u32) -> bool
    ensures { result ≡ true → (slice_index tree.now.number.items outer < slice_index tree.now.number.items cell) ⊎ (slice_index tree.now.end.items cell ≤ slice_index tree.now.number.items outer) }
{
    let number = read(&tree.number, outer);
    if number < read(&tree.number, cell) {
        return true;
    }
    number >= read(&tree.end, cell)
}

/// Whether the edge from `inner`, of the subtree of `cell`, in a direction leaves that subtree, and is not the one to
/// the parent.
#[tactic(auto, using(crate::proofs::Rounds::crossed_at))]
fn leaves<A: Allocator + Copy, B: Allocator + Copy>(
    sides: &Sides<'_, B>,
    tree: &Tree<A>,
    cell: u32,
    inner: u32,
    dir: Dir,
) -> bool
    requires under { IsUnder (slice_index tree.now.up.items) cell inner }
    ensures { result ≡ true → IsCrossedIn sides.now tree.now cell }
{
    let Some(outer) = sides.beside(inner, dir) else {
        return false;
    };
    if is_step_up(tree, cell, inner, outer) {
        return false;
    }
    is_outside(tree, cell, outer)
}

/// Whether an edge from `inner` does.
fn leaves_from<A: Allocator + Copy, B: Allocator + Copy>(
    sides: &Sides<'_, B>,
    tree: &Tree<A>,
    cell: u32,
    inner: u32,
) -> bool
    requires under { IsUnder (slice_index tree.now.up.items) cell inner }
    ensures { result ≡ true → IsCrossedIn sides.now tree.now cell }
{
    for dir in Dir::ALL {
        if leaves(sides, tree, cell, inner, dir) {
            return true;
        }
    }
    false
}

/// Whether the tree shows a walk around the edge of the cell and its parent.
pub(crate) fn is_crossed<A: Allocator + Copy, B: Allocator + Copy>(
    sides: &Sides<'_, B>,
    tree: &Tree<A>,
    cell: u32,
) -> bool
    requires inside { cell < length sides.now.letters }
    requires tree { IsSpanning sides.now tree.now }
    ensures { result ≡ true → IsCrossedIn sides.now tree.now cell }
{
    leaves_from(sides, tree, cell, read(&tree.low, cell))
}

/// Whether the tree shows a walk around the edge.
#[tactic(auto, using(crate::proofs::Rounds::round_up, crate::proofs::Rounds::round_down, crate::proofs::Rounds::round_off))]
fn is_round<A: Allocator + Copy, B: Allocator + Copy>(
    sides: &Sides<'_, B>,
    tree: &Tree<A>,
    a: u32,
    b: u32,
) -> bool
    requires tree { IsSpanning sides.now tree.now }
    requires edge { IsNeighbour sides.now a b }
    ensures { result ≡ true → AreJoined (NearWithout sides.now a b) a b }
{
    if read(&tree.up, a) == b {
        return is_crossed(sides, tree, a);
    }
    if read(&tree.up, b) == a {
        return is_crossed(sides, tree, b);
    }
    true
}

/// Whether the edge is a bridge: asks the tree, and searches only where the tree shows no walk around.
pub(crate) fn is_bridge_by<A: Allocator + Copy, B: Allocator + Copy>(
    alloc: A,
    sides: &Sides<'_, B>,
    tree: &Tree<A>,
    is_sound: bool,
    a: u32,
    b: u32,
) -> Result<bool, AllocError>
    requires tree { is_sound ≡ true → IsSpanning sides.now tree.now }
    requires edge { IsNeighbour sides.now a b }
    ensures { IfOk result (λ yes. IsTrue yes ↔ IsBridge (IsNeighbour sides.now) a b) }
{
    if is_sound && is_round(sides, tree, a, b) {
        return Ok(false);
    }
    is_bridge(alloc, sides.grid(), a, b)
}

/// The far end of the edge in a direction, if that is a bridge.
fn bridge_beside<A: Allocator + Copy, B: Allocator + Copy>(
    alloc: A,
    sides: &Sides<'_, B>,
    tree: &Tree<A>,
    is_sound: bool,
    cell: u32,
    dir: Dir,
) -> Result<Option<u32>, AllocError>
    requires tree { is_sound ≡ true → IsSpanning sides.now tree.now }
    ensures { IfOk result (λ found. MatchOption found (HasNoneBeside sides.now cell dir) (IsBeside sides.now cell dir)) }
{
    let Some(next) = sides.beside(cell, dir) else {
        return Ok(None);
    };
    if is_bridge_by(alloc, sides, tree, is_sound, cell, next)? {
        return Ok(Some(next));
    }
    Ok(None)
}

/// The first bridge whose lower end is the cell.
#[tactic(auto, using(crate::proofs::Rounds::from_east, crate::proofs::Rounds::from_south, crate::proofs::Rounds::from_none))]
fn bridge_from<A: Allocator + Copy, B: Allocator + Copy>(
    alloc: A,
    sides: &Sides<'_, B>,
    tree: &Tree<A>,
    is_sound: bool,
    cell: u32,
) -> Result<Option<u32>, AllocError>
    requires tree { is_sound ≡ true → IsSpanning sides.now tree.now }
    ensures { IfOk result (λ found. MatchOption found (HasNone sides.now cell) (IsFirstFrom sides.now cell)) }
{
    if let Some(east) = bridge_beside(alloc, sides, tree, is_sound, cell, Dir::East)? {
        return Ok(Some(east));
    }
    if let Some(south) = bridge_beside(alloc, sides, tree, is_sound, cell, Dir::South)? {
        return Ok(Some(south));
    }
    Ok(None)
}

/// The first bridge, from a tree and whether the tree passed its check.
#[tactic(auto, using(crate::proofs::Rounds::first_is))]
fn first_by<A: Allocator + Copy, B: Allocator + Copy>(
    alloc: A,
    sides: &Sides<'_, B>,
    tree: &Tree<A>,
    is_sound: bool,
) -> Result<Option<(u32, u32)>, AllocError>
    requires { is_sound ≡ true → IsSpanning sides.now tree.now }
    ensures { IfOk result (λ found. MatchOption found (IsBridgeless (IsNeighbour sides.now)) (λ it. IsFirstBridge (IsNeighbour sides.now) it.0 it.1)) }
{
    let count = sides.grid().cell_count();
    for cell in 0..count {
        if let Some(upper) = bridge_from(alloc, sides, tree, is_sound, cell)? {
            return Ok(Some((cell, upper)));
        }
    }
    Ok(None)
}

/// The first bridge, from the tree.
fn first_by_sides<A: Allocator + Copy, B: Allocator + Copy>(
    alloc: A,
    sides: &Sides<'_, B>,
) -> Result<Option<(u32, u32)>, AllocError>
    ensures { IfOk result (λ found. MatchOption found (IsBridgeless (IsNeighbour sides.now)) (λ it. IsFirstBridge (IsNeighbour sides.now) it.0 it.1)) }
{
    let (tree, is_sound) = spanning_tree(alloc, sides, &Vec::new(alloc))?;
    first_by(alloc, sides, &tree, is_sound)
}

/// The same, over the sides of the map's cells.
fn first_by_tree<A: Allocator + Copy, B: Allocator + Copy>(
    alloc: A,
    grid: &Grid<B>,
) -> Result<Option<(u32, u32)>, AllocError>
    ensures { IfOk result (λ found. MatchOption found (IsBridgeless (IsNeighbour grid.now)) (λ it. IsFirstBridge (IsNeighbour grid.now) it.0 it.1)) }
{
    first_by_sides(alloc, &Sides::new(grid))
}

/// The bridge of least lower cell, then least upper cell. Edges next to squares of floor, or on short rounds, are
/// passed over; a search tries the first of the others; only where that is no bridge either a tree is grown.
#[tactic(auto, using(crate::proofs::Rounds::first_is))]
pub fn first_bridge<A: Allocator + Copy, B: Allocator + Copy>(
    alloc: A,
    grid: &Grid<B>,
) -> Result<Option<(u32, u32)>, AllocError>
    ensures { IfOk result (λ found. MatchOption found (IsBridgeless (IsNeighbour grid.now)) (λ it. IsFirstBridge (IsNeighbour grid.now) it.0 it.1)) }
{
    let Some(cell) = first_doubt(grid) else {
        return Ok(None);
    };
    if let Some(upper) = searched_from(alloc, grid, cell)? {
        return Ok(Some((cell, upper)));
    }
    first_by_tree(alloc, grid)
}
