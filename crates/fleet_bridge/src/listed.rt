//! All bridges of a map, by a tree: an edge is a bridge if a subtree hangs by it. Where the tree does not show what an
//! edge is, a search does.

ghost use Rattle.std.specs.Prelude.{◌≡◌, ℕ, ◌+◌, ◌<◌, ◌↔◌, ◌++◌, length, IfOk, OnOk, MatchOption, IsTrue, true};
ghost use Rattle.std.specs.List.{AllPairs, Contains};
ghost use Rattle.fleet_grid.specs.Floor.{HasForm, IsNeighbour};
ghost use Rattle.fleet_grid.specs.Walk.{IsBridge};
ghost use Rattle.fleet_bridge.specs.Bridges.{AreBridges, IsEarlier};
ghost use Rattle.fleet_bridge.specs.inside.First.{HasNoneBeside, IsBeside};
ghost use Rattle.fleet_bridge.specs.inside.Listed.{AreListedBelow, pair_if};
ghost use Rattle.fleet_bridge.specs.inside.Preorder.{IsWalk};
ghost use Rattle.fleet_bridge.specs.inside.Spanning.{IsSpanning};

use crate::first::is_bridge_by;
use crate::hanging::hangs;
use crate::numbers::read;
use crate::preorder::is_walk;
use crate::sides::Sides;
use crate::tree::{Tree, spanning_tree};
use fleet_grid::{Dir, Grid};
use std::alloc::{AllocError, Allocator};

/// Whether the subtree of one end hangs by the edge.
fn hangs_by<A: Allocator + Copy, B: Allocator + Copy>(
    sides: &Sides<'_, B>,
    tree: &Tree<A>,
    a: u32,
    b: u32,
) -> bool
    requires tree { IsSpanning sides.now tree.now }
    requires walk { IsWalk sides.now tree.now }
    requires edge { IsNeighbour sides.now a b }
    ensures { result ≡ true → IsBridge (IsNeighbour sides.now) a b }
{
    if read(&tree.up, a) == b {
        return hangs(tree, a);
    }
    if read(&tree.up, b) == a {
        return hangs(tree, b);
    }
    false
}

/// Whether the edge is a bridge: asks the tree first.
fn is_bridge_told<A: Allocator + Copy, B: Allocator + Copy>(
    alloc: A,
    sides: &Sides<'_, B>,
    tree: &Tree<A>,
    is_sound: bool,
    a: u32,
    b: u32,
) -> Result<bool, AllocError>
    requires tree { is_sound ≡ true → IsSpanning sides.now tree.now }
    requires walk { is_sound ≡ true → IsWalk sides.now tree.now }
    requires edge { IsNeighbour sides.now a b }
    ensures { IfOk result (λ yes. IsTrue yes ↔ IsBridge (IsNeighbour sides.now) a b) }
{
    if is_sound && hangs_by(sides, tree, a, b) {
        return Ok(true);
    }
    is_bridge_by(alloc, sides, tree, is_sound, a, b)
}

/// The far end of the edge in a direction, if that is a bridge.
fn told_beside<A: Allocator + Copy, B: Allocator + Copy>(
    alloc: A,
    sides: &Sides<'_, B>,
    tree: &Tree<A>,
    is_sound: bool,
    cell: u32,
    dir: Dir,
) -> Result<Option<u32>, AllocError>
    requires tree { is_sound ≡ true → IsSpanning sides.now tree.now }
    requires walk { is_sound ≡ true → IsWalk sides.now tree.now }
    ensures { IfOk result (λ found. MatchOption found (HasNoneBeside sides.now cell dir) (IsBeside sides.now cell dir)) }
{
    let Some(next) = sides.beside(cell, dir) else {
        return Ok(None);
    };
    if is_bridge_told(alloc, sides, tree, is_sound, cell, next)? {
        return Ok(Some(next));
    }
    Ok(None)
}

/// Adds the pair of the cell and the other end that was found, if one was.
fn push_found<A: Allocator + Copy>(
    list: &mut Vec<(u32, u32), A>,
    cell: u32,
    found: Option<u32>,
) -> Result<(), AllocError>
    ensures { OnOk result (list.new.items ≡ list.old.items ++ pair_if cell found) }
{
    if let Some(end) = found {
        list.push((cell, end))?;
    }
    Ok(())
}

/// Adds the bridges whose lower end is the cell.
fn push_from<A: Allocator + Copy, B: Allocator + Copy>(
    alloc: A,
    sides: &Sides<'_, B>,
    tree: &Tree<A>,
    is_sound: bool,
    cell: u32,
    list: &mut Vec<(u32, u32), A>,
) -> Result<(), AllocError>
    requires tree { is_sound ≡ true → IsSpanning sides.now tree.now }
    requires walk { is_sound ≡ true → IsWalk sides.now tree.now }
    requires form { HasForm sides.now }
    requires before { AreListedBelow (IsNeighbour sides.now) cell list.old.items }
    ensures { OnOk result (AreListedBelow (IsNeighbour sides.now) (cell + 1) list.new.items) }
{
    let east = told_beside(alloc, sides, tree, is_sound, cell, Dir::East)?;
    let south = told_beside(alloc, sides, tree, is_sound, cell, Dir::South)?;
    push_found(list, cell, east)?;
    push_found(list, cell, south)?;
    Ok(())
}

/// Adds the bridges of all cells to an empty list.
fn push_all<A: Allocator + Copy, B: Allocator + Copy>(
    alloc: A,
    sides: &Sides<'_, B>,
    tree: &Tree<A>,
    is_sound: bool,
    list: &mut Vec<(u32, u32), A>,
) -> Result<(), AllocError>
    requires tree { is_sound ≡ true → IsSpanning sides.now tree.now }
    requires walk { is_sound ≡ true → IsWalk sides.now tree.now }
    requires none { length list.old.items ≡ 0 }
    ensures { OnOk result (AreBridges (IsNeighbour sides.now) list.new.items) }
{
    for cell in 0..sides.grid().cell_count() {
        push_from(alloc, sides, tree, is_sound, cell, list)?;
    }
    Ok(())
}

/// Adds all bridges to an empty list, by a tree.
fn push_by_tree<A: Allocator + Copy, B: Allocator + Copy>(
    alloc: A,
    sides: &Sides<'_, B>,
    list: &mut Vec<(u32, u32), A>,
) -> Result<(), AllocError>
    requires { length list.old.items ≡ 0 }
    ensures { OnOk result (AreBridges (IsNeighbour sides.now) list.new.items) }
{
    let (tree, is_fit) = spanning_tree(alloc, sides, &Vec::new(alloc))?;
    let is_sound = is_fit && is_walk(sides, &tree);
    push_all(alloc, sides, &tree, is_sound, list)
}

/// All bridges, each once as its lower and its upper cell, by lower cell and then by upper cell. `AllocError` if memory
/// runs out.
pub fn bridges<A: Allocator + Copy, B: Allocator + Copy>(
    alloc: A,
    grid: &Grid<B>,
) -> Result<Vec<(u32, u32), A>, AllocError>
    ensures exact { IfOk result (λ list. (a b : ℕ) → Contains list.items (a, b) ↔ ((a < b) × IsBridge (IsNeighbour grid.now) a b)) }
    ensures order { IfOk result (λ list. AllPairs IsEarlier list.items) }
{
    let mut list = Vec::new(alloc);
    push_by_tree(alloc, &Sides::new(grid), &mut list)?;
    Ok(list)
}
