//! How many robots each cell is roomy for, by a tree in which no subtree that hangs has more than half of its part: the
//! size of the least subtree that hangs and has the cell; where none has, of all but the largest one. It is proved only
//! that the passes are safe; `is_settled` checks what the proof needs.

ghost use Rattle.std.specs.Prelude.{◌≡◌, ◌⊎◌, ℕ, ◌+◌, ◌-◌, ◌<◌, ◌≤◌, length, vec_len, slice_index, IfOk, IfSome, true, false};
ghost use Rattle.fleet_grid.specs.Floor.{IsFloor};
ghost use Rattle.fleet_bridge.specs.Roominess.{AreRoomyFor};
ghost use Rattle.fleet_bridge.specs.inside.Spanning.{IsSpanning};
ghost use Rattle.fleet_bridge.specs.inside.Preorder.{IsRootedIn, IsSettledIn, IsWalked, subtree_size};

use crate::first::is_crossed;
use crate::hanging::{hangs, largest_hanging, size};
use crate::numbers::{read, write};
use crate::preorder::is_floor;
use crate::sides::Sides;
use crate::tree::{Tree, tree_of};
use crate::walked::is_walked;
use std::alloc::{AllocError, Allocator};

/// The number of a root, or of a cell whose subtree hangs.
fn own_most<A: Allocator + Copy>(tree: &Tree<A>, cell: u32) -> u32 {
    let own = size(tree, cell);
    if read(&tree.up, cell) != cell {
        return own;
    }
    let hanging = largest_hanging(tree, cell);
    if hanging == cell {
        return u32::MAX;
    }
    own.saturating_sub(size(tree, hanging))
}

/// The numbers of all cells: parents come before their children in the order. Each cell has its place in the order as
/// its number.
fn fill<A: Allocator + Copy>(tree: &Tree<A>, most: &mut Vec<u32, A>)
    ensures { length most.new.items ≡ length most.old.items }
{
    let mut number = 0u32;
    for cell in tree.order.iter() {
        let found = if number <= read(&tree.far, *cell) {
            own_most(tree, *cell)
        } else {
            read(most, read(&tree.up, *cell))
        };
        write(most, *cell, found);
        number = number.saturating_add(1);
    }
}

/// Whether the number of a root is right: no limit, or all but a subtree that hangs.
fn is_rooted<A: Allocator + Copy, B: Allocator + Copy>(
    sides: &Sides<'_, B>,
    tree: &Tree<A>,
    most: &Vec<u32, A>,
    cell: u32,
    hanging: u32,
) -> bool
    ensures { result ≡ true → IsRootedIn sides.now tree.now (slice_index most.now.items) cell }
{
    if read(most, cell) == u32::MAX {
        return true;
    }
    is_floor(sides, hanging)
        && hangs(tree, hanging)
        && read(&tree.top, hanging) == cell
        && read(most, cell) == size(tree, cell).saturating_sub(size(tree, hanging))
}

/// Whether the number of a subtree that hangs is right: its size, where that is at most half of the part's, and all
/// else of the part is no less than the number of the root.
fn is_hung_right<A: Allocator + Copy>(tree: &Tree<A>, most: &Vec<u32, A>, cell: u32) -> bool
    ensures own { result ≡ true → slice_index most.now.items cell ≡ subtree_size (slice_index tree.now.number.items) (slice_index tree.now.end.items) cell }
    ensures half { result ≡ true → subtree_size (slice_index tree.now.number.items) (slice_index tree.now.end.items) cell + subtree_size (slice_index tree.now.number.items) (slice_index tree.now.end.items) cell ≤ subtree_size (slice_index tree.now.number.items) (slice_index tree.now.end.items) (slice_index tree.now.top.items cell) }
    ensures rest { result ≡ true → slice_index most.now.items (slice_index tree.now.top.items cell) ≤ subtree_size (slice_index tree.now.number.items) (slice_index tree.now.end.items) (slice_index tree.now.top.items cell) - subtree_size (slice_index tree.now.number.items) (slice_index tree.now.end.items) cell }
{
    let root = read(&tree.top, cell);
    let own = size(tree, cell);
    let all = size(tree, root);
    if own > all || read(most, cell) != own {
        return false;
    }
    own <= all - own && read(most, root) <= all - own
}

/// Whether the number of a cell is right.
fn is_settled<A: Allocator + Copy, B: Allocator + Copy>(
    sides: &Sides<'_, B>,
    tree: &Tree<A>,
    most: &Vec<u32, A>,
    cell: u32,
) -> bool
    requires inside { cell < length sides.now.letters }
    requires tree { IsSpanning sides.now tree.now }
    ensures { result ≡ true → IsSettledIn sides.now tree.now (slice_index most.now.items) cell }
{
    let up = read(&tree.up, cell);
    if up == cell {
        return is_rooted(sides, tree, most, cell, largest_hanging(tree, cell));
    }
    if hangs(tree, cell) {
        return is_hung_right(tree, most, cell);
    }
    if read(most, cell) != read(most, up) {
        return false;
    }
    is_crossed(sides, tree, cell)
}

/// Whether the number of a cell is, or the cell is a wall.
fn is_settled_or_wall<A: Allocator + Copy, B: Allocator + Copy>(
    sides: &Sides<'_, B>,
    tree: &Tree<A>,
    most: &Vec<u32, A>,
    cell: u32,
) -> bool
    requires { IsSpanning sides.now tree.now }
    ensures { result ≡ true → IsFloor sides.now cell → IsSettledIn sides.now tree.now (slice_index most.now.items) cell }
{
    if is_floor(sides, cell) {
        return is_settled(sides, tree, most, cell);
    }
    true
}

/// Whether the numbers of all floor cells are.
fn are_settled<A: Allocator + Copy, B: Allocator + Copy>(
    sides: &Sides<'_, B>,
    tree: &Tree<A>,
    most: &Vec<u32, A>,
) -> bool
    requires { IsSpanning sides.now tree.now }
    ensures { result ≡ true → (c : ℕ) → IsFloor sides.now c → IsSettledIn sides.now tree.now (slice_index most.now.items) c }
{
    for cell in 0..sides.grid().cell_count() {
        if !is_settled_or_wall(sides, tree, most, cell) {
            return false;
        }
    }
    true
}

/// Whether the numbers are right, as the tree shows.
fn is_shown<A: Allocator + Copy, B: Allocator + Copy>(
    sides: &Sides<'_, B>,
    tree: &Tree<A>,
    most: &Vec<u32, A>,
) -> bool
    requires tree { IsWalked sides.now tree.now }
    requires size { vec_len most.now ≡ length sides.now.letters }
    ensures { result ≡ true → AreRoomyFor sides.now most.now.items }
{
    are_settled(sides, tree, most)
}

/// The numbers by a tree, if it shows that they are right.
fn shown_by<A: Allocator + Copy, B: Allocator + Copy>(
    alloc: A,
    sides: &Sides<'_, B>,
    tree: &Tree<A>,
) -> Result<Option<Vec<u32, A>>, AllocError>
    requires { IsWalked sides.now tree.now }
    ensures { IfOk result (λ found. IfSome found (λ most. AreRoomyFor sides.now most.items)) }
{
    let count = sides.grid().cell_count();
    let mut most = vec![in alloc; u32::MAX; count as usize]?;
    fill(tree, &mut most);
    if is_shown(sides, tree, &most) {
        return Ok(Some(most));
    }
    Ok(None)
}

/// The numbers by a tree in which no subtree that hangs is heavy; `None` if the tree did not pass its checks.
pub(crate) fn shown_roominess<A: Allocator + Copy, B: Allocator + Copy>(
    alloc: A,
    sides: &Sides<'_, B>,
) -> Result<Option<Vec<u32, A>>, AllocError>
    ensures { IfOk result (λ found. IfSome found (λ most. AreRoomyFor sides.now most.items)) }
{
    let tree = tree_of(alloc, sides, &Vec::new(alloc), sides.grid().cell_count())?;
    if is_walked(sides, &tree) {
        return shown_by(alloc, sides, &tree);
    }
    Ok(None)
}
