//! The rooms of a map: the sides of the bridges around one block of each part, its core.

ghost use Rattle.std.specs.Prelude.{◌≡◌, ◌≢◌, ℕ, ◌<◌, length, vec_len, slice_index, Option, None, IfOk, IfSome, MatchOption, true};
ghost use Rattle.fleet_bridge.specs.Rooms.{AreRooms};
ghost use Rattle.fleet_bridge.specs.inside.Housed.{AreTold};
ghost use Rattle.fleet_bridge.specs.inside.Tree.{AreUnder};
ghost use Rattle.fleet_bridge.specs.inside.Preorder.{subtree_size};

use crate::blocks::{Blocks, are_roots, blocks_of, cores_of};
use crate::hanging::size;
use crate::housed::are_housed;
use crate::layout::{Layout, layout_of};
use crate::numbers::read;
use crate::sides::Sides;
use crate::tree::{Tree, tree_of};
use crate::walked::is_walked;
use fleet_grid::Grid;
use std::alloc::{AllocError, Allocator, Global};

/// The rooms of a map, in lists by cells. What is said of walls has no meaning.
///
/// All cells of a part have one core. A cell in the core's block has the core as its door; each other cell is in a room,
/// and its door is the room's cell next to the mouth.
#[derive(Drop)]
pub struct Rooms<A: Allocator + Copy = Global> {
    /// By each cell a cell of the block of its part that has the greatest capacity.
    pub core: Vec<u32, A>,
    /// By each cell the door of its room, or the core where it is in none.
    pub door: Vec<u32, A>,
    /// By each door the mouth: the cell next to it outside the room, in the core's block.
    pub mouth: Vec<u32, A>,
    /// By each door how many cells the room has.
    pub size: Vec<u32, A>,
    /// By each core the greatest number of robots for which all cells of its part are served.
    pub capacity: Vec<u32, A>,
}

/// A room: the side of the door of a bridge between the door and the mouth.
#[derive(Clone, Copy, Debug, PartialEq, Eq)]
pub struct Room {
    pub mouth: u32,
    pub door: u32,
    /// How many cells it has.
    pub size: u32,
}

impl<A: Allocator + Copy> Rooms<A> {
    /// The greatest number of robots for which all cells of the cell's part are served: the cells of the part but those
    /// in its two greatest rooms. 0 past the last cell.
    pub fn capacity(&self, cell: u32) -> u32
        ensures { result ≡ slice_index self.now.capacity.items (slice_index self.now.core.items cell) }
    {
        read(&self.capacity, read(&self.core, cell))
    }

    /// The room that has the cell, or `None` where the cell is in the core's block.
    pub fn room(&self, cell: u32) -> Option<Room>
        ensures none { result ≡ None → slice_index self.now.door.items cell ≡ slice_index self.now.core.items cell }
        ensures door { IfSome result (λ r. (slice_index self.now.door.items cell ≢ slice_index self.now.core.items cell) × (r.door ≡ slice_index self.now.door.items cell)) }
        ensures mouth { IfSome result (λ r. r.mouth ≡ slice_index self.now.mouth.items r.door) }
        ensures size { IfSome result (λ r. r.size ≡ slice_index self.now.size.items r.door) }
    {
        let door = read(&self.door, cell);
        if door == read(&self.core, cell) {
            return None;
        }
        Some(Room {
            mouth: read(&self.mouth, door),
            door,
            size: read(&self.size, door),
        })
    }
}

/// The sizes of all subtrees.
fn sizes_of<A: Allocator + Copy>(
    alloc: A,
    tree: &Tree<A>,
    count: u32,
) -> Result<Vec<u32, A>, AllocError>
    ensures { IfOk result (λ sizes. (c : ℕ) → c < count → slice_index sizes.items c ≡ subtree_size (slice_index tree.now.number.items) (slice_index tree.now.end.items) c) }
{
    let mut sizes = Vec::with_capacity(alloc, count as usize)?;
    for cell in 0..count {
        sizes.push_reserved(size(tree, cell));
    }
    Ok(sizes)
}

/// The rooms around the roots of a tree.
fn told<A: Allocator + Copy>(
    alloc: A,
    tree: Tree<A>,
    layout: Layout<A>,
    count: u32,
) -> Result<Rooms<A>, AllocError>
    ensures { IfOk result (AreTold tree layout count) }
{
    let size = sizes_of(alloc, &tree, count)?;
    let Tree {
        up,
        top,
        number: _,
        end: _,
        far: _,
        low: _,
        order: _,
        roots: _,
        largest: _,
    } = tree;
    let Layout {
        door,
        first: _,
        second: _,
        most,
    } = layout;
    Ok(Rooms {
        core: top,
        door,
        mouth: up,
        size,
        capacity: most,
    })
}

/// A tree with its roots in the cores, and its blocks, before the checks.
fn cored_tree<A: Allocator + Copy, B: Allocator + Copy>(
    alloc: A,
    sides: &Sides<'_, B>,
) -> Result<(Tree<A>, Blocks<A>), AllocError>
    ensures { IfOk result (λ it. AreUnder it.0.up.items (length sides.now.letters) it.0.low.items) }
{
    let count = sides.grid().cell_count();
    let tree = tree_of(alloc, sides, &Vec::new(alloc), count)?;
    let blocks = blocks_of(alloc, &tree, count)?;
    let cores = cores_of(alloc, &tree, &blocks, count)?;
    if are_roots(&tree, &cores) {
        return Ok((tree, blocks));
    }
    let tree = tree_of(alloc, sides, &cores, count)?;
    let blocks = blocks_of(alloc, &tree, count)?;
    Ok((tree, blocks))
}

/// The rooms, over the sides of the map's cells.
fn rooms_by<A: Allocator + Copy, B: Allocator + Copy>(
    alloc: A,
    sides: &Sides<'_, B>,
) -> Result<Option<Rooms<A>>, AllocError>
    ensures { IfOk result (λ found. IfSome found (AreRooms sides.now)) }
{
    let count = sides.grid().cell_count();
    let (tree, blocks) = cored_tree(alloc, sides)?;
    let layout = layout_of(alloc, &tree, blocks, count)?;
    if is_walked(sides, &tree) && are_housed(sides, &tree, &layout) {
        return Ok(Some(told(alloc, tree, layout, count)?));
    }
    Ok(None)
}

/// The rooms of a map: in each part the sides of the bridges around one block, the core, for which most cells remain
/// without the two greatest of its sides. `None` if the tree that they are read from did not pass its checks, which was
/// met on no map that was tried. `AllocError` if memory runs out.
pub fn rooms_of<A: Allocator + Copy, B: Allocator + Copy>(
    alloc: A,
    grid: &Grid<B>,
) -> Result<Option<Rooms<A>>, AllocError>
    ensures { IfOk result (λ found. IfSome found (AreRooms grid.now)) }
{
    rooms_by(alloc, &Sides::new(grid))
}
