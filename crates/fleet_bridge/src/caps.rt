//! How many robots each cell is roomy for, by a search from each end of each edge: the time grows with the square of
//! the map. Asked only where no tree passed its check.

ghost use Rattle.std.specs.Prelude.{◌≡◌, ℕ, ◌<◌, ◌≤◌, ◌^◌, min, count_by, length, vec_len, slice_index, slice_set, IfOk};
ghost use Rattle.fleet_grid.specs.Floor.{HasForm};
ghost use Rattle.fleet_bridge.specs.Roominess.{AreRoomyFor};
ghost use Rattle.fleet_bridge.specs.inside.Capped.{IsCapped, IsCappedBeside, IsCappedAround, IsCappedBelow};
ghost use Rattle.fleet_bridge.specs.inside.Search.{IsMarked};

use crate::search::search;
use fleet_grid::{Dir, Grid};
use std::alloc::{AllocError, Allocator};

/// How many cells are marked.
fn marked_count<A: Allocator + Copy>(seen: &Vec<bool, A>) -> u32
    requires { vec_len seen.now < 2 ^ 32 }
    ensures { result ≡ count_by (λ s. s) seen.now.items }
{
    seen.iter().filter(|mark| **mark).count() as u32
}

/// Lets a cell have `size` at most.
fn cap<A: Allocator + Copy>(most: &mut Vec<u32, A>, cell: usize, size: u32)
    requires { cell < vec_len most.old }
    ensures { most.new.items ≡ slice_set most.old.items cell (min (slice_index most.old.items cell) size) }
{
    let least = most[cell].min(size);
    most[cell] = least;
}

/// Lets each marked cell have `size` at most.
fn cap_marked<A: Allocator + Copy>(seen: &Vec<bool, A>, size: u32, most: &mut Vec<u32, A>)
    requires { vec_len seen.now ≡ vec_len most.old }
    ensures { IsCapped (IsMarked seen.now.items) size most.old.items most.new.items }
{
    for cell in 0..seen.len() {
        if seen[cell] {
            cap(most, cell, size);
        }
    }
}

/// If the edge in a direction is a bridge, lets each cell beyond it have at most as many as there are cells beyond it.
fn cap_beside<A: Allocator + Copy, B: Allocator + Copy>(
    alloc: A,
    grid: &Grid<B>,
    cell: u32,
    dir: Dir,
    most: &mut Vec<u32, A>,
) -> Result<(), AllocError>
    requires form { HasForm grid.now }
    requires size { vec_len most.old ≡ length grid.now.letters }
    ensures { IfOk result (λ done. IsCappedBeside grid.now cell dir most.old.items most.new.items) }
{
    let Some(next) = grid.neighbour(cell, dir) else {
        return Ok(());
    };
    let seen = search(alloc, grid, next, cell)?;
    if !seen[cell as usize] {
        let size = marked_count(&seen);
        cap_marked(&seen, size, most);
    }
    Ok(())
}

/// The same for all edges from the cell.
fn cap_around<A: Allocator + Copy, B: Allocator + Copy>(
    alloc: A,
    grid: &Grid<B>,
    cell: u32,
    most: &mut Vec<u32, A>,
) -> Result<(), AllocError>
    requires form { HasForm grid.now }
    requires size { vec_len most.old ≡ length grid.now.letters }
    ensures { IfOk result (λ done. IsCappedAround grid.now cell most.old.items most.new.items) }
{
    cap_beside(alloc, grid, cell, Dir::North, most)?;
    cap_beside(alloc, grid, cell, Dir::East, most)?;
    cap_beside(alloc, grid, cell, Dir::South, most)?;
    cap_beside(alloc, grid, cell, Dir::West, most)?;
    Ok(())
}

/// The same for all edges.
fn cap_all<A: Allocator + Copy, B: Allocator + Copy>(
    alloc: A,
    grid: &Grid<B>,
    most: &mut Vec<u32, A>,
) -> Result<(), AllocError>
    requires { vec_len most.old ≡ length grid.now.letters }
    ensures { IfOk result (λ done. IsCappedBelow grid.now (length grid.now.letters) most.old.items most.new.items) }
{
    for cell in 0..grid.cell_count() {
        cap_around(alloc, grid, cell, most)?;
    }
    Ok(())
}

/// For each cell the greatest number of robots that it is roomy for.
pub(crate) fn searched_roominess<A: Allocator + Copy, B: Allocator + Copy>(
    alloc: A,
    grid: &Grid<B>,
) -> Result<Vec<u32, A>, AllocError>
    ensures { IfOk result (λ most. AreRoomyFor grid.now most.items) }
{
    let mut most = vec![in alloc; u32::MAX; grid.cell_count() as usize]?;
    cap_all(alloc, grid, &mut most)?;
    Ok(most)
}
