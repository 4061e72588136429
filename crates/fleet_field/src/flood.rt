//! The search, level by level, in a padded list in which walls and distances are next to each other.

ghost use Rattle.std.specs.Prelude.{◌≡◌, ℕ, ◌+◌, ◌*◌, ◌<◌, ◌≤◌, length, slice_index, take, IfOk, OnOk};
ghost use Rattle.fleet_grid.specs.Padded.{IsOpen};
ghost use Rattle.fleet_field.specs.inside.Search.{IsVisit, IsLink, IsWalled, Search, Keeps, Extends, far_count, IsStart, AreLevels, SameWalls};

use crate::fronts::make_room;
use fleet_grid::FAR;
use std::alloc::{AllocError, Allocator};
use std::mem;

/// Marks a place that was not reached before, and writes it at the end of the next front, which has this many places.
#[inline(always)]
fn visit(dist: &mut [u32], next: &mut [u32], count: usize, cell: usize, level: u32) -> usize
    requires inside { cell < length dist.old }
    requires small { length dist.old < 1073741824 }
    requires room { count < length next.old }
    ensures len { length dist.new ≡ length dist.old }
    ensures kept { length next.new ≡ length next.old }
    ensures most { result ≤ count + 1 }
    ensures visit { IsVisit dist.old (take count next.old) cell level dist.new (take result next.new) }
{
    if dist[cell] != FAR {
        return count;
    }
    dist[cell] = level;
    next[count] = cell as u32;
    count + 1
}

/// Visits the four places next to a place of the front.
#[inline(always)]
fn around(
    dist: &mut [u32],
    next: &mut [u32],
    count: usize,
    stride: usize,
    cell: usize,
    level: u32,
) -> usize
    requires size { length dist.old < 1073741824 }
    requires small { level + 1 < 4294967294 }
    requires step { 0 < stride }
    requires inside { (stride ≤ cell) × (cell + stride < length dist.old) }
    requires at { slice_index dist.old cell ≡ level }
    requires room { count + 4 ≤ length next.old }
    requires search { Search dist.old stride level (level + 1) (take count next.old) }
    ensures len { length dist.new ≡ length dist.old }
    ensures kept { length next.new ≡ length next.old }
    ensures most { result ≤ count + 4 }
    ensures extends { Extends stride level dist.old (take count next.old) dist.new (take result next.new) }
    ensures reached { (v : ℕ) → IsLink dist.new stride cell v → slice_index dist.new v ≤ level + 1 }
{
    let after = level + 1;
    let north = visit(dist, next, count, cell - stride, after);
    let east = visit(dist, next, north, cell + 1, after);
    let south = visit(dist, next, east, cell + stride, after);
    visit(dist, next, south, cell - 1, after)
}

/// One level: the places next to those of `now` that were not reached before. Returns how many they are.
fn spread(dist: &mut [u32], now: &[u32], next: &mut [u32], stride: usize, level: u32) -> usize
    requires size { length dist.old < 1073741824 }
    requires small { level + 1 < 4294967294 }
    requires step { 0 < stride }
    requires search { Search dist.old stride level level now.now }
    requires room { 4 * length now.now ≤ length next.old }
    ensures len { length dist.new ≡ length dist.old }
    ensures kept { length next.new ≡ length next.old }
    ensures most { result ≤ length next.new }
    ensures search { Search dist.new stride (level + 1) (level + 1) (take result next.new) }
    ensures keeps { Keeps dist.old dist.new (level + 1) }
    ensures count { result + far_count dist.new ≡ far_count dist.old }
{
    let mut count = 0;
    for cell in now {
        count = around(dist, next, count, stride, *cell as usize, level);
    }
    count
}

/// All levels from a first front on, the places at the goal. The fronts' room is kept from level to level.
fn spread_all<A: Allocator + Copy>(
    dist: &mut [u32],
    now: &mut Vec<u32, A>,
    next: &mut Vec<u32, A>,
    stride: usize,
) -> Result<(), AllocError>
    requires size { length dist.old < 1073741824 }
    requires step { 0 < stride }
    requires search { Search dist.old stride 0 0 now.old.items }
    requires few { length now.old.items + far_count dist.old ≤ length dist.old }
    ensures levels { OnOk result ((goal : ℕ) → IsStart dist.old goal → AreLevels dist.new stride goal) }
    ensures walls { OnOk result (SameWalls dist.old dist.new) }
{
    let mut count = now.len();
    let mut level = 0;
    while count > 0 {
        make_room(next, count)?;
        count = spread(dist, &now[..count], next, stride, level);
        level += 1;
        mem::swap(now, next);
    }
    Ok(())
}

/// The distance of each place to the goal, in a list laid out as `blank` is: walls keep their mark, and `FAR` stays
/// where no walk leads to the goal. Level by level, the places at one distance give the places at the next.
pub(crate) fn flood<A: Allocator + Copy>(
    alloc: A,
    blank: &[u32],
    stride: usize,
    goal: u32,
) -> Result<Vec<u32, A>, AllocError>
    requires size { length blank.now < 1073741824 }
    requires step { 0 < stride }
    requires blank { (v : ℕ) → IsOpen blank.now v → slice_index blank.now v ≡ 4294967295 }
    requires walled { IsWalled blank.now stride }
    requires goal { IsOpen blank.now goal }
    ensures levels { IfOk result (λ dist. AreLevels dist.items stride goal) }
    ensures walls { IfOk result (λ dist. SameWalls blank.now dist.items) }
{
    let mut dist = Vec::from_slice(alloc, blank)?;
    dist[goal as usize] = 0;
    let mut now = Vec::new(alloc);
    now.push(goal)?;
    spread_all(&mut dist, &mut now, &mut Vec::new(alloc), stride)?;
    Ok(dist)
}
