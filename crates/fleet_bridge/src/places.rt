//! The padded form of a map, in which a step takes no division.

ghost use Rattle.std.specs.Prelude.{◌≡◌, ◌≢◌, ◌⊎◌, ℕ, ◌+◌, ◌<◌, ◌≤◌, length, slice_index, MatchOption, true, false};
ghost use Rattle.fleet_grid.specs.Floor.{IsNeighbourIn, cell_across};
ghost use Rattle.fleet_grid.specs.Padded.{IsOpen};
ghost use Rattle.fleet_grid.specs.declared.dir.Dir.TheVariants.{East, South};
ghost use Rattle.fleet_bridge.specs.inside.Places.{IsLaidOut, IsSpot, IsStep, IsSquare, IsInside, HasNoneAt, HasNoneBesideAt, place_across};

use fleet_grid::{Dir, FAR, Grid};
use std::alloc::Allocator;

/// A map with its padded form: floor is `FAR`.
#[derive(Drop)]
pub(crate) struct Places<'a, B: Allocator + Copy> {
    pub(crate) grid: &'a Grid<B>,
    width: u32,
    pub(crate) stride: usize,
    pub(crate) list: &'a [u32],
}

/// A floor cell, and its place in the padded form.
#[derive(Clone, Copy)]
pub(crate) struct Spot {
    pub(crate) cell: u32,
    pub(crate) place: usize,
}

/// The padded form of a map.
pub(crate) fn places_of<B: Allocator + Copy>(grid: &Grid<B>) -> Places<'_, B>
    ensures grid { result.grid.now ≡ grid.now }
    ensures laid_out { IsLaidOut result.grid.now result.width result.stride result.list.now }
{
    let (stride, list) = grid.padded();
    let width = grid.width();
    Places {
        grid,
        width,
        stride: stride as usize,
        list,
    }
}

/// The floor cell at a place.
pub(crate) fn spot_at<B: Allocator + Copy>(places: &Places<'_, B>, at: usize) -> Spot
    requires laid_out { IsLaidOut places.now.grid.now places.now.width places.now.stride places.now.list.now }
    requires open { IsOpen places.now.list.now at }
    ensures at { result.place ≡ at }
    ensures spot { IsSpot places.now.grid.now places.now.stride result }
{
    let row = at / places.stride - 1;
    let cell = row * places.width as usize + at % places.stride;
    Spot {
        cell: cell as u32,
        place: at,
    }
}

/// The cell that would be on that side, if it were floor.
#[inline(always)]
fn across<B: Allocator + Copy>(places: &Places<'_, B>, spot: Spot, dir: Dir) -> Spot
    requires laid_out { IsLaidOut places.now.grid.now places.now.width places.now.stride places.now.list.now }
    requires spot { IsSpot places.now.grid.now places.now.stride spot }
    ensures cell { result.cell ≡ cell_across places.now.width spot.cell dir }
    ensures place { result.place ≡ place_across places.now.stride spot.place dir }
{
    let (place, stride) = (spot.place, places.stride);
    Spot {
        cell: dir.across(places.width, spot.cell),
        place: match dir {
            Dir::North => place - stride,
            Dir::East => place + 1,
            Dir::South => place + stride,
            Dir::West => place - 1,
        },
    }
}

/// The floor cell next to a floor cell in a direction.
#[inline(always)]
pub(crate) fn spot_beside<B: Allocator + Copy>(
    places: &Places<'_, B>,
    spot: Spot,
    dir: Dir,
) -> Option<Spot>
    requires laid_out { IsLaidOut places.now.grid.now places.now.width places.now.stride places.now.list.now }
    requires spot { IsSpot places.now.grid.now places.now.stride spot }
    ensures { MatchOption result ((b : ℕ) → IsNeighbourIn places.now.grid.now dir spot.cell b → ⊥) (λ next. IsStep places.now.grid.now places.now.stride dir spot.cell next) }
{
    let next = across(places, spot, dir);
    if places.list[next.place] == FAR {
        Some(next)
    } else {
        None
    }
}

/// Whether the place is floor.
#[inline(always)]
fn is_floor(list: &[u32], at: usize) -> bool
    requires { at < length list.now }
    ensures floor { result ≡ true → IsOpen list.now at }
    ensures wall { result ≡ false → slice_index list.now at ≢ 4294967295 }
{
    list[at] == FAR
}

/// Whether there are four floor cells in a square. All four are read, so that the squares of several places can be
/// tested together.
#[inline(always)]
fn is_square(list: &[u32], stride: usize, at: usize) -> bool
    requires { at + stride + 1 < length list.now }
    ensures { result ≡ true → IsSquare list.now stride at }
{
    let upper = is_floor(list, at) & is_floor(list, at + 1);
    let lower = is_floor(list, at + stride) & is_floor(list, at + stride + 1);
    upper & lower
}

/// Whether there is an edge that belongs to no square of floor.
#[inline(always)]
fn is_bare(from: bool, to: bool, one: bool, other: bool) -> bool
    ensures from { result ≡ true → from ≡ true }
    ensures none { result ≡ false → ((from ≡ false) ⊎ (to ≡ false)) ⊎ ((one ≡ true) ⊎ (other ≡ true)) }
{
    (from & to) & !(one | other)
}

/// Whether an edge leads to the east of the place that has no square of floor next to it.
#[inline(always)]
fn is_bare_east<B: Allocator + Copy>(places: &Places<'_, B>, at: usize) -> bool
    requires laid_out { IsLaidOut places.now.grid.now places.now.width places.now.stride places.now.list.now }
    requires inside { IsInside places.now.list.now places.now.stride at }
    ensures none { result ≡ false → HasNoneBesideAt places.now.grid.now places.now.stride at East }
    ensures open { result ≡ true → IsOpen places.now.list.now at }
{
    let (list, stride) = (places.list, places.stride);
    let below = is_square(list, stride, at);
    let above = is_square(list, stride, at - stride);
    is_bare(is_floor(list, at), is_floor(list, at + 1), below, above)
}

/// Whether an edge leads to the south of the place that has no square of floor next to it.
#[inline(always)]
fn is_bare_south<B: Allocator + Copy>(places: &Places<'_, B>, at: usize) -> bool
    requires laid_out { IsLaidOut places.now.grid.now places.now.width places.now.stride places.now.list.now }
    requires inside { IsInside places.now.list.now places.now.stride at }
    ensures none { result ≡ false → HasNoneBesideAt places.now.grid.now places.now.stride at South }
    ensures open { result ≡ true → IsOpen places.now.list.now at }
{
    let (list, stride) = (places.list, places.stride);
    let right = is_square(list, stride, at);
    let left = is_square(list, stride, at - 1);
    is_bare(is_floor(list, at), is_floor(list, at + stride), right, left)
}

/// Whether an edge leads to the east or the south of the place that has no square of floor next to it.
#[inline(always)]
pub(crate) fn has_bare<B: Allocator + Copy>(places: &Places<'_, B>, at: usize) -> bool
    requires laid_out { IsLaidOut places.now.grid.now places.now.width places.now.stride places.now.list.now }
    requires inside { IsInside places.now.list.now places.now.stride at }
    ensures none { result ≡ false → HasNoneAt places.now.grid.now places.now.stride at }
    ensures open { result ≡ true → IsOpen places.now.list.now at }
{
    is_bare_east(places, at) | is_bare_south(places, at)
}

/// Whether such an edge leads from one of the places.
pub(crate) fn have_bare<B: Allocator + Copy>(places: &Places<'_, B>, from: usize, to: usize) -> bool
    requires laid_out { IsLaidOut places.now.grid.now places.now.width places.now.stride places.now.list.now }
    requires inside { (v : ℕ) → from ≤ v → v < to → IsInside places.now.list.now places.now.stride v }
    ensures { result ≡ false → (v : ℕ) → from ≤ v → v < to → HasNoneAt places.now.grid.now places.now.stride v }
{
    let mut any = false;
    for at in from..to {
        any |= has_bare(places, at);
    }
    any
}
