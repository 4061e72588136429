//! The placements of a plan.

ghost use Rattle.std.specs.Prelude.{◌≡◌, ◌<◌, ◌≤◌, ◌-◌, ◌++◌, ◌∷◌, [], length, take, drop, slice_index_or, OnOk, IfErr};
ghost use Rattle.fleet_plans.specs.Valid.{place_at};
ghost use Rattle.fleet_plans.specs.Cut.{cut, IsCut};

use std::alloc::{AllocError, Allocator, Global};
use std::marker::Model;

/// The placements of a plan, by time; each has the robots' cells, by number. Contracts see a list of lists.
#[derive(Drop)]
pub struct Placements<A: Allocator + Copy = Global> {
    /// The cells of all placements, one after the other.
    cells: Vec<u32, A>,
    /// For each placement, its end in the list of cells.
    ends: Vec<usize, A>,
}

impl<A: Allocator + Copy> Model for Placements<A> {
    ghost use Rattle.std.specs.Prelude.{ℕ, List, length};
    ghost use Rattle.fleet_plans.specs.Cut.{cut, IsCut};

    ghost Value = { List (List ℕ) };

    ghost view = { λ p. cut 0 p.ends.items p.cells.items };

    ghost invariant = { λ p. IsCut 0 p.ends.items (length p.cells.items) };
}

/// Where the placement at a time begins.
fn start_of(ends: &[usize], time: usize) -> usize
    requires { time < length ends.now }
    ensures { result ≡ slice_index_or (0 ∷ ends.now) time 0 }
{
    if time == 0 { 0 } else { ends[time - 1] }
}

/// The cells from one place up to another.
fn part(cells: &[u32], start: usize, end: usize) -> &[u32]
    requires order { start ≤ end }
    requires inside { end ≤ length cells.now }
    ensures { result.now ≡ take (end - start) (drop start cells.now) }
{
    &cells[start..end]
}

/// The placement at a time, where these are the ends of all placements; empty if there is none.
fn place_at<'a>(cells: &'a [u32], ends: &[usize], time: usize) -> &'a [u32]
    requires { IsCut 0 ends.now (length cells.now) }
    ensures { result.now ≡ place_at (cut 0 ends.now cells.now) time }
{
    if time >= ends.len() {
        return &[];
    }
    let start = start_of(ends, time);
    let end = ends[time];
    part(cells, start, end)
}

impl<A: Allocator + Copy> Placements<A> {
    /// No placement.
    pub fn new(alloc: A) -> Placements<A>
        ensures { result ≡ [] }
    {
        Placements {
            cells: Vec::new(alloc),
            ends: Vec::new(alloc),
        }
    }

    /// Adds a placement at the end. If memory runs out, nothing changes.
    pub fn push(&mut self, place: &[u32]) -> Result<(), AllocError>
        ensures added { OnOk result (self.new ≡ self.old ++ place.now ∷ []) }
        ensures kept { IfErr result (λ _. self.new ≡ self.old) }
    {
        self.ends.reserve(1)?;
        self.cells.extend_from_slice(place)?;
        self.ends.push_reserved(self.cells.len());
        Ok(())
    }

    /// The number of placements.
    pub fn len(&self) -> usize
        ensures { result ≡ length self.now }
    {
        self.ends.len()
    }

    /// The placement at a time; empty if there is none.
    pub fn at(&self, time: usize) -> &[u32]
        ensures { result.now ≡ place_at self.now time }
    {
        place_at(self.cells.as_slice(), self.ends.as_slice(), time)
    }
}
