//! Fields that are not held any more, kept for the next hold.

ghost use Rattle.std.specs.Prelude.{◌≡◌, ◌⊎◌, ◌↔◌, ℕ, ◌<◌, ◌≤◌, [], ◌∷◌, length, slice_index, take, IfSome, IsSome, IfOk, OnOk, OnErr, IsTrue};
ghost use Rattle.std.specs.List.{All, Contains};
ghost use Rattle.fleet_grid.specs.Floor.{Floor, IsFloor};
ghost use Rattle.fleet_field.specs.Field.{Aim, IsField};
ghost use Rattle.fleet_field.specs.FieldCache.{bytes_kept, cells_kept, places, HasKept, AreKept, IsFieldOf};
ghost use Rattle.fleet_field.specs.Store.{Keeps};
ghost use Rattle.fleet_field.specs.inside.Sorted.{AreSorted};

use crate::compass::Compass;
use crate::compasses::compasses;
use crate::holds::is_one_of;
use crate::kept::{all_to_front, has_all, put_first, take_field};
use crate::queue::Queue;
use fleet_grid::Grid;
use std::alloc::{AllocError, Allocator, Global};
use std::marker::Model;
use std::thread::Threads;

/// Fields of one map that are not held, the most recently used first, up to a number of bytes; the one unused longest
/// is dropped first. Contracts see the kept fields, and the bytes.
#[derive(Drop)]
pub struct FieldCache<A: Allocator + Copy = Global> {
    kept: Queue<A>,
    bytes: usize,
}

impl<A: Allocator + Copy> Model for FieldCache<A> {
    ghost use Rattle.fleet_field.specs.FieldCache.{FieldCache};

    ghost Value = { FieldCache };

    ghost view = { λ s. record { kept = s.kept.items; bytes = s.bytes } };
}

/// How many fields of this many cells fit into this many bytes: a field has one byte for each cell.
fn places(bytes: usize, cells: usize) -> usize
    ensures { result ≡ places bytes cells }
{
    bytes / cells.max(1)
}

impl<A: Allocator + Copy> FieldCache<A> {
    /// An empty cache for this many bytes of fields. No memory is taken before a field comes.
    pub fn new(alloc: A, bytes: usize) -> FieldCache<A>
        ensures empty { result ≡ record { kept = []; bytes = bytes } }
        // Nothing is kept, so it is of each map.
        ensures keeps { (m : Floor) → Keeps m result }
    {
        FieldCache {
            kept: Queue::new(alloc),
            bytes,
        }
    }

    /// From now on at most this many bytes of fields are kept. Fields that are over this are dropped at once, those
    /// unused longest first.
    pub fn keep(&mut self, bytes: usize)
        ensures { self.new ≡ record { kept = take (places bytes (cells_kept self.old.kept)) self.old.kept; bytes = bytes } }
    {
        let left = places(bytes, self.cells());
        self.kept.truncate(left);
        self.bytes = bytes;
    }

    /// Whether the field of a goal is kept.
    pub fn has(&self, goal: u32) -> bool
        ensures { IsTrue result ↔ HasKept self.now.kept goal }
    {
        match self.kept.place_of(goal) {
            Some(_at) => true,
            None => false,
        }
    }

    /// The bytes that the kept fields have, one for each cell; of more than 2^64 - 1 this number.
    pub fn kept_bytes(&self) -> usize
        ensures { result ≡ bytes_kept self.now.kept }
    {
        match self.kept.len().checked_mul(self.cells()) {
            Some(bytes) => bytes,
            None => usize::MAX,
        }
    }

    /// How many cells the last field has, as each has; 0 if nothing is kept.
    fn cells(&self) -> usize
        ensures { result ≡ cells_kept self.now.kept }
    {
        self.kept.cells()
    }

    /// Keeps a field that is not held any more. Allocates nothing: if there is no place, the field unused longest is
    /// dropped.
    pub(crate) fn put(&mut self, field: Compass<A>)
        ensures { All (Contains (field ∷ self.old.kept)) self.new.kept }
    {
        let places = places(self.bytes, field.cells()).min(self.kept.room());
        self.kept.truncate(places.saturating_sub(1));
        if places > 0 {
            self.kept.push_front_reserved(field);
        }
    }

    /// Removes the kept field of a goal and returns it; none if it is not kept.
    pub fn take(&mut self, goal: u32) -> Option<Compass<A>>
        ensures goal { IfSome result (λ field. field.goal ≡ goal) }
        ensures kept { IfSome result (λ field. Contains self.old.kept field) }
        ensures found { HasKept self.old.kept goal → IsSome result }
        ensures others { All (Contains self.old.kept) self.new.kept }
    {
        take_field(&mut self.kept, goal)
    }

    /// Makes room for this many fields more, of this many cells each, as far as the bytes allow.
    fn reserve(&mut self, cells: usize, more: usize) -> Result<(), AllocError>
        ensures { self.new ≡ self.old }
    {
        let left = places(self.bytes, cells).saturating_sub(self.kept.len());
        self.kept.reserve(left.min(more))
    }

    /// Takes out the field unused longest, if there is no place for another one: it would be dropped for the next that
    /// comes back.
    fn spare(&mut self, cells: usize) -> Option<Compass<A>>
        ensures { All (Contains self.old.kept) self.new.kept }
    {
        let len = self.kept.len();
        if len == 0 || len < places(self.bytes, cells) {
            return None;
        }
        Some(self.kept.remove(len - 1))
    }

    /// Searches the field of a goal, and makes room for as many fields as can come back. If there is no place for
    /// another one, it is searched in the memory of the field unused longest.
    fn search<B: Allocator + Copy>(
        &mut self,
        grid: &Grid<B>,
        goal: u32,
        out: usize,
    ) -> Result<Compass<A>, AllocError>
        requires { IsFloor grid.now goal }
        ensures field { IfOk result (λ field. IsField grid.now goal field) }
        ensures others { All (Contains self.old.kept) self.new.kept }
    {
        let cells = grid.cell_count() as usize;
        self.reserve(cells, out)?;
        match self.spare(cells) {
            Some(spare) => Compass::from_spare(spare, grid, goal),
            None => Compass::from(self.kept.allocator(), grid, goal),
        }
    }

    /// The field of a goal, which is a floor cell: the kept one, or a new one. This many fields are then in use and may
    /// come back. All kept fields are dropped before out of memory is returned.
    pub(crate) fn field<B: Allocator + Copy>(
        &mut self,
        grid: &Grid<B>,
        goal: u32,
        out: usize,
    ) -> Result<Compass<A>, AllocError>
        requires floor { IsFloor grid.now goal }
        requires keeps { Keeps grid.now self.old }
        ensures field { IfOk result (λ field. IsField grid.now goal field) }
        ensures keeps { Keeps grid.now self.new }
    {
        if let Some(kept) = self.take(goal) {
            return Ok(kept);
        }
        if let Ok(made) = self.search(grid, goal, out) {
            return Ok(made);
        }
        if self.kept.len() == 0 {
            return Err(AllocError);
        }
        self.kept.truncate(0);
        self.search(grid, goal, out)
    }
}

/// Of the first `count` goals: those that have a kept field, and those that have none, each of the latter once.
fn sorted<A: Allocator + Copy>(
    alloc: A,
    kept: &Queue<A>,
    goals: &[u32],
    first: usize,
) -> Result<(Vec<u32, A>, Vec<u32, A>), AllocError>
    requires { first ≤ length goals.now }
    ensures { IfOk result (λ lists. AreSorted kept.now.items goals.now first lists.0.items lists.1.items) }
{
    let (mut found, mut missing) = (Vec::new(alloc), Vec::new(alloc));
    for at in 0..first {
        if kept.place_of(goals[at]).is_some() {
            found.push(goals[at])?;
        } else if !is_one_of(&missing, goals[at]) {
            missing.push(goals[at])?;
        }
    }
    Ok((found, missing))
}

impl<A: Allocator + Copy + Send + Sync> FieldCache<A> {
    /// Searches the fields of goals, which are floor cells, before they are held. Returns whether each goal then has a
    /// kept field; this is so if all fit into the bytes. Of the first goals, as many as fit, those without a kept field
    /// are searched together; the fields of other goals that were unused longest are dropped. If memory runs out,
    /// nothing changes.
    pub fn search_ahead<B: Allocator + Copy + Send + Sync>(
        &mut self,
        rt: &(impl Threads + Sync),
        grid: &Grid<B>,
        goals: &[u32],
    ) -> Result<bool, AllocError>
        requires floor { (i : ℕ) → i < length goals.now → IsFloor grid.now (slice_index goals.now i) }
        requires keeps { Keeps grid.now self.old }
        ensures all { IfOk result (λ all. IsTrue all ↔ AreKept goals.now self.new.kept) }
        ensures place { IfOk result (λ all. length goals.now ≤ places self.old.bytes (length grid.now.letters) → IsTrue all) }
        ensures only { OnOk result (All (λ field. IsFieldOf grid.now goals.now field ⊎ Contains self.old.kept field) self.new.kept) }
        ensures keeps { Keeps grid.now self.new }
        ensures bytes { self.new.bytes ≡ self.old.bytes }
        ensures refused { OnErr result (self.new ≡ self.old) }
    {
        let alloc = self.kept.allocator();
        let place = places(self.bytes, grid.cell_count() as usize);
        let first = place.min(goals.len());
        let lists = sorted(alloc, &self.kept, goals, first)?;
        let fresh = compasses(rt, alloc, grid, &lists.1)?;
        self.kept.reserve(fresh.len())?;
        all_to_front(&mut self.kept, &lists.0);
        put_first(&mut self.kept, fresh);
        self.kept.truncate(place);
        Ok(has_all(&self.kept, goals))
    }
}
