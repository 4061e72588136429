//! A store of fields that several holders share.

ghost use Rattle.std.specs.Prelude.{◌≡◌, ℕ, ◌+◌, ◌<◌, ◌^◌, [], None, Some, length, slice_index, ◌↔◌, IfOk, OnOk, OnErr, IsSome, IsTrue, slice_index_or};
ghost use Rattle.fleet_grid.specs.Floor.{Floor, IsFloor};
ghost use Rattle.fleet_grid.specs.Ways.{AreNearer, AreOpen};
ghost use Rattle.fleet_field.specs.Field.{Aim};
ghost use Rattle.fleet_field.specs.Store.{shown, Serves, Keeps, IsOnce, IsHold, IsRelease, HasUsesLeft};
ghost use Rattle.fleet_field.specs.Several.{AreHeld, HaveUsesLeft};
ghost use Rattle.fleet_field.specs.declared.store.Held.{Held as HeldView};

use crate::cache::FieldCache;
use crate::compass::Compass;
use crate::compasses::compasses;
use crate::holds::{hold_with, missing_of, use_again};
use crate::keyed::Keyed;
use fleet_grid::{Grid, Outlook, Ways};
use std::alloc::{AllocError, Allocator, Global};
use std::marker::Model;
use std::thread::Threads;

/// A field, and how many times it is held.
#[derive(Drop)]
pub struct Held<F> {
    pub(crate) field: F,
    pub(crate) uses: u32,
}

/// Fields of one map, each under a key as long as its goal is held. Contracts see the field at each key.
#[derive(Drop)]
pub struct FieldStore<A: Allocator + Copy = Global> {
    alloc: A,
    held: Keyed<A>,
}

impl<A: Allocator + Copy> Model for FieldStore<A> {
    ghost use Rattle.std.specs.Prelude.{List, Option};
    ghost use Rattle.fleet_field.specs.Field.{Aim};
    ghost use Rattle.fleet_field.specs.declared.store.Held.{Held as HeldView};

    ghost Value = { List (Option (HeldView Aim)) };

    ghost view = { λ s. s.held.slots };

    ghost use Rattle.fleet_field.specs.Store.{IsOnce};

    ghost invariant = { λ s. IsOnce s.held.slots };
}

impl<A: Allocator + Copy> FieldStore<A> {
    /// An empty store.
    pub fn new(alloc: A) -> Result<FieldStore<A>, AllocError>
        ensures { IfOk result (λ store. store ≡ []) }
    {
        Ok(FieldStore {
            alloc,
            held: Keyed::new(alloc),
        })
    }

    /// Holds the field of a goal, a floor cell: the one that the store has, or a new one. A store serves one map, and a
    /// goal is held fewer than 2^32 times at once.
    pub fn hold<B: Allocator + Copy>(
        &mut self,
        grid: &Grid<B>,
        goal: u32,
    ) -> Result<usize, AllocError>
        requires floor { IsFloor grid.now goal }
        requires serves { Serves grid.now self.old }
        requires fewer { HasUsesLeft self.old goal 1 }
        ensures held { IfOk result (λ key. IsHold grid.now goal self.old self.new key) }
        ensures serves { Serves grid.now self.new }
        ensures refused { OnErr result (self.new ≡ self.old) }
    {
        self.hold_from(&mut FieldCache::new(self.alloc, 0), grid, goal)
    }

    /// Holds the field of a goal, as `hold` does; a field that is kept takes no search.
    pub fn hold_from<B: Allocator + Copy>(
        &mut self,
        cache: &mut FieldCache<A>,
        grid: &Grid<B>,
        goal: u32,
    ) -> Result<usize, AllocError>
        requires floor { IsFloor grid.now goal }
        requires serves { Serves grid.now self.old }
        requires keeps { Keeps grid.now cache.old }
        requires fewer { HasUsesLeft self.old goal 1 }
        ensures held { IfOk result (λ key. IsHold grid.now goal self.old self.new key) }
        ensures serves { Serves grid.now self.new }
        ensures keeps { Keeps grid.now cache.new }
        ensures refused { OnErr result (self.new ≡ self.old) }
    {
        if let Some(key) = self.held.key_of(goal) {
            use_again(&mut self.held, key);
            return Ok(key);
        }
        self.held.reserve(1)?;
        let field = cache.field(grid, goal, self.held.len().saturating_add(1))?;
        Ok(self.held.insert_reserved(Held { field, uses: 1 }))
    }

    /// Whether the goal can be held once more.
    pub fn can_hold(&self, goal: u32) -> bool
        ensures { IsTrue result ↔ HasUsesLeft self.now goal 1 }
    {
        match self.held.key_of(goal) {
            Some(key) => self.held[key].uses < u32::MAX,
            None => true,
        }
    }

    /// Whether some key shows the field of the goal.
    pub fn has(&self, goal: u32) -> bool
        ensures { IsTrue result ↔ ((key : ℕ) × (held : HeldView Aim) × (shown self.now key ≡ Some held) × (held.field.goal ≡ goal)) }
    {
        match self.held.key_of(goal) {
            Some(_key) => true,
            None => false,
        }
    }

    /// Whether the key is held.
    pub fn is_held(&self, key: usize) -> bool
        ensures { IsTrue result ↔ IsSome (shown self.now key) }
    {
        self.held.contains(key)
    }

    /// Gives one hold of a key back. The field goes with the last one.
    pub fn release(&mut self, key: usize)
        requires { IsSome (shown self.old key) }
        ensures { IsRelease self.old self.new key }
    {
        self.release_to(&mut FieldCache::new(self.alloc, 0), key);
    }

    /// Gives one hold of a key back. When the last hold is given back, the field goes to the cache.
    pub fn release_to(&mut self, cache: &mut FieldCache<A>, key: usize)
        requires { IsSome (shown self.old key) }
        ensures released { IsRelease self.old self.new key }
        ensures keeps { (m : Floor) → Serves m self.old → Keeps m cache.old → Keeps m cache.new }
    {
        let uses = self.held[key].uses;
        if uses > 1 {
            self.held.set_uses(key, uses - 1);
        } else {
            cache.put(self.held.remove(key).field);
        }
    }

    /// The cell's distance to the goal of the key; `None` if no walk leads there.
    pub fn at(&self, key: usize, cell: u32) -> Option<u32>
        requires { IsSome (shown self.now key) }
        ensures { (held : HeldView Aim) → shown self.now key ≡ Some held → result ≡ slice_index_or held.field.away cell None }
    {
        self.held[key].field.at(cell)
    }

    /// The ways from a cell of the map that lead nearer to the goal of the key.
    pub fn ways<B: Allocator + Copy>(&self, grid: &Grid<B>, key: usize, cell: u32) -> Ways
        requires { IsSome (shown self.now key) }
        ensures { (held : HeldView Aim) → shown self.now key ≡ Some held → AreNearer grid.now (λ c. slice_index_or held.field.away c None) cell result.byte }
    {
        self.held[key].field.ways(grid, cell)
    }

    /// The ways from a floor cell of the map: those that lead nearer to the goal of the key, and all exits.
    pub fn outlook<B: Allocator + Copy>(&self, grid: &Grid<B>, key: usize, cell: u32) -> Outlook
        requires shown { IsSome (shown self.now key) }
        requires serves { Serves grid.now self.now }
        requires floor { IsFloor grid.now cell }
        ensures nearer { (held : HeldView Aim) → shown self.now key ≡ Some held → AreNearer grid.now (λ c. slice_index_or held.field.away c None) cell result.nearer.byte }
        ensures exits { AreOpen grid.now cell result.exits.byte }
    {
        self.held[key].field.outlook(grid, cell)
    }

    /// The goal of the key.
    pub fn goal(&self, key: usize) -> u32
        requires { IsSome (shown self.now key) }
        ensures { (held : HeldView Aim) → shown self.now key ≡ Some held → result ≡ held.field.goal }
    {
        self.held[key].field.goal()
    }
}

impl<A: Allocator + Copy + Send + Sync> FieldStore<A> {
    /// Holds the fields of several goals, which are floor cells, and returns their keys in turn. Fields that the store
    /// does not have are searched together, in parallel. Each goal may be held fewer than 2^32 times at once, with
    /// these holds.
    pub fn hold_all<B: Allocator + Copy + Send + Sync>(
        &mut self,
        rt: &(impl Threads + Sync),
        grid: &Grid<B>,
        goals: &[u32],
    ) -> Result<Vec<usize, A>, AllocError>
        requires floor { (i : ℕ) → i < length goals.now → IsFloor grid.now (slice_index goals.now i) }
        requires serves { Serves grid.now self.old }
        requires fewer { HaveUsesLeft self.old goals.now }
        ensures held { IfOk result (λ keys. AreHeld goals.now self.old keys.items self.new) }
        ensures serves { Serves grid.now self.new }
        ensures once { OnOk result (IsOnce self.new) }
        ensures refused { OnErr result (self.new ≡ self.old) }
    {
        let missing = missing_of(self.alloc, &self.held, goals)?;
        let fresh = compasses(rt, self.alloc, grid, &missing)?;
        hold_with(self.alloc, &mut self.held, fresh, goals)
    }
}
