//! Fields that are held, each at a key.

ghost use Rattle.std.specs.Prelude.{◌≡◌, ◌≢◌, ℕ, ◌+◌, ◌<◌, [], None, Some, IsSome, IsTrue, OnOk, ◌↔◌, MatchOption, length};
ghost use Rattle.slab.specs.Slab.{get, slab_len, HasRoomFor, ContainsKey, Updates};
ghost use Rattle.fleet_field.specs.Field.{Aim};
ghost use Rattle.fleet_field.specs.declared.store.Held.{Held as HeldView};
ghost use Rattle.fleet_field.specs.inside.Uses.{AreGoalsOf};

use crate::compass::Compass;
use crate::store::Held;
use slab::Slab;
use std::alloc::{AllocError, Allocator};
use std::marker::Model;
use std::ops::Index;

/// The goal of a free key: no cell has this number.
const FREE: u32 = u32::MAX;

/// Fields that are held, each at a key. The goals of the keys stand in a list of their own: a key is found there, since
/// a field takes ten times the memory of its goal.
#[derive(Drop)]
pub(crate) struct Keyed<A: Allocator + Copy> {
    slab: Slab<Held<Compass<A>>, A>,
    goals: Vec<u32, A>,
}

impl<A: Allocator + Copy> Model for Keyed<A> {
    ghost use Rattle.slab.specs.Slab.{Slab};
    ghost use Rattle.fleet_field.specs.Field.{Aim};
    ghost use Rattle.fleet_field.specs.declared.store.Held.{Held as HeldView};

    ghost Value = { Slab (HeldView Aim) };

    ghost use Rattle.std.specs.Prelude.{length};
    ghost use Rattle.fleet_field.specs.inside.Uses.{AreGoalsOf, covered};

    ghost view = { λ k. record k.slab { capacity = covered k.slab.capacity (length k.goals.items) } };

    ghost invariant = { λ k. AreGoalsOf k.slab.slots k.goals.items };
}

/// Whether the key shows the field of a goal.
fn is_shown<A: Allocator + Copy>(
    slab: &Slab<Held<Compass<A>>, A>,
    goals: &[u32],
    key: usize,
    goal: u32,
) -> bool
    requires key { key < length goals.now }
    requires goals { AreGoalsOf slab.now.slots goals.now }
    ensures { IsTrue result ↔ ((at : HeldView Aim) × (get slab.now key ≡ Some at) × (at.field.goal ≡ goal)) }
{
    if goals[key] != goal {
        return false;
    }
    match slab.get(key) {
        Some(at) => at.field.goal() == goal,
        None => false,
    }
}

/// The key that shows the field of a goal.
fn key_among<A: Allocator + Copy>(
    slab: &Slab<Held<Compass<A>>, A>,
    goals: &[u32],
    goal: u32,
) -> Option<usize>
    requires { AreGoalsOf slab.now.slots goals.now }
    ensures { MatchOption result ((key : ℕ) → (at : HeldView Aim) → get slab.now key ≡ Some at → at.field.goal ≡ goal → ⊥) (λ key. (at : HeldView Aim) × (get slab.now key ≡ Some at) × (at.field.goal ≡ goal)) }
{
    for key in 0..goals.len() {
        if is_shown(slab, goals, key, goal) {
            return Some(key);
        }
    }
    None
}

impl<A: Allocator + Copy> Keyed<A> {
    /// No key is held. No memory is taken before a field comes.
    pub(crate) fn new(alloc: A) -> Keyed<A>
        ensures { result.slots ≡ [] }
    {
        Keyed {
            slab: Slab::new(alloc),
            goals: Vec::new(alloc),
        }
    }

    /// The key that shows the field of a goal.
    pub(crate) fn key_of(&self, goal: u32) -> Option<usize>
        ensures { MatchOption result ((key : ℕ) → (at : HeldView Aim) → get self.now key ≡ Some at → at.field.goal ≡ goal → ⊥) (λ key. (at : HeldView Aim) × (get self.now key ≡ Some at) × (at.field.goal ≡ goal)) }
    {
        key_among(&self.slab, &self.goals, goal)
    }

    /// The number of fields.
    pub(crate) fn len(&self) -> usize {
        self.slab.len()
    }

    /// Whether the key shows a field.
    pub(crate) fn contains(&self, key: usize) -> bool
        ensures { IsTrue result ↔ ContainsKey self.now key }
    {
        self.slab.contains(key)
    }

    /// Makes room for this many fields more.
    pub(crate) fn reserve(&mut self, more: usize) -> Result<(), AllocError>
        ensures room { OnOk result (HasRoomFor self.new more) }
        ensures slots { self.new.slots ≡ self.old.slots }
    {
        self.slab.reserve(more)?;
        let capacity = self.slab.capacity();
        if self.goals.len() < capacity {
            self.goals.resize(capacity, FREE)?;
        }
        Ok(())
    }

    /// Adds a field, and returns its key.
    pub(crate) fn insert_reserved(&mut self, held: Held<Compass<A>>) -> usize
        requires { HasRoomFor self.old 1 }
        ensures was_vacant { get self.old result ≡ None }
        ensures updates { Updates self.old self.new result (Some held) }
        ensures len { slab_len self.new ≡ slab_len self.old + 1 }
        ensures capacity { self.new.capacity ≡ self.old.capacity }
    {
        let goal = held.field.goal();
        let key = self.slab.insert_reserved(held);
        self.goals[key] = goal;
        key
    }

    /// Removes the field of a key, and returns it.
    pub(crate) fn remove(&mut self, key: usize) -> Held<Compass<A>>
        requires { ContainsKey self.old key }
        ensures value { get self.old key ≡ Some result }
        ensures updates { Updates self.old self.new key None }
    {
        self.goals[key] = FREE;
        self.slab.remove(key)
    }

    /// Changes the number of holds of a key.
    pub(crate) fn set_uses(&mut self, key: usize, uses: u32)
        requires { ContainsKey self.old key }
        ensures set { (at : HeldView Aim) → get self.old key ≡ Some at → get self.new key ≡ Some record at { uses = uses } }
        ensures others { (other : ℕ) → other ≢ key → get self.new other ≡ get self.old other }
    {
        let Held { field, uses: _ } = self.slab.remove(key);
        let _same = self.slab.insert_reserved(Held { field, uses });
    }
}

impl<A: Allocator + Copy> Index<usize> for Keyed<A> {
    type Output = Held<Compass<A>>;

    ghost can_index = { ContainsKey };

    ghost index_gives = { λ s key value. get s key ≡ Some value };

    fn index(&self, key: usize) -> &Held<Compass<A>> {
        &self.slab[key]
    }
}
