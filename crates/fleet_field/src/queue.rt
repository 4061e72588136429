//! Fields in a queue, found by their goals.

ghost use Rattle.std.specs.Prelude.{◌≡◌, ◌⊎◌, ℕ, ◌+◌, ◌<◌, ◌≤◌, [], ◌∷◌, length, slice_index, slice_index_or, take, MatchOption, OnOk};
ghost use Rattle.std.specs.List.{remove};
ghost use Rattle.fleet_field.specs.Field.{Aim};
ghost use Rattle.fleet_field.specs.FieldCache.{cells_kept, HasKept};
ghost use Rattle.fleet_field.specs.inside.Uses.{IsOneOf};

use crate::compass::Compass;
use std::alloc::{AllocError, Allocator};
use std::collections::VecDeque;
use std::marker::Model;

/// Fields in a queue. Their goals stand in a queue of their own, in the same order: a goal is found there, since a
/// field takes ten times the memory of its goal.
#[derive(Drop)]
pub(crate) struct Queue<A: Allocator + Copy> {
    fields: VecDeque<Compass<A>, A>,
    goals: VecDeque<u32, A>,
}

impl<A: Allocator + Copy> Model for Queue<A> {
    ghost use Rattle.std.specs.Prelude.{◌≡◌, min, map};
    ghost use Rattle.std.specs.VecDeque.{deque_capacity};
    ghost use Rattle.fleet_field.specs.inside.Queue.{Queue, goal_of};

    ghost Value = { Queue };

    ghost view = { λ q. record { items = q.fields.items; room = min (deque_capacity q.fields) (deque_capacity q.goals) } };

    ghost invariant = { λ q. q.goals.items ≡ map goal_of q.fields.items };
}

/// The first place of a goal among these.
pub(crate) fn place_among(goals: &[u32], goal: u32) -> Option<usize>
    ensures { MatchOption result (IsOneOf goals.now goal → ⊥) (λ at. (at < length goals.now) × (slice_index goals.now at ≡ goal)) }
{
    for at in 0..goals.len() {
        if goals[at] == goal {
            return Some(at);
        }
    }
    None
}

impl<A: Allocator + Copy> Queue<A> {
    /// An empty queue. No memory is taken before a field comes.
    pub(crate) fn new(alloc: A) -> Queue<A>
        ensures { result.items ≡ [] }
    {
        Queue {
            fields: VecDeque::new(alloc),
            goals: VecDeque::new(alloc),
        }
    }

    /// The allocator.
    pub(crate) fn allocator(&self) -> A {
        *self.fields.allocator()
    }

    /// The number of fields.
    pub(crate) fn len(&self) -> usize
        ensures { result ≡ length self.now.items }
    {
        self.fields.len()
    }

    /// For how many fields there is room.
    pub(crate) fn room(&self) -> usize
        ensures { result ≡ self.now.room }
    {
        self.fields.capacity().min(self.goals.capacity())
    }

    /// How many cells the first field has, as each has; 0 if there is none.
    pub(crate) fn cells(&self) -> usize
        ensures { result ≡ cells_kept self.now.items }
    {
        match self.fields.front() {
            Some(field) => field.cells(),
            None => 0,
        }
    }

    /// The place of the field of a goal.
    pub(crate) fn place_of(&self, goal: u32) -> Option<usize>
        ensures { MatchOption result (HasKept self.now.items goal → ⊥) (λ at. (at < length self.now.items) × ((field : Aim) → field ≡ slice_index_or self.now.items at field → field.goal ≡ goal)) }
    {
        let (first, second) = self.goals.as_slices();
        if let Some(at) = place_among(first, goal) {
            return Some(at);
        }
        match place_among(second, goal) {
            Some(at) => Some(first.len() + at),
            None => None,
        }
    }

    /// Takes the field at a place out.
    pub(crate) fn remove(&mut self, at: usize) -> Compass<A>
        requires { at < length self.old.items }
        ensures value { (field : Aim) → result ≡ slice_index_or self.old.items at field }
        ensures items { self.new.items ≡ remove self.old.items at }
        ensures len { length self.new.items + 1 ≡ length self.old.items }
        ensures room { self.new.room ≡ self.old.room }
    {
        let _goal = self.goals.remove(at);
        match self.fields.remove(at) {
            Some(field) => field,
            None => unreachable!(),
        }
    }

    /// Puts a field first.
    pub(crate) fn push_front_reserved(&mut self, field: Compass<A>)
        requires { length self.old.items < self.old.room }
        ensures items { self.new.items ≡ field ∷ self.old.items }
        ensures len { length self.new.items ≡ length self.old.items + 1 }
        ensures room { self.new.room ≡ self.old.room }
    {
        self.goals.push_front_reserved(field.goal());
        self.fields.push_front_reserved(field);
    }

    /// Drops all fields but the first `len`.
    pub(crate) fn truncate(&mut self, len: usize)
        ensures items { self.new.items ≡ take len self.old.items }
        ensures few { length self.new.items ≤ len }
        ensures room { self.new.room ≡ self.old.room }
    {
        self.fields.truncate(len);
        self.goals.truncate(len);
    }

    /// Makes room for this many fields more.
    pub(crate) fn reserve(&mut self, more: usize) -> Result<(), AllocError>
        ensures items { self.new.items ≡ self.old.items }
        ensures room { OnOk result (length self.new.items + more ≤ self.new.room) }
    {
        self.fields.reserve(more)?;
        self.goals.reserve(more)
    }
}
