//! The queue of a robot's unfinished errands, in the order of their acceptance.

ghost use Rattle.std.specs.Prelude.{◌≡◌, ◌↔◌, ◌==◌, ◌<◌, ◌≤◌, [], ◌∷◌, ◌++◌, length, drop, slice_get, position, take, ◌-◌, true, false, IsTrue, IfOk, IsOk, OnOk, IfErr};
ghost use Rattle.std.specs.List.{list_any};
ghost use Rattle.fleet_queue.specs.Queue.{is_of, without_behind_front};

use crate::errand::Errand;
use circular_buffer::HeapCircularBuffer;
use std::alloc::{AllocError, Allocator, Global};
use std::marker::Model;

/// The unfinished errands of one robot. The front is the one that the robot is on its way to. Only `new` allocates.
#[derive(Drop)]
pub struct ErrandQueue<A: Allocator = Global> {
    errands: HeapCircularBuffer<Errand, A>,
}

impl<A: Allocator> Model for ErrandQueue<A> {
    ghost use Rattle.std.specs.Prelude.{◌^◌, ◌<◌, ◌≤◌, length};
    ghost use Rattle.fleet_queue.specs.Queue.{Queue};

    ghost Value = { Queue };

    ghost view = { λ q. record { items = q.errands.items; capacity = q.errands.capacity } };

    ghost invariant = { λ q. length q.errands.items ≤ q.errands.capacity };
}

impl<A: Allocator> ErrandQueue<A> {
    /// An empty queue with room for `cap` errands.
    pub fn new(alloc: A, cap: u32) -> Result<Self, AllocError>
        ensures { IfOk result (λ q. q ≡ record { items = []; capacity = cap }) }
    {
        let errands = HeapCircularBuffer::with_capacity(alloc, cap as usize)?;
        Ok(ErrandQueue { errands })
    }

    /// The number of errands.
    pub fn len(&self) -> usize
        ensures len { result ≡ length self.now.items }
        ensures within { result ≤ self.now.capacity }
    {
        self.errands.len()
    }

    /// Whether there is no errand.
    pub fn is_empty(&self) -> bool
        ensures { IsTrue result ↔ (self.now.items ≡ []) }
    {
        self.errands.is_empty()
    }

    /// Whether there is no room for a further errand.
    pub fn is_full(&self) -> bool
        ensures full { IsTrue result ↔ (length self.now.items ≡ self.now.capacity) }
        ensures within { length self.now.items ≤ self.now.capacity }
    {
        self.errands.is_full()
    }

    /// The errand that the robot is on its way to.
    pub fn front(&self) -> Option<Errand>
        ensures { result ≡ slice_get self.now.items 0 }
    {
        self.errands.front().copied()
    }

    /// The errand at the place, counted from the front, which is 0.
    pub fn get(&self, place: usize) -> Option<Errand>
        ensures { result ≡ slice_get self.now.items place }
    {
        self.errands.get(place).copied()
    }

    /// Adds the errand at the end, or returns it if the queue is full.
    pub fn try_push(&mut self, errand: Errand) -> Result<(), Errand>
        ensures room { IsOk result ↔ (length self.old.items < self.old.capacity) }
        ensures ok { OnOk result (self.new ≡ record self.old { items = self.old.items ++ errand ∷ [] }) }
        ensures err { IfErr result (λ back. (back ≡ errand) × (self.new ≡ self.old)) }
    {
        self.errands.try_push_back(errand)
    }

    /// Removes the front errand and returns it.
    pub fn pop(&mut self) -> Option<Errand>
        ensures front { result ≡ slice_get self.old.items 0 }
        ensures rest { self.new ≡ record self.old { items = drop 1 self.old.items } }
    {
        self.errands.pop_front()
    }

    /// Whether the client's errand with this number is in the queue.
    pub fn holds(&self, client: u32, number: u64) -> bool
        ensures { result ≡ list_any (is_of client number) self.now.items }
    {
        self.errands
            .iter()
            .any(|errand| is_of(client, number, errand))
    }

    /// Removes the client's first errand with this number after the front, and answers whether there was one.
    pub fn withdraw(&mut self, client: u32, number: u64) -> bool
        ensures found { result ≡ list_any (is_of client number) (drop 1 self.old.items) }
        ensures rest { self.new
            ≡ record self.old { items = without_behind_front (is_of client number) self.old.items } }
        ensures same { result ≡ false → self.new ≡ self.old }
    {
        if !move_to_end(self.errands.make_contiguous(), client, number) {
            return false;
        }
        self.errands.pop_back();
        true
    }
}

/// Moves the client's first errand with this number after the front to the end, and answers whether there is one.
fn move_to_end(errands: &mut [Errand], client: u32, number: u64) -> bool
    ensures found { result ≡ list_any (is_of client number) (drop 1 errands.old) }
    ensures moved { result ≡ true
        → take (length errands.old - 1) errands.new
        ≡ without_behind_front (is_of client number) errands.old }
    ensures same { result ≡ false
        → (errands.new ≡ errands.old)
        × (without_behind_front (is_of client number) errands.old ≡ errands.old) }
{
    if errands.is_empty() {
        return false;
    }
    let Some(place) = place_of(&errands[1..], client, number) else {
        return false;
    };
    errands[1 + place..].rotate_left(1);
    true
}

/// The place of the client's first errand with this number.
fn place_of(errands: &[Errand], client: u32, number: u64) -> Option<usize>
    ensures { result ≡ position (is_of client number) errands.now }
{
    errands
        .iter()
        .position(|errand| is_of(client, number, errand))
}

/// Whether it is the client's errand with this number.
fn is_of(client: u32, number: u64, errand: &Errand) -> bool
    ensures { result ≡ is_of client number errand.now }
{
    errand.client == client && errand.number == number
}
