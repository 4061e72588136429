//! The robots whose next move is looked at.

ghost use Rattle.std.specs.Prelude.{◌≡◌, ℕ, ◌<◌, [], drop, slice_get, IfOk, IfSome};
ghost use Rattle.fleet_execution.specs.Executes.{IsIn};

use crate::table::Table;
use circular_buffer::HeapCircularBuffer;
use std::alloc::{AllocError, Allocator, Global};
use std::marker::Model;

/// Robots in the order in which they were added, each at most once.
#[derive(Drop)]
pub(crate) struct Queue<A: Allocator = Global> {
    order: HeapCircularBuffer<u32, A>,
    /// By robot: whether it is in the queue.
    waits: Table<bool, A>,
}

impl<A: Allocator> Model for Queue<A> {
    ghost use Rattle.std.specs.Prelude.{length};
    ghost use Rattle.fleet_execution.specs.Queue.{Line, IsQueue};

    ghost Value = { Line };

    ghost view = { λ q. record { robots = length q.waits; items = q.order.items } };

    ghost invariant = { λ q. IsQueue q.order.items q.order.capacity q.waits };
}

impl<A: Allocator + Copy> Queue<A> {
    /// A queue for this many robots, in which there is none.
    pub(crate) fn new(alloc: A, robots: u32) -> Result<Self, AllocError>
        ensures { IfOk result (λ q. q ≡ record { robots = robots; items = [] }) }
    {
        let order = HeapCircularBuffer::with_capacity(alloc, robots as usize)?;
        let waits = Table::new(alloc, robots as usize, false)?;
        Ok(Queue { order, waits })
    }
}

impl<A: Allocator> Queue<A> {
    /// The robot that was added first.
    pub(crate) fn first(&self) -> Option<u32>
        ensures value { result ≡ slice_get self.now.items 0 }
        ensures inside { IfSome result (λ r. r < self.now.robots) }
    {
        self.order.front().copied()
    }

    /// Adds a robot at the end, if it is not in the queue.
    pub(crate) fn add(&mut self, robot: u32)
        requires { robot < self.old.robots }
        ensures robots { self.new.robots ≡ self.old.robots }
        ensures keeps { (q : ℕ) → IsIn self.old.items q → IsIn self.new.items q }
        ensures added { IsIn self.new.items robot }
    {
        if !self.waits.get(robot as usize) {
            self.waits.set(robot as usize, true);
            let _ = self.order.try_push_back(robot);
        }
    }

    /// Removes the robot that was added first.
    pub(crate) fn drop_first(&mut self)
        ensures robots { self.new.robots ≡ self.old.robots }
        ensures items { self.new.items ≡ drop 1 self.old.items }
    {
        if let Some(robot) = self.order.pop_front() {
            self.waits.set(robot as usize, false);
        }
    }
}
