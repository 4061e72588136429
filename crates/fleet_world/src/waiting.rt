//! The orders and notices of one client that wait.

ghost use Rattle.std.specs.Prelude.{◌≡◌, [], ◌∷◌, ◌++◌, length, slice_get, drop, OnOk, OnErr, MatchOption, Some};
ghost use Rattle.fleet_world.specs.Talk.{none_waiting, with_order, with_notice, without_order, without_notice};

use fleet_book::{Notice, Order};
use std::alloc::{AllocError, Allocator, Global};
use std::collections::VecDeque;
use std::marker::Model;

/// The orders that a client sent and nobody took, and the notices that it was given and did not collect. Contracts see
/// both lists.
#[derive(Drop)]
pub struct Waiting<A: Allocator + Copy = Global> {
    lane: VecDeque<Order, A>,
    outlet: VecDeque<Notice, A>,
}

impl<A: Allocator + Copy> Model for Waiting<A> {
    ghost use Rattle.fleet_world.specs.Talk.{Waiting as Lists};

    ghost Value = { Lists };

    ghost view = { λ w. record { lane = w.lane.items; outlet = w.outlet.items } };
}

impl<A: Allocator + Copy> Waiting<A> {
    /// Nothing waits. It allocates nothing.
    pub(crate) fn new(alloc: A) -> Waiting<A>
        ensures { result ≡ none_waiting }
    {
        Waiting {
            lane: VecDeque::new(alloc),
            outlet: VecDeque::new(alloc),
        }
    }

    /// How many orders wait.
    pub fn lane_len(&self) -> usize
        ensures { result ≡ length self.now.lane }
    {
        self.lane.len()
    }

    /// How many notices wait.
    pub fn outlet_len(&self) -> usize
        ensures { result ≡ length self.now.outlet }
    {
        self.outlet.len()
    }

    /// The order that is taken next.
    pub(crate) fn next_order(&self) -> Option<Order>
        ensures { result ≡ slice_get self.now.lane 0 }
    {
        self.lane.front().copied()
    }

    /// An order joins the lane.
    pub(crate) fn send(&mut self, order: Order) -> Result<(), AllocError>
        ensures ok { OnOk result (self.new ≡ with_order self.old order) }
        ensures err { OnErr result (self.new ≡ self.old) }
    {
        Ok(self.lane.push_back(order)?)
    }

    /// The lane's first order is gone.
    pub(crate) fn take(&mut self)
        ensures { self.new ≡ without_order self.old }
    {
        let _taken = self.lane.pop_front();
    }

    /// A notice joins the outlet.
    pub(crate) fn give(&mut self, notice: Notice) -> Result<(), AllocError>
        ensures ok { OnOk result (self.new ≡ with_notice self.old notice) }
        ensures err { OnErr result (self.new ≡ self.old) }
    {
        Ok(self.outlet.push_back(notice)?)
    }

    /// Takes out the outlet's first notice.
    pub(crate) fn collect(&mut self) -> Option<Notice>
        ensures notice { result ≡ slice_get self.old.outlet 0 }
        ensures rest { self.new ≡ without_notice self.old }
    {
        self.outlet.pop_front()
    }

    /// The lane and the outlet. It allocates nothing.
    pub(crate) fn leave(self) -> (Vec<Order, A>, Vec<Notice, A>)
        ensures lane { result.0.items ≡ self.lane }
        ensures outlet { result.1.items ≡ self.outlet }
    {
        let Waiting { lane, outlet } = self;
        (lane.into_vec(), outlet.into_vec())
    }
}
