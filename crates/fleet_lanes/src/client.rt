//! A client's ends of its two rings.

ghost use Rattle.std.specs.Prelude.{◌≡◌};
ghost use Rattle.fleet_lanes.specs.Ends.{is_close};

use crate::fault::PostFault;
use fleet_book::{Notice, Order};
use rtrb::{Consumer, Producer, PushError};
use std::alloc::{Allocator, Global};
use std::marker::Model;

/// A client: it sends orders and collects notices; each call does one step on a ring.
#[derive(Drop)]
pub struct Client<A: Allocator = Global> {
    number: u32,
    // How many orders may be sent in all, and how many were.
    limit: u64,
    count: u64,
    closed: bool,
    orders: Producer<Order, A>,
    notices: Consumer<Notice, A>,
}

impl<A: Allocator> Model for Client<A> {
    ghost use Rattle.std.specs.Prelude.{◌≡◌, ◌≤◌, ◌<◌, ◌^◌, length, false};
    ghost use Rattle.rtrb.specs.Ring.{sent, received, known_free, known_items};
    ghost use Rattle.fleet_lanes.specs.Names.{ring_of_producer, ring_of_consumer};
    ghost use Rattle.fleet_lanes.specs.Ends.{ClientView, has_close};

    ghost Value = { ClientView A };

    ghost view = { λ c. record {
      number = c.number;
      lane = record { orders = ring_of_producer c.orders; notices = ring_of_consumer c.notices };
      orders = c.limit;
      sent = sent c.orders;
      collected = received c.notices;
      free = known_free c.orders;
      known = known_items c.notices;
    } };

    ghost invariant = { λ c. (c.count ≡ length (sent c.orders))
        × (c.closed ≡ has_close (sent c.orders))
        × (c.closed ≡ false → c.count < c.limit)
        × (c.count ≤ c.limit)
        × (c.limit < 2 ^ 63) };
}

impl<A: Allocator> Client<A> {
    ghost use Rattle.std.specs.Prelude.{◌≡◌, ◌↔◌, ◌⊎◌, ◌+◌, ◌<◌, ◌≤◌, ◌^◌, ◌++◌, ◌∷◌, [], length, true, false, IfOk, IfErr, IfSome, IfNone, IsSome, IsOk, OnOk, OnErr};
    ghost use mathlib.Core.List.{IsPrefix};
    ghost use Rattle.rtrb.specs.Ring.{sent, received, known_free, known_items, ConsumerLooked, ProducerLooked};
    ghost use Rattle.fleet_lanes.specs.Names.{ring_of_producer, ring_of_consumer};
    ghost use Rattle.fleet_lanes.specs.Ends.{has_close, is_close};
    ghost use Rattle.fleet_lanes.specs.Posts.{AreSpent, HandsBack};

    pub(crate) fn new(
        number: u32,
        limit: u64,
        orders: Producer<Order, A>,
        notices: Consumer<Notice, A>,
    ) -> Self
        requires empty { (sent orders ≡ []) × (received notices ≡ []) }
        requires fits { (0 < limit) × (limit < 2 ^ 63) }
        ensures { result ≡ record {
          number = number;
          lane = record { orders = ring_of_producer orders; notices = ring_of_consumer notices };
          orders = limit;
          sent = [];
          collected = [];
          free = known_free orders;
          known = known_items notices;
        } }
    {
        Client {
            number,
            limit,
            count: 0,
            closed: false,
            orders,
            notices,
        }
    }

    /// Sends an order, and returns its number in the lane, from 1. The last number is kept for Close.
    ///
    /// Refused in this order: `Closed` after `Close` was sent; `NumbersSpent` if no number is left for the order;
    /// `LaneFull` if the ring has no free slot. A refused call changes nothing, and the last two return the order.
    pub fn post(&mut self, order: Order) -> Result<u64, PostFault>
        ensures ok { IfOk result (λ number. (number ≡ length self.old.sent + 1)
            × (self.new ≡ record self.old { sent = self.old.sent ++ order ∷ []; free = self.new.free })
            × (self.old.free ≤ self.new.free + 1)) }

        ensures closed { (result ≡ Err PostFault.Closed) ↔ (has_close self.old.sent ≡ true) }
        ensures spent { (result ≡ Err (PostFault.NumbersSpent order)) ↔ AreSpent self.old order }
        // A free slot that the client knows of is used.
        ensures full { result ≡ Err (PostFault.LaneFull order) → self.old.free ≡ 0 }
        ensures refused { IfErr result (λ fault. HandsBack order fault × (self.new ≡ self.old)) }
    {
        if self.closed {
            return Err(PostFault::Closed);
        }
        let number = self.count + 1;
        let last = is_close(order);
        if !last && self.limit <= number {
            return Err(PostFault::NumbersSpent(order));
        }
        if let Err(PushError::Full(order)) = self.orders.push(order) {
            return Err(PostFault::LaneFull(order));
        }
        self.count = number;
        self.closed = last;
        Ok(number)
    }

    /// Sends Close, the client's last order, and returns its number. Refused in this order: `Closed`, `LaneFull`.
    pub fn close(&mut self) -> Result<u64, PostFault>
        ensures ok { IfOk result (λ number. (number ≡ length self.old.sent + 1)
            × (self.new ≡ record self.old { sent = self.old.sent ++ Order.Close ∷ []; free = self.new.free })
            × (self.old.free ≤ self.new.free + 1)) }

        ensures closed { (result ≡ Err PostFault.Closed) ↔ (has_close self.old.sent ≡ true) }
        ensures full { result ≡ Err (PostFault.LaneFull Order.Close) → self.old.free ≡ 0 }
        ensures refused { IfErr result (λ fault.
            ((fault ≡ PostFault.Closed) ⊎ (fault ≡ PostFault.LaneFull Order.Close)) × (self.new ≡ self.old)) }
    {
        self.post(Order::Close)
    }

    /// Removes the oldest notice from the outlet and returns it; `None` if none is found there.
    pub fn collect(&mut self) -> Option<Notice>
        ensures some { IfSome result (λ notice. (self.new
            ≡ record self.old { collected = self.old.collected ++ notice ∷ []; known = self.new.known })
            × IsPrefix self.old.known (notice ∷ self.new.known)) }
        ensures none { IfNone result (self.new ≡ self.old) }
        ensures succeeds { 0 < length self.old.known → IsSome result }
    {
        self.notices.pop().ok()
    }

    /// Removes and returns the oldest notice, which must be known to be on the outlet.
    pub fn collect_known(&mut self) -> Notice
        requires { 0 < length self.old.known }
        ensures collected { self.new
            ≡ record self.old { collected = self.old.collected ++ result ∷ []; known = self.new.known } }
        ensures known { self.old.known ≡ result ∷ self.new.known }
    {
        self.notices.pop_known()
    }

    /// How many notices are known to be on the outlet.
    pub fn known(&self) -> usize
        ensures { result ≡ length self.now.known }
    {
        self.notices.cached_slots()
    }

    /// The client's number, from 0.
    pub fn number(&self) -> u32
        ensures { result ≡ self.now.number }
    {
        self.number
    }

    /// How many orders were sent.
    pub fn sent(&self) -> u64
        ensures { result ≡ length self.now.sent }
    {
        self.count
    }

    /// Whether Close was sent.
    pub fn is_closed(&self) -> bool
        ensures { result ≡ has_close self.now.sent }
    {
        self.closed
    }

    /// Looks at both rings while the hall's ends of them are available too.
    pub(crate) fn beside(
        &mut self,
        orders: &mut Consumer<Order, A>,
        notices: &mut Producer<Notice, A>,
    )
        requires orders { self.old.lane.orders ≡ ring_of_consumer orders.old }
        requires notices { self.old.lane.notices ≡ ring_of_producer notices.old }
        ensures taken { received orders.new ++ known_items orders.new ≡ self.new.sent }
        ensures collected { self.new.collected ++ self.new.known ≡ sent notices.new }
        ensures client { self.new ≡ record self.old { free = self.new.free; known = self.new.known } }
        ensures orders { ConsumerLooked orders.old orders.new }
        ensures notices { ProducerLooked notices.old notices.new }
    {
        orders.slots_beside(&mut self.orders);
        self.notices.slots_beside(notices);
    }
}

fn is_close(order: Order) -> bool
    ensures { result ≡ is_close order }
{
    matches!(order, Order::Close)
}
