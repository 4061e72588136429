//! The hall's ends of a client's two rings.

use crate::client::Client;
use fleet_book::{Notice, Order};
use rtrb::{Consumer, Producer, PushError};
use std::alloc::{Allocator, Global};
use std::marker::Model;

/// The hall's ends of a client's rings: it takes orders and gives notices.
#[derive(Drop)]
pub struct HallEnd<A: Allocator = Global> {
    orders: Consumer<Order, A>,
    notices: Producer<Notice, A>,
    // How many notices were given.
    count: u64,
}

impl<A: Allocator> Model for HallEnd<A> {
    ghost use Rattle.std.specs.Prelude.{◌≡◌, ◌<◌, ◌^◌, length};
    ghost use Rattle.rtrb.specs.Ring.{sent, received, known_free, known_items};
    ghost use Rattle.fleet_lanes.specs.Names.{ring_of_producer, ring_of_consumer};
    ghost use Rattle.fleet_lanes.specs.Ends.{EndView};

    ghost Value = { EndView A };

    ghost view = { λ e. record {
      lane = record { orders = ring_of_consumer e.orders; notices = ring_of_producer e.notices };
      taken = received e.orders;
      given = sent e.notices;
      free = known_free e.notices;
      known = known_items e.orders;
    } };

    ghost invariant = { λ e. length (sent e.notices) < 2 ^ 64 → e.count ≡ length (sent e.notices) };
}

impl<A: Allocator> HallEnd<A> {
    ghost use Rattle.std.specs.Prelude.{◌≡◌, ◌+◌, ◌<◌, ◌≤◌, ◌^◌, ◌++◌, ◌∷◌, [], length, IfErr, IfSome, IfNone, IsSome, IsOk, OnOk};
    ghost use mathlib.Core.List.{IsPrefix};
    ghost use Rattle.rtrb.specs.Ring.{sent, received, known_free, known_items};
    ghost use Rattle.fleet_lanes.specs.Names.{ring_of_producer, ring_of_consumer};

    pub(crate) fn new(orders: Consumer<Order, A>, notices: Producer<Notice, A>) -> Self
        requires { sent notices ≡ [] }
        ensures { result ≡ record {
          lane = record { orders = ring_of_consumer orders; notices = ring_of_producer notices };
          taken = received orders;
          given = sent notices;
          free = known_free notices;
          known = known_items orders;
        } }
    {
        HallEnd {
            orders,
            notices,
            count: 0,
        }
    }

    /// The next order in the lane, if one is found. It stays there, and the next `take` returns it.
    pub fn peek(&mut self) -> Option<Order>
        ensures some { IfSome result (λ order. IsPrefix (order ∷ []) self.new.known) }
        ensures none { IfNone result (self.new ≡ self.old) }
        ensures same { self.new ≡ record self.old { known = self.new.known } }
        ensures known { IsPrefix self.old.known self.new.known }
        ensures succeeds { 0 < length self.old.known → IsSome result }
    {
        self.orders.peek().ok().copied()
    }

    /// An order that is known to be in the lane, and stays there.
    pub fn peek_known(&self) -> Order
        requires { 0 < length self.now.known }
        ensures { IsPrefix (result ∷ []) self.now.known }
    {
        *self.orders.peek_known()
    }

    /// Takes the next order that is found in the lane.
    pub fn take(&mut self) -> Option<Order>
        ensures some { IfSome result (λ order. (self.new
            ≡ record self.old { taken = self.old.taken ++ order ∷ []; known = self.new.known })
            × IsPrefix self.old.known (order ∷ self.new.known)) }
        ensures none { IfNone result (self.new ≡ self.old) }
        ensures succeeds { 0 < length self.old.known → IsSome result }
    {
        self.orders.pop().ok()
    }

    /// Takes the next order, which is known to be in the lane.
    pub fn take_known(&mut self) -> Order
        requires { 0 < length self.old.known }
        ensures taken { self.new
            ≡ record self.old { taken = self.old.taken ++ result ∷ []; known = self.new.known } }
        ensures known { self.old.known ≡ result ∷ self.new.known }
    {
        self.orders.pop_known()
    }

    /// How many orders are known to be in the lane.
    pub fn known(&self) -> usize
        ensures { result ≡ length self.now.known }
    {
        self.orders.cached_slots()
    }

    /// Puts a notice on the outlet, or returns it if no free slot is found.
    pub fn give(&mut self, notice: Notice) -> Result<(), Notice>
        ensures ok { OnOk result ((self.new
            ≡ record self.old { given = self.old.given ++ notice ∷ []; free = self.new.free })
            × (self.old.free ≤ self.new.free + 1)) }
        ensures err { IfErr result (λ back. (back ≡ notice) × (self.new ≡ self.old)) }
        ensures succeeds { 0 < self.old.free → IsOk result }
    {
        match self.notices.push(notice) {
            Ok(()) => {
                self.count = self.count.saturating_add(1);
                Ok(())
            }
            Err(PushError::Full(back)) => Err(back),
        }
    }

    /// How many notices were given.
    pub fn given(&self) -> u64
        ensures { length self.now.given < 2 ^ 64 → result ≡ length self.now.given }
    {
        self.count
    }

    /// Looks at both rings when the client and the hall end are in one thread. It then knows that everything sent was
    /// taken or is in the lane, and that everything given was collected or is on the outlet.
    pub fn beside(&mut self, client: &mut Client<A>)
        requires { client.old.lane ≡ self.old.lane }
        ensures orders { self.new.taken ++ self.new.known ≡ client.new.sent }
        ensures notices { client.new.collected ++ client.new.known ≡ self.new.given }
        ensures hall { self.new ≡ record self.old { free = self.new.free; known = self.new.known } }
        ensures client { client.new
            ≡ record client.old { free = client.new.free; known = client.new.known } }
    {
        client.beside(&mut self.orders, &mut self.notices);
    }
}
