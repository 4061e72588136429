//! Making a client's rings.

ghost use Rattle.std.specs.Prelude.{◌≡◌, [], IfOk};
ghost use Rattle.fleet_book.specs.Limits.{AreValid};

use crate::client::Client;
use crate::hall_end::HallEnd;
use fleet_book::Limits;
use rtrb::RingBuffer;
use std::alloc::{AllocError, Allocator};

/// The client with this number and its hall end: the two ends of two new rings, with `lane` slots for orders and
/// `outlet` slots for notices. `AllocError` if memory runs out.
pub fn lane_pair<A: Allocator + Copy>(
    alloc: A,
    client: u32,
    limits: Limits,
) -> Result<(Client<A>, HallEnd<A>), AllocError>
    requires { AreValid limits }
    ensures client { IfOk result (λ ends. ends.0 ≡ record {
      number = client;
      lane = ends.0.lane;
      orders = limits.orders;
      sent = [];
      collected = [];
      free = limits.lane;
      known = [];
    }) }
    ensures hall { IfOk result (λ ends. ends.1 ≡ record {
      lane = ends.0.lane;
      taken = [];
      given = [];
      free = limits.outlet;
      known = [];
    }) }
{
    let (orders, hall_orders) = RingBuffer::new(alloc, limits.lane as usize)?;
    let (hall_notices, notices) = RingBuffer::new(alloc, limits.outlet as usize)?;
    Ok((
        Client::new(client, limits.orders, orders, notices),
        HallEnd::new(hall_orders, hall_notices),
    ))
}
