//! A client whose type ties it to its office, so that it may go through threads and be returned.

ghost use Rattle.std.specs.Prelude.{◌≡◌, ◌+◌, ◌<◌, ◌≤◌, ◌↔◌, ◌⊎◌, ◌++◌, ◌∷◌, [], true, length, Some, slice_get, Err, IfOk, IfErr, IfSome, IfNone, IsSome};
ghost use mathlib.Core.List.{IsPrefix};
ghost use Rattle.fleet_lanes.specs.Ends.{has_close};
ghost use Rattle.fleet_lanes.specs.Posts.{AreSpent, HandsBack};
ghost use Rattle.fleet_office.specs.Views.{AreOn, cores};

use crate::names::OfficeName;
use fleet_book::{Notice, Order};
use fleet_lanes::{Client, PostFault};
use std::alloc::{AllocError, Allocator, Global};
use std::marker::{Model, PhantomData};

/// A client of the office with this name; contracts see it as that client. Its type says that it is on the office's
/// rings, so that it may move to a thread and be returned to the office.
#[derive(Drop)]
pub struct Guest<N: OfficeName<A>, A: Allocator + Copy = Global> {
    client: Client<A>,
    of: PhantomData<N>,
}

impl<N: OfficeName<A>, A: Allocator + Copy> Model for Guest<N, A> {
    ghost use Rattle.std.specs.Prelude.{◌≡◌, Some, slice_get};
    ghost use Rattle.fleet_lanes.specs.Ends.{ClientView};

    ghost Value = { ClientView A };

    ghost view = { λ g. g.client };

    ghost invariant = { λ g. slice_get N.rings g.client.number ≡ Some g.client.lane };
}

impl<N: OfficeName<A>, A: Allocator + Copy> Guest<N, A> {
    /// The client, which is on its office's rings.
    pub fn new(client: Client<A>) -> Guest<N, A>
        requires { slice_get N.rings client.number ≡ Some client.lane }
        ensures { result ≡ client }
    {
        Guest {
            client,
            of: PhantomData,
        }
    }

    /// Sends an order, as the client does.
    pub fn post(&mut self, order: Order) -> Result<u64, PostFault>
        ensures ok { IfOk result (λ number. (number ≡ length self.old.sent + 1)
            × (self.new ≡ record self.old { sent = self.old.sent ++ order ∷ []; free = self.new.free })
            × (self.old.free ≤ self.new.free + 1)) }
        ensures closed { (result ≡ Err PostFault.Closed) ↔ (has_close self.old.sent ≡ true) }
        ensures spent { (result ≡ Err (PostFault.NumbersSpent order)) ↔ AreSpent self.old order }
        ensures full { result ≡ Err (PostFault.LaneFull order) → self.old.free ≡ 0 }
        ensures refused { IfErr result (λ fault. HandsBack order fault × (self.new ≡ self.old)) }
    {
        self.client.post(order)
    }

    /// Sends `Close`, the client's last order.
    pub fn close(&mut self) -> Result<u64, PostFault>
        ensures ok { IfOk result (λ number. (number ≡ length self.old.sent + 1)
            × (self.new ≡ record self.old { sent = self.old.sent ++ Order.Close ∷ []; free = self.new.free })
            × (self.old.free ≤ self.new.free + 1)) }
        ensures closed { (result ≡ Err PostFault.Closed) ↔ (has_close self.old.sent ≡ true) }
        ensures full { result ≡ Err (PostFault.LaneFull Order.Close) → self.old.free ≡ 0 }
        ensures refused { IfErr result (λ fault.
            ((fault ≡ PostFault.Closed) ⊎ (fault ≡ PostFault.LaneFull Order.Close)) × (self.new ≡ self.old)) }
    {
        self.client.close()
    }

    /// Removes the oldest notice from the outlet and returns it, if one is found.
    pub fn collect(&mut self) -> Option<Notice>
        ensures some { IfSome result (λ notice. (self.new
            ≡ record self.old { collected = self.old.collected ++ notice ∷ []; known = self.new.known })
            × IsPrefix self.old.known (notice ∷ self.new.known)) }
        ensures none { IfNone result (self.new ≡ self.old) }
        ensures succeeds { 0 < length self.old.known → IsSome result }
    {
        self.client.collect()
    }

    /// The client's number, from 0.
    pub fn number(&self) -> u32
        ensures { result ≡ self.now.number }
    {
        self.client.number()
    }

    /// How many orders were sent.
    pub fn sent(&self) -> u64
        ensures { result ≡ length self.now.sent }
    {
        self.client.sent()
    }

    /// Whether Close was sent.
    pub fn is_closed(&self) -> bool
        ensures { result ≡ has_close self.now.sent }
    {
        self.client.is_closed()
    }

    /// The client, which its office knows.
    pub fn into_client(self) -> Client<A>
        ensures same { result ≡ self }
        ensures on { slice_get N.rings result.number ≡ Some result.lane }
    {
        self.client
    }
}

/// The clients of an office as its guests, in the same order.
///
/// Out of memory, it hands the clients back as they were, so that the call can be made again.
pub fn guests_of<N: OfficeName<A>, A: Allocator + Copy>(
    alloc: A,
    clients: Vec<Client<A>, A>,
) -> Result<Vec<Guest<N, A>, A>, Vec<Client<A>, A>>
    requires on { AreOn N.rings (cores clients.items) }
    ensures all { IfOk result (λ guests. guests.items ≡ clients.items) }
    ensures back { IfErr result (λ back. back.items ≡ clients.items) }
    ensures on { IfErr result (λ back. AreOn N.rings (cores back.items)) }
{
    let mut guests = match Vec::with_capacity(alloc, clients.len()) {
        Ok(list) => list,
        Err(AllocError) => return Err(clients),
    };
    for client in clients {
        guests.push_reserved(Guest::new(client));
    }
    Ok(guests)
}

/// The clients of these guests, in the same order.
///
/// Out of memory, it hands the guests back as they were, so that the call can be made again.
pub fn clients_of<N: OfficeName<A>, A: Allocator + Copy>(
    alloc: A,
    guests: Vec<Guest<N, A>, A>,
) -> Result<Vec<Client<A>, A>, Vec<Guest<N, A>, A>>
    ensures on { IfOk result (λ clients. AreOn N.rings (cores clients.items)) }
    ensures all { IfOk result (λ clients. clients.items ≡ guests.items) }
    ensures back { IfErr result (λ back. back.items ≡ guests.items) }
{
    let mut clients = match Vec::with_capacity(alloc, guests.len()) {
        Ok(list) => list,
        Err(AllocError) => return Err(guests),
    };
    for guest in guests {
        clients.push_reserved(guest.into_client());
    }
    Ok(clients)
}
