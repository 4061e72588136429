//! What the clients leave at the end of a run.

ghost use Rattle.std.specs.Prelude.{◌≡◌, [], IfOk, map, replicate, vec_len};
ghost use Rattle.fleet_world.specs.inside.Leftovers.{HasRoomFor};

use crate::waiting::Waiting;
use fleet_book::{Notice, Order};
use std::alloc::{AllocError, Allocator};

/// By client, what is left in its lane and in its outlet.
#[derive(Drop)]
pub(crate) struct Leftovers<A: Allocator + Copy> {
    pub(crate) lanes: Vec<Vec<Order, A>, A>,
    pub(crate) outlets: Vec<Vec<Notice, A>, A>,
}

impl<A: Allocator + Copy> Leftovers<A> {
    /// Nothing yet, with room for this many clients, so that the end of a run takes no memory.
    pub(crate) fn with_room(alloc: A, clients: usize) -> Result<Leftovers<A>, AllocError>
        ensures { IfOk result (λ l. HasRoomFor l clients) }
    {
        let lanes = Vec::with_capacity(alloc, clients)?;
        let outlets = Vec::with_capacity(alloc, clients)?;
        Ok(Leftovers { lanes, outlets })
    }

    /// Moves the orders and notices that wait into the lists that were reserved for them.
    pub(crate) fn filled(self, waiting: Vec<Waiting<A>, A>) -> Leftovers<A>
        requires { HasRoomFor self (vec_len waiting) }
        ensures lanes { map (λ v. v.items) result.lanes.items ≡ map (λ w. w.lane) waiting.items }
        ensures outlets { map (λ v. v.items) result.outlets.items ≡ map (λ w. w.outlet) waiting.items }
    {
        let Leftovers {
            mut lanes,
            mut outlets,
        } = self;
        for client in waiting {
            let (lane, outlet) = client.leave();
            lanes.push_reserved(lane);
            outlets.push_reserved(outlet);
        }
        Leftovers { lanes, outlets }
    }
}

/// An empty list for each client.
pub(crate) fn none_collected<A: Allocator + Copy>(
    alloc: A,
    count: usize,
) -> Result<Vec<Vec<Notice, A>, A>, AllocError>
    ensures items { IfOk result (λ all. map (λ v. v.items) all.items ≡ replicate count []) }
    ensures len { IfOk result (λ all. vec_len all ≡ count) }
{
    let mut all = Vec::with_capacity(alloc, count)?;
    for _i in 0..count {
        all.push_reserved(Vec::new(alloc));
    }
    Ok(all)
}
