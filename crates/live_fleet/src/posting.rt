//! Posts.

ghost use Rattle.std.specs.Prelude.{◌≡◌, ◌≤◌, ◌<◌, ◌+◌, ◌↔◌, false, List, Result, ℕ, IfOk, IsTrue, string_bytes};
ghost use Rattle.std.specs.Result.{is_ok};
ghost use Rattle.fleet_history.specs.History.{clients};
ghost use Rattle.fleet_lanes.specs.declared.fault.PostFault.{PostFault};
ghost use Rattle.fleet_text.specs.Answers.{post_text};
ghost use Rattle.fleet_world.specs.Keeps.{talk};
ghost use Rattle.live_fleet.specs.Act.{Act};
ghost use Rattle.live_fleet.specs.Posting.{IsPosted, is_close};

use crate::notes::Note;
use fleet_book::{Event, Order};
use fleet_lanes::PostFault;
use fleet_text::post_text;
use fleet_world::{Reply, Session};
use std::alloc::{Alloc, AllocError, Global};

/// Whether an order is the client's last.
fn is_close(order: Order) -> bool
    ensures { result ≡ is_close order }
{
    matches!(order, Order::Close)
}

/// Whether an order is refused since only the number that is kept for a close is left.
fn is_spent(order: Order, last: u64, orders: u64) -> bool
    ensures { IsTrue result ↔ ((is_close order ≡ false) × (orders ≤ last + 1)) }
{
    !is_close(order) && (orders <= last || orders - last <= 1)
}

/// Posts an order of a client. Refused in this order: the client posted a close, only the number that is kept for a
/// close is left, its lane is full.
fn post<R: Alloc<A = Global>>(
    rt: &R,
    session: &mut Session,
    note: &mut Note,
    client: u32,
    order: Order,
) -> Result<Result<u64, PostFault>, AllocError>
    requires number { 0 ≤ session.old.world.core.number }
    requires there { client < clients session.old.world.core.history }
    ensures { IfOk result (λ posted. (acts : List Act) × IsPosted client order posted note.old note.new (talk session.old) acts (talk session.new)) }
{
    if note.closed {
        return Ok(Err(PostFault::Closed));
    }
    let orders = session.world.core.limits().orders;
    if is_spent(order, note.last, orders) {
        return Ok(Err(PostFault::NumbersSpent(order)));
    }
    match session.step(rt, Event::Post(client, order))? {
        Reply::Posted(number) => {
            note.last = number;
            note.closed = is_close(order);
            Ok(Ok(number))
        }
        _ => Ok(Err(PostFault::LaneFull(order))),
    }
}

/// Posts an order of a client. Returns the answer, and whether the order waits to be judged.
pub(crate) fn post_answered<R: Alloc<A = Global>>(
    rt: &R,
    session: &mut Session,
    note: &mut Note,
    client: u32,
    order: Order,
) -> Result<(String, bool), AllocError>
    requires number { 0 ≤ session.old.world.core.number }
    requires there { client < clients session.old.world.core.history }
    ensures { IfOk result (λ answered. (posted : Result ℕ PostFault) × (acts : List Act) × IsPosted client order posted note.old note.new (talk session.old) acts (talk session.new)
        × (string_bytes answered.0 ≡ post_text client posted) × (answered.1 ≡ is_ok posted)) }
{
    let posted = post(rt, session, note, client, order)?;
    let text = post_text(rt.alloc(), client, posted)?;
    Ok((text, posted.is_ok()))
}
