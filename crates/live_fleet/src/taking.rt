//! The orders that wait in lanes go into the world.

ghost use Rattle.std.specs.Prelude.{◌≡◌, ◌≤◌, ◌↔◌, IsTrue, List, OnOk, vec_len};
ghost use Rattle.fleet_world.specs.Keeps.{talk};
ghost use Rattle.live_fleet.specs.Act.{Act};
ghost use Rattle.live_fleet.specs.Taking.{HasNoOrder, Takes, TakesOne, is_took};
ghost use Rattle.live_fleet.specs.Went.{at_of};

use crate::open_fleet::OpenFleet;
use crate::outboxes::Outboxes;
use crate::stepping::step_on;
use fleet_book::Event;
use fleet_world::{Reply, Session};
use std::alloc::{Alloc, AllocError, Global};

/// Whether an order was taken.
pub(crate) fn is_took(reply: Reply) -> bool
    ensures { result ≡ is_took reply }
{
    matches!(reply, Reply::Took { .. })
}

/// Whether no order of a client waits.
fn has_no_order(session: &Session, client: u32) -> bool
    requires { 0 ≤ session.now.world.core.number }
    ensures { IsTrue result ↔ HasNoOrder (talk session.now) client }
{
    client as usize >= session.waiting.len() || session.waiting[client as usize].lane_len() == 0
}

/// Takes a client's orders that wait, at most this number. A client of whom none waits is passed over.
pub(crate) fn take_client<R: Alloc<A = Global>>(
    rt: &R,
    fleet: &mut OpenFleet,
    out: &mut Outboxes,
    most: u32,
    client: u32,
) -> Result<(), AllocError>
    requires { 0 ≤ fleet.old.session.world.core.number }
    ensures ok { OnOk result ((acts : List Act) × TakesOne most client (at_of fleet.old out.old) acts (at_of fleet.new out.new)) }
    ensures count { vec_len out.new.texts ≡ vec_len out.old.texts }
{
    if has_no_order(&fleet.session, client) {
        return Ok(());
    }
    for _ in 0..most {
        if !is_took(step_on(rt, fleet, out, Event::Take(client))?) {
            return Ok(());
        }
    }
    Ok(())
}

/// Takes the orders of each client, by number: at most as many of each as its lane has room for.
pub(crate) fn take_all<R: Alloc<A = Global>>(
    rt: &R,
    fleet: &mut OpenFleet,
    out: &mut Outboxes,
    clients: u32,
) -> Result<(), AllocError>
    requires { 0 ≤ fleet.old.session.world.core.number }
    ensures ok { OnOk result ((acts : List Act) × Takes clients (at_of fleet.old out.old) acts (at_of fleet.new out.new)) }
    ensures count { vec_len out.new.texts ≡ vec_len out.old.texts }
{
    let most = fleet.session.world.core.limits().lane;
    for client in 0..clients {
        take_client(rt, fleet, out, most, client)?;
    }
    Ok(())
}
