//! Which client of an opening is not in order.

ghost use Rattle.std.specs.Prelude.{◌≡◌, ◌↔◌, ◌≤◌, ◌^◌, ◌==◌, ℕ, IsTrue, IfOk, MatchOption, count_by};
ghost use Rattle.fleet_history.specs.Legal.{IsClientInOrder, owed_at};
ghost use Rattle.fleet_trace.specs.inside.Clients.{AreClientsInOrder};
ghost use Rattle.fleet_trace.specs.inside.Opened.{owed_in, AreSizesInOrder};
ghost use Rattle.fleet_trace.specs.OutOfOrder.{IsFirstClient};

use super::names::are_names_in_order;
use crate::part::OpeningPart;
use fleet_history::{ClientState, Opening, RobotState};
use fleet_queue::Errand;
use std::alloc::{AllocError, Allocator};

/// How many of the errands are the client's.
fn count_of(errands: &[Errand], client: u32) -> u64
    ensures { result ≡ count_by (λ e. e.client == client) errands.now }
{
    let mut count = 0;
    for errand in errands {
        if errand.client == client {
            count += 1;
        }
    }
    count
}

/// How many errands of the robots are the client's.
fn owed_of<A: Allocator + Copy>(robots: &[RobotState<A>], client: u32) -> u64
    requires { owed_in robots.now client ≤ 2 ^ 41 }
    ensures { result ≡ owed_in robots.now client }
{
    let mut owed = 0;
    for robot in robots {
        owed += count_of(robot.errands.as_slice(), client);
    }
    owed
}

/// The greatest count that a client may have, so that the sum of two such counts fits its type.
const MOST: u64 = 1 << 57;

/// Whether what is known of a client with this many unfinished errands is in order.
fn is_client_in_order(life: u64, owed: u64, client: &ClientState) -> bool
    requires { owed ≤ 2 ^ 41 }
    ensures { IsTrue result ↔ IsClientInOrder life owed client.now }
{
    if client.taken > MOST || client.noticed > MOST {
        return false;
    }
    if client.accepted > client.taken || client.accepted > life {
        return false;
    }
    if client.closed && client.accepted == client.taken {
        return false;
    }
    client.taken <= client.noticed && client.noticed + owed <= client.taken + client.accepted
}

/// The first client that is not in order, or whose errands' names are not in order.
pub(crate) fn client_fault<A: Allocator + Copy>(
    alloc: A,
    opening: &Opening<A>,
) -> Result<Option<OpeningPart>, AllocError>
    requires sizes { AreSizesInOrder opening.now }
    requires owed { (c : ℕ) → owed_at opening.now c ≤ 2 ^ 41 }
    ensures { IfOk result (λ part. MatchOption part (AreClientsInOrder opening.now) (IsFirstClient opening.now)) }
{
    let (robots, clients) = (opening.robots.as_slice(), opening.clients.as_slice());
    for c in 0..clients.len() {
        let client = c as u32;
        if !is_client_in_order(opening.life, owed_of(robots, client), &clients[c]) {
            return Ok(Some(OpeningPart::Client(client)));
        }
        if !are_names_in_order(alloc, robots, client)? {
            return Ok(Some(OpeningPart::Names(client)));
        }
    }
    Ok(None)
}
