//! Many orders at once.

ghost use Rattle.std.specs.Prelude.{◌≡◌, ◌≢◌, None, length};
ghost use Rattle.fleet_c.specs.Batches.{AreTaken, Requested, TakesMany};
ghost use Rattle.fleet_c.specs.Handles.{OnWhole};

use crate::codes::{BAD_ORDER, DONE, NOT_OPEN, WRONG_LENGTH};
use crate::fleet::Fleet;
use crate::handle::Handle;
use crate::judgement::Judgement;
use crate::orders::let_in;
use crate::request::Request;
use std::alloc::Global;

/// Takes one order.
fn take_one(fleet: &mut Fleet, request: &Request, judgement: &mut Judgement) -> u32
    ensures says { Requested fleet.old.refused.marks.items fleet.old.core request.now result judgement.new fleet.new.core }
    ensures stays { fleet.new.refused ≡ fleet.old.refused }
    ensures untouched { (result ≢ DONE) → judgement.new ≡ judgement.old }
    ensures same { (result ≢ DONE) → fleet.new.core ≡ fleet.old.core }
{
    match request.order() {
        Some(asked) => let_in(fleet, request.client, asked, judgement),
        None => BAD_ORDER,
    }
}

/// Takes the orders in turn, until one is refused.
fn take_all(
    fleet: &mut Fleet,
    requests: &[Request],
    judgements: &mut [Judgement],
    count: &mut usize,
) -> u32
    requires { length judgements.old ≡ length requests.now }
    ensures says { AreTaken fleet.old.refused.marks.items fleet.old.core requests.now judgements.old judgements.new result count.new fleet.new.core }
    ensures stays { fleet.new.refused ≡ fleet.old.refused }
{
    for at in 0..requests.len() {
        let mut judgement = judgements[at];
        let code = take_one(fleet, &requests[at], &mut judgement);
        if code != DONE {
            *count = at;
            return code;
        }
        judgements[at] = judgement;
    }
    *count = requests.len();
    DONE
}

/// The same, if there is a place for each judgement.
fn take_many(
    fleet: &mut Fleet,
    requests: &[Request],
    judgements: &mut [Judgement],
    count: &mut usize,
) -> u32
    ensures says { TakesMany fleet.old.refused.marks.items fleet.old.core requests.now result judgements.old judgements.new count.old count.new fleet.new.core }
    ensures stays { fleet.new.refused ≡ fleet.old.refused }
{
    if judgements.len() != requests.len() {
        return WRONG_LENGTH;
    }
    take_all(fleet, requests, judgements, count)
}

/// Takes orders one after the other, until one is refused; `count` of them were taken, and each of these has its
/// judgement. The places after them stay as they were.
///
/// Refused in this order: the handle is closed; the lists are not of one length; and then, by the order after those
/// that were taken, a kind that there is not, or as `nashirudder_go`.
#[unsafe(no_mangle)]
pub extern "C" fn nashirudder_take_many(
    alloc: Global,
    fleet: &mut Handle,
    orders: &[Request],
    judgements: &mut [Judgement],
    count: &mut usize,
) -> u32
    ensures says { OnWhole fleet.old.owned.held fleet.new.owned.held result (λ f n. TakesMany f.refused.marks.items f.core orders.now result judgements.old judgements.new count.old count.new n) }
    ensures closed { fleet.old.owned.held ≡ None → (count.new ≡ count.old) × (judgements.new ≡ judgements.old) }
{
    let Some(mut held) = fleet.take(alloc) else {
        return NOT_OPEN;
    };
    let code = take_many(&mut held, orders, judgements, count);
    fleet.put(held);
    code
}
