//! What clients order.

ghost use Rattle.std.specs.Prelude.{◌≡◌, ◌≢◌, Some};
ghost use Rattle.fleet_book.specs.declared.order.Order.TheVariants.{Go, Close, Withdraw};
ghost use Rattle.fleet_c.specs.Answers.{Orders};
ghost use Rattle.fleet_c.specs.Codes.{take_code};
ghost use Rattle.fleet_c.specs.Handles.{OnFleet, OnWhole};
ghost use Rattle.fleet_c.specs.Roomy.{KnowsRoom, LetsIn, Refuses, goes_to};

use crate::codes::{CHAPTER_FULL, DONE, MAILBOX_FULL, NO_CLIENT, NO_MEMORY, NO_ROOM, NOT_OPEN};
use crate::fleet::Fleet;
use crate::handle::Handle;
use crate::judgement::Judgement;
use fleet_book::{Order, Verdict};
use fleet_core::{Core, TakeFault};
use fleet_roomy::UnroomyCells;
use std::alloc::Global;

fn code_of(answer: &Result<Verdict, TakeFault>) -> u32
    ensures { result ≡ take_code answer.now }
{
    match answer {
        Ok(_) => DONE,
        Err(TakeFault::MailboxFull) => MAILBOX_FULL,
        Err(TakeFault::ChapterFull) => CHAPTER_FULL,
        Err(TakeFault::NoMemory) => NO_MEMORY,
    }
}

/// Takes the client's order.
pub(crate) fn order(core: &mut Core, client: u32, order: Order, judgement: &mut Judgement) -> u32
    ensures says { Orders core.old client order result judgement.new core.new }
    ensures untouched { (result ≢ DONE) → judgement.new ≡ judgement.old }
    ensures same { (result ≢ DONE) → core.new ≡ core.old }
{
    if client as usize >= core.clients() {
        return NO_CLIENT;
    }
    let answer = core.take(client, order);
    if let Ok(verdict) = answer {
        *judgement = Judgement::of(verdict);
    }
    code_of(&answer)
}

/// Whether the order is an errand to one of the cells.
fn goes_to(cells: &UnroomyCells, order: Order) -> bool
    ensures { result ≡ goes_to cells.now.marks.items order }
{
    match order {
        Order::Go { robot: _, cell } => cells.has(cell),
        Order::Close | Order::Withdraw { .. } => false,
    }
}

/// Takes the client's order, but no errand to a cell that the fleet refuses.
pub(crate) fn let_in(fleet: &mut Fleet, client: u32, asked: Order, judgement: &mut Judgement) -> u32
    ensures says { LetsIn fleet.old.refused.marks.items fleet.old.core client asked result judgement.new fleet.new.core }
    ensures stays { fleet.new.refused ≡ fleet.old.refused }
    ensures untouched { (result ≢ DONE) → judgement.new ≡ judgement.old }
    ensures same { (result ≢ DONE) → fleet.new.core ≡ fleet.old.core }
{
    if client as usize >= fleet.core.clients() {
        return NO_CLIENT;
    }
    if goes_to(&fleet.refused, asked) {
        return NO_ROOM;
    }
    order(&mut fleet.core, client, asked, judgement)
}

/// A client orders a robot to a cell.
///
/// Refused in this order: the handle is closed, there is no such client, the cell is not roomy (of a fleet that was
/// opened so), its mailbox has no room, the chapter is full, out of memory. If the call is not refused, the order is
/// judged: see the verdicts.
#[unsafe(no_mangle)]
pub extern "C" fn nashirudder_go(
    alloc: Global,
    fleet: &mut Handle,
    client: u32,
    robot: u32,
    cell: u32,
    judgement: &mut Judgement,
) -> u32
    ensures says { OnWhole fleet.old.owned.held fleet.new.owned.held result (λ f n. LetsIn f.refused.marks.items f.core client (Go robot cell) result judgement.new n) }
    ensures roomy { KnowsRoom fleet.old.owned.held client cell result }
    ensures untouched { (result ≢ DONE) → judgement.new ≡ judgement.old }
{
    let Some(mut held) = fleet.take(alloc) else {
        return NOT_OPEN;
    };
    let code = let_in(&mut held, client, Order::Go { robot, cell }, judgement);
    fleet.put(held);
    code
}

/// A client's last order: it is closed from then on. Refused as `nashirudder_go`.
#[unsafe(no_mangle)]
pub extern "C" fn nashirudder_close_client(
    alloc: Global,
    fleet: &mut Handle,
    client: u32,
    judgement: &mut Judgement,
) -> u32
    ensures says { OnFleet fleet.old.owned.held fleet.new.owned.held result (λ w n. Orders w client Close result judgement.new n) }
    ensures untouched { (result ≢ DONE) → judgement.new ≡ judgement.old }
{
    let Some(mut held) = fleet.take(alloc) else {
        return NOT_OPEN;
    };
    let code = order(&mut held.core, client, Order::Close, judgement);
    fleet.put(held);
    code
}

/// A client gives up its unfinished errand of that number. Refused as `nashirudder_go`.
#[unsafe(no_mangle)]
pub extern "C" fn nashirudder_withdraw(
    alloc: Global,
    fleet: &mut Handle,
    client: u32,
    number: u64,
    judgement: &mut Judgement,
) -> u32
    ensures says { OnFleet fleet.old.owned.held fleet.new.owned.held result (λ w n. Orders w client (Withdraw number) result judgement.new n) }
    ensures untouched { (result ≢ DONE) → judgement.new ≡ judgement.old }
{
    let Some(mut held) = fleet.take(alloc) else {
        return NOT_OPEN;
    };
    let code = order(
        &mut held.core,
        client,
        Order::Withdraw { number },
        judgement,
    );
    fleet.put(held);
    code
}
