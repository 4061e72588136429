//! One order from a lane into the world.

ghost use Rattle.std.specs.Prelude.{◌≤◌, ◌^◌, ◌≡◌, ◌<◌, ◌+◌, ◌++◌, ◌∷◌, ◌↔◌, [], ℕ, length, IfOk, OnOk, OnErr, Err, MatchOption};
ghost use Rattle.fleet_history.specs.History.{clients, owed};
ghost use Rattle.fleet_core.specs.Core.{Takes, HasRoom, HasNoRoom, HasEntries, HasNoEntries};
ghost use Rattle.fleet_book.specs.declared.order.Order.{Order};
ghost use Rattle.fleet_office.specs.Hall.{TakesFrom, StaysBut, took};
ghost use Rattle.fleet_office.specs.Draining.{used, Widens, TakesNext};

use fleet_book::Verdict;
use fleet_core::{Core, TakeFault};
use fleet_lanes::HallEnd;
use std::alloc::{AllocError, Allocator};

/// One order out of the lane into the world. `None` if none is found.
pub(crate) fn take_from<A: Allocator + Copy>(
    core: &mut Core<A>,
    end: &mut HallEnd<A>,
    client: u32,
) -> Result<Option<Verdict>, TakeFault>
    requires { client < clients core.old.history }
    ensures ok { IfOk result (λ r. TakesFrom core.old end.old client r core.new end.new) }
    ensures mailbox_full { (result ≡ Err TakeFault.MailboxFull) ↔ ((0 < length end.new.known) × HasNoRoom core.old client) }
    ensures chapter_full { (result ≡ Err TakeFault.ChapterFull) ↔ ((0 < length end.new.known) × HasRoom core.old client × HasNoEntries core.old) }
    ensures err { OnErr result ((core.new ≡ core.old) × StaysBut end.old end.new) }
{
    let Some(order) = end.peek() else {
        return Ok(None);
    };
    let verdict = core.take(client, order)?;
    end.take_known();
    Ok(Some(verdict))
}

/// Reserves room in the client's mailbox for one more order; if there is none, for all orders that are left.
fn make_room<A: Allocator + Copy>(
    core: &mut Core<A>,
    client: u32,
    left: usize,
) -> Result<(), AllocError>
    requires client { client < clients core.old.history }
    requires there { client < length core.old.mailboxes }
    requires few { used core.old client ≤ 2 ^ 57 }
    requires some { 0 < left }
    ensures widens { Widens core.old client left core.new }
    ensures room { OnOk result (HasRoom core.new client) }
{
    let used = core.pending_count(client) as u64 + core.owed(client);
    let limit = core.room_of(client);
    if used + 2 <= limit {
        return Ok(());
    }
    let orders = if left < 1 << 56 { left as u64 } else { 1 << 56 };
    core.widen(client, used + 2 * orders - limit)
}

/// The next of the orders that are left in the lane, into a mailbox with room for it.
pub(crate) fn take_left_from<A: Allocator + Copy>(
    core: &mut Core<A>,
    end: &mut HallEnd<A>,
    client: u32,
    left: usize,
) -> Result<(), TakeFault>
    requires client { client < clients core.old.history }
    requires there { client < length core.old.mailboxes }
    requires few { used core.old client ≤ 2 ^ 57 }
    requires some { 0 < left }
    requires known { 0 < length end.old.known }
    ensures ok { OnOk result ((t : TakesNext core.old client left core.new) × (end.new ≡ took end.old t.order end.new.known)
        × (end.old.known ≡ t.order ∷ end.new.known)) }
    ensures full { result ≡ Err TakeFault.ChapterFull → HasNoEntries core.old }
    ensures err { OnErr result (Widens core.old client left core.new × (end.new ≡ end.old)) }
    ensures room { result ≡ Err TakeFault.MailboxFull → HasNoRoom core.new client × HasRoom core.new client }
{
    make_room(core, client, left)?;
    let order = end.peek_known();
    core.take(client, order)?;
    end.take_known();
    Ok(())
}
