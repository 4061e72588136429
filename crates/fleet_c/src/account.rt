//! What a client has, and had.

ghost use Rattle.std.specs.Prelude.{◌≡◌, ◌≢◌, ◌<◌};
ghost use Rattle.fleet_history.specs.History.{clients};
ghost use Rattle.fleet_c.specs.Handles.{OfFleet};
ghost use Rattle.fleet_c.specs.Views.{Accounts, account_of};

use crate::codes::{DONE, NO_CLIENT, NOT_OPEN};
use crate::handle::Handle;
use fleet_core::Core;
use std::alloc::Global;

/// What a client has, and had.
#[repr(C)]
#[derive(Clone, Copy)]
pub struct Account {
    /// The orders that were taken, in all chapters.
    pub taken: u64,
    /// The errands that are accepted, and neither done nor withdrawn.
    pub owed: u64,
    /// The notices that it was not given yet.
    pub pending: u64,
    /// The notices and unfinished errands that its mailbox can hold.
    pub room: u64,
}

/// The client's account.
fn account_of(core: &Core, client: u32) -> Account
    requires { client < clients core.now.history }
    ensures { result ≡ account_of core.now client }
{
    Account {
        taken: core.taken(client),
        owed: core.owed(client),
        pending: core.pending_count(client) as u64,
        room: core.room_of(client),
    }
}

/// The same, if there is such a client.
fn tell_account(core: &Core, client: u32, account: &mut Account) -> u32
    ensures says { Accounts core.now client result account.new }
    ensures untouched { (result ≢ DONE) → account.new ≡ account.old }
{
    if client as usize >= core.clients() {
        return NO_CLIENT;
    }
    *account = account_of(core, client);
    DONE
}

/// What a client has, and had: its orders, its open errands, its notices, and the room of its mailbox.
///
/// Refused in this order: the handle is closed, there is no such client.
#[unsafe(no_mangle)]
pub extern "C" fn nashirudder_account_of(
    alloc: Global,
    fleet: &mut Handle,
    client: u32,
    account: &mut Account,
) -> u32
    ensures says { OfFleet fleet.old.owned.held fleet.new.owned.held result (λ w. Accounts w client result account.new) }
    ensures untouched { (result ≢ DONE) → account.new ≡ account.old }
{
    let Some(held) = fleet.take(alloc) else {
        return NOT_OPEN;
    };
    let code = tell_account(&held.core, client, account);
    fleet.put(held);
    code
}
