//! The notices of clients.

ghost use Rattle.std.specs.Prelude.{◌≡◌, ◌≢◌, ◌<◌};
ghost use Rattle.fleet_history.specs.History.{clients};
ghost use Rattle.fleet_c.specs.Answers.{Gives, Widens};
ghost use Rattle.fleet_c.specs.Batches.{GivesMany, AreGiven};
ghost use Rattle.fleet_c.specs.Views.{Counts, Peeks};
ghost use Rattle.fleet_c.specs.Handles.{OfFleet, OnFleet};

use crate::codes::{DONE, NO_CLIENT, NO_MEMORY, NO_NOTICE, NOT_OPEN, TOO_WIDE};
use crate::handle::Handle;
use crate::note::Note;
use fleet_core::Core;
use std::alloc::Global;

/// How many notices and unfinished errands a mailbox may be widened to.
const MOST_ROOM: u64 = 1 << 60;

/// Takes out the client's first notice.
fn give(core: &mut Core, client: u32, note: &mut Note) -> u32
    ensures says { Gives core.old client result note.new core.new }
    ensures untouched { (result ≢ DONE) → note.new ≡ note.old }
{
    if client as usize >= core.clients() {
        return NO_CLIENT;
    }
    let Some(notice) = core.next_notice(client) else {
        return NO_NOTICE;
    };
    core.give(client);
    *note = Note::of(notice);
    DONE
}

/// Takes out notices of the client, from the first on, until the list is full or none is left. Returns how many.
fn give_all(core: &mut Core, client: u32, notes: &mut [Note]) -> usize
    requires { client < clients core.old.history }
    ensures { AreGiven core.old client notes.old notes.new result core.new }
{
    for at in 0..notes.len() {
        let Some(notice) = core.next_notice(client) else {
            return at;
        };
        core.give(client);
        notes[at] = Note::of(notice);
    }
    notes.len()
}

/// Takes out as many of the client's notices as the list has places for.
fn give_many(core: &mut Core, client: u32, notes: &mut [Note], count: &mut usize) -> u32
    ensures says { GivesMany core.old client result notes.old notes.new count.new core.new }
    ensures untouched { (result ≢ DONE) → count.new ≡ count.old }
    ensures unwritten { (result ≢ DONE) → notes.new ≡ notes.old }
{
    if client as usize >= core.clients() {
        return NO_CLIENT;
    }
    *count = give_all(core, client, notes);
    DONE
}

/// The client's first notice.
fn peek(core: &Core, client: u32, note: &mut Note) -> u32
    ensures says { Peeks core.now client result note.new }
    ensures untouched { (result ≢ DONE) → note.new ≡ note.old }
{
    if client as usize >= core.clients() {
        return NO_CLIENT;
    }
    let Some(notice) = core.next_notice(client) else {
        return NO_NOTICE;
    };
    *note = Note::of(notice);
    DONE
}

/// The number of notices in the client's mailbox.
fn pending_count(core: &Core, client: u32, count: &mut u64) -> u32
    ensures says { Counts core.now client result count.new }
    ensures untouched { (result ≢ DONE) → count.new ≡ count.old }
{
    if client as usize >= core.clients() {
        return NO_CLIENT;
    }
    *count = core.pending_count(client) as u64;
    DONE
}

/// Lets the client's mailbox hold more.
fn widen(core: &mut Core, client: u32, extra: u64) -> u32
    ensures { Widens core.old client extra result core.new }
{
    if client as usize >= core.clients() {
        return NO_CLIENT;
    }
    let room = core.room_of(client);
    if room > MOST_ROOM || extra > MOST_ROOM - room {
        return TOO_WIDE;
    }
    match core.widen(client, extra) {
        Ok(()) => DONE,
        Err(_) => NO_MEMORY,
    }
}

/// Gives a client its next notice, which leaves the mailbox.
///
/// Refused in this order: the handle is closed, there is no such client, all its notices were handed out.
#[unsafe(no_mangle)]
pub extern "C" fn nashirudder_give(
    alloc: Global,
    fleet: &mut Handle,
    client: u32,
    note: &mut Note,
) -> u32
    ensures says { OnFleet fleet.old.owned.held fleet.new.owned.held result (λ w n. Gives w client result note.new n) }
    ensures untouched { (result ≢ DONE) → note.new ≡ note.old }
{
    let Some(mut held) = fleet.take(alloc) else {
        return NOT_OPEN;
    };
    let code = give(&mut held.core, client, note);
    fleet.put(held);
    code
}

/// Gives a client its next notices, as many as the list has places for, and says how many these are. They leave the
/// mailbox. The places after them stay as they were.
///
/// Refused in this order: the handle is closed, there is no such client.
#[unsafe(no_mangle)]
pub extern "C" fn nashirudder_give_many(
    alloc: Global,
    fleet: &mut Handle,
    client: u32,
    notes: &mut [Note],
    count: &mut usize,
) -> u32
    ensures says { OnFleet fleet.old.owned.held fleet.new.owned.held result (λ w n. GivesMany w client result notes.old notes.new count.new n) }
    ensures untouched { (result ≢ DONE) → count.new ≡ count.old }
    ensures unwritten { (result ≢ DONE) → notes.new ≡ notes.old }
{
    let Some(mut held) = fleet.take(alloc) else {
        return NOT_OPEN;
    };
    let code = give_many(&mut held.core, client, notes, count);
    fleet.put(held);
    code
}

/// The client's next notice, which stays in the mailbox.
///
/// Refused in this order: the handle is closed, there is no such client, all its notices were handed out.
#[unsafe(no_mangle)]
pub extern "C" fn nashirudder_peek(
    alloc: Global,
    fleet: &mut Handle,
    client: u32,
    note: &mut Note,
) -> u32
    ensures says { OfFleet fleet.old.owned.held fleet.new.owned.held result (λ w. Peeks w client result note.new) }
    ensures untouched { (result ≢ DONE) → note.new ≡ note.old }
{
    let Some(held) = fleet.take(alloc) else {
        return NOT_OPEN;
    };
    let code = peek(&held.core, client, note);
    fleet.put(held);
    code
}

/// The number of notices in a client's mailbox.
///
/// Refused in this order: the handle is closed, there is no such client.
#[unsafe(no_mangle)]
pub extern "C" fn nashirudder_pending_count(
    alloc: Global,
    fleet: &mut Handle,
    client: u32,
    count: &mut u64,
) -> u32
    ensures says { OfFleet fleet.old.owned.held fleet.new.owned.held result (λ w. Counts w client result count.new) }
    ensures untouched { (result ≢ DONE) → count.new ≡ count.old }
{
    let Some(held) = fleet.take(alloc) else {
        return NOT_OPEN;
    };
    let code = pending_count(&held.core, client, count);
    fleet.put(held);
    code
}

/// Lets a client's mailbox hold this many more notices and unfinished errands.
///
/// Refused in this order: the handle is closed, there is no such client, the mailbox would have room for more than
/// 2^60, out of memory.
#[unsafe(no_mangle)]
pub extern "C" fn nashirudder_widen(
    alloc: Global,
    fleet: &mut Handle,
    client: u32,
    extra: u64,
) -> u32
    ensures { OnFleet fleet.old.owned.held fleet.new.owned.held result (λ w n. Widens w client extra result n) }
{
    let Some(mut held) = fleet.take(alloc) else {
        return NOT_OPEN;
    };
    let code = widen(&mut held.core, client, extra);
    fleet.put(held);
    code
}
