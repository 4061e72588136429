//! Lists, line by line.

ghost use Rattle.std.specs.Prelude.{◌≡◌, ◌≤◌, IfOk, string_bytes};
ghost use Rattle.fleet_text.specs.Answers.{open_end, open_line};
ghost use Rattle.fleet_talk.specs.Said.{under};
ghost use Rattle.live_fleet.specs.Hearing.{IsListing};
ghost use Rattle.live_fleet.specs.Resting.{line_listed, row_line};

use crate::answering::kept_mark;
use crate::rest::{Listing, Rest, Rows};
use crate::robots::next_robot;
use fleet_core::OpenErrand;
use fleet_world::Session;
use std::alloc::{AllocError, Global};

/// The line of an open errand.
fn errand_line(alloc: Global, client: u32, errand: OpenErrand) -> Result<String, AllocError>
    ensures { IfOk result (λ text. string_bytes text ≡ open_line client errand) }
{
    let OpenErrand {
        number,
        robot,
        cell,
        place,
    } = errand;
    format!(in alloc; "open {client} number {number} robot {robot} cell {cell} place {place}\n")
}

/// The last line of a list.
fn last_line(alloc: Global, client: u32, count: usize) -> Result<String, AllocError>
    ensures { IfOk result (λ text. string_bytes text ≡ open_end client count) }
{
    format!(in alloc; "open {client} end {count}\n")
}

/// The next line of a list of errands, of which this number of lines was said: an errand's, or how many they are.
fn next_errand(
    alloc: Global,
    client: u32,
    errands: &[OpenErrand],
    listed: usize,
) -> Result<String, AllocError>
    ensures { IfOk result (λ text. string_bytes text ≡ line_listed client errands.now listed) }
{
    match errands.get(listed) {
        Some(errand) => errand_line(alloc, client, *errand),
        None => last_line(alloc, client, errands.len()),
    }
}

/// The next line of a list, of which this number of lines was said.
pub(crate) fn next_listed(alloc: Global, rows: &Rows, listed: usize) -> Result<String, AllocError>
    ensures { IfOk result (λ text. string_bytes text ≡ row_line rows.now listed) }
{
    match rows {
        Rows::Errands { client, errands } => next_errand(alloc, *client, errands, listed),
        Rows::Robots(robots) => next_robot(alloc, robots, listed),
    }
}

/// The open errands of a client, before the first line.
pub(crate) fn begin_listing(
    alloc: Global,
    session: &Session,
    mark: Option<&[u8]>,
    client: u32,
) -> Result<Rest, AllocError>
    requires { 0 ≤ session.now.world.core.number }
    ensures { IfOk result (λ rest. IsListing (under mark.entry) client session.now.world.core.history rest) }
{
    let mark = kept_mark(alloc, mark)?;
    let errands = session.world.open_errands(alloc, client)?;
    Ok(Rest::Listing(Listing {
        mark,
        rows: Rows::Errands { client, errands },
        listed: 0,
    }))
}
