//! What the program prints of an event.

ghost use Rattle.std.specs.Prelude.{◌≡◌, ◌++◌, ◌∷◌, [], OnOk, IfOk, string_bytes, drop, codes, decimal, option_copied, Option, Some, None, slice_get, length, ◌≤◌};
ghost use Rattle.fleet_history.specs.declared.history.Entry.{Entry};
ghost use Rattle.fleet_text.specs.Output.{parting_text, event_text, run_text, entries_made, is_limit_met, notice_line, posted_line, shut_refused_line, tick_refused_line};

use crate::texts::{
    FarewellLine, NoticeText, ShutFaultText, TakeFaultText, TickFaultText, VerdictText,
};
use crate::ticks::write_tick;
use fleet_book::{Notice, Order};
use fleet_history::Entry;
use fleet_world::{Event, Reply, ShutFault, TakeFault, TickFault};
use std::alloc::{AllocError, Allocator};
use std::fmt::Write;

/// Whether a reply says that a limit of the chapter or of the clock was met.
pub fn is_limit_met(reply: Reply) -> bool
    ensures value { result ≡ is_limit_met reply }
{
    matches!(
        reply,
        Reply::TakeRefused(TakeFault::ChapterFull)
            | Reply::TickRefused(TickFault::ClockSpent)
            | Reply::TickRefused(TickFault::ChapterFull)
            | Reply::ShutRefused(ShutFault::ChapterFull)
    )
}

/// The line of the farewell of a robot that had no errand when it was shut; nothing if it had one.
fn write_parting<A: Allocator + Copy>(
    out: &mut String<A>,
    robot: u32,
    parting: Option<u32>,
) -> Result<(), AllocError>
    ensures { OnOk result (string_bytes out.new ≡ string_bytes out.old ++ parting_text robot parting) }
{
    match parting {
        Some(stamp) => {
            let line = FarewellLine { robot, stamp };
            write!(out, "{line}")
        }
        None => Ok(()),
    }
}

/// The line of a word and a number. The word ends with the blank between them.
pub(crate) fn write_numbered<A: Allocator + Copy>(
    out: &mut String<A>,
    word: &str,
    number: u32,
) -> Result<(), AllocError>
    ensures { OnOk result (string_bytes out.new ≡ string_bytes out.old ++ (word.now ++ decimal number ++ codes "\n")) }
{
    write!(out, "{word}{number}\n")
}

/// The line of an order that was posted.
pub(crate) fn write_posted<A: Allocator + Copy>(
    out: &mut String<A>,
    client: u32,
    number: u64,
) -> Result<(), AllocError>
    ensures { OnOk result (string_bytes out.new ≡ string_bytes out.old ++ posted_line client number) }
{
    write!(out, "posted {client} {number}\n")
}

/// The line of a post.
fn write_post<A: Allocator + Copy>(
    out: &mut String<A>,
    client: u32,
    order: Order,
    reply: Reply,
) -> Result<(), AllocError>
    ensures { OnOk result ((e : Option (Entry A)) → string_bytes out.new ≡ string_bytes out.old ++ event_text (Event.Post client order) reply e) }
{
    let _order = order;
    match reply {
        Reply::Posted(number) => write_posted(out, client, number),
        Reply::LaneFull => write_numbered(out, "lane-full ", client),
        Reply::NoClient => write_numbered(out, "no-client ", client),
        _ => Ok(()),
    }
}

/// The line of a take.
fn write_take<A: Allocator + Copy>(
    out: &mut String<A>,
    client: u32,
    reply: Reply,
) -> Result<(), AllocError>
    ensures { OnOk result ((e : Option (Entry A)) → string_bytes out.new ≡ string_bytes out.old ++ event_text (Event.Take client) reply e) }
{
    match reply {
        Reply::Took { order_no, verdict } => {
            let verdict = VerdictText(verdict);
            write!(out, "took {client} {order_no} {verdict}\n")
        }
        Reply::LaneEmpty => write_numbered(out, "lane-empty ", client),
        Reply::TakeRefused(fault) => {
            let fault = TakeFaultText(fault);
            write!(out, "take-refused {client} {fault}\n")
        }
        Reply::NoClient => write_numbered(out, "no-client ", client),
        _ => Ok(()),
    }
}

/// The line of a notice that is given.
fn write_give<A: Allocator + Copy>(
    out: &mut String<A>,
    client: u32,
    reply: Reply,
) -> Result<(), AllocError>
    ensures { OnOk result ((e : Option (Entry A)) → string_bytes out.new ≡ string_bytes out.old ++ event_text (Event.Give client) reply e) }
{
    match reply {
        Reply::Gave(seq) => write!(out, "gave {client} {seq}\n"),
        Reply::NothingPending => write_numbered(out, "nothing ", client),
        Reply::OutletFull => write_numbered(out, "outlet-full ", client),
        Reply::NoClient => write_numbered(out, "no-client ", client),
        _ => Ok(()),
    }
}

/// The line of a notice.
pub(crate) fn write_notice<A: Allocator + Copy>(
    out: &mut String<A>,
    client: u32,
    notice: Notice,
) -> Result<(), AllocError>
    ensures { OnOk result (string_bytes out.new ≡ string_bytes out.old ++ notice_line client notice) }
{
    let notice = NoticeText(notice);
    write!(out, "collected {client} {notice}\n")
}

/// The line of a notice that is collected.
fn write_collect<A: Allocator + Copy>(
    out: &mut String<A>,
    client: u32,
    reply: Reply,
) -> Result<(), AllocError>
    ensures { OnOk result ((e : Option (Entry A)) → string_bytes out.new ≡ string_bytes out.old ++ event_text (Event.Collect client) reply e) }
{
    match reply {
        Reply::Collected(notice) => write_notice(out, client, notice),
        Reply::NothingThere => write_numbered(out, "none ", client),
        Reply::NoClient => write_numbered(out, "no-client ", client),
        _ => Ok(()),
    }
}

/// The line of a shut that is refused.
pub(crate) fn write_shut_refused<A: Allocator + Copy>(
    out: &mut String<A>,
    robot: u32,
    fault: ShutFault,
) -> Result<(), AllocError>
    ensures { OnOk result (string_bytes out.new ≡ string_bytes out.old ++ shut_refused_line robot fault) }
{
    let fault = ShutFaultText(fault);
    write!(out, "shut-refused {robot} {fault}\n")
}

/// The lines of a shut.
fn write_shut<A: Allocator + Copy>(
    out: &mut String<A>,
    robot: u32,
    reply: Reply,
) -> Result<(), AllocError>
    ensures { OnOk result ((e : Option (Entry A)) → string_bytes out.new ≡ string_bytes out.old ++ event_text (Event.Shut robot) reply e) }
{
    match reply {
        Reply::ShutDone(parting) => {
            write_numbered(out, "shut ", robot)?;
            write_parting(out, robot, parting)
        }
        Reply::ShutRefused(fault) => write_shut_refused(out, robot, fault),
        _ => Ok(()),
    }
}

/// The line of a tick that is refused.
pub(crate) fn write_tick_refused<A: Allocator + Copy>(
    out: &mut String<A>,
    fault: TickFault,
) -> Result<(), AllocError>
    ensures { OnOk result (string_bytes out.new ≡ string_bytes out.old ++ tick_refused_line fault) }
{
    let fault = TickFaultText(fault);
    write!(out, "tick-refused {fault}\n")
}

/// The lines of all robots' step.
fn write_step<A: Allocator + Copy>(
    out: &mut String<A>,
    reply: Reply,
    entry: Option<&Entry<A>>,
) -> Result<(), AllocError>
    ensures { OnOk result (string_bytes out.new ≡ string_bytes out.old ++ event_text Event.Tick reply (option_copied entry.entry)) }
{
    match reply {
        Reply::Ticked(report) => write_tick(out, report.tick, entry),
        Reply::TickRefused(fault) => write_tick_refused(out, fault),
        _ => Ok(()),
    }
}

/// The lines of an event, by its reply and the entry that it made.
pub fn write_event<A: Allocator + Copy>(
    out: &mut String<A>,
    event: Event,
    reply: Reply,
    entry: Option<&Entry<A>>,
) -> Result<(), AllocError>
    ensures { OnOk result (string_bytes out.new ≡ string_bytes out.old ++ event_text event reply (option_copied entry.entry)) }
{
    match event {
        Event::Post(client, order) => write_post(out, client, order, reply),
        Event::Take(client) => write_take(out, client, reply),
        Event::Tick => write_step(out, reply, entry),
        Event::Give(client) => write_give(out, client, reply),
        Event::Collect(client) => write_collect(out, client, reply),
        Event::Shut(robot) => write_shut(out, robot, reply),
    }
}

/// How many entries an event made, by its reply.
pub(crate) fn made_by(reply: Reply) -> usize
    ensures { result ≡ entries_made reply }
{
    match reply {
        Reply::Took { .. } | Reply::Ticked(_) | Reply::ShutDone(_) => 1,
        _ => 0,
    }
}

/// The entries without the first, if the event with this reply made an entry.
pub(crate) fn entries_after<A: Allocator + Copy>(entries: &[Entry<A>], reply: Reply) -> &[Entry<A>]
    ensures { result.now ≡ drop (entries_made reply) entries.now }
{
    let made = made_by(reply);
    if made > entries.len() {
        return &[];
    }
    &entries[made..]
}
