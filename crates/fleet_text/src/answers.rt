//! The lines that answer a line of a conversation, or an order of a fleet in real time.

ghost use Rattle.std.specs.Prelude.{◌≡◌, ◌++◌, IfOk, OnOk, codes, decimal, string_bytes};
ghost use Rattle.std.specs.List.{flat_map};
ghost use Rattle.fleet_text.specs.Output.{no_client_line, notice_line, posted_line, shut_refused_line, tick_refused_line};
ghost use Rattle.fleet_text.specs.Answers.{bad_line, chapter_line, chapter_refused_line, ended_line, no_room_line, open_line, open_text, post_text, shut_text, watch_line};

use crate::runs::{
    write_notice, write_numbered, write_posted, write_shut_refused, write_tick_refused,
};
use fleet_book::Notice;
use fleet_core::{OpenErrand, ShutFault, TickFault};
use fleet_lanes::PostFault;
use std::alloc::{AllocError, Global};
use std::fmt::Write;

/// The line of a word and a number. The word ends with the blank between them.
fn numbered_line(alloc: Global, word: &str, number: u32) -> Result<String, AllocError>
    ensures { IfOk result (λ line. string_bytes line ≡ word.now ++ decimal number ++ codes "\n") }
{
    let mut line = String::new(alloc);
    write_numbered(&mut line, word, number)?;
    Ok(line)
}

/// The answer where a client is named that does not exist, or for whom the conversation does not speak.
pub fn no_client_line(alloc: Global, client: u32) -> Result<String, AllocError>
    ensures { IfOk result (λ line. string_bytes line ≡ no_client_line client) }
{
    numbered_line(alloc, "no-client ", client)
}

/// The answer to a line that cannot be understood, or is not allowed where it is. Lines count from 1.
pub fn bad_line(alloc: Global, number: u64) -> Result<String, AllocError>
    ensures { IfOk result (λ line. string_bytes line ≡ bad_line number) }
{
    format!(in alloc; "bad-line {number}\n")
}

/// The line of an order that was posted, with its number among the client's orders.
fn posted_line(alloc: Global, client: u32, number: u64) -> Result<String, AllocError>
    ensures { IfOk result (λ line. string_bytes line ≡ posted_line client number) }
{
    let mut line = String::new(alloc);
    write_posted(&mut line, client, number)?;
    Ok(line)
}

/// The answer to an order that a client posted.
pub fn post_text(
    alloc: Global,
    client: u32,
    posted: Result<u64, PostFault>,
) -> Result<String, AllocError>
    ensures { IfOk result (λ text. string_bytes text ≡ post_text client posted) }
{
    match posted {
        Ok(number) => posted_line(alloc, client, number),
        Err(PostFault::LaneFull(_)) => numbered_line(alloc, "lane-full ", client),
        Err(PostFault::Closed) => format!(in alloc; "post-refused {client} 1 closed\n"),
        Err(PostFault::NumbersSpent(_)) => {
            format!(in alloc; "post-refused {client} 2 numbers-spent\n")
        }
    }
}

/// The answer to a post to a cell that is not roomy, where such posts are refused.
pub fn no_room_line(alloc: Global, client: u32) -> Result<String, AllocError>
    ensures { IfOk result (λ line. string_bytes line ≡ no_room_line client) }
{
    format!(in alloc; "post-refused {client} 3 no-room\n")
}

/// The line of a shut that is refused.
fn shut_refused_line(alloc: Global, robot: u32, fault: ShutFault) -> Result<String, AllocError>
    ensures { IfOk result (λ line. string_bytes line ≡ shut_refused_line robot fault) }
{
    let mut line = String::new(alloc);
    write_shut_refused(&mut line, robot, fault)?;
    Ok(line)
}

/// The answer to a shut.
pub fn shut_text(
    alloc: Global,
    robot: u32,
    done: Result<Option<u32>, ShutFault>,
) -> Result<String, AllocError>
    ensures { IfOk result (λ text. string_bytes text ≡ shut_text robot done) }
{
    match done {
        Ok(None) => numbered_line(alloc, "shut ", robot),
        Ok(Some(stamp)) => format!(in alloc; "shut {robot} farewell {stamp}\n"),
        Err(fault) => shut_refused_line(alloc, robot, fault),
    }
}

/// The line of a tick that is refused.
pub fn tick_refused_line(alloc: Global, fault: TickFault) -> Result<String, AllocError>
    ensures { IfOk result (λ line. string_bytes line ≡ tick_refused_line fault) }
{
    let mut line = String::new(alloc);
    write_tick_refused(&mut line, fault)?;
    Ok(line)
}

/// The line of a notice that a client collected.
pub fn notice_line(alloc: Global, client: u32, notice: Notice) -> Result<String, AllocError>
    ensures { IfOk result (λ line. string_bytes line ≡ notice_line client notice) }
{
    let mut line = String::new(alloc);
    write_notice(&mut line, client, notice)?;
    Ok(line)
}

/// The line of a chapter that was handed out, with this many entries.
pub fn chapter_line(alloc: Global, number: u32, entries: usize) -> Result<String, AllocError>
    ensures { IfOk result (λ line. string_bytes line ≡ chapter_line number entries) }
{
    format!(in alloc; "chapter {number} entries {entries}\n")
}

/// The line that says that no chapter can follow.
pub fn chapter_refused_line() -> &'static str
    ensures { result.now ≡ chapter_refused_line }
{
    "chapter-refused 1 book-spent\n"
}

/// The answer to `watch on` and to `watch off`.
pub fn watch_line(on: bool) -> &'static str
    ensures { result.now ≡ watch_line on }
{
    if on { "watch on\n" } else { "watch off\n" }
}

/// The last line of a fleet in real time, which made this many ticks.
pub fn ended_line(alloc: Global, tick: u64) -> Result<String, AllocError>
    ensures { IfOk result (λ line. string_bytes line ≡ ended_line tick) }
{
    format!(in alloc; "ended {tick}\n")
}

/// Adds the line of an open errand.
fn write_errand(text: &mut String, client: u32, errand: OpenErrand) -> Result<(), AllocError>
    ensures { OnOk result (string_bytes text.new ≡ string_bytes text.old ++ open_line client errand) }
{
    let OpenErrand {
        number,
        robot,
        cell,
        place,
    } = errand;
    write!(
        text,
        "open {client} number {number} robot {robot} cell {cell} place {place}\n"
    )
}

/// Adds a line for each open errand.
fn write_errands(text: &mut String, client: u32, errands: &[OpenErrand]) -> Result<(), AllocError>
    ensures { OnOk result (string_bytes text.new ≡ string_bytes text.old ++ flat_map (open_line client) errands.now) }
{
    for errand in errands {
        write_errand(text, client, *errand)?;
    }
    Ok(())
}

/// The lines of a client's open errands: one for each, and one that says how many they are.
pub fn open_text(alloc: Global, client: u32, errands: &[OpenErrand]) -> Result<String, AllocError>
    ensures { IfOk result (λ text. string_bytes text ≡ open_text client errands.now) }
{
    let mut text = String::new(alloc);
    write_errands(&mut text, client, errands)?;
    let count = errands.len();
    write!(text, "open {client} end {count}\n")?;
    Ok(text)
}
