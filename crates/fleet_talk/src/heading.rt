//! The header lines of a conversation.

ghost use Rattle.std.specs.Prelude.{◌≡◌, ◌≤◌, ◌^◌, ◌<◌, true, false, List, [], length, None, OnOk, OnErr, IfOk, IfErr, IfSome, is_some};
ghost use Rattle.std.specs.Io.Buffered.{reader_buffer, reader_remaining};
ghost use Rattle.fleet_map.specs.Text.{lines_of, words_of};
ghost use Rattle.fleet_script.specs.Shown.{IsTaken};
ghost use Rattle.fleet_talk.specs.Due.{IsDone};
ghost use Rattle.fleet_talk.specs.Heard.{all_of, header_texts, opens, with_head_line, with_words};
ghost use Rattle.fleet_talk.specs.HeadFile.{IsHeadFault, SaysHead, with_file_line};
ghost use Rattle.fleet_talk.specs.Heading.{Follows, HearsAll, HearsUntil, IsOfHead, IsPartly, drafted, is_good, texts_at};
ghost use Rattle.fleet_talk.specs.Lines.{line_shown};
ghost use Rattle.fleet_talk.specs.Said.{IsAdded, IsKept};

use crate::ask::{Asked, Line, asked_in, is_quit, line_of};
use crate::ends::Ends;
use crate::fault::TalkFault;
use crate::ground::{MOST_LINE, MOST_ROBOTS};
use crate::pen::Pen;
use crate::reading::next_line;
use crate::writing::write_if_due;
use fleet_map::text::{first_line, first_word};
use fleet_script::{Head, ScriptFault};
use std::alloc::{AllocError, Global};
use std::io::{Read, Write};

/// What comes after a line of the head.
#[derive(Clone, Copy, PartialEq, Eq)]
pub(crate) enum After {
    /// Another line.
    More,
    /// The fleet, of which this line asks something.
    Opens,
    /// Nothing.
    Over,
}

/// Adds a header line, and returns whether it is one.
fn add_line(alloc: Global, head: &mut Head, line: &[u8]) -> Result<bool, AllocError>
    ensures { IfOk result (λ taken. IsTaken taken (with_words (drafted head.old) (words_of line.now)) (drafted head.old) (drafted head.new)) }
{
    match first_word(line) {
        Some((key, words)) => head.add_header(alloc, MOST_ROBOTS, key, words),
        None => Ok(true),
    }
}

/// Adds a line of the head, and returns whether it is allowed there.
fn hear_line(alloc: Global, head: &mut Head, line: Line<'_>) -> Result<bool, AllocError>
    ensures { IfOk result (λ taken. IsTaken taken (with_head_line (drafted head.old) (line_shown line.entry) line.entry.asked) (drafted head.old) (drafted head.new)) }
{
    match line.asked {
        Asked::Nothing => Ok(true),
        Asked::Other => add_line(alloc, head, line.told),
        Asked::Events(_)
        | Asked::Chapter
        | Asked::Look
        | Asked::Open(_)
        | Asked::Quit
        | Asked::Long
        | Asked::NoRoom(_) => Ok(false),
    }
}

/// Answers whether a line is allowed in the head, and marks it as answered.
fn say_header(alloc: Global, line: Line<'_>, is_good: bool, pen: &mut Pen) -> Result<(), AllocError>
    ensures ok { OnOk result (IsAdded pen.old pen.new (all_of (header_texts pen.old.settings (line_shown line.entry) is_good))) }
    ensures err { OnErr result (IsPartly pen.old pen.new (header_texts pen.old.settings (line_shown line.entry) is_good)) }
{
    if !is_good {
        pen.say_bad(alloc, line)?;
    }
    pen.say_end(alloc, line)
}

/// Whether a line asks something of the fleet, and the head said where its robots start.
fn opens_fleet(head: &Head, asked: Asked) -> bool
    ensures { result ≡ is_some (opens (drafted head.now) asked) }
{
    match asked {
        Asked::Events(_) | Asked::Chapter | Asked::Look | Asked::Open(_) => head.starts.is_some(),
        Asked::Nothing | Asked::Quit | Asked::Other | Asked::Long | Asked::NoRoom(_) => false,
    }
}

/// Answers a line before the fleet is opened.
fn answer_header(
    alloc: Global,
    head: &mut Head,
    line: Line<'_>,
    pen: &mut Pen,
) -> Result<After, AllocError>
    ensures ok { IfOk result (λ after. Follows (drafted head.old) (line_shown line.entry) after (drafted head.new) pen.old pen.new) }
    ensures head { OnErr result (IsOfHead (drafted head.old) (line_shown line.entry)) }
    ensures part { OnErr result (IsPartly pen.old pen.new (texts_at pen.old.settings (drafted head.old) (line_shown line.entry))) }
{
    if is_quit(line.asked) {
        return Ok(After::Over);
    }
    if opens_fleet(head, line.asked) {
        return Ok(After::Opens);
    }
    let is_good = hear_line(alloc, head, line)?;
    say_header(alloc, line, is_good, pen)?;
    Ok(After::More)
}

/// Reads the header lines, up to the first line that asks something of the fleet. Returns the number of that line;
/// `None` if the conversation is over.
pub(crate) fn hear_head<I: Read, W: Write, S>(
    alloc: Global,
    ends: &mut Ends<I, W, S>,
    head: &mut Head,
    bytes: &mut Vec<u8>,
    pen: &mut Pen,
) -> Result<Option<u64>, TalkFault>
    requires { IsDone (reader_buffer ends.old.input) pen.old.out.items }
    ensures all { IfOk result (λ at. IfSome (reader_remaining I.remaining ends.old.input) (λ xs.
        HearsAll pen.old.settings (drafted head.old) xs (reader_remaining I.remaining ends.new.input) (drafted head.new) bytes.new.items at
        (W.contents ends.old.output) (W.contents ends.new.output) pen.old.out.items pen.new.out.items)) }
    ensures broken { IfErr result (λ fault. IfSome (reader_remaining I.remaining ends.old.input) (λ xs.
        HearsUntil fault pen.old.settings (drafted head.old) xs (W.contents ends.old.output) (W.contents ends.new.output) pen.old.out.items pen.new.out.items)) }
    ensures settings { pen.new.settings ≡ pen.old.settings }
    ensures sink { ends.new.sink ≡ ends.old.sink }
{
    for number in 1..u64::MAX {
        if !next_line(&mut ends.input, pen, bytes)? {
            return Ok(None);
        }
        match answer_header(alloc, head, line_of(number, bytes), pen)? {
            After::More => write_if_due(ends, pen)?,
            After::Opens => return Ok(Some(number)),
            After::Over => return Ok(None),
        }
    }
    Err(TalkFault::Input)
}

/// Adds a line of a file, and returns whether it is allowed in a head.
fn add_file_line(alloc: Global, head: &mut Head, line: &[u8]) -> Result<bool, AllocError>
    ensures { IfOk result (λ taken. IsTaken taken (with_file_line (drafted head.old) line.now) (drafted head.old) (drafted head.new)) }
{
    if line.len() > MOST_LINE {
        return Ok(false);
    }
    match asked_in(line) {
        Asked::Nothing => Ok(true),
        Asked::Other => add_line(alloc, head, line),
        _ => Ok(false),
    }
}

/// The head that a file gives: header lines, blank lines and comments. The fault is the first line, counted from 1,
/// that is none of these or repeats a keyword.
pub fn read_head(alloc: Global, bytes: &[u8]) -> Result<Head, ScriptFault>
    requires { length bytes.now ≤ 16777216 }
    ensures head { IfOk result (λ head. SaysHead (lines_of bytes.now) (drafted head)) }
    ensures fault { IfErr result (IsHeadFault (lines_of bytes.now)) }
{
    let mut head = Head::new();
    let mut number = 1;
    let mut rest = bytes;
    while let Some((line, after)) = first_line(rest) {
        if !add_file_line(alloc, &mut head, line)? {
            return Err(ScriptFault::Line(number));
        }
        number += 1;
        rest = after;
    }
    Ok(head)
}
