//! What a line asks.

ghost use Rattle.std.specs.Prelude.{◌≡◌};
ghost use Rattle.std.specs.List.{position};
ghost use Rattle.std.specs.Option.{option_map};
ghost use Rattle.std.specs.Str.Lines.{strip_carriage_return};
ghost use Rattle.fleet_map.specs.Text.{is_blank, words_of};
ghost use Rattle.fleet_script.specs.Numbers.{most32, one_in};
ghost use Rattle.fleet_talk.specs.Act.{is_quit};
ghost use Rattle.fleet_talk.specs.Ask.{alone_asked, open_asked, word_asked, asked_in, asked_within, mark_in, told_in, line_in};
ghost use Rattle.fleet_talk.specs.Lines.{line_shown};

use crate::ground::MOST_LINE;
use fleet_map::text::{first_word, is_blank_byte};
use fleet_script::{EventLine, Repeat, event_line, one_small_number};

/// What a line asks for, without its mark.
#[derive(Clone, Copy)]
pub enum Asked {
    /// It is blank, or a comment.
    Nothing,
    Events(Repeat),
    Chapter,
    Look,
    /// A client's open errands.
    Open(u32),
    Quit,
    /// A header line, or no line of a conversation.
    Other,
    /// It is longer than a line may be.
    Long,
    /// A post of this client to a cell to which posts are refused.
    NoRoom(u32),
}

/// A line: its number, from 1; its mark; the text after the mark; and what this asks.
#[derive(Clone, Copy)]
pub struct Line<'a> {
    pub number: u64,
    pub mark: Option<&'a [u8]>,
    pub told: &'a [u8],
    pub asked: Asked,
}

/// The line without the carriage return at its end.
fn without_return(line: &[u8]) -> &[u8]
    ensures { result.now ≡ strip_carriage_return line.now }
{
    if !line.is_empty() && line[line.len() - 1] == b'\r' {
        return &line[..line.len() - 1];
    }
    line
}

/// The place of the first blank.
fn first_blank(line: &[u8]) -> Option<usize>
    ensures { result ≡ position is_blank line.now }
{
    line.iter().position(|byte| is_blank_byte(*byte))
}

/// The mark of a line, if it has one.
fn mark_of(line: &[u8]) -> Option<&[u8]>
    ensures { option_map (λ m. m.now) result ≡ mark_in line.now }
{
    if line.is_empty() || line[0] != b'@' {
        return None;
    }
    match first_blank(line) {
        Some(end) => Some(&line[..end]),
        None => Some(line),
    }
}

/// A line without its mark.
fn told_of(line: &[u8]) -> &[u8]
    ensures { result.now ≡ told_in line.now }
{
    if line.is_empty() || line[0] != b'@' {
        return line;
    }
    match first_blank(line) {
        Some(end) => &line[end + 1..],
        None => &[],
    }
}

/// What a line `open` asks, by its other words.
fn open_asked(words: &[u8]) -> Asked
    ensures { result ≡ open_asked (one_in most32 (words_of words.now)) }
{
    match one_small_number(words) {
        Some(client) => Asked::Open(client),
        None => Asked::Other,
    }
}

/// What one word asks.
fn alone_asked(word: &[u8]) -> Asked
    ensures { result ≡ alone_asked word.now }
{
    if word == b"chapter".as_slice() {
        Asked::Chapter
    } else if word == b"look".as_slice() {
        Asked::Look
    } else if word == b"quit".as_slice() {
        Asked::Quit
    } else {
        Asked::Other
    }
}

/// What a line asks that is no event line.
fn word_asked(line: &[u8]) -> Asked
    ensures { result ≡ word_asked (words_of line.now) }
{
    let Some((word, words)) = first_word(line) else {
        return Asked::Other;
    };
    if word == b"open".as_slice() {
        return open_asked(words);
    }
    match first_word(words) {
        Some(_) => Asked::Other,
        None => alone_asked(word),
    }
}

/// What a line asks that has no mark.
pub(crate) fn asked_in(line: &[u8]) -> Asked
    ensures { result ≡ asked_in line.now }
{
    match event_line(line) {
        EventLine::Nothing => Asked::Nothing,
        EventLine::Events(more) => Asked::Events(more),
        EventLine::Other => word_asked(line),
    }
}

/// What a line asks, by its first bytes and what follows its mark.
fn asked_of(bytes: &[u8], told: &[u8]) -> Asked
    ensures { result ≡ asked_within bytes.now told.now }
{
    if bytes.len() > MOST_LINE {
        Asked::Long
    } else {
        asked_in(told)
    }
}

/// The line with this number, from its first bytes. If the line is too long, these are one byte more than a line may
/// have.
pub fn line_of(number: u64, bytes: &[u8]) -> Line<'_>
    ensures { line_shown result ≡ line_in number bytes.now }
{
    let bare = without_return(bytes);
    let told = told_of(bare);
    Line {
        number,
        mark: mark_of(bare),
        told,
        asked: asked_of(bytes, told),
    }
}

/// Whether a line ends the conversation.
pub(crate) fn is_quit(asked: Asked) -> bool
    ensures { result ≡ is_quit asked }
{
    matches!(asked, Asked::Quit)
}
