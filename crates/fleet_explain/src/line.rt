//! What is wrong with a line of a script.

ghost use Rattle.std.specs.Prelude.{◌≡◌, ◌≤◌, ◌+◌, [], slice_index, slice_index_or, IfOk};
ghost use Rattle.std.specs.List.{list_any};
ghost use Rattle.fleet_map.specs.Text.{lines_of, words_of};
ghost use Rattle.fleet_explain.specs.Lines.{texts, letter_in, is_event_line, has_key, keyed_fault, line_fault, fault_at};

use crate::keyword::{Keyword, keyword_named};
use fleet_map::text::{first_line, first_word};
use fleet_script::{EventLine, event_line};
use std::alloc::{AllocError, Global};

/// What is wrong with the first line of a script that is not allowed where it is.
#[derive(Clone, Copy, Debug, PartialEq, Eq)]
pub enum LineFault {
    /// The text ends without a line `robots`.
    NoRobots,
    /// Its first word begins no kind of line.
    Unknown,
    /// It is a header line after an event line.
    Late,
    /// It is the second line of its kind.
    Twice,
    /// The words after the first are not those that it needs.
    Form(Keyword),
}

/// The lines of a text.
pub(crate) fn lines_of(alloc: Global, text: &[u8]) -> Result<Vec<&[u8]>, AllocError>
    ensures { IfOk result (λ lines. texts lines.items ≡ lines_of text.now) }
{
    let mut lines = Vec::new(alloc);
    let mut rest = text;
    while let Some((line, after)) = first_line(rest) {
        lines.push(line)?;
        rest = after;
    }
    Ok(lines)
}

/// Whether the line is an event line.
fn is_event_line(line: &[u8]) -> bool
    ensures { result ≡ is_event_line line.now }
{
    matches!(event_line(line), EventLine::Events(_))
}

/// Whether the line is no comment and begins with the word.
fn has_key(word: &[u8], line: &[u8]) -> bool
    ensures { result ≡ has_key word.now line.now }
{
    if !line.is_empty() && line[0] == b'#' {
        return false;
    }
    match first_word(line) {
        Some((first, _)) => first == word,
        None => false,
    }
}

/// Whether one of the lines is an event line.
fn has_event(lines: &[&[u8]]) -> bool
    ensures { result ≡ list_any is_event_line (texts lines.now) }
{
    for line in lines {
        if is_event_line(line) {
            return true;
        }
    }
    false
}

/// Whether one of the lines begins with the word.
fn has_line_of(lines: &[&[u8]], word: &[u8]) -> bool
    ensures { result ≡ list_any (has_key word.now) (texts lines.now) }
{
    for line in lines {
        if has_key(word, line) {
            return true;
        }
    }
    false
}

/// What is wrong with a line that begins with this word, after these lines.
fn keyed_fault(before: &[&[u8]], word: &[u8]) -> LineFault
    ensures { result ≡ keyed_fault (texts before.now) word.now }
{
    let Some(keyword) = keyword_named(word) else {
        return LineFault::Unknown;
    };
    if keyword.is_event() {
        LineFault::Form(keyword)
    } else if has_event(before) {
        LineFault::Late
    } else if has_line_of(before, word) {
        LineFault::Twice
    } else {
        LineFault::Form(keyword)
    }
}

/// What is wrong with a line after these.
fn line_fault(before: &[&[u8]], line: &[u8]) -> LineFault
    ensures { result ≡ line_fault (texts before.now) (words_of line.now) }
{
    match first_word(line) {
        Some((word, _)) => keyed_fault(before, word),
        None => LineFault::Unknown,
    }
}

/// The line in this place, from 0; no bytes where there is none.
pub(crate) fn line_at<'a>(lines: &[&'a [u8]], place: usize) -> &'a [u8]
    ensures { result.now ≡ slice_index_or (texts lines.now) place [] }
{
    match lines.get(place) {
        Some(line) => line,
        None => &[],
    }
}

/// What is wrong with the line of this number, from 1, among these.
pub(crate) fn fault_among(lines: &[&[u8]], number: u32) -> LineFault
    ensures { result ≡ fault_at (texts lines.now) number }
{
    let number = number as usize;
    if number < 1 || number > lines.len() {
        return LineFault::NoRobots;
    }
    line_fault(&lines[..number - 1], line_at(lines, number - 1))
}

/// The byte in a row and column of these lines of a map.
fn letter_among(lines: &[&[u8]], row: u32, column: u32) -> u8
    ensures { result ≡ letter_in (texts lines.now) row column }
{
    let (row, column) = (row as usize + 4, column as usize);
    if row >= lines.len() {
        return 0;
    }
    let line = lines[row];
    if column < line.len() { line[column] } else { 0 }
}

/// What is wrong with the line of this number, from 1, in a script that `read_script` refuses at it. The only error is
/// out of memory.
pub(crate) fn fault_at(alloc: Global, script: &[u8], number: u32) -> Result<LineFault, AllocError>
    ensures { IfOk result (λ fault. fault ≡ fault_at (lines_of script.now) number) }
{
    let lines = lines_of(alloc, script)?;
    Ok(fault_among(&lines, number))
}

/// The byte in a row and column of a map, whose rows begin with its fifth line; 0 where there is none. The only error
/// is out of memory.
pub(crate) fn letter_at(alloc: Global, map: &[u8], row: u32, column: u32) -> Result<u8, AllocError>
    ensures { IfOk result (λ letter. letter ≡ letter_in (lines_of map.now) row column) }
{
    let lines = lines_of(alloc, map)?;
    Ok(letter_among(&lines, row, column))
}
