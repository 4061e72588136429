//! The chapter that a journal tells, after the program that wrote it was killed.

ghost use Rattle.std.specs.Prelude.{◌≡◌, ◌+◌, ◌-◌, ◌<◌, ◌≤◌, ◌∷◌, ◌↔◌, [], List, Ok, IsTrue, IfErr, IfOk, IfSome, OnOk, false, length, map, option_map, string_bytes, true};
ghost use Rattle.std.specs.List.{Contains, position};
ghost use Rattle.std.specs.declared.alloc.Global.{Global};
ghost use Rattle.fleet_grid.specs.Floor.{floor_of_map};
ghost use Rattle.fleet_history.specs.History.{history_of};
ghost use Rattle.fleet_history.specs.Legal.{IsLegal};
ghost use Rattle.fleet_map.specs.Grammar.{Map, map_of};
ghost use Rattle.fleet_trace.specs.Chapters.{TellChapters};
ghost use Rattle.fleet_trace.specs.Trace.{Trace};
ghost use Rattle.fleet_lib.specs.Kept.{kept_line};
ghost use Rattle.fleet_lib.specs.Recovered.{Follows, IsAstray, IsAstrayAfter, IsRecoverFault, IsRecovered, IsUnlawful, IsUnreadMap, is_zero, line_after, recover_text, unread, written};

use fleet_explain::{Explanation, explain_trace};
use fleet_grid::Grid;
use fleet_history::Chapter;
use fleet_journal::{Journal, JournalFault, read_journal};
use fleet_map::{MapFault, read_map};
use fleet_text::trace_line;
use fleet_trace::{ChaptersFault, JudgeFault, judge, read_chapters};
use std::alloc::{AllocError, Global};
use std::fmt;

/// The file of a journal: its name, the chapter's number by this name, and what is in it.
#[derive(Clone, Copy, Debug)]
pub struct JournalText<'a> {
    pub name: &'a str,
    pub number: u32,
    pub text: &'a [u8],
}

/// The chapter of a journal: its trace, how many lines of the journal tell it, and how many bytes after them were not
/// written whole.
#[derive(Drop)]
pub struct Recovered {
    pub trace: String,
    pub lines: u64,
    pub cut: usize,
}

/// Why no fleet goes on from a journal.
#[derive(Clone, Copy, Debug, PartialEq, Eq)]
pub enum RecoverFault {
    /// The map is none.
    Map,
    /// It has no whole line.
    Empty,
    /// Its first line is no opening.
    Opening,
    /// The line of this number, from 1, is no entry.
    Entry(u64),
    /// It is the journal of the chapter of this number, and its name has another.
    Number(u32),
    /// The line of this number, from 1, breaks a rule.
    Illegal(u64, Explanation),
    /// It does not begin with what is after the chapter before it.
    Astray,
    NoMemory,
}

impl From<AllocError> for RecoverFault {
    ghost use Rattle.std.specs.Prelude.{◌≡◌};
    ghost use Rattle.fleet_lib.specs.declared.recovering.RecoverFault.TheVariants.{NoMemory};

    ghost from_gives = { λ _ f. f ≡ NoMemory };

    fn from(_error: AllocError) -> RecoverFault {
        RecoverFault::NoMemory
    }
}

impl fmt::Display for RecoverFault {
    ghost use Rattle.std.specs.Prelude.{Some};
    ghost use Rattle.fleet_lib.specs.Recovered.{recover_text};

    ghost output = { λ f. Some (recover_text f) };

    fn fmt<W: fmt::Write>(&self, f: &mut fmt::Formatter<W>) -> fmt::Result {
        let words = match *self {
            RecoverFault::Map => "its map is none",
            RecoverFault::Empty => "it has no whole line",
            RecoverFault::Opening => "line 1: it is no opening",
            RecoverFault::Entry(line) => return write!(f, "line {line}: it is no entry"),
            RecoverFault::Number(number) => return write!(f, "line 1: it is chapter {number}"),
            RecoverFault::Illegal(line, explanation) => {
                return write!(f, "line {line}: {explanation}");
            }
            RecoverFault::Astray => {
                "line 1: it does not begin with what is after the chapter before it"
            }
            RecoverFault::NoMemory => "out of memory",
        };
        f.write_str(words)
    }
}

/// The place of the first byte zero.
fn first_zero(text: &[u8]) -> Option<usize>
    ensures place { result ≡ position is_zero text.now }
    ensures within { IfSome result (λ at. at < length text.now) }
{
    text.iter().position(|byte| *byte == 0)
}

/// The bytes that were written: no line has a zero byte, which a disk shows where a part of a write is missing.
fn written(text: &[u8]) -> &[u8]
    ensures { result.now ≡ written text.now }
{
    match first_zero(text) {
        Some(end) => &text[..end],
        None => text,
    }
}

/// Whether a journal has a whole line; one that has none tells nothing.
pub fn has_whole_line(text: &[u8]) -> bool
    ensures { IsTrue result ↔ Contains (written text.now) 10 }
{
    written(text).contains(&b'\n')
}

/// The map, with its cells.
fn grid_of(alloc: Global, map: &[u8]) -> Result<Grid, RecoverFault>
    ensures ok { IfOk result (λ grid. (floor : Map) × (map_of map.now ≡ Ok floor) × (grid ≡ floor_of_map floor)) }
    ensures fault { IfErr result (λ fault. IsUnreadMap map.now fault) }
{
    match read_map(alloc, map) {
        Ok(floor) => Ok(Grid::new(floor)?),
        Err(MapFault::NoMemory) => Err(RecoverFault::NoMemory),
        Err(_) => Err(RecoverFault::Map),
    }
}

/// What is said of a journal that cannot be read.
fn unread(fault: JournalFault) -> RecoverFault
    ensures { result ≡ unread fault }
{
    match fault {
        JournalFault::Empty => RecoverFault::Empty,
        JournalFault::Opening => RecoverFault::Opening,
        JournalFault::Entry(before) => RecoverFault::Entry((before as u64).saturating_add(2)),
        JournalFault::NoMemory => RecoverFault::NoMemory,
    }
}

/// Judges the chapter of a journal, whose trace this is.
fn judged(
    alloc: Global,
    map: &[u8],
    grid: &Grid,
    chapter: &Chapter,
    trace: &str,
) -> Result<(), RecoverFault>
    ensures ok { OnOk result (IsLegal grid.now (history_of chapter.now)) }
    ensures fault { IfErr result (λ fault. IsUnlawful map.now grid.now (history_of chapter.now) trace.now fault) }
{
    match judge(alloc, grid, chapter) {
        Ok(()) => Ok(()),
        Err(JudgeFault::Illegal { at, rule: _rule }) => {
            let explanation = explain_trace(alloc, map, trace.as_bytes())?;
            Err(RecoverFault::Illegal(at.saturating_add(1), explanation))
        }
        Err(JudgeFault::NoMemory) => Err(RecoverFault::NoMemory),
    }
}

/// The texts of two chapters.
fn both(alloc: Global, before: &[u8], trace: &str) -> Result<Vec<Vec<u8>>, AllocError>
    ensures { IfOk result (λ texts. map (λ text. text.items) texts.items ≡ before.now ∷ trace.now ∷ []) }
{
    let mut texts = Vec::new(alloc);
    texts.push(Vec::from_slice(alloc, before)?)?;
    texts.push(Vec::from_slice(alloc, trace.as_bytes())?)?;
    Ok(texts)
}

/// Whether the chapter of the second trace begins with what is after that of the first.
fn goes_on(alloc: Global, grid: &Grid, before: &[u8], trace: &str) -> Result<bool, AllocError>
    ensures yes { IfOk result (λ goes. goes ≡ true → (ts : List (Trace Global)) × TellChapters grid.now (before.now ∷ trace.now ∷ []) ts) }
    ensures no { IfOk result (λ goes. goes ≡ false → IsAstray grid.now before.now trace.now) }
{
    let texts = both(alloc, before, trace)?;
    match read_chapters(alloc, grid, &texts) {
        Ok(_) => Ok(true),
        Err(ChaptersFault::NoMemory) => Err(AllocError),
        Err(_) => Ok(false),
    }
}

/// Whether the chapter of a trace begins with what is after that of the trace before, if there is one.
fn follows(
    alloc: Global,
    grid: &Grid,
    before: Option<&[u8]>,
    trace: &str,
) -> Result<bool, AllocError>
    ensures yes { IfOk result (λ follows. follows ≡ true → Follows grid.now (option_map (λ b. b.now) before.entry) trace.now) }
    ensures no { IfOk result (λ follows. follows ≡ false → IsAstrayAfter grid.now (option_map (λ b. b.now) before.entry) trace.now) }
{
    match before {
        Some(before) => goes_on(alloc, grid, before, trace),
        None => Ok(true),
    }
}

/// How many lines tell a chapter.
fn lines_of(chapter: &Chapter) -> u64
    ensures { result ≡ line_after (length chapter.now.entries.items) 1 }
{
    (chapter.entries.len() as u64).saturating_add(1)
}

/// How many bytes tell nothing: those after the whole lines, and from the first zero on.
fn cut_of(text: &[u8], whole: &[u8], cut: usize) -> usize
    ensures { cut ≤ length whole.now → length whole.now ≤ length text.now → result ≡ cut + (length text.now - length whole.now) }
{
    cut.saturating_add(text.len().saturating_sub(whole.len()))
}

/// The chapter that a journal tells, if it is legal on the map and begins with what is after the one before, whose trace
/// is given if there is one.
pub fn recover_journal(
    alloc: Global,
    map: &[u8],
    before: Option<&[u8]>,
    journal: JournalText<'_>,
) -> Result<Recovered, RecoverFault>
    ensures ok { IfOk result (λ r. IsRecovered map.now (option_map (λ b. b.now) before.entry) journal.entry.text.now journal.entry.number r) }
    ensures fault { IfErr result (λ fault. IsRecoverFault map.now (option_map (λ b. b.now) before.entry) journal.entry.text.now journal.entry.number fault) }
{
    let grid = grid_of(alloc, map)?;
    let whole = written(journal.text);
    let Journal { chapter, cut } = match read_journal(alloc, whole) {
        Ok(read) => read,
        Err(fault) => return Err(unread(fault)),
    };
    if chapter.number != journal.number {
        return Err(RecoverFault::Number(chapter.number));
    }
    let trace = trace_line(alloc, &chapter)?;
    match judged(alloc, map, &grid, &chapter, trace.as_str()) {
        Ok(()) => {}
        Err(fault) => return Err(fault),
    }
    if !follows(alloc, &grid, before, trace.as_str())? {
        return Err(RecoverFault::Astray);
    }
    Ok(Recovered {
        trace,
        lines: lines_of(&chapter),
        cut: cut_of(journal.text, whole, cut),
    })
}

/// The line that says why no fleet goes on from the journal of this name.
pub fn recover_line(alloc: Global, name: &str, fault: RecoverFault) -> Result<String, AllocError>
    ensures { IfOk result (λ line. string_bytes line ≡ kept_line name.now (recover_text fault)) }
{
    match fault {
        RecoverFault::NoMemory => Err(AllocError),
        fault => format!(in alloc; "fleet: file {name}: {fault}\n"),
    }
}
