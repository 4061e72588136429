//! A journal, from its bytes.

ghost use Rattle.std.specs.Prelude.{◌≡◌, ◌+◌, length, IfOk, IfErr, OnOk};
ghost use Rattle.fleet_trace.specs.Trace.{trace_of};
ghost use Rattle.fleet_journal.specs.Lines.{whole_lines, bytes_of};
ghost use Rattle.fleet_journal.specs.Journal.{AreEntryLines, AreFaulty, IsJournal, IsJournalFault};

use crate::fault::JournalFault;
use crate::lines::first_whole_line;
use crate::told::{entry_in, head_line_in};
use fleet_history::{Chapter, Entry};
use std::alloc::Global;

/// A chapter, as far as its journal says.
#[derive(Drop)]
pub struct Journal {
    pub chapter: Chapter,
    /// How many bytes follow the last whole line: the beginning of a line that was cut.
    pub cut: usize,
}

/// The entries that the whole lines tell, and how many bytes follow them.
fn entries_in(alloc: Global, bytes: &[u8]) -> Result<(Vec<Entry>, usize), JournalFault>
    ensures told { IfOk result (λ r. AreEntryLines (whole_lines bytes.now) r.0.items) }
    ensures cut { IfOk result (λ r. length bytes.now ≡ length (bytes_of (whole_lines bytes.now)) + r.1) }
    ensures fault { IfErr result (λ fault. AreFaulty (whole_lines bytes.now) fault) }
{
    let mut entries = Vec::new(alloc);
    let mut rest = bytes;
    while let Some((line, after)) = first_whole_line(rest) {
        let Some(entry) = entry_in(alloc, line)? else {
            return Err(JournalFault::Entry(entries.len()));
        };
        entries.push(entry)?;
        rest = after;
    }
    Ok((entries, rest.len()))
}

/// The chapter that a journal describes: what its whole lines tell. What follows the last line feed tells nothing, since
/// it was not written whole.
///
/// Refused in this order: there is no whole line (`Empty`), the first line is no opening (`Opening`), a line is no entry
/// (`Entry`, with the number of entries before it). Out of memory may come at any point.
pub fn read_journal(alloc: Global, bytes: &[u8]) -> Result<Journal, JournalFault>
    ensures told { IfOk result (λ j. IsJournal bytes.now (trace_of j.chapter)) }
    ensures cut { IfOk result (λ j. length bytes.now ≡ length (bytes_of (whole_lines bytes.now)) + j.cut) }
    ensures fault { IfErr result (λ fault. IsJournalFault (whole_lines bytes.now) fault) }
{
    let Some((first, others)) = first_whole_line(bytes) else {
        return Err(JournalFault::Empty);
    };
    let Some((number, opening)) = head_line_in(alloc, first)? else {
        return Err(JournalFault::Opening);
    };
    match entries_in(alloc, others) {
        Ok((entries, cut)) => {
            let chapter = Chapter {
                number,
                opening,
                entries,
            };
            Ok(Journal { chapter, cut })
        }
        Err(fault) => Err(fault),
    }
}
