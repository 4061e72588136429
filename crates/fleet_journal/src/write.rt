//! The lines of a journal, as they are written.

ghost use Rattle.std.specs.Prelude.{◌≡◌, ◌++◌, OnOk, string_bytes};
ghost use Rattle.std.specs.List.{AllByRecursion};
ghost use Rattle.fleet_trace.specs.Fits.{EntryFits, OpeningFits};
ghost use Rattle.fleet_journal.specs.Text.{entry_line, entry_lines, head_line};

use fleet_history::{Entry, Opening};
use fleet_trace::{push_entry, push_opening};
use std::alloc::{AllocError, Allocator, Global};
use std::fmt::Write;

/// Adds the first line of the journal of a chapter: its number and its opening. The error is out of memory; the text
/// has grown by some part of the line then.
pub fn push_head<A: Allocator + Copy>(
    alloc: Global,
    text: &mut String,
    number: u32,
    opening: &Opening<A>,
) -> Result<(), AllocError>
    ensures text { OnOk result (string_bytes text.new ≡ string_bytes text.old ++ head_line number opening.now) }
    ensures fits { OnOk result (OpeningFits opening.now) }
{
    text.push_str("{\"chapter\":")?;
    write!(text, "{number}")?;
    text.push_str(",\"opening\":")?;
    push_opening(alloc, text, opening)?;
    text.push_str(",\"version\":2}\n")
}

/// Adds the line of an entry.
fn push_line<A: Allocator + Copy>(
    alloc: Global,
    text: &mut String,
    entry: &Entry<A>,
) -> Result<(), AllocError>
    ensures text { OnOk result (string_bytes text.new ≡ string_bytes text.old ++ entry_line entry.now) }
    ensures fits { OnOk result (EntryFits entry.now) }
{
    push_entry(alloc, text, entry)?;
    text.push_str("\n")
}

/// Adds the lines of entries, in their order. The error is out of memory; the text has grown by some part of them then.
pub fn push_entries<A: Allocator + Copy>(
    alloc: Global,
    text: &mut String,
    entries: &[Entry<A>],
) -> Result<(), AllocError>
    ensures text { OnOk result (string_bytes text.new ≡ string_bytes text.old ++ entry_lines entries.now) }
    ensures fits { OnOk result (AllByRecursion EntryFits entries.now) }
{
    for entry in entries {
        push_line(alloc, text, entry)?;
    }
    Ok(())
}
