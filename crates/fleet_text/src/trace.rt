//! A chapter's trace as a text.

ghost use Rattle.std.specs.Prelude.{◌≡◌, ◌++◌, IfOk, codes, string_bytes};
ghost use Rattle.fleet_trace.specs.Trace.{trace_of};
ghost use Rattle.fleet_trace.specs.Text.{trace_text};

use fleet_history::Chapter;
use fleet_trace::write_trace;
use std::alloc::{AllocError, Global};

/// The trace of a chapter, and a line feed.
pub fn trace_line(alloc: Global, chapter: &Chapter) -> Result<String, AllocError>
    ensures { IfOk result (λ s. string_bytes s ≡ trace_text (trace_of chapter.now) ++ codes "\n") }
{
    let mut text = write_trace(alloc, chapter)?;
    text.push_str("\n")?;
    Ok(text)
}
