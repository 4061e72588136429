//! A trace's text, which is written entry by entry: no more than one entry stands in memory as a JSON value.

ghost use Rattle.std.specs.Prelude.{◌≡◌, IfOk, OnOk, string_bytes};
ghost use Rattle.fleet_trace.specs.Trace.{trace_of};
ghost use Rattle.fleet_trace.specs.Text.{trace_text};
ghost use Rattle.fleet_trace.specs.Fits.{TraceFits};

mod entries;
mod opening;
mod texts;
mod values;

use fleet_history::Chapter;
pub(crate) use opening::opening_value;
use serde_json::Value;
use std::alloc::{AllocError, Allocator, Global};
use texts::push_items;
pub(crate) use texts::push_value;
pub(crate) use values::WriteValue;

/// The text of a chapter, in version 2 of the form of traces. The error is out of memory.
pub fn write_trace<A: Allocator + Copy>(
    alloc: Global,
    chapter: &Chapter<A>,
) -> Result<String, AllocError>
    ensures text { IfOk result (λ s. string_bytes s ≡ trace_text (trace_of chapter.now)) }
    ensures fits { OnOk result (TraceFits (trace_of chapter.now)) }
{
    let Chapter {
        number,
        opening,
        entries,
    } = chapter;
    let mut text = String::new(alloc);
    text.push_str("{\"chapter\":")?;
    push_value(alloc, &mut text, &Value::from(*number))?;
    text.push_str(",\"entries\":[")?;
    push_items(alloc, &mut text, entries.as_slice())?;
    text.push_str(",\"opening\":")?;
    let opening = opening_value(alloc, opening)?;
    push_value(alloc, &mut text, &opening)?;
    text.push_str(",\"version\":2}")?;
    Ok(text)
}
