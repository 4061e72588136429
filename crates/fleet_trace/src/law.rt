//! What holds of traces and their texts.

ghost use Rattle.std.specs.Prelude.{◌≡◌, IfOk, IfErr, Some, option_and_then};
ghost use Rattle.std.specs.declared.alloc.Global.{Global};
ghost use Rattle.serde_json.specs.Read.{read};
ghost use Rattle.fleet_trace.specs.Trace.{Trace, trace_of};
ghost use Rattle.fleet_trace.specs.Text.{trace_text};
ghost use Rattle.fleet_trace.specs.Fits.{TraceFits};
ghost use Rattle.fleet_trace.specs.Told.{trace_in};

use crate::fault::TraceFault;
use crate::read::read_trace;
use crate::write::write_trace;
use fleet_history::Chapter;
use std::alloc::Global;

/// The text of a trace reads as that trace, if each number fits its type.
pub fn trace_reads_back()
    ensures { (t : Trace Global) → TraceFits t → option_and_then trace_in (read (trace_text t)) ≡ Some t }
{}

/// Writes a chapter as text and reads it back: the result is the same chapter. The only error is out of memory.
pub fn write_and_read(alloc: Global, chapter: &Chapter) -> Result<Chapter, TraceFault>
    ensures same { IfOk result (λ again. trace_of again ≡ trace_of chapter.now) }
    ensures fault { IfErr result (λ fault. fault ≡ TraceFault.NoMemory) }
{
    let text = write_trace(alloc, chapter)?;
    read_trace(alloc, text.as_str().as_bytes())
}
