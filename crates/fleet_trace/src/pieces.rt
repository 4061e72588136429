//! An opening and an entry alone, as they stand in the text of a trace.

ghost use Rattle.std.specs.Prelude.{◌≡◌, ◌++◌, OnOk, string_bytes};
ghost use Rattle.serde_json.specs.View.{view};
ghost use Rattle.serde_json.specs.Written.{compact_text};
ghost use Rattle.fleet_trace.specs.declared.version.Version.TheVariants.{Second};
ghost use Rattle.fleet_trace.specs.Fits.{EntryFits, OpeningFits};
ghost use Rattle.fleet_trace.specs.Reads.{Gives};
ghost use Rattle.fleet_trace.specs.Text.{entry_data, opening_data};
ghost use Rattle.fleet_trace.specs.Told.{entry_in, opening_in};

use crate::fault::TraceFault;
use crate::read::{ReadValue, read_opening};
use crate::version::Version;
use crate::write::{WriteValue, opening_value, push_value};
use fleet_history::{Entry, Opening};
use serde_json::Value;
use std::alloc::{AllocError, Allocator, Global};

/// Adds the text of an opening: one JSON value without a space or a line feed. The error is out of memory; the text has
/// grown by no part of it then.
pub fn push_opening<A: Allocator + Copy>(
    alloc: Global,
    text: &mut String,
    opening: &Opening<A>,
) -> Result<(), AllocError>
    ensures text { OnOk result (string_bytes text.new ≡ string_bytes text.old ++ compact_text (opening_data opening.now)) }
    ensures fits { OnOk result (OpeningFits opening.now) }
{
    let value = opening_value(alloc, opening)?;
    push_value(alloc, text, &value)
}

/// Adds the text of an entry, in version 2 of the form of traces: one JSON value without a space or a line feed. The
/// error is out of memory; the text has grown by no part of it then.
pub fn push_entry<A: Allocator + Copy>(
    alloc: Global,
    text: &mut String,
    entry: &Entry<A>,
) -> Result<(), AllocError>
    ensures text { OnOk result (string_bytes text.new ≡ string_bytes text.old ++ compact_text (entry_data entry.now)) }
    ensures fits { OnOk result (EntryFits entry.now) }
{
    let value = entry.write_value(alloc)?;
    push_value(alloc, text, &value)
}

/// The opening that a value tells. Refused: the value has another form (`Shape`), out of memory.
pub fn opening_told(alloc: Global, value: &Value) -> Result<Opening, TraceFault>
    ensures { Gives (λ x. x) result (opening_in (view value.now)) }
{
    read_opening(alloc, Version::Second, value)
}

/// The entry that a value tells, in version 2 of the form of traces. Refused: the value has another form (`Shape`), out
/// of memory.
pub fn entry_told(alloc: Global, value: &Value) -> Result<Entry, TraceFault>
    ensures { Gives (λ x. x) result (entry_in Second (view value.now)) }
{
    Entry::read_value(alloc, Version::Second, value)
}
