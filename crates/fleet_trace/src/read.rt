//! A chapter from a trace.

mod entries;
mod form;
mod opening;
mod parts;

ghost use Rattle.std.specs.Prelude.{◌≡◌, ℕ, map, IfOk, IfErr, Option, Some, None};
ghost use Rattle.std.specs.declared.alloc.Global.{Global};
ghost use Rattle.serde_json.specs.View.{view};
ghost use Rattle.fleet_trace.specs.Trace.{Trace, trace_of};
ghost use Rattle.fleet_trace.specs.Version.{version_number};
ghost use Rattle.fleet_trace.specs.Told.{chapter_from, told_in};
ghost use Rattle.fleet_trace.specs.Reads.{Gives, IsTraceFault, IsVersionOf, Tells};

use crate::fault::TraceFault;
use crate::version::Version;
use fleet_history::Chapter;
pub use form::form_fault;
pub(crate) use opening::read_opening;
pub(crate) use parts::ReadValue;
use parts::{count_of, has_members, read_all, values_of};
use serde_json::Value;
use std::alloc::Global;

/// The version whose number the value has under `version`.
fn version_of(value: &Value) -> Result<Version, TraceFault>
    ensures { IsVersionOf (version_number (view value.now)) result }
{
    let Some(number) = value.get("version") else {
        return Err(TraceFault::Shape);
    };
    match number.as_u64() {
        Some(1) => Ok(Version::First),
        Some(2) => Ok(Version::Second),
        Some(_) => Err(TraceFault::Version),
        None => {
            if number.as_i64().is_some() {
                Err(TraceFault::Version)
            } else {
                Err(TraceFault::Shape)
            }
        }
    }
}

/// The chapter of this number that the values of its opening and its entries tell.
fn chapter_from(
    alloc: Global,
    version: Version,
    number: u32,
    opening: &Value,
    entries: &[Value],
) -> Result<Chapter, TraceFault>
    ensures { Gives trace_of result (chapter_from version number (view opening.now) (map view entries.now)) }
{
    let opening = read_opening(alloc, version, opening)?;
    let entries = read_all(alloc, version, entries)?;
    Ok(Chapter {
        number,
        opening,
        entries,
    })
}

/// The chapter that a value of the version's form tells.
fn chapter_of(alloc: Global, version: Version, value: &Value) -> Result<Chapter, TraceFault>
    ensures { Gives trace_of result (told_in version (view value.now)) }
{
    if !has_members(value, 4) {
        return Err(TraceFault::Shape);
    }
    let Some(number) = value.get("chapter").and_then(count_of) else {
        return Err(TraceFault::Shape);
    };
    let Some(opening) = value.get("opening") else {
        return Err(TraceFault::Shape);
    };
    let Some(entries) = value.get("entries").and_then(values_of) else {
        return Err(TraceFault::Shape);
    };
    chapter_from(alloc, version, number, opening, entries)
}

/// The chapter that a trace describes, in either version of the form. White space and the order of keys are free.
pub fn read_trace(alloc: Global, bytes: &[u8]) -> Result<Chapter, TraceFault>
    ensures found { IfOk result (λ chapter. Tells bytes.now (trace_of chapter)) }
    ensures fault { IfErr result (λ fault. IsTraceFault bytes.now fault) }
    ensures reads { (t : Trace Global) → Tells bytes.now t → IfErr result (λ fault. fault ≡ TraceFault.NoMemory) }
{
    match Value::from_slice(alloc, bytes) {
        Err(error) => {
            if error.is_memory() {
                Err(TraceFault::NoMemory)
            } else {
                Err(TraceFault::NotJson)
            }
        }
        Ok(value) => {
            let version = version_of(&value)?;
            chapter_of(alloc, version, &value)
        }
    }
}
