//! The first part of a JSON text that is not in the form of a trace.

ghost use Rattle.std.specs.Prelude.{◌≡◌, ◌≢◌, Option, None, IfOk, MatchOption, is_some, map};
ghost use Rattle.std.specs.declared.alloc.Global.{Global};
ghost use Rattle.serde_json.specs.View.{view};
ghost use Rattle.fleet_trace.specs.Misformed.{IsFirstUntold, IsFormFault, IsMisformed, IsMisformedIn};
ghost use Rattle.fleet_trace.specs.Reads.{Gives, IsTraceFault, IsVersionKnown};
ghost use Rattle.fleet_trace.specs.Told.{all_in, entry_in, told_in, trace_in};
ghost use Rattle.fleet_trace.specs.Version.{version_number};

use super::opening::read_opening;
use super::parts::{ReadValue, count_of, has_members, values_of};
use super::version_of;
use crate::fault::TraceFault;
use crate::part::FormPart;
use crate::version::Version;
use fleet_history::Entry;
use serde_json::Value;
use std::alloc::{AllocError, Global};

/// Whether something was read. The error is out of memory.
fn is_told<T: Drop>(read: Result<T, TraceFault>) -> Result<bool, AllocError>
    ensures { (told : Option T) → Gives (λ x. x) read told → IfOk result (λ fine. fine ≡ is_some told) }
{
    match read {
        Ok(_) => Ok(true),
        Err(TraceFault::NoMemory) => Err(AllocError),
        Err(_) => Ok(false),
    }
}

/// The number, from 1, of the first value that tells no entry.
fn first_untold(
    alloc: Global,
    version: Version,
    values: &[Value],
) -> Result<Option<u64>, AllocError>
    ensures { IfOk result (λ first. MatchOption first (all_in (entry_in {A = Global} version) (map view values.now) ≢ None) (IsFirstUntold version (map view values.now))) }
{
    for at in 0..values.len() {
        if !is_told(Entry::read_value(alloc, version, &values[at]))? {
            return Ok(Some(at as u64 + 1));
        }
    }
    Ok(None)
}

/// The first part of a value that is not in the version's form.
fn part_in(alloc: Global, version: Version, value: &Value) -> Result<Option<FormPart>, AllocError>
    ensures { IfOk result (λ part. MatchOption part (told_in {A = Global} version (view value.now) ≢ None) (IsMisformedIn version (view value.now))) }
{
    if !has_members(value, 4) {
        return Ok(Some(FormPart::Members));
    }
    let (Some(chapter), Some(opening), Some(entries)) = (
        value.get("chapter"),
        value.get("opening"),
        value.get("entries"),
    ) else {
        return Ok(Some(FormPart::Members));
    };
    let Some(_) = count_of(chapter) else {
        return Ok(Some(FormPart::Chapter));
    };
    if !is_told(read_opening(alloc, version, opening))? {
        return Ok(Some(FormPart::Opening));
    }
    let Some(entries) = values_of(entries) else {
        return Ok(Some(FormPart::Entries));
    };
    match first_untold(alloc, version, entries)? {
        Some(number) => Ok(Some(FormPart::Entry(number))),
        None => Ok(None),
    }
}

/// The first part of a value that is not in the form of a trace.
fn part_of(alloc: Global, value: &Value) -> Result<Option<FormPart>, AllocError>
    ensures { IfOk result (λ part. MatchOption part
        (IsVersionKnown (version_number (view value.now)) → trace_in {A = Global} (view value.now) ≢ None) (IsMisformed (view value.now))) }
{
    match version_of(value) {
        Ok(version) => part_in(alloc, version, value),
        Err(TraceFault::Shape) => Ok(Some(FormPart::Value)),
        Err(_) => Ok(None),
    }
}

/// The first part of a JSON text, in the order of `FormPart`, that is not in the form of a trace; `None` if the bytes
/// are no JSON, name an unknown version, or tell a trace. So there is one exactly if `read_trace` returns
/// `TraceFault::Shape`. The error is out of memory.
pub fn form_fault(alloc: Global, bytes: &[u8]) -> Result<Option<FormPart>, AllocError>
    ensures { IfOk result (λ part. MatchOption part (IsTraceFault bytes.now TraceFault.Shape → ⊥) (IsFormFault bytes.now)) }
{
    match Value::from_slice(alloc, bytes) {
        Err(error) => {
            if error.is_memory() {
                Err(AllocError)
            } else {
                Ok(None)
            }
        }
        Ok(value) => part_of(alloc, &value),
    }
}
