//! What a line tells.

ghost use Rattle.std.specs.Prelude.{◌≡◌, Option, option_and_then, IfOk, IfSome, IfNone};
ghost use Rattle.std.specs.declared.alloc.Global.{Global};
ghost use Rattle.serde_json.specs.Data.{Data};
ghost use Rattle.serde_json.specs.View.{view};
ghost use Rattle.fleet_history.specs.declared.history.Entry.{Entry};
ghost use Rattle.fleet_trace.specs.Reads.{Gives, IsJson};
ghost use Rattle.fleet_trace.specs.Told.{count_in};
ghost use Rattle.fleet_journal.specs.Journal.{Head, is_second, head_in, IsHeadLine, IsEntryLine};

use fleet_history::{Entry, Opening};
use fleet_trace::{TraceFault, entry_told, opening_told};
use serde_json::Value;
use std::alloc::{AllocError, Global};

/// The value that a line is the text of; none if it is the text of none.
fn value_in(alloc: Global, line: &[u8]) -> Result<Option<Value>, AllocError>
    ensures some { IfOk result (λ v. IfSome v (λ v. IsJson line.now (view v))) }
    ensures none { IfOk result (λ v. IfNone v ((d : Data) → IsJson line.now d → ⊥)) }
{
    match Value::from_slice(alloc, line) {
        Ok(value) => Ok(Some(value)),
        Err(error) => {
            if error.is_memory() {
                Err(AllocError)
            } else {
                Ok(None)
            }
        }
    }
}

/// What was read, or none if the value has another form.
fn told<T: Drop>(read: Result<T, TraceFault>) -> Result<Option<T>, AllocError>
    ensures { (o : Option T) → Gives (λ x. x) read o → IfOk result (λ t. t ≡ o) }
{
    match read {
        Ok(found) => Ok(Some(found)),
        Err(TraceFault::NoMemory) => Err(AllocError),
        Err(_) => Ok(None),
    }
}

/// The entry that a line tells; none if it tells none.
pub(crate) fn entry_in(alloc: Global, line: &[u8]) -> Result<Option<Entry>, AllocError>
    ensures some { IfOk result (λ e. IfSome e (λ e. IsEntryLine line.now e)) }
    ensures none { IfOk result (λ e. IfNone e ((e : Entry Global) → IsEntryLine line.now e → ⊥)) }
{
    let Some(value) = value_in(alloc, line)? else {
        return Ok(None);
    };
    told(entry_told(alloc, &value))
}

/// A number below 2^32.
fn count_of(value: &Value) -> Option<u32>
    ensures { result ≡ count_in (view value.now) }
{
    let number = value.as_u64()?;
    if number < 1 << 32 {
        Some(number as u32)
    } else {
        None
    }
}

fn is_second(version: Option<u32>) -> bool
    ensures { result ≡ is_second version }
{
    match version {
        None => false,
        Some(number) => number == 2,
    }
}

/// What a value opens, if it has the second version's number: the number of a chapter, and its opening.
fn head_told(alloc: Global, value: &Value) -> Result<(u32, Opening), TraceFault>
    ensures { Gives (λ h. h) result (head_in (view value.now)) }
{
    if !is_second(value.get("version").and_then(count_of)) {
        return Err(TraceFault::Shape);
    }
    let Some(number) = value.get("chapter").and_then(count_of) else {
        return Err(TraceFault::Shape);
    };
    let Some(opening) = value.get("opening") else {
        return Err(TraceFault::Shape);
    };
    let opening = opening_told(alloc, opening)?;
    Ok((number, opening))
}

/// What a first line opens; none if it opens nothing.
pub(crate) fn head_line_in(alloc: Global, line: &[u8]) -> Result<Option<(u32, Opening)>, AllocError>
    ensures some { IfOk result (λ h. IfSome h (λ h. IsHeadLine line.now h)) }
    ensures none { IfOk result (λ h. IfNone h ((h : Head Global) → IsHeadLine line.now h → ⊥)) }
{
    let Some(value) = value_in(alloc, line)? else {
        return Ok(None);
    };
    told(head_told(alloc, &value))
}
