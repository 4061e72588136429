//! The lines of chapters that cannot be kept.

ghost use Rattle.std.specs.Prelude.{◌≡◌, IfOk, string_bytes};
ghost use Rattle.live_parts.specs.Said.{kept_line, unkept_line};

use std::alloc::{AllocError, Global};

/// The line for the chapter with this number that could not be kept: what its sink says of it, if that says something.
pub fn unkept_line(alloc: Global, number: u32, fault: &str) -> Result<String, AllocError>
    ensures { IfOk result (λ text. string_bytes text ≡ unkept_line number fault.now) }
{
    if fault.is_empty() {
        format!(in alloc; "fleet: file chapter-{number}.json cannot be written\n")
    } else {
        format!(in alloc; "fleet: file {fault}\n")
    }
}

/// The line for chapters that are kept again, of which this was the first that waited.
pub fn kept_line(alloc: Global, number: u32) -> Result<String, AllocError>
    ensures { IfOk result (λ text. string_bytes text ≡ kept_line number) }
{
    format!(in alloc; "fleet: file chapter-{number}.json is written, and those after it\n")
}
