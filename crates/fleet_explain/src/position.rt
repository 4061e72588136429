//! Where a text stops being JSON.

ghost use Rattle.std.specs.Prelude.{◌≤◌, IfOk};

use serde_json::Value;
use std::alloc::{AllocError, Global};

/// A place in a text, both from 1: a line, and a byte of it.
#[derive(Clone, Copy, Debug, PartialEq, Eq)]
pub struct Position {
    pub line: u64,
    pub column: u64,
}

/// Where the reader of JSON stops in a text that is no JSON, by its own account; the first byte if it has none.
pub(crate) fn stop_of(alloc: Global, text: &[u8]) -> Result<Position, AllocError>
    ensures { IfOk result (λ position. (1 ≤ position.line) × (1 ≤ position.column)) }
{
    let (line, column) = match Value::from_slice(alloc, text) {
        Err(error) => {
            if error.is_memory() {
                return Err(AllocError);
            }
            (error.line(), error.column())
        }
        Ok(_value) => (1, 1),
    };
    Ok(Position {
        line: line.max(1) as u64,
        column: column.max(1) as u64,
    })
}
