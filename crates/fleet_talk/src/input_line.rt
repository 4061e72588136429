//! Reads one line, in bounded memory.

ghost use Rattle.std.specs.Prelude.{◌≡◌, ◌+◌, ◌≤◌, ◌<◌, ◌↔◌, ◌^◌, length, take, IsTrue, IfOk, OnOk, IfSome, vec_len};
ghost use Rattle.std.specs.Io.BufRead.{first_piece, DropsThrough};

use crate::line_part::read_part;
use std::alloc::{AllocError, Allocator};
use std::io::{BufRead, Error, ErrorKind};

/// Why no line was read.
#[derive(Clone, Copy, Debug, PartialEq, Eq)]
pub enum LineFault {
    /// A read failed.
    Read,
    NoMemory,
}

impl From<AllocError> for LineFault {
    ghost use Rattle.std.specs.Prelude.{◌≡◌};
    ghost use Rattle.fleet_talk.specs.declared.input_line.LineFault.TheVariants.{NoMemory};

    ghost from_gives = { λ _ e. e ≡ NoMemory };

    fn from(_error: AllocError) -> LineFault {
        LineFault::NoMemory
    }
}

/// The fault that an error of a reader means.
fn fault_of(error: &Error) -> LineFault {
    if error.kind() == ErrorKind::OutOfMemory {
        LineFault::NoMemory
    } else {
        LineFault::Read
    }
}

/// Reads the next line, up to its line feed or the end, and keeps its first `most` bytes without the line feed; the
/// other bytes are skipped. Returns whether there was a line.
///
/// If `line` has `most` bytes afterwards, the line may have been longer. Memory is taken only for what is kept. After a
/// fault `line` has some part of what was read, and the reader no longer has it.
pub fn read_line<R: BufRead, A: Allocator + Copy>(
    reader: &mut R,
    most: usize,
    line: &mut Vec<u8, A>,
) -> Result<bool, LineFault>
    // There was one, if anything was left.
    ensures found { IfOk result (λ found. IfSome (R.remaining reader.old) (λ xs. IsTrue found ↔ (0 < length xs))) }
    // What is kept is its beginning.
    ensures line { OnOk result (IfSome (R.remaining reader.old) (λ xs. line.new.items ≡ take most (first_piece 10 xs))) }
    // What is left is what follows it.
    ensures rest { OnOk result (DropsThrough (R.remaining reader.old) (R.remaining reader.new) 10) }
    ensures short { vec_len line.new ≤ most }
{
    line.clear();
    let mut found = false;
    for _ in 0..u64::MAX {
        let part = match read_part(reader, most, line) {
            Ok(part) => part,
            Err(error) => return Err(fault_of(&error)),
        };
        found |= part.len > 0;
        if part.is_last {
            return Ok(found);
        }
    }
    Err(LineFault::Read)
}
