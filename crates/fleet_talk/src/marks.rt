//! Answers under their marks.

ghost use Rattle.std.specs.Prelude.{◌≡◌, ◌++◌, true, OnOk};
ghost use Rattle.fleet_talk.specs.Said.{under};
ghost use Rattle.fleet_talk.specs.Says.{opened, marked, marked_from};

use std::alloc::{AllocError, Allocator};

/// Adds a byte to the others, with the mark and a blank before it where a line begins.
fn add_byte<A: Allocator + Copy>(
    out: &mut Vec<u8, A>,
    mark: &[u8],
    begins: bool,
    byte: u8,
) -> Result<(), AllocError>
    ensures { OnOk result (out.new.items ≡ out.old.items ++ opened mark.now begins byte) }
{
    if begins {
        out.extend_from_slice(mark)?;
        out.push(b' ')?;
    }
    Ok(out.push(byte)?)
}

/// Adds the text to the others, with the mark and a blank before each of its lines.
pub(crate) fn add_lines<A: Allocator + Copy>(
    out: &mut Vec<u8, A>,
    mark: &[u8],
    text: &[u8],
) -> Result<(), AllocError>
    ensures { OnOk result (out.new.items ≡ out.old.items ++ marked_from mark.now true text.now) }
{
    let mut begins = true;
    for byte in text {
        add_byte(out, mark, begins, *byte)?;
        begins = *byte == b'\n';
    }
    Ok(())
}

/// Adds the text to the others, under its mark if it has one.
pub fn add_marked<A: Allocator + Copy>(
    out: &mut Vec<u8, A>,
    mark: Option<&[u8]>,
    text: &[u8],
) -> Result<(), AllocError>
    ensures { OnOk result (out.new.items ≡ out.old.items ++ marked (under mark.entry) text.now) }
{
    match mark {
        Some(mark) => add_lines(out, mark, text),
        None => out.extend_from_slice(text),
    }
}
