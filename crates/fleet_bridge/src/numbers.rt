//! Lists with a number for each cell.

ghost use Rattle.std.specs.Prelude.{◌≡◌, ℕ, ◌<◌, vec_len, slice_index, slice_set, IfOk};

use std::alloc::{AllocError, Allocator};

/// The number at a place, or 0 past the end.
pub(crate) fn read<A: Allocator + Copy>(list: &Vec<u32, A>, at: u32) -> u32
    ensures { result ≡ slice_index list.now.items at }
{
    if (at as usize) < list.len() {
        list[at as usize]
    } else {
        0
    }
}

/// Writes the number at a place, if there is one.
pub(crate) fn write<A: Allocator + Copy>(list: &mut Vec<u32, A>, at: u32, value: u32)
    ensures { list.new.items ≡ slice_set list.old.items at value }
{
    if (at as usize) < list.len() {
        list[at as usize] = value;
    }
}

/// Appends a number, if there is room.
pub(crate) fn append<A: Allocator + Copy>(list: &mut Vec<u32, A>, value: u32) {
    if list.len() < list.capacity() {
        list.push_reserved(value);
    }
}

/// Each place's own number.
pub(crate) fn own_numbers<A: Allocator + Copy>(
    alloc: A,
    count: u32,
) -> Result<Vec<u32, A>, AllocError>
    ensures size { IfOk result (λ own. vec_len own ≡ count) }
    ensures own { IfOk result (λ own. (k : ℕ) → k < count → slice_index own.items k ≡ k) }
{
    let mut own = Vec::with_capacity(alloc, count as usize)?;
    for cell in 0..count {
        own.push_reserved(cell);
    }
    Ok(own)
}
