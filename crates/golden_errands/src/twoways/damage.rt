//! Damages of a text.

use super::dice::Dice;
use fleet_map::text::number_up_to;
use std::alloc::{AllocError, Global};

/// A stretch of a text.
#[derive(Clone, Copy)]
pub(crate) struct Stretch {
    pub(crate) from: usize,
    pub(crate) to: usize,
}

/// The stretches of a text that are numbers.
pub(crate) fn numbers_in(alloc: Global, text: &[u8]) -> Result<Vec<Stretch>, AllocError> {
    let mut numbers = Vec::new(alloc);
    let mut begun = None;
    for (at, byte) in text.iter().enumerate() {
        match (byte.is_ascii_digit(), begun) {
            (true, None) => begun = Some(at),
            (false, Some(from)) => {
                numbers.push(Stretch { from, to: at })?;
                begun = None;
            }
            _ => {}
        }
    }
    Ok(numbers)
}

/// Another number in place of one.
fn other(dice: &mut Dice, number: u64) -> u64 {
    match dice.below(9) {
        0 | 1 => number.saturating_add(1),
        2 | 3 => number.saturating_sub(1),
        4 => dice.below(16),
        5 => 1 << 57,
        6 => 4_294_967_295,
        7 => 18_446_744_073_709_551_615,
        _ => 4_294_967_296,
    }
}

/// The text with other bytes in place of a stretch.
fn with_bytes(
    alloc: Global,
    text: &[u8],
    place: Stretch,
    bytes: &[u8],
) -> Result<Vec<u8>, AllocError> {
    let mut damaged = Vec::new(alloc);
    for (at, byte) in text.iter().enumerate() {
        if at == place.from {
            damaged.extend_from_slice(bytes)?;
        }
        if at < place.from || at >= place.to {
            damaged.push(*byte)?;
        }
    }
    Ok(damaged)
}

/// The text with another number in place of one.
pub(crate) fn with_other_number(
    alloc: Global,
    dice: &mut Dice,
    text: &[u8],
    place: Stretch,
) -> Result<Vec<u8>, AllocError> {
    let digits = text.get(place.from..place.to).unwrap_or(b"0");
    let number = number_up_to(digits, (1 << 60) - 1).unwrap_or(0);
    let number = format!(in alloc; "{}", other(dice, number))?;
    with_bytes(alloc, text, place, number.as_bytes())
}

/// Bytes that mean something in a trace.
const BYTES: &[u8] = b"0123456789[]{},:\"-. etaklu\\\x00\xff";

/// The text with some bytes gone, changed or put in, or with its end cut off.
pub(crate) fn with_other_bytes(
    alloc: Global,
    dice: &mut Dice,
    text: &[u8],
) -> Result<Vec<u8>, AllocError> {
    let from = dice.below(text.len() as u64) as usize;
    let byte = BYTES[dice.below(BYTES.len() as u64) as usize % BYTES.len()];
    let behind = match dice.below(5) {
        0 => from,
        1 | 2 => from.saturating_add(1),
        3 => from.saturating_add(dice.below(8) as usize),
        _ => text.len(),
    };
    let place = Stretch { from, to: behind };
    if dice.below(4) == 0 {
        return with_bytes(alloc, text, place, b"");
    }
    with_bytes(alloc, text, place, &[byte])
}
