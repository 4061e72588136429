//! What a line says: one of the fleet, of the vehicles, or of who started both.

use crate::numbers::{after, small, wide, with_colon};
use fleet_map::text::first_word;
use live_vehicles::{Arrived, Heard, said_by};

/// What a line says.
#[derive(Clone, Copy)]
pub(crate) enum Line<'a> {
    /// The fleet's map has this number of cells.
    Hello(u32),
    /// The robots' cells after this tick, as words.
    Tick(u64, &'a [u8]),
    /// An errand is done, as the fleet has it.
    Arrived(Arrived),
    /// The vehicles stand on the cells of the last tick.
    Begin,
    /// The vehicles are asked where they stand.
    Resume,
    /// A line of the vehicles.
    Vehicle(Heard),
    /// Another line of the fleet.
    Passed,
}

/// How many cells the map of `hello` has.
fn hello_in(words: &[u8]) -> Option<u32> {
    let rest = after(words, b"version")?;
    let (_version, rest) = first_word(rest)?;
    let (_robots, rest) = small(after(rest, b"robots")?)?;
    let (_clients, rest) = small(after(rest, b"clients")?)?;
    let (width, rest) = small(after(rest, b"width")?)?;
    let (height, _rest) = small(after(rest, b"height")?)?;
    width.checked_mul(height)
}

/// The arrival of a line `collected C SEQ arrived K robot R ..`.
fn arrived_in(words: &[u8]) -> Option<Arrived> {
    let (client, rest) = small(words)?;
    let (seq, rest) = wide(rest)?;
    let (number, rest) = wide(after(rest, b"arrived")?)?;
    let (robot, _rest) = small(after(rest, b"robot")?)?;
    Some(Arrived {
        client,
        number,
        seq,
        robot,
    })
}

/// A line that may be one of the fleet's.
fn of_fleet<'a>(word: &[u8], words: &'a [u8]) -> Option<Line<'a>> {
    if word == b"tick".as_slice() {
        let (tick, cells) = with_colon(words)?;
        return Some(Line::Tick(tick, cells));
    }
    if word == b"collected".as_slice() {
        return match arrived_in(words) {
            Some(arrived) => Some(Line::Arrived(arrived)),
            None => Some(Line::Passed),
        };
    }
    if word == b"hello".as_slice() {
        return Some(Line::Hello(hello_in(words)?));
    }
    None
}

/// What a line says, of which these are the first bytes.
pub(crate) fn line_in(bytes: &[u8]) -> Line<'_> {
    let Some((word, words)) = first_word(bytes) else {
        return Line::Vehicle(Heard::Nothing);
    };
    if word == b"begin".as_slice() {
        return Line::Begin;
    }
    if word == b"resume".as_slice() {
        return Line::Resume;
    }
    match of_fleet(word, words) {
        Some(line) => line,
        None => Line::Vehicle(said_by(bytes)),
    }
}
