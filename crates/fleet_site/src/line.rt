//! A change, as users say it.

ghost use Rattle.std.specs.Prelude.{◌≡◌, ◌<◌, ◌^◌, ◌∷◌, []};
ghost use Rattle.fleet_map.specs.Text.{words_of};
ghost use Rattle.fleet_site.specs.Said.{cell_change, change_from, change_said, number_below, pair_change, robot_change};

use fleet_hooks::StampLaw;
use fleet_map::text::{first_word, number_up_to};
use fleet_refit::Change;

/// The number that a word of digits says, if it is below a bound.
fn number_below(word: &[u8], bound: u64) -> Option<u64>
    requires { bound < 2 ^ 60 }
    ensures { result ≡ number_below bound word.now }
{
    let number = number_up_to(word, bound)?;
    if number < bound { Some(number) } else { None }
}

/// A number of 32 bits.
fn count_in(word: &[u8]) -> Option<u32>
    ensures { result ≡ number_below (2 ^ 32) word.now }
{
    let number = number_below(word, 1 << 32)?;
    Some(number as u32)
}

/// A change of a cell: `block CELL`, `open CELL` or `join CELL`.
fn cell_change(verb: &[u8], cell: u32, laws: (StampLaw, StampLaw)) -> Option<Change>
    ensures { result ≡ cell_change laws verb.now cell }
{
    if verb == b"block".as_slice() {
        Some(Change::Block { cell })
    } else if verb == b"open".as_slice() {
        Some(Change::Open { cell })
    } else if verb == b"join".as_slice() {
        Some(Change::Join {
            cell,
            arrival_law: laws.0,
            farewell_law: laws.1,
        })
    } else {
        None
    }
}

/// A change of a robot: `leave R`, `hold R` or `free R`.
fn robot_change(verb: &[u8], robot: u32) -> Option<Change>
    ensures { result ≡ robot_change verb.now robot }
{
    if verb == b"leave".as_slice() {
        Some(Change::Leave { robot })
    } else if verb == b"hold".as_slice() {
        Some(Change::Hold { robot })
    } else if verb == b"free".as_slice() {
        Some(Change::Free { robot })
    } else {
        None
    }
}

/// A change that has one number.
fn single_change(verb: &[u8], word: &[u8], laws: (StampLaw, StampLaw)) -> Option<Change>
    ensures { result ≡ change_from laws (verb.now ∷ word.now ∷ []) }
{
    let number = count_in(word)?;
    match cell_change(verb, number, laws) {
        Some(change) => Some(change),
        None => robot_change(verb, number),
    }
}

/// A change that has two numbers: `move R CELL` or `cancel C K`.
fn pair_change(verb: &[u8], first: &[u8], second: &[u8]) -> Option<Change>
    ensures { result ≡ pair_change verb.now first.now second.now }
{
    let first = count_in(first)?;
    if verb == b"move".as_slice() {
        let cell = count_in(second)?;
        Some(Change::Move { robot: first, cell })
    } else if verb == b"cancel".as_slice() {
        let number = number_below(second, (1 << 60) - 1)?;
        Some(Change::Cancel {
            client: first,
            number,
        })
    } else {
        None
    }
}

/// The change that a line says: a word, and one number or two. A robot that joins gets these laws, of arrivals and of
/// farewells.
pub fn change_said(line: &[u8], laws: (StampLaw, StampLaw)) -> Option<Change>
    ensures { result ≡ change_said laws line.now }
{
    let (verb, rest) = first_word(line)?;
    let (first, rest) = first_word(rest)?;
    let Some((second, rest)) = first_word(rest) else {
        return single_change(verb, first, laws);
    };
    match first_word(rest) {
        None => pair_change(verb, first, second),
        Some(_) => None,
    }
}
