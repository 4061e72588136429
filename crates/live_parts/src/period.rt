//! The time between two turns.

ghost use Rattle.std.specs.Prelude.{◌≡◌, ◌≤◌, ◌<◌, ◌+◌, ◌-◌, ◌%◌, ◌^◌, IfSome};
ghost use Rattle.std.specs.List.{position};
ghost use Rattle.live_parts.specs.Period.{is_letter, unit_named, timed, period_in};

use fleet_map::text::number_up_to;

/// The microseconds of an hour.
const HOUR: u64 = 3_600_000_000;

/// The place of the first byte that is no digit.
fn first_letter(word: &[u8]) -> Option<usize>
    ensures { result ≡ position is_letter word.now }
{
    word.iter().position(|byte| *byte < b'0' || b'9' < *byte)
}

/// How many microseconds a unit has.
fn unit_named(word: &[u8]) -> Option<u64>
    ensures value { result ≡ unit_named word.now }
    ensures bound { IfSome result (λ unit. unit ≤ 1000000) }
{
    if word == b"us".as_slice() {
        Some(1)
    } else if word == b"ms".as_slice() {
        Some(1_000)
    } else if word == b"s".as_slice() {
        Some(1_000_000)
    } else {
        None
    }
}

/// A number of units in microseconds, where that is from one to an hour.
fn timed(unit: u64, number: u64) -> Option<u32>
    requires { unit ≤ 1000000 }
    ensures { result ≡ timed unit number }
{
    if number > HOUR {
        return None;
    }
    let micros = number * unit;
    if micros > 0 && micros <= HOUR {
        Some(micros as u32)
    } else {
        None
    }
}

/// The time between two turns that a word says, in microseconds: a number and `us`, `ms` or `s`, from one microsecond
/// to an hour.
pub fn read_period(word: &[u8]) -> Option<u32>
    ensures { result ≡ period_in word.now }
{
    let at = first_letter(word)?;
    let unit = unit_named(&word[at..])?;
    let number = number_up_to(&word[..at], HOUR + 1)?;
    timed(unit, number)
}

/// The deadline after the one at `due`: the first that comes a whole number of periods after it and is later than
/// `now`. So a late turn does not delay the next one, and deadlines that have passed are left out.
pub fn next_due(due: u64, period: u64, now: u64) -> u64
    requires { (0 < period) × (period < 2 ^ 32) × (due < 2 ^ 62) × (now < 2 ^ 62) }
    ensures later { now < result }
    ensures soon { result ≤ due + (now - due) + period }
    ensures grid { (result - due) % period ≡ 0 }
    ensures next { due + period ≤ result }
{
    let missed = now.saturating_sub(due);
    due + (missed - missed % period) + period
}
