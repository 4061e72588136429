//! Entries from JSON values.

ghost use Rattle.std.specs.Prelude.{◌≡◌, [], ◌∷◌, map, option_and_then};
ghost use Rattle.serde_json.specs.View.{view};
ghost use Rattle.fleet_trace.specs.Reads.{Gives};
ghost use Rattle.fleet_trace.specs.Version.{has_withdrawal};
ghost use Rattle.fleet_trace.specs.Told.{count_in, close_in, withdraw_in, go_in, order_in, refusal_in, verdict_from, verdict_in, shut_in, take_in, tick_in, entry_from, entry_in};

use super::parts::{ReadValue, count_of, found, read_row, says, values_of};
use crate::fault::TraceFault;
use crate::version::Version;
use fleet_book::{Order, Verdict};
use fleet_history::Entry;
use serde_json::Value;
use std::alloc::Global;

/// Whether errands may be withdrawn in the version.
fn has_withdrawal(version: Version) -> bool
    ensures { result ≡ has_withdrawal version }
{
    match version {
        Version::First => false,
        Version::Second => true,
    }
}

fn order_of(version: Version, value: &Value) -> Option<Order>
    ensures { result ≡ order_in version (view value.now) }
{
    match values_of(value) {
        Some([word]) => close_of(word),
        Some([word, number]) => withdraw_of(version, word, number),
        Some([word, robot, cell]) => go_of(word, robot, cell),
        _ => None,
    }
}

fn close_of(word: &Value) -> Option<Order>
    ensures { result ≡ close_in (view word.now) }
{
    if says(word, "close") {
        Some(Order::Close)
    } else {
        None
    }
}

fn withdraw_of(version: Version, word: &Value, number: &Value) -> Option<Order>
    ensures { result ≡ withdraw_in version (view word.now) (view number.now) }
{
    if has_withdrawal(version) && says(word, "withdraw") {
        let number = number.as_u64()?;
        Some(Order::Withdraw { number })
    } else {
        None
    }
}

fn go_of(word: &Value, robot: &Value, cell: &Value) -> Option<Order>
    ensures { result ≡ go_in (view word.now) (view robot.now) (view cell.now) }
{
    if says(word, "go") {
        let robot = count_of(robot)?;
        let cell = count_of(cell)?;
        Some(Order::Go { robot, cell })
    } else {
        None
    }
}

/// The refusal that has a code. Those above 8 came with withdrawal.
fn refusal_in(version: Version, code: u64) -> Option<Verdict>
    ensures { result ≡ refusal_in version code }
{
    if has_withdrawal(version) || code < 9 {
        Verdict::of_code(code)
    } else {
        None
    }
}

fn verdict_of(version: Version, value: &Value) -> Option<Verdict>
    ensures { result ≡ verdict_in version (view value.now) }
{
    match values_of(value) {
        Some([word]) => plain_verdict(version, word),
        Some([word, number]) => numbered_verdict(version, word, number),
        _ => None,
    }
}

/// A verdict that has no number.
fn plain_verdict(version: Version, word: &Value) -> Option<Verdict>
    ensures { result ≡ verdict_from version (view word.now ∷ []) }
{
    if says(word, "closed") {
        Some(Verdict::Closed)
    } else if has_withdrawal(version) && says(word, "withdrawn") {
        Some(Verdict::Withdrawn)
    } else {
        None
    }
}

/// An acceptance with its errand's number, or a refusal with its code.
fn numbered_verdict(version: Version, word: &Value, number: &Value) -> Option<Verdict>
    ensures { result ≡ verdict_from version (view word.now ∷ view number.now ∷ []) }
{
    if says(word, "accepted") {
        Some(Verdict::Accepted(number.as_u64()?))
    } else if says(word, "refused") {
        refusal_in(version, number.as_u64()?)
    } else {
        None
    }
}

fn take_of(version: Version, client: &Value, order: &Value, answer: &Value) -> Option<Entry>
    ensures { result ≡ take_in version (view client.now) (view order.now) (view answer.now) }
{
    let client = count_of(client)?;
    let order = order_of(version, order)?;
    let verdict = verdict_of(version, answer)?;
    Some(Entry::Take {
        client,
        order,
        verdict,
    })
}

fn tick_of(
    alloc: Global,
    version: Version,
    to: &Value,
    arrived: &Value,
    farewells: &Value,
) -> Result<Entry, TraceFault>
    ensures { Gives (λ x. x) result (tick_in (view to.now) (view arrived.now) (view farewells.now)) }
{
    let to = read_row(alloc, version, to)?;
    let arrived = read_row(alloc, version, arrived)?;
    let farewells = read_row(alloc, version, farewells)?;
    Ok(Entry::Tick {
        to,
        arrived,
        farewells,
    })
}

fn shut_of(word: &Value, robot: &Value, farewell: Option<u32>) -> Option<Entry>
    ensures { result ≡ shut_in (view word.now) (view robot.now) farewell }
{
    if says(word, "shut") {
        let robot = count_of(robot)?;
        Some(Entry::Shut { robot, farewell })
    } else {
        None
    }
}

fn farewell_of(word: &Value, robot: &Value, stamp: &Value) -> Option<Entry>
    ensures { result ≡ option_and_then (λ s. shut_in (view word.now) (view robot.now) (Some s)) (count_in (view stamp.now)) }
{
    let stamp = count_of(stamp)?;
    shut_of(word, robot, Some(stamp))
}

/// A take or a tick, by its word and the three values after it.
fn event_of(
    alloc: Global,
    version: Version,
    word: &Value,
    first: &Value,
    second: &Value,
    third: &Value,
) -> Result<Entry, TraceFault>
    ensures { Gives (λ x. x) result (entry_from version (view word.now ∷ view first.now ∷ view second.now ∷ view third.now ∷ [])) }
{
    if says(word, "take") {
        found(take_of(version, first, second, third))
    } else if says(word, "tick") {
        tick_of(alloc, version, first, second, third)
    } else {
        Err(TraceFault::Shape)
    }
}

fn entry_of(alloc: Global, version: Version, values: &[Value]) -> Result<Entry, TraceFault>
    ensures { Gives (λ x. x) result (entry_from version (map view values.now)) }
{
    match values {
        [word, robot] => found(shut_of(word, robot, None)),
        [word, robot, stamp] => found(farewell_of(word, robot, stamp)),
        [word, first, second, third] => event_of(alloc, version, word, first, second, third),
        _ => Err(TraceFault::Shape),
    }
}

impl ReadValue for Entry {
    ghost told = { entry_in };

    fn read_value(alloc: Global, version: Version, value: &Value) -> Result<Self, TraceFault> {
        match values_of(value) {
            Some(values) => entry_of(alloc, version, values),
            None => Err(TraceFault::Shape),
        }
    }
}
