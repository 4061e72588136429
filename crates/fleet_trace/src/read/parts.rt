//! The smaller parts of a trace from JSON values.

ghost use Rattle.std.specs.Prelude.{◌≡◌, Option, Some, List, [], ◌∷◌, map, option_map};
ghost use Rattle.serde_json.specs.Data.{Data};
ghost use Rattle.serde_json.specs.View.{view};
ghost use Rattle.fleet_trace.specs.declared.version.Version.{Version};
ghost use Rattle.fleet_trace.specs.Reads.{Gives};
ghost use Rattle.fleet_trace.specs.Told.{items_in, all_in, list_in, count_in, is_word, has_members, client_from, client_in, errand_from, errand_in, law_from, law_in, wait_in, arrival_from, arrival_in, bye_from, bye_in};

use crate::fault::TraceFault;
use crate::version::Version;
use fleet_history::{Arrival, Bye, ClientState, Row};
use fleet_hooks::StampLaw;
use fleet_queue::Errand;
use serde_json::Value;
use std::alloc::Global;

/// What a JSON value in a trace tells.
pub(crate) trait ReadValue: Drop {
    ghost told: { Version → Data → Option Self };

    fn read_value(alloc: Global, version: Version, value: &Value) -> Result<Self, TraceFault>
        ensures { Gives (λ x. x) result (told version (view value.now)) };
}

/// The items of an array.
pub(crate) fn values_of(value: &Value) -> Option<&[Value]>
    ensures { option_map (λ vs. map view vs.now) result ≡ items_in (view value.now) }
{
    match value.as_array() {
        None => None,
        Some(values) => Some(values.as_slice()),
    }
}

/// A number below 2^32.
pub(crate) fn count_of(value: &Value) -> Option<u32>
    ensures { result ≡ count_in (view value.now) }
{
    let number = value.as_u64()?;
    if number < 1 << 32 {
        Some(number as u32)
    } else {
        None
    }
}

/// Whether the value is the word.
pub(crate) fn says(value: &Value, word: &str) -> bool
    ensures { result ≡ is_word word.now (view value.now) }
{
    match value.as_str() {
        None => false,
        Some(text) => text == word,
    }
}

/// Whether the value is an object of this many members.
pub(crate) fn has_members(value: &Value, count: usize) -> bool
    ensures { result ≡ has_members count (view value.now) }
{
    match value.as_object() {
        Some(members) => members.len() == count,
        None => false,
    }
}

/// What the values tell, one after the other.
pub(crate) fn read_all<T: ReadValue>(
    alloc: Global,
    version: Version,
    values: &[Value],
) -> Result<Vec<T>, TraceFault>
    ensures { Gives (λ xs. xs.items) result (all_in (T.told version) (map view values.now)) }
{
    let mut items = Vec::with_capacity(alloc, values.len())?;
    for value in values {
        items.push_reserved(T::read_value(alloc, version, value)?);
    }
    Ok(items)
}

/// What the items of an array tell, as a row.
pub(crate) fn read_row<T: ReadValue>(
    alloc: Global,
    version: Version,
    value: &Value,
) -> Result<Row<T>, TraceFault>
    ensures { Gives (λ xs. xs) result (list_in (T.told version) (view value.now)) }
{
    let Some(values) = values_of(value) else {
        return Err(TraceFault::Shape);
    };
    Ok(Row::from_vec(read_all(alloc, version, values)?))
}

/// What is told, or that the value has another form.
pub(crate) fn found<T: Drop>(told: Option<T>) -> Result<T, TraceFault>
    ensures { Gives (λ x. x) result told }
{
    told.ok_or(TraceFault::Shape)
}

impl ReadValue for u32 {
    ghost told = { λ _ d. count_in d };

    fn read_value(_alloc: Global, _version: Version, value: &Value) -> Result<u32, TraceFault> {
        found(count_of(value))
    }
}

fn client_of(value: &Value) -> Option<ClientState>
    ensures { result ≡ client_in (view value.now) }
{
    match values_of(value) {
        Some([taken, accepted, noticed, closed]) => client_from(taken, accepted, noticed, closed),
        _ => None,
    }
}

fn client_from(
    taken: &Value,
    accepted: &Value,
    noticed: &Value,
    closed: &Value,
) -> Option<ClientState>
    ensures { result ≡ client_from (view taken.now ∷ view accepted.now ∷ view noticed.now ∷ view closed.now ∷ []) }
{
    let taken = taken.as_u64()?;
    let accepted = accepted.as_u64()?;
    let noticed = noticed.as_u64()?;
    let closed = closed.as_bool()?;
    Some(ClientState {
        taken,
        accepted,
        noticed,
        closed,
    })
}

impl ReadValue for ClientState {
    ghost told = { λ _ d. client_in d };

    fn read_value(_alloc: Global, _version: Version, value: &Value) -> Result<Self, TraceFault> {
        found(client_of(value))
    }
}

fn errand_of(value: &Value) -> Option<Errand>
    ensures { result ≡ errand_in (view value.now) }
{
    match values_of(value) {
        Some([client, number, cell]) => errand_from(client, number, cell),
        _ => None,
    }
}

fn errand_from(client: &Value, number: &Value, cell: &Value) -> Option<Errand>
    ensures { result ≡ errand_from (view client.now ∷ view number.now ∷ view cell.now ∷ []) }
{
    let client = count_of(client)?;
    let number = number.as_u64()?;
    let cell = count_of(cell)?;
    Some(Errand {
        client,
        number,
        cell,
    })
}

impl ReadValue for Errand {
    ghost told = { λ _ d. errand_in d };

    fn read_value(_alloc: Global, _version: Version, value: &Value) -> Result<Self, TraceFault> {
        found(errand_of(value))
    }
}

/// The law of stamps that a value tells.
pub(crate) fn law_of(value: &Value) -> Option<StampLaw>
    ensures { result ≡ law_in (view value.now) }
{
    match values_of(value) {
        Some([low, high]) => law_from(low, high),
        _ => None,
    }
}

fn law_from(low: &Value, high: &Value) -> Option<StampLaw>
    ensures { result ≡ law_from (view low.now ∷ view high.now ∷ []) }
{
    let low = count_of(low)?;
    let high = count_of(high)?;
    Some(StampLaw { low, high })
}

/// The wait that a value tells: none at `null`.
pub(crate) fn wait_of(value: &Value) -> Option<Option<u64>>
    ensures { result ≡ wait_in (view value.now) }
{
    match value {
        Value::Null => Some(None),
        Value::Number(number) => Some(Some(number.as_u64()?)),
        _ => None,
    }
}

fn arrival_of(value: &Value) -> Option<Arrival>
    ensures { result ≡ arrival_in (view value.now) }
{
    match values_of(value) {
        Some([robot, client, number, stamp]) => arrival_from(robot, client, number, stamp),
        _ => None,
    }
}

fn arrival_from(robot: &Value, client: &Value, number: &Value, stamp: &Value) -> Option<Arrival>
    ensures { result ≡ arrival_from (view robot.now ∷ view client.now ∷ view number.now ∷ view stamp.now ∷ []) }
{
    let robot = count_of(robot)?;
    let client = count_of(client)?;
    let number = number.as_u64()?;
    let stamp = count_of(stamp)?;
    Some(Arrival {
        robot,
        client,
        number,
        stamp,
    })
}

impl ReadValue for Arrival {
    ghost told = { λ _ d. arrival_in d };

    fn read_value(_alloc: Global, _version: Version, value: &Value) -> Result<Self, TraceFault> {
        found(arrival_of(value))
    }
}

fn bye_of(value: &Value) -> Option<Bye>
    ensures { result ≡ bye_in (view value.now) }
{
    match values_of(value) {
        Some([robot, stamp]) => bye_from(robot, stamp),
        _ => None,
    }
}

fn bye_from(robot: &Value, stamp: &Value) -> Option<Bye>
    ensures { result ≡ bye_from (view robot.now ∷ view stamp.now ∷ []) }
{
    let robot = count_of(robot)?;
    let stamp = count_of(stamp)?;
    Some(Bye { robot, stamp })
}

impl ReadValue for Bye {
    ghost told = { λ _ d. bye_in d };

    fn read_value(_alloc: Global, _version: Version, value: &Value) -> Result<Self, TraceFault> {
        found(bye_of(value))
    }
}
