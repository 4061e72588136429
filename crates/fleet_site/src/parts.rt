//! Parts of JSON values.

ghost use Rattle.std.specs.Prelude.{◌≡◌, [], ◌∷◌, IfOk, map, option_map};
ghost use Rattle.serde_json.specs.View.{view};
ghost use Rattle.fleet_trace.specs.Text.{listed, word};
ghost use Rattle.fleet_trace.specs.Told.{all_in, count_in, has_members, is_word, items_in, law_from, law_in, list_in};
ghost use Rattle.fleet_site.specs.Told.{Gives};

use crate::items::Item;
use crate::read::SiteFault;
use fleet_hooks::StampLaw;
use serde_json::Value;
use std::alloc::{AllocError, Global};

/// The items of an array.
pub(crate) fn values_of(value: &Value) -> Option<&[Value]>
    ensures { option_map (λ vs. map view vs.now) result ≡ items_in (view value.now) }
{
    match value.as_array() {
        None => None,
        Some(values) => Some(values.as_slice()),
    }
}

/// A number below 2^32.
pub(crate) fn count_of(value: &Value) -> Option<u32>
    ensures { result ≡ count_in (view value.now) }
{
    let number = value.as_u64()?;
    if number < 1 << 32 {
        Some(number as u32)
    } else {
        None
    }
}

/// Whether the value is the word.
pub(crate) fn says(value: &Value, word: &str) -> bool
    ensures { result ≡ is_word word.now (view value.now) }
{
    match value.as_str() {
        None => false,
        Some(text) => text == word,
    }
}

/// Whether the value is an object of this many members.
pub(crate) fn has_members(value: &Value, count: usize) -> bool
    ensures { result ≡ has_members count (view value.now) }
{
    match value.as_object() {
        Some(members) => members.len() == count,
        None => false,
    }
}

/// The law of stamps that a value tells.
pub(crate) fn law_of(value: &Value) -> Option<StampLaw>
    ensures { result ≡ law_in (view value.now) }
{
    match values_of(value) {
        Some([low, high]) => law_from(low, high),
        _ => None,
    }
}

fn law_from(low: &Value, high: &Value) -> Option<StampLaw>
    ensures { result ≡ law_from (view low.now ∷ view high.now ∷ []) }
{
    let low = count_of(low)?;
    let high = count_of(high)?;
    Some(StampLaw { low, high })
}

/// What is told, or that the value has another form.
fn found<T: Drop>(told: Option<T>) -> Result<T, SiteFault>
    ensures { Gives (λ x. x) result told }
{
    told.ok_or(SiteFault::Shape)
}

/// What the values tell, one after the other.
fn read_all<T: Item>(alloc: Global, values: &[Value]) -> Result<Vec<T>, SiteFault>
    ensures { Gives (λ xs. xs.items) result (all_in T.told (map view values.now)) }
{
    let mut items = Vec::with_capacity(alloc, values.len())?;
    for value in values {
        items.push_reserved(found(T::read(value))?);
    }
    Ok(items)
}

/// What the items of an array tell.
pub(crate) fn read_list<T: Item>(alloc: Global, value: &Value) -> Result<Vec<T>, SiteFault>
    ensures { Gives (λ xs. xs.items) result (list_in T.told (view value.now)) }
{
    let Some(values) = values_of(value) else {
        return Err(SiteFault::Shape);
    };
    read_all(alloc, values)
}

/// The array of a list of values.
fn array(values: Vec<Value>) -> Value
    ensures { view result ≡ listed (map view values.items) }
{
    Value::Array(values)
}

/// The array of the values.
pub(crate) fn array_of<const N: usize>(
    alloc: Global,
    values: [Value; N],
) -> Result<Value, AllocError>
    ensures { IfOk result (λ v. view v ≡ listed (map view values.entry)) }
{
    Ok(array(Vec::from_array(alloc, values)?))
}

/// The word as a value.
pub(crate) fn word(alloc: Global, letters: &str) -> Result<Value, AllocError>
    ensures { IfOk result (λ v. view v ≡ word letters.now) }
{
    Ok(Value::String(String::from_str(alloc, letters)?))
}

/// The array of the items' values.
pub(crate) fn write_list<T: Item>(alloc: Global, items: &[T]) -> Result<Value, AllocError>
    ensures { IfOk result (λ v. view v ≡ listed (map T.written items.now)) }
{
    let mut values = Vec::with_capacity(alloc, items.len())?;
    for item in items {
        values.push_reserved(item.write(alloc)?);
    }
    Ok(array(values))
}
