//! What a trace shows, as JSON values.

ghost use Rattle.std.specs.Prelude.{◌≡◌, ℕ, IfOk, OnOk, map};
ghost use Rattle.std.specs.List.{AllByRecursion};
ghost use Rattle.serde_json.specs.Data.{Data};
ghost use Rattle.serde_json.specs.View.{view};
ghost use Rattle.fleet_trace.specs.Text.{counted, listed, word, client_data, errand_data, law_data, wait_data, robot_data, arrival_data, bye_data};
ghost use Rattle.fleet_trace.specs.Fits.{Fits32, ClientFits, ErrandFits, LawFits, WaitFits, RobotFits, ArrivalFits, ByeFits};

use fleet_history::{Arrival, Bye, ClientState, RobotState};
use fleet_hooks::StampLaw;
use fleet_queue::Errand;
use serde_json::Value;
use std::alloc::{AllocError, Allocator, Global};

/// What a trace shows as a JSON value.
pub(crate) trait WriteValue {
    ghost written: { Self → Data };

    ghost fits: { Self → Type 0 };

    fn write_value(&self, alloc: Global) -> Result<Value, AllocError>
        ensures value { IfOk result (λ v. view v ≡ written self.now) }
        ensures fits { OnOk result (fits self.now) };
}

/// The array of the items' values.
pub(crate) fn write_list<T: WriteValue>(alloc: Global, items: &[T]) -> Result<Value, AllocError>
    ensures value { IfOk result (λ v. view v ≡ listed (map T.written items.now)) }
    ensures fits { OnOk result (AllByRecursion T.fits items.now) }
{
    let mut values = Vec::with_capacity(alloc, items.len())?;
    for item in items {
        values.push_reserved(item.write_value(alloc)?);
    }
    Ok(array(values))
}

/// The array of a list of values.
fn array(values: Vec<Value>) -> Value
    ensures { view result ≡ listed (map view values.items) }
{
    Value::Array(values)
}

/// The array of the values.
pub(crate) fn array_of<const N: usize>(
    alloc: Global,
    values: [Value; N],
) -> Result<Value, AllocError>
    ensures { IfOk result (λ v. view v ≡ listed (map view values.entry)) }
{
    Ok(array(Vec::from_array(alloc, values)?))
}

/// The word as a value.
pub(crate) fn word(alloc: Global, letters: &str) -> Result<Value, AllocError>
    ensures { IfOk result (λ v. view v ≡ word letters.now) }
{
    Ok(Value::String(String::from_str(alloc, letters)?))
}

impl WriteValue for u32 {
    ghost written = { counted };

    ghost fits = { Fits32 };

    fn write_value(&self, _alloc: Global) -> Result<Value, AllocError> {
        Ok(Value::from(*self))
    }
}

impl WriteValue for ClientState {
    ghost written = { client_data };

    ghost fits = { ClientFits };

    fn write_value(&self, alloc: Global) -> Result<Value, AllocError> {
        array_of(
            alloc,
            [
                Value::from(self.taken),
                Value::from(self.accepted),
                Value::from(self.noticed),
                Value::from(self.closed),
            ],
        )
    }
}

impl WriteValue for Errand {
    ghost written = { errand_data };

    ghost fits = { ErrandFits };

    fn write_value(&self, alloc: Global) -> Result<Value, AllocError> {
        array_of(
            alloc,
            [
                Value::from(self.client),
                Value::from(self.number),
                Value::from(self.cell),
            ],
        )
    }
}

impl WriteValue for StampLaw {
    ghost written = { law_data };

    ghost fits = { LawFits };

    fn write_value(&self, alloc: Global) -> Result<Value, AllocError> {
        array_of(alloc, [Value::from(self.low), Value::from(self.high)])
    }
}

impl WriteValue for Arrival {
    ghost written = { arrival_data };

    ghost fits = { ArrivalFits };

    fn write_value(&self, alloc: Global) -> Result<Value, AllocError> {
        array_of(
            alloc,
            [
                Value::from(self.robot),
                Value::from(self.client),
                Value::from(self.number),
                Value::from(self.stamp),
            ],
        )
    }
}

impl WriteValue for Bye {
    ghost written = { bye_data };

    ghost fits = { ByeFits };

    fn write_value(&self, alloc: Global) -> Result<Value, AllocError> {
        array_of(alloc, [Value::from(self.robot), Value::from(self.stamp)])
    }
}

fn wait_value(wait: Option<u64>) -> Value
    ensures value { view result ≡ wait_data wait }
    ensures fits { WaitFits wait }
{
    match wait {
        None => Value::Null,
        Some(wait) => Value::from(wait),
    }
}

impl<A: Allocator + Copy> WriteValue for RobotState<A> {
    ghost written = { robot_data };

    ghost fits = { RobotFits };

    fn write_value(&self, alloc: Global) -> Result<Value, AllocError> {
        let errands = write_list(alloc, self.errands.as_slice())?;
        let arrival_law = self.arrival_law.write_value(alloc)?;
        let farewell_law = self.farewell_law.write_value(alloc)?;
        array_of(
            alloc,
            [
                Value::from(self.cell),
                Value::from(self.shut),
                wait_value(self.wait),
                errands,
                arrival_law,
                farewell_law,
            ],
        )
    }
}
