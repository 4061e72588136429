//! What a record lists, as JSON values.

ghost use Rattle.std.specs.Prelude.{◌≡◌, [], ◌∷◌, IfOk, Option};
ghost use Rattle.serde_json.specs.Data.{Data};
ghost use Rattle.serde_json.specs.View.{view};
ghost use Rattle.fleet_trace.specs.Text.{counted, law_data, listed, word};
ghost use Rattle.fleet_site.specs.Text.{change_data, dropped_data, standing_data};
ghost use Rattle.fleet_site.specs.Told.{cancel_in, change_from, change_in, dropped_from, dropped_in, join_in, move_in, single_in, standing_in};

use crate::parts::{array_of, count_of, law_of, says, values_of, word};
use fleet_hooks::StampLaw;
use fleet_refit::{Change, Dropped, Standing};
use serde_json::Value;
use std::alloc::{AllocError, Global};

/// An item of a list.
pub(crate) trait Item: Drop {
    ghost written: { Self → Data };

    ghost told: { Data → Option Self };

    fn write(&self, alloc: Global) -> Result<Value, AllocError>
        ensures { IfOk result (λ v. view v ≡ written self.now) };

    fn read(value: &Value) -> Option<Self>
        ensures { result ≡ told (view value.now) };
}

/// A word and a number.
fn numbered(alloc: Global, letters: &str, number: u32) -> Result<Value, AllocError>
    ensures { IfOk result (λ v. view v ≡ listed (word letters.now ∷ counted number ∷ [])) }
{
    array_of(alloc, [word(alloc, letters)?, Value::from(number)])
}

fn law_value(alloc: Global, law: StampLaw) -> Result<Value, AllocError>
    ensures { IfOk result (λ v. view v ≡ law_data law) }
{
    array_of(alloc, [Value::from(law.low), Value::from(law.high)])
}

fn join_value(
    alloc: Global,
    cell: u32,
    arrivals: StampLaw,
    farewells: StampLaw,
) -> Result<Value, AllocError>
    ensures { IfOk result (λ v. view v ≡ change_data (Change.Join cell arrivals farewells)) }
{
    let name = word(alloc, "join")?;
    let arrivals = law_value(alloc, arrivals)?;
    let farewells = law_value(alloc, farewells)?;
    array_of(alloc, [name, Value::from(cell), arrivals, farewells])
}

fn move_value(alloc: Global, robot: u32, cell: u32) -> Result<Value, AllocError>
    ensures { IfOk result (λ v. view v ≡ change_data (Change.Move robot cell)) }
{
    let name = word(alloc, "move")?;
    array_of(alloc, [name, Value::from(robot), Value::from(cell)])
}

fn cancel_value(alloc: Global, client: u32, number: u64) -> Result<Value, AllocError>
    ensures { IfOk result (λ v. view v ≡ change_data (Change.Cancel client number)) }
{
    let name = word(alloc, "cancel")?;
    array_of(alloc, [name, Value::from(client), Value::from(number)])
}

/// A change of a word and a number.
fn single_of(name: &Value, number: &Value) -> Option<Change>
    ensures { result ≡ single_in (view name.now) (view number.now) }
{
    let number = count_of(number)?;
    if says(name, "block") {
        Some(Change::Block { cell: number })
    } else if says(name, "open") {
        Some(Change::Open { cell: number })
    } else if says(name, "leave") {
        Some(Change::Leave { robot: number })
    } else if says(name, "hold") {
        Some(Change::Hold { robot: number })
    } else if says(name, "free") {
        Some(Change::Free { robot: number })
    } else {
        None
    }
}

fn move_of(robot: u32, cell: &Value) -> Option<Change>
    ensures { result ≡ move_in robot (view cell.now) }
{
    let cell = count_of(cell)?;
    Some(Change::Move { robot, cell })
}

fn cancel_of(client: u32, number: &Value) -> Option<Change>
    ensures { result ≡ cancel_in client (view number.now) }
{
    let number = number.as_u64()?;
    Some(Change::Cancel { client, number })
}

/// A change of a word and two numbers.
fn pair_of(name: &Value, first: &Value, second: &Value) -> Option<Change>
    ensures { result ≡ change_from (view name.now ∷ view first.now ∷ view second.now ∷ []) }
{
    let first = count_of(first)?;
    if says(name, "move") {
        move_of(first, second)
    } else if says(name, "cancel") {
        cancel_of(first, second)
    } else {
        None
    }
}

fn join_of(name: &Value, cell: &Value, arrivals: &Value, farewells: &Value) -> Option<Change>
    ensures { result ≡ join_in (view name.now) (view cell.now) (view arrivals.now) (view farewells.now) }
{
    if says(name, "join") {
        let cell = count_of(cell)?;
        let arrival_law = law_of(arrivals)?;
        let farewell_law = law_of(farewells)?;
        Some(Change::Join {
            cell,
            arrival_law,
            farewell_law,
        })
    } else {
        None
    }
}

impl Item for Change {
    ghost written = { change_data };

    ghost told = { change_in };

    fn write(&self, alloc: Global) -> Result<Value, AllocError> {
        match *self {
            Change::Block { cell } => numbered(alloc, "block", cell),
            Change::Open { cell } => numbered(alloc, "open", cell),
            Change::Join {
                cell,
                arrival_law,
                farewell_law,
            } => join_value(alloc, cell, arrival_law, farewell_law),
            Change::Leave { robot } => numbered(alloc, "leave", robot),
            Change::Hold { robot } => numbered(alloc, "hold", robot),
            Change::Free { robot } => numbered(alloc, "free", robot),
            Change::Move { robot, cell } => move_value(alloc, robot, cell),
            Change::Cancel { client, number } => cancel_value(alloc, client, number),
        }
    }

    fn read(value: &Value) -> Option<Change> {
        match values_of(value) {
            Some([name, number]) => single_of(name, number),
            Some([name, first, second]) => pair_of(name, first, second),
            Some([name, cell, arrivals, farewells]) => join_of(name, cell, arrivals, farewells),
            _ => None,
        }
    }
}

fn dropped_from(robot: &Value, client: &Value, number: &Value, cell: &Value) -> Option<Dropped>
    ensures { result ≡ dropped_from (view robot.now ∷ view client.now ∷ view number.now ∷ view cell.now ∷ []) }
{
    let robot = count_of(robot)?;
    let client = count_of(client)?;
    let number = number.as_u64()?;
    let cell = count_of(cell)?;
    Some(Dropped {
        robot,
        client,
        number,
        cell,
    })
}

impl Item for Dropped {
    ghost written = { dropped_data };

    ghost told = { dropped_in };

    fn write(&self, alloc: Global) -> Result<Value, AllocError> {
        array_of(
            alloc,
            [
                Value::from(self.robot),
                Value::from(self.client),
                Value::from(self.number),
                Value::from(self.cell),
            ],
        )
    }

    fn read(value: &Value) -> Option<Dropped> {
        match values_of(value) {
            Some([robot, client, number, cell]) => dropped_from(robot, client, number, cell),
            _ => None,
        }
    }
}

impl Item for Standing {
    ghost written = { standing_data };

    ghost told = { standing_in };

    fn write(&self, alloc: Global) -> Result<Value, AllocError> {
        match *self {
            Standing::Moving => word(alloc, "moving"),
            Standing::Held => word(alloc, "held"),
            Standing::Gone => word(alloc, "gone"),
        }
    }

    fn read(value: &Value) -> Option<Standing> {
        if says(value, "moving") {
            Some(Standing::Moving)
        } else if says(value, "held") {
            Some(Standing::Held)
        } else if says(value, "gone") {
            Some(Standing::Gone)
        } else {
            None
        }
    }
}
